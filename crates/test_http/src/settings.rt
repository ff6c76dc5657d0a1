//! The values of a configuration of `serve`, which `serve --check` does not tell: those that it says, and the usual ones of what it
//! leaves out. Which configurations are accepted, and what is told of all others, is in cases/configurations.

use crate::rows::{NO_MEMORY, all_true};
use http_traffic::PassedMethod;
use serve_config::{Freshness, Large, LogLevel, RefreshRule, Settings, SharedField, UrlPart};
use std::alloc::Global;
use std::process::Abort;

const GOOD: &str =
    r#"{"address": "127.0.0.1", "icp_port": 3130, "htcp_port": 4827, "http_port": 3128, "admin_port": 3129, "name": "a", "allowed": ["10.0.0.0/8"], "miss_nofetch": false, "origin": true, "entries": 1000, "octets": 1048576, "body_limit": 65536, "volume": 1024, "stop_after": 2, "keys": [{"name": "k", "secret": "0aFF"}], "neighbours": [{"kind": "parent", "protocol": "htcp", "address": "10.0.0.2", "query_port": 4827, "http_port": 3128, "weight": 7, "key": "k"}]}"#;

fn settings_of<R: Abort>(rt: &R, alloc: Global, text: &str) -> Settings {
    Settings::read(alloc, text.as_bytes()).expect(rt, "no settings")
}

fn is_the_good_one(settings: &Settings) -> bool {
    settings.address == [127, 0, 0, 1]
        && settings.node.htcp.port == 4827
        && settings.stop_after == 2
        && settings.node.allowed.len() == 1
        && settings.node.neighbours.len() == 1
}

fn has_none(settings: &Settings) -> bool {
    settings.fetch_octets.is_none()
        && settings.address_connections.is_none()
        && settings.client_threads.is_none()
        && settings.lookup_threads.is_none()
        && settings.deny_origins.is_none()
        && settings.origin_ports.is_none()
        && settings.origins6.is_none()
        && settings.six_clients.is_none()
        && settings.admin_token.is_none()
        && settings.shelf_octets.is_none()
        && settings.fetch_idle.is_none()
        && settings.quick_abort_octets.is_none()
}

fn has_usual_words(settings: &Settings) -> bool {
    settings.log_level == LogLevel::Quiet
        && settings.freshness == Freshness::Published
        && settings.large == Large::Refuse
        && settings.refresh.is_empty()
        && settings.methods.is_empty()
        && settings.connect_ports.is_empty()
        && settings.shared_fields.is_empty()
}

fn has_usual_numbers(settings: &Settings) -> bool {
    settings.serve_stale == 0
        && settings.streams == 256
        && settings.tunnels == 1024
        && settings.fetch_seconds == 30
        && settings.fetch_speed == 0
        && settings.keep_alive == 0
}

#[test]
fn a_good_one_and_what_it_leaves_out(rt: HostRuntime) {
    let settings = settings_of(&rt, rt.alloc(), GOOD);
    let found = [
        is_the_good_one(&settings),
        has_none(&settings),
        has_usual_words(&settings),
        has_usual_numbers(&settings),
    ];
    drop(settings);
    all_true(&rt, &found);
}

// The good configuration with these keys.
fn settings_with<R: Abort>(rt: &R, alloc: Global, keys: &str) -> Settings {
    let text = GOOD
        .replace(alloc, r#""volume""#, keys)
        .expect(rt, NO_MEMORY);
    let settings = settings_of(rt, alloc, text.as_str());
    drop(text);
    settings
}

fn has_words(settings: &Settings) -> bool {
    settings.log_level == LogLevel::Info
        && settings.freshness == Freshness::Rfc9111
        && settings.serve_stale == 3600
}

fn is_for_packages(rule: &RefreshRule) -> bool {
    matches!(&rule.place, UrlPart::Suffix(text) if text.as_str() == ".deb")
        && rule.seconds == 2_592_000
        && !rule.overrides
}

fn is_for_site(rule: &RefreshRule) -> bool {
    matches!(&rule.place, UrlPart::Prefix(text) if text.as_str() == "http://deb.example/")
        && rule.seconds == 0
        && rule.overrides
}

fn has_rules(rules: &[RefreshRule]) -> bool {
    rules.len() == 2 && is_for_packages(&rules[0]) && is_for_site(&rules[1])
}

#[test]
fn rules_in_their_order(rt: HostRuntime) {
    let keys =
        r#""log_level": "info", "freshness": "rfc9111", "serve_stale": 3600, "refresh": [{"suffix": ".deb", "seconds": 2592000}, {"prefix": "http://deb.example/", "seconds": 0, "override": true}], "volume""#;
    let settings = settings_with(&rt, rt.alloc(), keys);
    let found = [has_words(&settings), has_rules(settings.refresh.as_slice())];
    drop(settings);
    all_true(&rt, &found);
}

fn has_lists(settings: &Settings) -> bool {
    settings.methods.as_slice() == [PassedMethod::Post, PassedMethod::Head].as_slice()
        && settings.connect_ports.as_slice() == [443, 8443].as_slice()
}

fn has_numbers(settings: &Settings) -> bool {
    settings.large == Large::Stream
        && settings.streams == 2
        && settings.tunnels == 3
        && settings.fetch_seconds == 4
        && settings.fetch_idle == Some(5)
        && settings.fetch_speed == 7
        && settings.quick_abort_octets == Some(7)
        && settings.keep_alive == 6
}

fn is_field(field: &SharedField, name: &str, value: &str) -> bool {
    field.name.as_str() == name && field.value.as_str() == value
}

fn has_fields(fields: &[SharedField]) -> bool {
    fields.len() == 2
        && is_field(&fields[0], "accept", "*/*")
        && is_field(&fields[1], "user-agent", "Wabretos 1")
}

#[test]
fn what_is_said(rt: HostRuntime) {
    let keys =
        r#""methods": ["POST", "HEAD"], "connect_ports": [443, 8443], "large": "stream", "streams": 2, "tunnels": 3, "fetch_seconds": 4, "fetch_idle": 5, "fetch_speed": 7, "quick_abort_octets": 7, "keep_alive": 6, "shared_fields": {"user-agent": "Wabretos 1", "accept": "*/*"}, "volume""#;
    let settings = settings_with(&rt, rt.alloc(), keys);
    let found = [
        has_lists(&settings),
        has_numbers(&settings),
        has_fields(settings.shared_fields.as_slice()),
    ];
    drop(settings);
    all_true(&rt, &found);
}
