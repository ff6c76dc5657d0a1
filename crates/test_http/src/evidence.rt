//! Where a key leads to, and which responses may be stored: what the program goes by before it connects and stores.

use crate::rows::{NO_MEMORY, OfHead, Question, all_hold, heads_hold};
use http_header::HeaderMap;
use http_rules::{Storable, destination_of};
use node_terms::Mode;
use object_store::CacheKey;
use std::alloc::Global;
use std::process::Abort;

// The fields of a response that comes at once, and for how long it may be stored by either set of rules.
const STORABLE: [(&str, Option<u32>); 5] = [
    ("Cache-Control: max-age=60\nContent-Length: 5", Some(60)),
    (
        "Cache-Control: max-age=60\nTransfer-Encoding: chunked",
        Some(60),
    ),
    // Its body ends with its connection.
    ("Cache-Control: max-age=60", None),
    (
        "Cache-Control: private, max-age=60\nContent-Length: 5",
        None,
    ),
    ("Content-Length: 5", None),
];

// For how long a response may be stored, if there is something to show for that.
fn life_by(storable: Option<Storable<'_>>) -> Option<u32> {
    match storable {
        Some(storable) => Some(storable.life()),
        None => None,
    }
}

struct MayBeStored;

impl OfHead<Option<u32>> for MayBeStored {
    fn is_answer(&self, _alloc: Global, head: &HeaderMap, answer: &Option<u32>) -> bool {
        let published = Storable::by_published_rules(Mode::Shared, 200, head);
        let kept = Storable::by_rfc9111_rules(Mode::Shared, b"http://a/", 200, head, 0, 0, &[]);
        life_by(published) == *answer && life_by(kept) == *answer
    }
}

#[test]
fn what_may_be_stored(rt: HostRuntime) {
    heads_hold(&rt, rt.alloc(), &STORABLE, &MayBeStored);
}

// A key, and the name, port, value of Host and target that it leads to.
type Led = (&'static str, &'static str, u16, &'static str, &'static str);

const DESTINATIONS: [Led; 12] = [
    ("http://a/", "a", 80, "a", "/"),
    (
        "http://a.example/b/c?d=/e:1",
        "a.example",
        80,
        "a.example",
        "/b/c?d=/e:1",
    ),
    ("http://a:8080/b", "a", 8080, "a:8080", "/b"),
    ("http://a:65535/", "a", 65535, "a:65535", "/"),
    ("http://a", "a", 80, "a", "/"),
    ("http://a:81", "a", 81, "a:81", "/"),
    (
        "http://192.0.2.1:81/x",
        "192.0.2.1",
        81,
        "192.0.2.1:81",
        "/x",
    ),
    ("http://[::1]/", "[::1]", 80, "[::1]", "/"),
    (
        "http://[2001:db8::7]:8080/x",
        "[2001:db8::7]",
        8080,
        "[2001:db8::7]:8080",
        "/x",
    ),
    ("http://a/@b:1/", "a", 80, "a", "/@b:1/"),
    ("http://a/http://b:1/c", "a", 80, "a", "/http://b:1/c"),
    ("http://a/[::1]:9", "a", 80, "a", "/[::1]:9"),
];

#[derive(Clone, Copy)]
struct LeadsTo;

fn is_led(key: &CacheKey, row: &Led) -> bool {
    match destination_of(key) {
        Some(end) => {
            end.name == row.1.as_bytes()
                && end.port == row.2
                && end.host == row.3.as_bytes()
                && end.target == row.4.as_bytes()
        }
        None => false,
    }
}

impl Question<Led> for LeadsTo {
    fn holds<R: Abort>(&self, rt: &R, alloc: Global, row: &Led) -> bool {
        let octets = row.0.as_bytes().to_vec(alloc).expect(rt, NO_MEMORY);
        match CacheKey::new(alloc, octets) {
            Ok(key) => {
                let is_led = is_led(&key, row);
                drop(key);
                is_led
            }
            Err(refused) => {
                drop(refused);
                false
            }
        }
    }
}

#[test]
fn destinations_of_keys(rt: HostRuntime) {
    all_hold(&rt, rt.alloc(), &DESTINATIONS, &LeadsTo);
}

// Keys whose port is no number of 16 bits, so that they lead nowhere.
const NOWHERE: [(&str, bool); 4] = [
    ("http://a:65536/", true),
    ("http://a:/", true),
    ("http://a:b/", true),
    ("http://[::1]80/", true),
];

#[derive(Clone, Copy)]
struct LeadsNowhere;

impl Question<(&'static str, bool)> for LeadsNowhere {
    fn holds<R: Abort>(&self, rt: &R, alloc: Global, row: &(&'static str, bool)) -> bool {
        let octets = row.0.as_bytes().to_vec(alloc).expect(rt, NO_MEMORY);
        match CacheKey::new(alloc, octets) {
            Ok(key) => {
                let is_nowhere = destination_of(&key).is_none();
                drop(key);
                is_nowhere == row.1
            }
            Err(refused) => {
                drop(refused);
                false
            }
        }
    }
}

#[test]
fn keys_that_lead_nowhere(rt: HostRuntime) {
    all_hold(&rt, rt.alloc(), &NOWHERE, &LeadsNowhere);
}
