//! The command `serve --check`: reads a configuration, tells what is wrong or odd in it, and binds no socket.

use crate::NO_OUTPUT;
use crate::equipment::filters_of;
use crate::settings::settings_in;
use crate::warnings::warn;
use node_terms::Network;
use serve_config::{Settings, SixNetwork};
use std::fs;
use std::net::{Ipv4Addr, Ipv6Addr};
use std::process::ExitCode;

/// Prints `ok` on standard output if the proxy would accept a configuration file, and the line of the fault on standard error if
/// not. Networks with bits beyond their prefix are told on standard error, and accepted, as is what a start warns of.
pub fn check_configuration(rt: &HostRuntime, file: &str) -> ExitCode {
    let text = match fs::read(rt, file) {
        Ok(text) => text,
        Err(fault) => {
            let _ = eprintln!(rt; "file fault\n{file}: {fault}");
            return ExitCode::FAILURE;
        }
    };
    let Some(settings) = settings_in(rt, text.as_slice()) else {
        return ExitCode::FAILURE;
    };
    let status = check_settings(rt, &settings);
    drop(settings);
    status
}

/// Does so for settings that could be read.
fn check_settings(rt: &HostRuntime, settings: &Settings) -> ExitCode {
    warn_of(rt, "allowed", settings.node.allowed.as_slice());
    warn_of_six_clients(rt, settings);
    warn_of_denied(rt, settings);
    warn(rt, settings);
    if filters_of(rt, settings).is_none() {
        return ExitCode::FAILURE;
    }
    if println!(rt; "ok").is_err() {
        let _ = eprintln!(rt; "{NO_OUTPUT}");
        return ExitCode::FAILURE;
    }
    ExitCode::SUCCESS
}

/// Prints a warning for each network in the list of this key that has bits beyond its prefix.
fn warn_of(rt: &HostRuntime, key: &str, networks: &[Network]) {
    for i in 0..networks.len() {
        let Network { addr, prefix } = networks[i];
        if has_bits_beyond(addr, prefix) {
            let address = Ipv4Addr::from_octets(addr);
            let _ = eprintln!(rt;
                "warning: {key}[{i}]: {address}/{prefix} has bits beyond its prefix"
            );
        }
    }
}

/// The same for the networks of clients of IPv6.
fn warn_of_six_clients(rt: &HostRuntime, settings: &Settings) {
    if let Some(clients) = &settings.six_clients {
        for (i, network) in clients.allowed.iter().enumerate() {
            if six_has_bits_beyond(network) {
                let (address, prefix) = (Ipv6Addr::from_bits(network.address), network.prefix);
                let _ = eprintln!(rt;
                    "warning: allowed6[{i}]: {address}/{prefix} has bits beyond its prefix"
                );
            }
        }
    }
}

/// The same for the networks of origins. Where there are two kinds of them, their places in the list are not told.
fn warn_of_denied(rt: &HostRuntime, settings: &Settings) {
    let Some(networks) = &settings.deny_origins else {
        return;
    };
    let Some(six) = &settings.origins6 else {
        warn_of(rt, "deny_origins", networks.as_slice());
        return;
    };
    for Network { addr, prefix } in networks.iter().copied() {
        if has_bits_beyond(addr, prefix) {
            let address = Ipv4Addr::from_octets(addr);
            let _ = eprintln!(rt;
                "warning: deny_origins: {address}/{prefix} has bits beyond its prefix"
            );
        }
    }
    warn_of_six(rt, six.as_slice());
}

/// Prints a warning for each of these networks that has bits beyond its prefix.
fn warn_of_six(rt: &HostRuntime, networks: &[SixNetwork]) {
    for network in networks {
        if six_has_bits_beyond(network) {
            let (address, prefix) = (Ipv6Addr::from_bits(network.address), network.prefix);
            let _ = eprintln!(rt;
                "warning: deny_origins: {address}/{prefix} has bits beyond its prefix"
            );
        }
    }
}

/// Whether the address of a network has a bit that is 1 behind its first `prefix` bits.
fn six_has_bits_beyond(network: &SixNetwork) -> bool {
    match network.address.checked_shl(u32::from(network.prefix)) {
        Some(rest) => rest != 0,
        None => false,
    }
}

/// Whether an address has a bit that is 1 behind its first `prefix` bits.
fn has_bits_beyond(addr: [u8; 4], prefix: u8) -> bool {
    match u32::from_be_bytes(addr).checked_shl(u32::from(prefix)) {
        Some(rest) => rest != 0,
        None => false,
    }
}
