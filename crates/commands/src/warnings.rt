//! Warnings about settings that are accepted, printed at each start and by `serve --check`.
use http_rules::{is_short_token, written_name};
use serve_config::{Settings, is_known, stays};
use std::alloc::AllocGlobal;
use std::io::Eprint;

/// Prints a warning on standard error for what of these settings is not done as they say it: two query sockets at one port, a name that no
/// header field can have, and keys whose secret everybody knows.
pub(crate) fn warn<R: AllocGlobal + Eprint>(rt: &R, settings: &Settings) {
    warn_of_ports(rt, settings);
    warn_of_name(rt, settings.name.as_str());
    warn_of_keys(rt, settings);
}

/// Prints a warning if both query sockets are to have the same port. Port 0 is whichever is free.
fn warn_of_ports<R: Eprint>(rt: &R, settings: &Settings) {
    let (icp, htcp) = (settings.node.icp.port, settings.node.htcp.port);
    if icp != 0 && icp == htcp {
        let _ = eprintln!(rt;
            "warning: htcp_port: icp_port is the same port at this address, so no socket can be bound there"
        );
    }
}

/// Prints a warning if the name is written otherwise in header fields.
fn warn_of_name<R: AllocGlobal + Eprint>(rt: &R, name: &str) {
    if is_short_token(name.as_bytes()) {
        return;
    }
    let Ok(written) = written_name(rt.alloc(), name.as_bytes()) else {
        return;
    };
    let shown = str::from_utf8(written.as_slice()).unwrap_or("");
    let _ = eprintln!(rt;
        "warning: name: not a token of at most 64 octets (RFC 9110, section 5.6.2), so header fields have {shown}"
    );
    drop(written);
}

/// Prints a warning for each key whose secret everybody knows.
fn warn_of_keys<R: Eprint>(rt: &R, settings: &Settings) {
    let neighbours = settings.node.neighbours.as_slice();
    for (i, key) in settings.node.keys.iter().enumerate() {
        if is_known(key) {
            let end = if stays(neighbours, key) {
                "it stays for the neighbour that has it, and signs nothing else"
            } else {
                "it is left out, as if it weren't there"
            };
            let _ = eprintln!(rt;
                "warning: keys[{i}].secret: everybody knows it from an example: {end}"
            );
        }
    }
}
