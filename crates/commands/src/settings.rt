//! The settings in a configuration file.
use crate::warnings::warn;
use proxy_setup::lacks_own_address;
use serve_config::Settings;
use std::alloc::AllocGlobal;
use std::fs;
use std::fs::Files;
use std::io::Eprint;

/// What a configuration lacks that passes on methods which change what they ask for.
const NOT_ALLOWED: &str =
    "needs the address of the HTCP socket in allowed, for the cache's requests to itself by which it takes out of the store what such a method changes";

/// Reads the settings from a configuration file, and prints warnings about them on standard error. On a fault prints its line there and
/// returns `None`.
pub fn settings_of<R: Files + AllocGlobal + Eprint>(rt: &R, file: &str) -> Option<Settings> {
    match fs::read(rt, file) {
        Ok(text) => {
            let settings = settings_in(rt, text.as_slice())?;
            warn(rt, &settings);
            Some(settings)
        }
        Err(fault) => {
            let _ = eprintln!(rt; "file fault\n{file}: {fault}");
            None
        }
    }
}

/// Parses the settings in a text. On a fault prints its line on standard error and returns `None`.
pub(crate) fn settings_in<R: AllocGlobal + Eprint>(rt: &R, text: &[u8]) -> Option<Settings> {
    let settings = match Settings::read(rt.alloc(), text) {
        Ok(settings) => settings,
        Err(fault) => {
            let _ = eprintln!(rt; "{fault}");
            return None;
        }
    };
    if lacks_own_address(&settings) {
        let _ = eprintln!(rt; "config fault 3\nmethods: {NOT_ALLOWED}");
        drop(settings);
        return None;
    }
    Some(settings)
}
