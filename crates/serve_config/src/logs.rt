//! What the program tells: lines about answers to clients, and about its own work.
ghost use Rattle.std.specs.Prelude.{◌≡◌, IfOk, Some, codes, option_map};
ghost use Rattle.std.specs.String.{string_bytes};
ghost use Rattle.serde_json.specs.View.{view};
ghost use Rattle.serve_config.specs.Files.{IsPath};
ghost use Rattle.serve_config.specs.Parts.{AreLogKeys};
ghost use Rattle.serve_config.specs.Said.{MaySay};
ghost use Rattle.serve_config.specs.Words.{form_said, level_said};

use crate::fault::Fault;
use crate::filters::path;
use crate::place::Place;
use crate::settings::{LogFormat, LogLevel};
use crate::value::word;
use serde_json::Value;
use std::alloc::Global;

/// What a configuration says about these lines.
#[derive(Drop)]
pub(crate) struct LogKeys {
    pub(crate) access_log: Option<String>,
    pub(crate) access_log_format: LogFormat,
    pub(crate) log_level: LogLevel,
}

/// Parses what a configuration says about these lines.
pub(crate) fn log_keys(alloc: Global, value: &Value) -> Result<LogKeys, Fault>
    ensures { IfOk result (AreLogKeys (view value.now)) }
{
    Ok(LogKeys {
        access_log: access_log(alloc, value)?,
        access_log_format: log_format(alloc, value)?,
        log_level: log_level(alloc, value)?,
    })
}

// Parses where the lines about answers go, if it is given.
fn access_log(alloc: Global, value: &Value) -> Result<Option<String>, Fault>
    ensures said { IfOk result (λ file. MaySay IsPath (codes "access_log") (view value.now) (option_map string_bytes file)) }
{
    match value.get("access_log") {
        Some(given) => Ok(Some(path(alloc, given, Place::whole().key("access_log"))?)),
        None => Ok(None),
    }
}

// Parses the form of the lines about answers.
fn log_format(alloc: Global, value: &Value) -> Result<LogFormat, Fault>
    ensures { IfOk result (λ form. form_said (view value.now) ≡ Some form) }
{
    match word(alloc, value, "access_log_format", "common")? {
        "common" => Ok(LogFormat::Common),
        "json" => Ok(LogFormat::Json),
        given => {
            let place = Place::whole().key("access_log_format");
            Err(Fault::text(alloc, place, given, "is neither common nor json"))
        }
    }
}

// Parses how much the program tells about its own work.
fn log_level(alloc: Global, value: &Value) -> Result<LogLevel, Fault>
    ensures { IfOk result (λ level. level_said (view value.now) ≡ Some level) }
{
    match word(alloc, value, "log_level", "quiet")? {
        "quiet" => Ok(LogLevel::Quiet),
        "info" => Ok(LogLevel::Info),
        given => {
            let place = Place::whole().key("log_level");
            Err(Fault::text(alloc, place, given, "is neither quiet nor info"))
        }
    }
}
