//! The filters and the logs that a proxy is given at its start.
use access_log::Form;
use access_log::writer::{LogPlace, LogTask, open_log};
use filter_text::{FilesFault, Filter, read_filters};
use proxy_setup::Equipment;
use proxy_state::{AccessLog, Notices};
use serve_config::{LogFormat, LogLevel, Settings};
use std::alloc::AllocGlobal;
use std::fs::Files;
use std::io::Eprint;

/// The filters and the logs that a configuration names, and the version of the program. On a fault prints its line on standard error and
/// returns `None`.
pub fn equipment_of<R: Files + AllocGlobal + Eprint>(
    rt: &R,
    settings: &Settings,
    version: &'static str,
) -> Option<Equipment<R::File>> {
    let filters = filters_of(rt, settings)?;
    let log = match &settings.access_log {
        Some(place) => Some(access_log_at(rt, place, settings.access_log_format)?),
        None => None,
    };
    let notices = match settings.log_level {
        LogLevel::Quiet => None,
        LogLevel::Info => Some(notices_on_errors(rt)?),
    };
    Some(Equipment {
        filters,
        log,
        notices,
        version,
    })
}

/// The access log at a place, and what writes it. On a fault prints its line on standard error and returns `None`.
fn access_log_at<R: Files + AllocGlobal + Eprint>(
    rt: &R,
    place: &String,
    format: LogFormat,
) -> Option<(AccessLog, LogTask<R::File>)> {
    let form = match format {
        LogFormat::Common => Form::Common,
        LogFormat::Json => Form::Json,
    };
    match open_log(rt, rt.alloc(), place_of(rt, place)?) {
        Ok((desk, task)) => Some((AccessLog { desk, form }, task)),
        Err(fault) => {
            let _ = eprintln!(rt; "config fault 6\naccess_log: {place}: {fault}");
            None
        }
    }
}

/// Notices on standard error, and what writes them. If memory runs out prints the fault's line and returns `None`.
fn notices_on_errors<R: Files + AllocGlobal + Eprint>(
    rt: &R,
) -> Option<(Notices, LogTask<R::File>)> {
    match open_log(rt, rt.alloc(), LogPlace::Errors) {
        Ok((desk, task)) => Some((Notices::new(desk), task)),
        Err(_) => {
            let _ = eprintln!(rt; "config fault 5");
            None
        }
    }
}

/// Where the access log is written. On a fault prints its line on standard error and returns `None`.
fn place_of<R: AllocGlobal + Eprint>(rt: &R, place: &String) -> Option<LogPlace> {
    if place.as_str() == "-" {
        return Some(LogPlace::Output);
    }
    match String::from_str(rt.alloc(), place.as_str()) {
        Ok(path) => Some(LogPlace::File(path)),
        Err(_) => {
            let _ = eprintln!(rt; "config fault 5");
            None
        }
    }
}

/// The filters in the files that a configuration names. On a fault prints its line on standard error and returns `None`.
pub(crate) fn filters_of<R: Files + AllocGlobal + Eprint>(
    rt: &R,
    settings: &Settings,
) -> Option<Vec<Filter>> {
    match read_filters(rt, settings.filters.as_slice()) {
        Ok(filters) => Some(filters),
        Err(FilesFault::NoMemory) => {
            let _ = eprintln!(rt; "config fault 5");
            None
        }
        Err(fault) => {
            let _ = eprintln!(rt; "config fault 6\n{fault}");
            None
        }
    }
}
