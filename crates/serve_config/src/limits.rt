//! The sizes and numbers that the program keeps within.
ghost use Rattle.std.specs.Prelude.{IfOk};
ghost use Rattle.serde_json.specs.View.{view};
ghost use Rattle.serve_config.specs.Parts.{AreLengthKeys, AreLoadKeys};

use crate::fault::Fault;
use crate::place::Place;
use crate::value::{number, optional};
use serde_json::Value;
use std::alloc::Global;

/// What a configuration says about the lengths of bodies and of the event log.
#[derive(Clone, Copy)]
pub(crate) struct LengthKeys {
    pub(crate) body_limit: u32,
    pub(crate) volume: u32,
    pub(crate) receipt_octets: Option<u32>,
    pub(crate) book_octets: Option<u32>,
}

/// What a configuration says about how much the program takes on.
#[derive(Clone, Copy)]
pub(crate) struct LoadKeys {
    pub(crate) fetch_octets: Option<u32>,
    pub(crate) shelf_octets: Option<u32>,
    pub(crate) address_connections: Option<u32>,
    pub(crate) client_threads: Option<u32>,
    pub(crate) lookup_threads: Option<u32>,
    pub(crate) stop_after: u64,
}

/// Parses what a configuration says about the lengths of bodies and of the event log.
pub(crate) fn length_keys(alloc: Global, value: &Value) -> Result<LengthKeys, Fault>
    ensures said { IfOk result (AreLengthKeys (view value.now)) }
{
    let top = Place::whole();
    Ok(LengthKeys {
        body_limit: number(alloc, value, top.key("body_limit"), 1, 1_073_741_824)? as u32,
        volume: number(alloc, value, top.key("volume"), 1, 1_048_576)? as u32,
        receipt_octets: optional(alloc, value, "receipt_octets", 0, 1_073_741_824)?,
        book_octets: optional(alloc, value, "book_octets", 1, 1_073_741_824)?,
    })
}

/// Parses what a configuration says about how much the program takes on.
pub(crate) fn load_keys(alloc: Global, value: &Value) -> Result<LoadKeys, Fault>
    ensures said { IfOk result (AreLoadKeys (view value.now)) }
{
    let top = Place::whole();
    Ok(LoadKeys {
        fetch_octets: optional(alloc, value, "fetch_octets", 1, 1_073_741_824)?,
        shelf_octets: optional(alloc, value, "shelf_octets", 0, 1_073_741_824)?,
        address_connections: optional(alloc, value, "address_connections", 1, 4096)?,
        client_threads: optional(alloc, value, "client_threads", 1, 16)?,
        lookup_threads: optional(alloc, value, "lookup_threads", 1, 256)?,
        stop_after: number(alloc, value, top.key("stop_after"), 0, u64::MAX)?,
    })
}
