//! What a configuration says, in parts.
ghost use Rattle.std.specs.Prelude.{IfOk};
ghost use Rattle.serde_json.specs.View.{view};
ghost use Rattle.serve_config.specs.Parts.{AreBackKeys, AreKeys};

use crate::fault::Fault;
use crate::front::{FrontKeys, front_keys};
use crate::limits::{LengthKeys, LoadKeys, length_keys, load_keys};
use crate::logs::{LogKeys, log_keys};
use crate::node::{NodeKeys, node_keys};
use crate::web::{SiteKeys, WebKeys, site_keys, web_keys};
use serde_json::Value;
use std::alloc::Global;

/// What a configuration says.
#[derive(Drop)]
pub(crate) struct Keys {
    pub(crate) lengths: LengthKeys,
    pub(crate) loads: LoadKeys,
    pub(crate) front: FrontKeys,
    pub(crate) logs: LogKeys,
    pub(crate) back: BackKeys,
}

/// What it says about what is behind the front.
#[derive(Drop)]
pub(crate) struct BackKeys {
    pub(crate) node: NodeKeys,
    pub(crate) web: WebKeys,
    pub(crate) site: SiteKeys,
}

/// Parses what a configuration says, in the order of its parts here.
pub(crate) fn keys_in(alloc: Global, value: &Value) -> Result<Keys, Fault>
    ensures { IfOk result (AreKeys (view value.now)) }
{
    let lengths = length_keys(alloc, value)?;
    let loads = load_keys(alloc, value)?;
    let front = front_keys(alloc, value)?;
    let logs = log_keys(alloc, value)?;
    match back_keys(alloc, value) {
        Ok(back) => Ok(Keys {
            lengths,
            loads,
            front,
            logs,
            back,
        }),
        Err(fault) => {
            drop(logs);
            drop(front);
            Err(fault)
        }
    }
}

// Parses what it says about what is behind the front.
fn back_keys(alloc: Global, value: &Value) -> Result<BackKeys, Fault>
    ensures { IfOk result (AreBackKeys (view value.now)) }
{
    let node = node_keys(alloc, value)?;
    let web = match web_keys(alloc, value) {
        Ok(web) => web,
        Err(fault) => {
            drop(node);
            return Err(fault);
        }
    };
    match site_keys(alloc, value) {
        Ok(site) => Ok(BackKeys { node, web, site }),
        Err(fault) => {
            drop(web);
            drop(node);
            Err(fault)
        }
    }
}
