//! What is fetched, kept and passed on.
ghost use Rattle.std.specs.Prelude.{IfOk};
ghost use Rattle.serde_json.specs.View.{view};
ghost use Rattle.serve_config.specs.Parts.{AreSiteKeys, AreWebKeys};

use crate::fault::Fault;
use crate::freshness::{FreshnessKeys, freshness_keys};
use crate::mirrors::{MirrorPath, mirrors};
use crate::origins::{OriginKeys, origin_keys};
use crate::passing::{PassingKeys, passing_keys};
use crate::shared_fields::{SharedField, shared_fields};
use serde_json::Value;
use std::alloc::Global;

/// What a configuration says about which origins are fetched from, for how long their answers are fresh, and what is passed on.
#[derive(Drop)]
pub(crate) struct WebKeys {
    pub(crate) origins: OriginKeys,
    pub(crate) freshness: FreshnessKeys,
    pub(crate) passing: PassingKeys,
}

/// What a configuration says about what requests in origin form stand for, and about the fields that the fetches for all clients send.
#[derive(Drop)]
pub(crate) struct SiteKeys {
    pub(crate) mirrors: Vec<MirrorPath>,
    pub(crate) shared_fields: Vec<SharedField>,
}

/// Parses what a configuration says about which origins are fetched from, for how long their answers are fresh, and what is passed on.
pub(crate) fn web_keys(alloc: Global, value: &Value) -> Result<WebKeys, Fault>
    ensures { IfOk result (AreWebKeys (view value.now)) }
{
    Ok(WebKeys {
        origins: origin_keys(alloc, value)?,
        freshness: freshness_keys(alloc, value)?,
        passing: passing_keys(alloc, value)?,
    })
}

/// Parses what a configuration says about mirrors and about the fields that the fetches for all clients send.
pub(crate) fn site_keys(alloc: Global, value: &Value) -> Result<SiteKeys, Fault>
    ensures { IfOk result (AreSiteKeys (view value.now)) }
{
    Ok(SiteKeys {
        mirrors: mirrors(alloc, value)?,
        shared_fields: shared_fields(alloc, value)?,
    })
}
