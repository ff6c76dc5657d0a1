//! How the proxy is reached by clients and administrators.
ghost use Rattle.std.specs.Prelude.{IfOk, codes, option_map};
ghost use Rattle.std.specs.String.{string_bytes};
ghost use Rattle.serde_json.specs.View.{view};
ghost use Rattle.serve_config.specs.Fronts.{IsName, IsSaidToken};
ghost use Rattle.serve_config.specs.Parts.{AreFrontKeys};
ghost use Rattle.serve_config.specs.Said.{MaySay, Says};

use crate::fault::Fault;
use crate::place::Place;
use crate::six_clients::{SixClients, six_clients};
use crate::token::is_token68;
use crate::value::{address, port, text, visible};
use serde_json::Value;
use std::alloc::Global;

/// What a configuration says about this.
#[derive(Drop)]
pub(crate) struct FrontKeys {
    pub(crate) address: [u8; 4],
    pub(crate) http_port: u16,
    pub(crate) admin_port: u16,
    pub(crate) name: String,
    pub(crate) admin_token: Option<String>,
    pub(crate) six_clients: Option<SixClients>,
}

/// Parses what a configuration says about this.
pub(crate) fn front_keys(alloc: Global, value: &Value) -> Result<FrontKeys, Fault>
    ensures said { IfOk result (AreFrontKeys (view value.now)) }
{
    let top = Place::whole();
    Ok(FrontKeys {
        address: address(alloc, value, top.key("address"))?,
        http_port: port(alloc, value, top.key("http_port"))?,
        admin_port: port(alloc, value, top.key("admin_port"))?,
        name: name(alloc, value, top.key("name"))?,
        admin_token: admin_token(alloc, value)?,
        six_clients: six_clients(alloc, value)?,
    })
}

// Parses the name in Via fields.
fn name(alloc: Global, value: &Value, place: Place<'_>) -> Result<String, Fault>
    ensures said { IfOk result (λ name. Says IsName place.entry.key.now (view value.now) (string_bytes name)) }
{
    let name = visible(alloc, value, place)?;
    Ok(String::from_str(alloc, name)?)
}

// Parses the administrator's token, if it is given. A fault does not show it.
fn admin_token(alloc: Global, value: &Value) -> Result<Option<String>, Fault>
    ensures said { IfOk result (λ token. MaySay IsSaidToken (codes "admin_token") (view value.now) (option_map string_bytes token)) }
{
    if value.get("admin_token").is_none() {
        return Ok(None);
    }
    let place = Place::whole().key("admin_token");
    let text = text(alloc, value, place)?;
    if text.is_empty() {
        return Err(Fault::value(alloc, place, "empty"));
    }
    if text.len() > 255 {
        return Err(Fault::value(alloc, place, "over 255 octets"));
    }
    if !is_token68(text.as_bytes()) {
        return Err(Fault::value(alloc, place, "not a token68 (RFC 9110, section 11.2)"));
    }
    Ok(Some(String::from_str(alloc, text)?))
}
