//! The fields that the fetches for all clients send.
ghost use Rattle.std.specs.Prelude.{◌≡◌, [], ◌∷◌, ◌++◌, All, IfOk, map, true};
ghost use Rattle.std.specs.List.{list_all};
ghost use Rattle.std.specs.String.{string_bytes};
ghost use Rattle.serde_json.specs.Data.{string};
ghost use Rattle.serde_json.specs.View.{members_of, members_view, view};
ghost use Rattle.serve_config.specs.SharedFields.{AreSharedFields, IsSharedField, field_member, is_field_name, is_field_value, is_padded, is_short_text, is_text_octet};

use crate::fault::Fault;
use crate::place::Place;
use serde_json::{Map, Value};
use std::alloc::{AllocError, Global};

// The most fields of a configuration.
const MOST_FIELDS: usize = 16;

// The most octets of a field's value.
const MOST_OCTETS: usize = 255;

/// A field that each fetch for all clients sends, whatever its clients sent.
#[derive(Drop)]
pub struct SharedField {
    /// Its name, in lower case: `user-agent`, `accept`, `accept-language` or `from` (RFC 9110, sections 10.1.5, 12.5.1, 12.5.4 and
    /// 10.1.2).
    pub name: String,
    /// Its value: 1 to 255 visible ASCII characters and blanks, with no blank at either end.
    pub value: String,
}

/// Parses the fields, in the order of their names. Errors: a malformed one, or over 16 of them.
pub(crate) fn shared_fields(alloc: Global, value: &Value) -> Result<Vec<SharedField>, Fault>
    ensures said { IfOk result (λ fields. AreSharedFields (view value.now) fields.items) }
{
    let Some(given) = value.get("shared_fields") else {
        return Ok(Vec::new(alloc));
    };
    let place = Place::whole().key("shared_fields");
    let Some(members) = given.as_object() else {
        return Err(Fault::shape(alloc, place, "not an object"));
    };
    let fields = each_field(alloc, members)?;
    if fields.len() > MOST_FIELDS {
        return Err(Fault::value(alloc, place, "over 16 of them"));
    }
    Ok(fields)
}

// Parses each field.
fn each_field(alloc: Global, members: &Map<String, Value>) -> Result<Vec<SharedField>, Fault>
    ensures said { IfOk result (λ fields. members_view members.now.entries ≡ members_of (map field_member fields.items)) }
    ensures each { IfOk result (λ fields. All IsSharedField fields.items) }
{
    let mut fields = Vec::new(alloc);
    for (name, value) in members.iter() {
        let field = field(alloc, name.as_str(), value)?;
        fields = with_field(fields, field)?;
    }
    Ok(fields)
}

// These fields and this one.
fn with_field(fields: Vec<SharedField>, field: SharedField) -> Result<Vec<SharedField>, Fault>
    requires others { All IsSharedField fields.items }
    requires this { IsSharedField field }
    ensures all { IfOk result (λ after. after.items ≡ fields.items ++ field ∷ []) }
    ensures each { IfOk result (λ after. All IsSharedField after.items) }
{
    let mut fields = fields;
    fields.push(field).map_err(AllocError::from)?;
    Ok(fields)
}

// Parses one field.
fn field(alloc: Global, name: &str, value: &Value) -> Result<SharedField, Fault>
    ensures name { IfOk result (λ field. string_bytes field.name ≡ name.now) }
    ensures value { IfOk result (λ field. view value.now ≡ string (string_bytes field.value)) }
    ensures form { IfOk result IsSharedField }
{
    if !is_field_name(name.as_bytes()) {
        let place = Place::whole().key("shared_fields");
        let what = "is none of user-agent, accept, accept-language and from";
        return Err(Fault::text(alloc, place, name, what));
    }
    let place = Place::object("shared_fields").key(name);
    let Some(text) = value.as_str() else {
        return Err(Fault::shape(alloc, place, "not a text"));
    };
    if !is_field_value(text.as_bytes()) {
        let what = "is not 1 to 255 visible characters and blanks with no blank at either end";
        return Err(Fault::text(alloc, place, text, what));
    }
    Ok(SharedField {
        name: String::from_str(alloc, name)?,
        value: String::from_str(alloc, text)?,
    })
}

// Whether a text is the name of a field that may be set.
#[tactic(auto, unfolding(crate::specs::SharedFields::is_field_name))]
fn is_field_name(text: &[u8]) -> bool
    ensures { result ≡ is_field_name text.now }
{
    text == b"user-agent".as_slice()
        || text == b"accept".as_slice()
        || text == b"accept-language".as_slice()
        || text == b"from".as_slice()
}

// Whether a text is the value of such a field.
#[tactic(auto, unfolding(crate::specs::SharedFields::is_field_value))]
fn is_field_value(text: &[u8]) -> bool
    ensures { result ≡ is_field_value text.now }
{
    is_short_text(text) && !is_padded(text)
}

// Whether a text is one or more, and not too many, visible characters and blanks.
fn is_short_text(text: &[u8]) -> bool
    ensures { result ≡ is_short_text text.now }
{
    !text.is_empty() && text.len() <= MOST_OCTETS && are_text_octets(text)
}

// Whether each octet is a blank or visible ASCII.
fn are_text_octets(text: &[u8]) -> bool
    ensures { result ≡ list_all is_text_octet text.now }
{
    text.iter().all(|&octet| 32 <= octet && octet <= 126)
}

// Whether there is a blank at one end of a text.
fn is_padded(text: &[u8]) -> bool
    ensures { result ≡ is_padded text.now }
{
    text.starts_with(b" ") || text.ends_with(b" ")
}
