//! Checks that a configuration has exactly the known keys, each with a value of the right kind.
use crate::fault::Fault;
use crate::place::Place;
use crate::value::is_visible;
use serde_json::{Map, Value};
use std::alloc::Global;

/// The kind of a value.
#[derive(Clone, Copy)]
pub(crate) enum Kind {
    Text,
    Number,
    Truth,
    List,
    Object,
}

/// A known key and the kind of its value.
type Known = (&'static str, Kind);

/// The keys of a configuration.
const TOP: [Known; 16] = [
    ("address", Kind::Text),
    ("icp_port", Kind::Number),
    ("htcp_port", Kind::Number),
    ("http_port", Kind::Number),
    ("admin_port", Kind::Number),
    ("name", Kind::Text),
    ("allowed", Kind::List),
    ("miss_nofetch", Kind::Truth),
    ("origin", Kind::Truth),
    ("entries", Kind::Number),
    ("octets", Kind::Number),
    ("body_limit", Kind::Number),
    ("volume", Kind::Number),
    ("stop_after", Kind::Number),
    ("keys", Kind::List),
    ("neighbours", Kind::List),
];

/// The keys that a configuration may leave out.
const OPTIONAL: [Known; 32] = [
    ("receipt_octets", Kind::Number),
    ("book_octets", Kind::Number),
    ("fetch_octets", Kind::Number),
    ("shelf_octets", Kind::Number),
    ("address_connections", Kind::Number),
    ("client_threads", Kind::Number),
    ("lookup_threads", Kind::Number),
    ("deny_origins", Kind::List),
    ("origin_ports", Kind::List),
    ("origins6", Kind::Truth),
    ("admin_token", Kind::Text),
    ("access_log", Kind::Text),
    ("access_log_format", Kind::Text),
    ("filters", Kind::Object),
    ("log_level", Kind::Text),
    ("freshness", Kind::Text),
    ("refresh", Kind::List),
    ("serve_stale", Kind::Number),
    ("mirrors", Kind::Object),
    ("methods", Kind::List),
    ("connect_ports", Kind::List),
    ("large", Kind::Text),
    ("streams", Kind::Number),
    ("tunnels", Kind::Number),
    ("fetch_seconds", Kind::Number),
    ("fetch_idle", Kind::Number),
    ("fetch_speed", Kind::Number),
    ("quick_abort_octets", Kind::Number),
    ("keep_alive", Kind::Number),
    ("shared_fields", Kind::Object),
    ("http_address6", Kind::Text),
    ("allowed6", Kind::List),
];

/// The lists whose items are no objects, and the kind of these.
const LISTS: [Known; 6] = [
    ("allowed", Kind::Text),
    ("deny_origins", Kind::Text),
    ("origin_ports", Kind::Number),
    ("methods", Kind::Text),
    ("connect_ports", Kind::Number),
    ("allowed6", Kind::Text),
];

/// The keys of `filters`, each of which may be left out.
const FILTERS: [Known; 3] = [
    ("icp", Kind::Text),
    ("htcp", Kind::Text),
    ("neighbours", Kind::Object),
];

/// The keys of a rule of `refresh`.
const RULE: [Known; 1] = [("seconds", Kind::Number)];

/// The keys that such a rule may leave out.
const RULE_OPTIONAL: [Known; 3] = [
    ("suffix", Kind::Text),
    ("prefix", Kind::Text),
    ("override", Kind::Truth),
];

/// The keys of a signing key.
const KEY: [Known; 2] = [("name", Kind::Text), ("secret", Kind::Text)];

/// The keys of a neighbour.
const NEIGHBOUR: [Known; 7] = [
    ("kind", Kind::Text),
    ("protocol", Kind::Text),
    ("address", Kind::Text),
    ("query_port", Kind::Number),
    ("http_port", Kind::Number),
    ("weight", Kind::Number),
    ("key", Kind::Text),
];

impl Kind {
    // Whether a value is of this kind.
    fn fits(self, value: &Value) -> bool {
        match self {
            Kind::Text => value.is_string(),
            Kind::Number => is_whole(value),
            Kind::Truth => value.is_boolean(),
            Kind::List => value.is_array(),
            Kind::Object => value.is_object(),
        }
    }

    // The message for a value of another kind.
    fn mismatch(self) -> &'static str {
        match self {
            Kind::Text => "not a text",
            Kind::Number => "not a whole number",
            Kind::Truth => "neither true nor false",
            Kind::List => "not a list",
            Kind::Object => "not an object",
        }
    }
}

// Whether a value is an integer of any size. The JSON parser reads those beyond 64 bits as floats.
fn is_whole(value: &Value) -> bool {
    value.is_u64()
        || value.is_i64()
        || matches!(value.as_f64(), Some(x) if x >= 9.2e18 || x <= -9.2e18)
}

/// Checks the keys and kinds of a whole configuration. Errors: the first fault, of the top-level keys before those of the lists,
/// then `filters`, and `refresh` last.
pub(crate) fn check(alloc: Global, value: &Value) -> Result<(), Fault> {
    check_object(alloc, value, Place::whole(), &TOP, &OPTIONAL)?;
    check_lists(alloc, value)?;
    check_objects(alloc, value, "keys", &KEY, &[])?;
    check_objects(alloc, value, "neighbours", &NEIGHBOUR, &[])?;
    check_filters(alloc, value)?;
    check_objects(alloc, value, "refresh", &RULE, &RULE_OPTIONAL)
}

// Checks the object at `filters`, if there is one. The keys of its neighbours are checked with their values.
fn check_filters(alloc: Global, value: &Value) -> Result<(), Fault> {
    let Some(filters) = value.get("filters") else {
        return Ok(());
    };
    check_object(alloc, filters, Place::object("filters"), &[], &FILTERS)?;
    let Some(files) = filters.get("neighbours").and_then(Value::as_object) else {
        return Ok(());
    };
    for (key, file) in files.iter() {
        let place = Place::object("filters.neighbours").key(key.as_str());
        check_kind(alloc, Some(file), place, Kind::Text)?;
    }
    Ok(())
}

// Checks that each item of the list at this key, if there is one, is an object with all the known keys and perhaps some of the optional
// ones.
fn check_objects(
    alloc: Global,
    value: &Value,
    key: &str,
    known: &[Known],
    optional: &[Known],
) -> Result<(), Fault> {
    for (i, item) in items(value, key).iter().enumerate() {
        check_object(alloc, item, Place::item(key, i), known, optional)?;
    }
    Ok(())
}

// Checks that each item of the lists with no objects is of their kind.
fn check_lists(alloc: Global, value: &Value) -> Result<(), Fault> {
    for (key, kind) in &LISTS {
        check_items(alloc, value, *key, *kind)?;
    }
    Ok(())
}

// Checks that each item of the list at this key is of this kind.
fn check_items(alloc: Global, value: &Value, key: &str, kind: Kind) -> Result<(), Fault> {
    for (i, item) in items(value, key).iter().enumerate() {
        check_kind(alloc, Some(item), Place::item(key, i), kind)?;
    }
    Ok(())
}

// The items of a list of an object; none if the list is missing.
fn items<'a>(object: &'a Value, key: &str) -> &'a [Value] {
    match object.get(key).and_then(Value::as_array) {
        Some(items) => items.as_slice(),
        None => &[],
    }
}

// Checks that a value is an object with all the known keys and perhaps some of the optional ones, each with a value of its kind.
fn check_object(
    alloc: Global,
    value: &Value,
    place: Place<'_>,
    known: &[Known],
    optional: &[Known],
) -> Result<(), Fault> {
    let Some(members) = value.as_object() else {
        return Err(Fault::shape(alloc, place, "not an object"));
    };
    for (key, kind) in known {
        check_kind(alloc, members.get(*key), place.key(*key), *kind)?;
    }
    check_optional(alloc, members, place, optional)?;
    check_known(alloc, members, place, known, optional)
}

// Checks that each of the optional keys that is there has a value of its kind.
fn check_optional(
    alloc: Global,
    members: &Map<String, Value>,
    place: Place<'_>,
    optional: &[Known],
) -> Result<(), Fault> {
    for (key, kind) in optional {
        let value = members.get(*key);
        if value.is_some() {
            check_kind(alloc, value, place.key(*key), *kind)?;
        }
    }
    Ok(())
}

// Checks that there are no keys other than these.
fn check_known(
    alloc: Global,
    members: &Map<String, Value>,
    place: Place<'_>,
    known: &[Known],
    optional: &[Known],
) -> Result<(), Fault> {
    for key in members.keys() {
        if !is_known(key.as_str(), known) && !is_known(key.as_str(), optional) {
            return Err(unknown(alloc, place, key.as_str()));
        }
    }
    Ok(())
}

// The fault for an unknown key. The key is quoted if it is empty or has an octet other than visible ASCII.
fn unknown(alloc: Global, place: Place<'_>, key: &str) -> Fault {
    if !key.is_empty() && is_visible(key.as_bytes()) {
        Fault::shape(alloc, place.key(key), "unknown")
    } else {
        Fault::unknown(alloc, place, key)
    }
}

// Whether a key is one of the known keys.
fn is_known(key: &str, known: &[Known]) -> bool {
    for (word, _) in known {
        if *word == key {
            return true;
        }
    }
    false
}

// Checks that a value is present and of this kind.
fn check_kind(
    alloc: Global,
    value: Option<&Value>,
    place: Place<'_>,
    kind: Kind,
) -> Result<(), Fault> {
    match value {
        None => Err(Fault::shape(alloc, place, "missing")),
        Some(value) if kind.fits(value) => Ok(()),
        Some(_) => Err(Fault::shape(alloc, place, kind.mismatch())),
    }
}
