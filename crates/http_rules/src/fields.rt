//! Looking up header fields by name.
ghost use Rattle.std.specs.Prelude.{◌≡◌, map};
ghost use Rattle.std.specs.Option.{option_copied};
ghost use Rattle.http_header.specs.Token.{lowercase};
ghost use Rattle.http_rules.specs.Fields.{fields_of, values_of, first_value, has_field};

use http_header::{GetAll, HeaderMap, HeaderValue};

/// The values of all fields with this name, in order. `name` is in lower case.
pub(crate) fn values_of<'a>(head: &'a HeaderMap, name: &str) -> GetAll<'a, HeaderValue>
    requires { lowercase name.now ≡ name.now }
    ensures { map (λ v. v.bytes) result ≡ values_of name.now (fields_of head.now) }
{
    let _names = head.keys_len();
    head.get_all(name)
}

/// The value of the first field with this name, or `None`. `name` is in lower case.
pub(crate) fn first_value<'a>(head: &'a HeaderMap, name: &str) -> Option<&'a [u8]>
    requires { lowercase name.now ≡ name.now }
    ensures { option_copied result ≡ first_value name.now (fields_of head.now) }
{
    let _names = head.keys_len();
    match head.get(name) {
        Some(value) => Some(value.as_bytes()),
        None => None,
    }
}

/// Whether there is a field with this name. `name` is in lower case.
pub(crate) fn has_field(head: &HeaderMap, name: &str) -> bool
    requires { lowercase name.now ≡ name.now }
    ensures { result ≡ has_field name.now (fields_of head.now) }
{
    first_value(head, name).is_some()
}
