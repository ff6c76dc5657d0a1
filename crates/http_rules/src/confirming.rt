//! What there is to show that an answer with status 304 is about a stored object.
ghost use Rattle.std.specs.Prelude.{◌≡◌};
ghost use Rattle.http_rules.specs.Fields.{fields_of};
ghost use Rattle.http_rules.specs.Confirming.{confirmation_of};

use crate::validation::is_about;
use http_header::HeaderMap;
use object_store::Object;
use std::marker::Model;

/// The status of an answer that confirms a stored object (RFC 9110, section 15.4.5).
const NOT_MODIFIED: u16 = 304;

/// A stored object, and an answer with status 304 that is about it. There is none for any other object. Contracts see the fields of the
/// answer, and the object.
#[derive(Drop)]
pub struct Revalidated<'a> {
    head: &'a HeaderMap,
    object: &'a Object,
}

impl<'a> Model for Revalidated<'a> {
    ghost use Rattle.http_rules.specs.Fields.{fields_of};
    ghost use Rattle.http_rules.specs.Confirming.{Confirmation, IsConfirmed};

    ghost Value = { Confirmation };

    ghost view = { λ r. record { given = fields_of r.head.now; object = r.object.now } };

    ghost invariant = { λ r. IsConfirmed (record { given = fields_of r.head.now; object = r.object.now }) };
}

impl<'a> Revalidated<'a> {
    /// What an answer with this status and head confirms to a request with the validators of this object: the object, if it is a 304
    /// that is about it (`is_about`).
    pub fn by(status: u16, head: &'a HeaderMap, object: &'a Object) -> Option<Revalidated<'a>>
        ensures { result ≡ confirmation_of status (fields_of head.now) object.now }
    {
        if status == NOT_MODIFIED && is_about(head, object.head()) {
            Some(Revalidated { head, object })
        } else {
            None
        }
    }

    /// The head of the answer.
    pub fn head(&self) -> &HeaderMap
        ensures { fields_of result.now ≡ self.now.given }
    {
        self.head
    }

    /// The object.
    pub fn object(&self) -> &Object
        ensures { result.now ≡ self.now.object }
    {
        self.object
    }
}
