//! What there is to show that an answer may be stored.
ghost use Rattle.std.specs.Prelude.{◌≡◌, IfSome};
ghost use Rattle.http_rules.specs.Fields.{fields_of};
ghost use Rattle.http_rules.specs.Storing.{IsOf, by_published, by_rfc9111};

use crate::age::age_of;
use crate::framing::tells_end;
use crate::freshness::may_keep;
use crate::refresh::RefreshRule;
use crate::response::may_store;
use http_header::HeaderMap;
use node_terms::Mode;
use std::marker::Model;

/// An answer that may be stored, and for how long: its head tells where its body ends, so that one that was cut is known as such, and the
/// rules have it stored. There is none for any other answer. Contracts see the mode of its fetch, its status, its fields as received,
/// its age and its life.
#[derive(Drop)]
pub struct Storable<'a> {
    mode: Mode,
    status: u16,
    head: &'a HeaderMap,
    age: u32,
    life: u32,
}

impl<'a> Model for Storable<'a> {
    ghost use Rattle.http_rules.specs.Fields.{fields_of};
    ghost use Rattle.http_rules.specs.Storing.{StorableAnswer, IsStorable, storable_for};

    ghost Value = { StorableAnswer };

    ghost view = { λ s. storable_for s.mode s.status (fields_of s.head.now) s.age s.life };

    ghost invariant = { λ s. IsStorable (storable_for s.mode s.status (fields_of s.head.now) s.age s.life) };
}

impl<'a> Storable<'a> {
    /// An answer with this status and head to a fetch of this mode, if it tells where its body ends and the published rules have it
    /// stored (`may_store`). `head` holds the fields as received.
    pub fn by_published_rules(mode: Mode, status: u16, head: &'a HeaderMap) -> Option<Storable<'a>>
        ensures of { IfSome result (IsOf mode status (fields_of head.now)) }
        ensures exact { result ≡ by_published mode status (fields_of head.now) }
    {
        if !tells_end(head) {
            return None;
        }
        let life = may_store(mode, status, head)?;
        Some(Storable {
            mode,
            status,
            head,
            age: age_of(head),
            life,
        })
    }

    /// The same by the rules of RFC 9111 (`may_keep`).
    pub fn by_rfc9111_rules(
        mode: Mode,
        url: &[u8],
        status: u16,
        head: &'a HeaderMap,
        requested: u64,
        received: u64,
        rules: &[RefreshRule],
    ) -> Option<Storable<'a>>
        ensures of { IfSome result (IsOf mode status (fields_of head.now)) }
        ensures exact { result ≡ by_rfc9111 mode url.now status (fields_of head.now) requested received rules.now }
    {
        match may_keep(mode, url, status, head, requested, received, rules) {
            Some(kept) if tells_end(head) => Some(Storable {
                mode,
                status,
                head,
                age: kept.age,
                life: kept.life,
            }),
            _ => None,
        }
    }

    /// The status of the answer.
    pub fn status(&self) -> u16
        ensures { result ≡ self.now.status }
    {
        self.status
    }

    /// The head of the answer, as received.
    pub fn head(&self) -> &HeaderMap
        ensures { fields_of result.now ≡ self.now.fields }
    {
        self.head
    }

    /// The age of the answer in seconds when it came.
    pub fn age(&self) -> u32
        ensures { result ≡ self.now.age }
    {
        self.age
    }

    /// For how many seconds from then on it may be stored.
    pub fn life(&self) -> u32
        ensures { result ≡ self.now.life }
    {
        self.life
    }
}
