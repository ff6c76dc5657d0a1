//! For how long responses are kept.
ghost use Rattle.std.specs.Prelude.{◌≡◌, IfSome, None};
ghost use Rattle.http_rules.specs.Fields.{fields_of};
ghost use Rattle.http_rules.specs.Storing.{IsOf};
ghost use Rattle.proxy_state.specs.Keeping.{storable_by};

use http_header::HeaderMap;
use http_rules::{RefreshRule, Storable, may_keep};
use node_terms::Mode;

/// The rules by which responses are kept.
#[derive(Drop)]
pub enum Profile {
    /// What states its lifetime itself (`http_rules::may_store`).
    Published,
    /// RFC 9111, with the operator's refresh rules (`http_rules::may_keep`).
    Rfc9111(Vec<RefreshRule>),
}

/// A fetch, as far as the life of its response depends on it. Times are in seconds since 1970.
#[derive(Clone, Copy)]
pub struct Exchange<'a> {
    pub mode: Mode,
    /// The key of what was fetched. Only refresh rules ask for it.
    pub url: &'a [u8],
    pub requested: u64,
    pub received: u64,
}

impl Profile {
    /// What there is to show that a response with this status and head may be stored, and for how long; `None` if it may not be. One whose
    /// body ends with its connection may have been cut, and is not stored.
    pub fn storable<'a>(
        &self,
        exchange: Exchange<'_>,
        status: u16,
        head: &'a HeaderMap,
    ) -> Option<Storable<'a>>
        ensures of { IfSome result (IsOf exchange.entry.mode status (fields_of head.now)) }
        ensures exact { result ≡ storable_by exchange.entry.mode exchange.entry.url.now status (fields_of head.now) exchange.entry.requested exchange.entry.received self.now }
        ensures private { exchange.entry.mode ≡ Mode.Private → result ≡ None }
    {
        let Exchange {
            mode,
            url,
            requested,
            received,
        } = exchange;
        match self {
            Profile::Published => Storable::by_published_rules(mode, status, head),
            Profile::Rfc9111(rules) => {
                let rules = rules.as_slice();
                Storable::by_rfc9111_rules(mode, url, status, head, requested, received, rules)
            }
        }
    }

    /// Whether the whole may be stored of which a part has come with this head: whether a response with status 200 and the same fields
    /// may be, if it was fetched for all clients. Only by RFC 9111.
    pub fn may_keep_whole(&self, exchange: Exchange<'_>, head: &HeaderMap) -> bool {
        let Exchange {
            url,
            requested,
            received,
            ..
        } = exchange;
        match self {
            Profile::Published => false,
            Profile::Rfc9111(rules) => {
                let rules = rules.as_slice();
                may_keep(Mode::Shared, url, 200, head, requested, received, rules).is_some()
            }
        }
    }
}
