//! Results of HTCP requests.
ghost use Rattle.std.specs.Prelude.{◌≡◌, []};
ghost use Rattle.htcp_packet.specs.View.{shown_body};
ghost use Rattle.plain_node.specs.HtcpRequests.{is_refusal, code_of, text_of};

use htcp_packet::{Detail, HtcpBody};

/// The result of an HTCP request (RFC 2756, sections 6.1, 6.2 and 6.5).
#[derive(Clone, Copy, PartialEq, Eq)]
pub enum Finding {
    /// Refused, with one of HTCP's overall response codes (MO set): 0 not signed, 1 bad signature, 2 operation not
    /// implemented, 5 source not allowed.
    Refused(u8),
    /// NOP.
    Alive,
    /// TST: a fresh object is stored.
    Found,
    /// TST: no fresh object is stored.
    NotFound,
    /// CLR: an object was stored, and is removed.
    Cleared,
    /// CLR: no object was stored.
    NotCleared,
}

impl Finding {
    /// Whether the response code is an overall one (MO set), that is, the request is refused.
    pub fn is_refusal(self) -> bool
        ensures { result ≡ is_refusal self }
    {
        matches!(self, Finding::Refused(_))
    }

    /// The response code.
    pub fn code(self) -> u8
        ensures { result ≡ code_of self }
    {
        match self {
            Finding::Refused(code) => code,
            Finding::Alive | Finding::Found | Finding::Cleared => 0,
            Finding::NotFound => 1,
            Finding::NotCleared => 2,
        }
    }

    /// The OP-DATA of the response.
    pub fn body(self) -> HtcpBody<'static>
        ensures { shown_body result ≡ text_of self }
    {
        match self {
            Finding::Refused(_) => HtcpBody::Opaque(b""),
            Finding::Alive | Finding::Cleared | Finding::NotCleared => HtcpBody::Empty,
            Finding::Found => HtcpBody::Detail(Detail {
                response_headers: b"",
                entity_headers: b"",
                cache_headers: b"",
            }),
            Finding::NotFound => HtcpBody::CacheHeaders(b""),
        }
    }
}
