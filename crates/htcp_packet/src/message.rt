//! Message types, borrowed from the datagram.

ghost use Rattle.std.specs.Prelude.{◌≡◌, ◌↔◌, ◌<◌, ◌^◌, IsTrue};
ghost use Rattle.std.specs.Cmp.{on_per, on_equiv, partial_equiv_from_equiv};
ghost use Rattle.std.specs.Ordering.{on};
ghost use Rattle.htcp_packet.specs.Message.{form_of};
ghost use Rattle.htcp_packet.specs.View.{shown, shown_body};
ghost use Rattle.htcp_packet.specs.Equality.{same_message};
ghost use Rattle.htcp_packet.specs.Equals.{messages_equiv};
ghost use Rattle.htcp_packet.specs.Writing.{FitsForm, IsWritable};

use crate::codes::{CLR, FOUND, NOP, NOT_FOUND, TST};

/// The layout of OP-DATA.
#[derive(Clone, Copy, PartialEq, Eq)]
pub enum Form {
    Empty,
    Specifier,
    Clear,
    Detail,
    CacheHeaders,
    Opaque,
}

impl Form {
    /// The layout for an opcode, a response code and the flags F1 and RR.
    pub fn of(opcode: u8, response: u8, f1: bool, rr: bool) -> Form
        ensures { result ≡ form_of opcode response f1 rr }
    {
        if rr {
            if f1 {
                return Form::Opaque;
            }
            match (opcode, response) {
                (NOP | CLR, _) => Form::Empty,
                (TST, FOUND) => Form::Detail,
                (TST, NOT_FOUND) => Form::CacheHeaders,
                _ => Form::Opaque,
            }
        } else {
            match opcode {
                NOP => Form::Empty,
                TST => Form::Specifier,
                CLR => Form::Clear,
                _ => Form::Opaque,
            }
        }
    }
}

/// SPECIFIER: identifies a request (RFC 2756, section 3.2).
#[derive(Clone, Copy, PartialEq, Eq)]
pub struct Specifier<'a> {
    pub method: &'a [u8],
    pub uri: &'a [u8],
    pub version: &'a [u8],
    pub headers: &'a [u8],
}

/// DETAIL: describes a cached object (RFC 2756, section 3.3).
#[derive(Clone, Copy, PartialEq, Eq)]
pub struct Detail<'a> {
    pub response_headers: &'a [u8],
    pub entity_headers: &'a [u8],
    pub cache_headers: &'a [u8],
}

/// OP-DATA: the data of an opcode.
#[derive(Clone, Copy, PartialEq, Eq)]
pub enum HtcpBody<'a> {
    /// Of NOP, and of a CLR response.
    Empty,
    /// Of a TST request.
    Specifier(Specifier<'a>),
    /// Of a CLR request. The reason is under 16.
    Clear {
        reason: u8,
        specifier: Specifier<'a>,
    },
    /// Of a TST response, if the object is in the cache.
    Detail(Detail<'a>),
    /// Of a TST response, if the object is not in the cache.
    CacheHeaders(&'a [u8]),
    /// Of everything else; not decoded further.
    Opaque(&'a [u8]),
}

/// AUTH: the signature of a message. Times are in seconds since 1970-01-01 UTC.
#[derive(Clone, Copy, PartialEq, Eq)]
pub enum HtcpAuth<'a> {
    Unsigned,
    Signed {
        time: u32,
        expire: u32,
        key_name: &'a [u8],
        signature: &'a [u8],
    },
}

/// A message, together with the octets of its DATA as received.
///
/// `rr` is set in a response. `f1` is RD in a request (a response is desired), and MO in a response (the response code
/// applies to the whole message instead of the opcode).
#[derive(Clone, Copy)]
pub struct HtcpView<'a> {
    pub minor: u8,
    /// Under 16.
    pub opcode: u8,
    /// Under 16.
    pub response: u8,
    pub f1: bool,
    pub rr: bool,
    pub trans: u32,
    pub body: HtcpBody<'a>,
    /// DATA as received, including padding and reserved bits. Ignored by `==`.
    pub raw: &'a [u8],
    pub auth: HtcpAuth<'a>,
}

impl<'a> PartialEq for HtcpView<'a> {
    ghost eq = { on shown same_message };

    ghost laws = { on_per shown (partial_equiv_from_equiv messages_equiv) };

    /// Whether both are the same message. Ignores `raw`.
    fn eq(&self, other: &HtcpView<'a>) -> bool
        ensures value { result ≡ on shown same_message self.now other.now }
        ensures same { IsTrue result ↔ (shown self.now ≡ shown other.now) }
    {
        self.minor == other.minor
            && self.opcode == other.opcode
            && self.response == other.response
            && self.f1 == other.f1
            && self.rr == other.rr
            && self.trans == other.trans
            && self.body == other.body
            && self.auth == other.auth
    }
}

impl<'a> Eq for HtcpView<'a> {
    ghost laws = { on_equiv shown messages_equiv };
}

// Whether the body has this layout and its reason, if any, fits four bits.
fn fits_form(form: Form, body: &HtcpBody<'_>) -> bool
    ensures { IsTrue result ↔ FitsForm form (shown_body body.now) }
{
    match (form, body) {
        (Form::Empty, HtcpBody::Empty)
        | (Form::Specifier, HtcpBody::Specifier(_))
        | (Form::Detail, HtcpBody::Detail(_))
        | (Form::CacheHeaders, HtcpBody::CacheHeaders(_))
        | (Form::Opaque, HtcpBody::Opaque(_)) => true,
        (
            Form::Clear,
            HtcpBody::Clear {
                reason,
                specifier: _,
            },
        ) => *reason < 16,
        _ => false,
    }
}

impl<'a> HtcpView<'a> {
    /// Whether the message can be encoded: opcode and response are under 16, the body has the layout that they and the
    /// flags give, and its reason, if any, is under 16.
    pub fn is_writable(&self) -> bool
        ensures { IsTrue result ↔ IsWritable (shown self.now) }
    {
        let form = Form::of(self.opcode, self.response, self.f1, self.rr);
        self.opcode < 16 && self.response < 16 && fits_form(form, &self.body)
    }

    // Publishes the range of `trans`, which follows from its type, for use in proofs.
    pub(crate) fn is_in_range(&self)
        ensures { self.now.trans < 2 ^ 32 }
    {
        let _trans = self.trans;
    }
}
