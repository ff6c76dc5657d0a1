//! Signing HTCP messages, and verifying their signatures.
ghost use Rattle.std.specs.Prelude.{◌≡◌, ◌≤◌, ◌/◌, length, Some, IfOk};
ghost use Rattle.std.specs.Option.{option_map};
ghost use Rattle.filter_slots.specs.Datagram.{ends_of};
ghost use Rattle.htcp_packet.specs.View.{shown, shown_auth, shown_body, received};
ghost use Rattle.htcp_packet.specs.Writing.{IsWritable, body_text, message_text, without_auth};
ghost use Rattle.htcp_packet.specs.Signing.{sealed};
ghost use Rattle.plain_node.specs.Requests.{key_named};
ghost use Rattle.plain_node.specs.Signatures.{standing, standing_of_auth, standing_by_check, key_of_standing, is_absent, is_bad, is_good_by, text_to};
ghost use Rattle.plain_node.specs.Signed.{shown_key, shown_standing, IsShortlyNamed};

use crate::NoMemory;
use crate::core_node::Core;
use filter_slots::{End, Moment, both_ends};
use htcp_packet::{EncodeFault, HtcpAuth, HtcpView, Sign, encode, sign, verify};
use neighbours::Octets;
use node_words::Payload;
use std::alloc::Global;

/// A key that messages are signed with.
#[derive(Clone, Copy)]
pub struct Signer<'a> {
    pub name: &'a [u8],
    pub secret: &'a [u8],
}

/// The verdict on the signature of a received message.
#[derive(Clone, Copy)]
pub enum Judgement<'a> {
    /// The message isn't signed.
    Absent,
    /// The signature is good, with this key.
    Good(Signer<'a>),
    /// The signature is bad, or names an unknown key.
    Bad,
}

impl<'a> Judgement<'a> {
    /// Whether there is no signature.
    pub fn is_absent(&self) -> bool
        ensures { result ≡ is_absent (shown_standing self.now) }
    {
        matches!(self, Judgement::Absent)
    }

    /// Whether there is a bad signature.
    pub fn is_bad(&self) -> bool
        ensures { result ≡ is_bad (shown_standing self.now) }
    {
        matches!(self, Judgement::Bad)
    }

    /// The key of a good signature.
    pub fn key(&self) -> Option<Signer<'a>>
        ensures { option_map shown_key result ≡ key_of_standing (shown_standing self.now) }
    {
        match self {
            Judgement::Good(key) => Some(*key),
            Judgement::Absent | Judgement::Bad => None,
        }
    }

    /// Whether the signature is good, with the key of this name.
    pub fn is_good_by(&self, name: &[u8]) -> bool
        ensures { result ≡ is_good_by name.now (shown_standing self.now) }
    {
        match self {
            Judgement::Good(key) => key.name == name,
            Judgement::Absent | Judgement::Bad => false,
        }
    }
}

impl Core {
    /// Verifies the signature of a message received at a moment; `from` and `to` are the datagram's addresses and ports.
    #[tactic(auto, unfolding(crate::specs::Signatures::standing))]
    pub(crate) fn judgement<'a>(
        &'a self,
        view: &HtcpView<'a>,
        from: End,
        to: End,
        clock: Moment,
    ) -> Judgement<'a>
        ensures value { shown_standing result ≡ standing (record self.now { clock = clock }) from to (received view.now) }
        ensures named { IsShortlyNamed (key_of_standing (shown_standing result)) }
    {
        self.judged(view, &both_ends(from, to), clock.seconds())
    }

    /// Verifies the signature of a message received between these ends, at a second.
    fn judged<'a>(&'a self, view: &HtcpView<'a>, ends: &[u8; 12], seconds: u32) -> Judgement<'a>
        ensures value { shown_standing result ≡ standing_of_auth self.now.rows.keys (received view.now) ends.now seconds (shown_auth view.now.auth) }
        ensures named { IsShortlyNamed (key_of_standing (shown_standing result)) }
    {
        let HtcpAuth::Signed { key_name, .. } = view.auth else {
            return Judgement::Absent;
        };
        let Some(secret) = self.table.secret(key_name) else {
            return Judgement::Bad;
        };
        let key = Signer {
            name: key_name,
            secret,
        };
        judged_under(key, verify(view, ends, secret, seconds))
    }

    /// The key of this name; `None` if no name is given or the key is unknown.
    pub(crate) fn key_named<'a>(&'a self, name: &'a Option<Octets>) -> Option<Signer<'a>>
        ensures value { option_map shown_key result ≡ key_named self.now name.now }
        ensures named { IsShortlyNamed (option_map shown_key result) }
    {
        let Some(name) = name else {
            return None;
        };
        let name = name.as_slice();
        let Some(secret) = self.table.secret(name) else {
            return None;
        };
        Some(Signer { name, secret })
    }

    /// Encodes a message to a receiver at a moment, signed if there is a key. Errors: out of memory.
    pub(crate) fn text_to(
        &self,
        alloc: Global,
        clock: Moment,
        to: End,
        view: &HtcpView<'_>,
        key: Option<Signer<'_>>,
    ) -> Result<Payload, NoMemory>
        requires writable { IsWritable (shown view.now) }
        requires short { length (body_text (shown_body view.now.body)) ≤ 65000 }
        requires named { IsShortlyNamed (option_map shown_key key) }
        ensures { IfOk result (λ payload. payload ≡ text_to (record self.now { clock = clock }) to (shown view.now) (option_map shown_key key.entry)) }
    {
        match key {
            None => Ok(Payload::new(unsigned(alloc, view)?)),
            Some(key) => self.signed_to(alloc, clock, to, view, key),
        }
    }

    /// Encodes a message to a receiver at a moment, signed with a key. Errors: out of memory.
    pub(crate) fn signed_to(
        &self,
        alloc: Global,
        clock: Moment,
        to: End,
        view: &HtcpView<'_>,
        key: Signer<'_>,
    ) -> Result<Payload, NoMemory>
        requires writable { IsWritable (shown view.now) }
        requires short { length (body_text (shown_body view.now.body)) ≤ 65000 }
        requires named { length key.name.now ≤ 255 }
        ensures { IfOk result (λ payload. payload ≡ text_to (record self.now { clock = clock }) to (shown view.now) (Some (shown_key key.entry))) }
    {
        let ends = both_ends(self.rules.htcp(), to);
        signed(alloc, view, &ends, key.name, key.secret, clock.seconds())
    }
}

/// The verdict on a signature that was checked with this key.
fn judged_under(key: Signer<'_>, sign: Sign) -> Judgement<'_>
    ensures { shown_standing result ≡ standing_by_check (shown_key key.entry) sign }
{
    match sign {
        Sign::Absent => Judgement::Absent,
        Sign::Good => Judgement::Good(key),
        Sign::Bad => Judgement::Bad,
    }
}

/// Encodes a message, signed with a key of this name and secret. Errors: out of memory.
fn signed(
    alloc: Global,
    view: &HtcpView<'_>,
    ends: &[u8; 12],
    name: &[u8],
    secret: &[u8],
    seconds: u32,
) -> Result<Payload, NoMemory>
    requires writable { IsWritable (shown view.now) }
    requires short { length (body_text (shown_body view.now.body)) ≤ 65000 }
    requires named { length name.now ≤ 255 }
    ensures { IfOk result (λ payload. payload ≡ message_text (sealed (shown view.now) ends.now name.now secret.now seconds)) }
{
    match sign(alloc, view, ends, name, secret, seconds) {
        Ok(octets) => Ok(Payload::new(octets)),
        Err(EncodeFault::NoMemory) => Err(NoMemory),
        Err(EncodeFault::TooLong) => unreachable!(),
    }
}

/// Encodes a message without a signature. Errors: out of memory.
pub(crate) fn unsigned(alloc: Global, view: &HtcpView<'_>) -> Result<Vec<u8>, NoMemory>
    requires writable { IsWritable (shown view.now) }
    requires short { length (body_text (shown_body view.now.body)) ≤ 65000 }
    ensures { IfOk result (λ octets. octets.items ≡ message_text (without_auth (shown view.now))) }
{
    match encode(alloc, view) {
        Ok(octets) => Ok(octets),
        Err(EncodeFault::NoMemory) => Err(NoMemory),
        Err(EncodeFault::TooLong) => unreachable!(),
    }
}
