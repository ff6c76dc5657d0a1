//! HTCP messages and requests.
ghost use Rattle.std.specs.Prelude.{◌≡◌, ◌==◌, ◌<◌, ◌≤◌, ◌+◌, ℕ, [], length, drop, position, true, false, Some, None, IfOk, IsOk, OnOk, OnErr, IfSome, unwrap_or, is_none, is_some, ◌&&◌, option_copied, if◌then◌else◌};
ghost use Rattle.std.specs.Option.{option_map};
ghost use Rattle.htcp_packet.specs.Message.{request_form};
ghost use Rattle.htcp_packet.specs.Reading.{message_of};
ghost use Rattle.htcp_packet.specs.View.{shown, shown_body, received};
ghost use Rattle.htcp_packet.specs.Writing.{FitsForm};
ghost use Rattle.plain_node.specs.PlainNode.{at_clock};
ghost use Rattle.plain_node.specs.Plain.{received_step, htcp_step};
ghost use Rattle.plain_node.specs.Messages.{is_http};
ghost use Rattle.plain_node.specs.HtcpRequests.{htcp_request_step, refusal_code, comes_to, served, uri_key, slash_behind_80, is_get_or_head, answer, answers_to, after_clear, is_cleared};
ghost use Rattle.plain_node.specs.Signatures.{SignatureStanding, standing, key_of_standing, text_to};
ghost use Rattle.plain_node.specs.Signed.{shown_key, shown_standing, IsShortlyNamed, Suits, uri_in};
ghost use Rattle.plain_node.specs.Memory.{sends_none, is_clear, writes_key, writes_key_of};

use crate::NoMemory;
use crate::action::Out;
use crate::core_node::Core;
use crate::finding::Finding;
use crate::signatures::{Judgement, Signer};
use filter_slots::{Datagram, End, Moment, Socket};
use htcp_packet::codes::{
    AUTHENTICATION_FAILED, AUTHENTICATION_REQUIRED, CLR, NOP, NOT_ALLOWED, NOT_IMPLEMENTED, TST,
};
use htcp_packet::{HtcpAuth, HtcpBody, HtcpView, decode};
use neighbours::Octets;
use node_words::{Action, Payload};
use std::alloc::Global;

impl Core {
    /// Handles the octets of an HTCP datagram. Returns whether they fail to decode. Errors: out of memory.
    #[tactic(auto, unfolding(crate::specs::Plain::received_step))]
    pub(crate) fn htcp(
        &mut self,
        alloc: Global,
        datagram: &Datagram,
        octets: &[u8],
        now: Moment,
        out: &mut Out,
    ) -> Result<bool, NoMemory>
        requires { out.old ≡ [] }
        ensures plain { OnOk result (self.new ≡ (received_step (at_clock self.old now) datagram.now.from datagram.now.to (message_of octets.now)).0) }
        ensures actions { OnOk result (out.new ≡ (received_step (at_clock self.old now) datagram.now.from datagram.now.to (message_of octets.now)).1) }
        ensures malformed { IfOk result (λ malformed. malformed ≡ is_none (message_of octets.now)) }
        ensures refused { OnErr result ((self.new ≡ self.old) × (out.new ≡ [])) }
        ensures silent { sends_none (received_step (at_clock self.old now) datagram.now.from datagram.now.to (message_of octets.now)).1 ≡ true → writes_key_of (at_clock self.old now) datagram.now.from datagram.now.to (message_of octets.now) ≡ false → IsOk result }
    {
        let Ok(view) = decode(octets) else {
            self.tick(now);
            return Ok(true);
        };
        self.htcp_message(alloc, datagram.from(), datagram.to(), &view, now, out)?;
        Ok(false)
    }

    /// Handles a decoded message, a response or a request.
    fn htcp_message(
        &mut self,
        alloc: Global,
        from: End,
        to: End,
        view: &HtcpView<'_>,
        now: Moment,
        out: &mut Out,
    ) -> Result<(), NoMemory>
        requires empty { out.old ≡ [] }
        requires opcode { view.now.opcode < 16 }
        requires fits { view.now.rr ≡ false → FitsForm (request_form view.now.opcode) (shown_body view.now.body) }
        ensures plain { OnOk result (self.new ≡ (htcp_step (at_clock self.old now) from to (received view.now) view.now.rr).0) }
        ensures actions { OnOk result (out.new ≡ (htcp_step (at_clock self.old now) from to (received view.now) view.now.rr).1) }
        ensures refused { OnErr result ((self.new ≡ self.old) × (out.new ≡ [])) }
        ensures silent { sends_none (htcp_step (at_clock self.old now) from to (received view.now) view.now.rr).1 ≡ true → writes_key_of (at_clock self.old now) from to (Some (received view.now)) ≡ false → IsOk result }
    {
        if view.rr {
            self.take_response(from, to, view, now, out);
            return Ok(());
        }
        self.take_request(alloc, from, to, view, now, out)
    }

    /// Handles a request. Without RD it gets no response, and only a CLR has an effect.
    #[tactic(auto, unfolding(crate::specs::HtcpRequests::htcp_request_step))]
    fn take_request(
        &mut self,
        alloc: Global,
        from: End,
        to: End,
        view: &HtcpView<'_>,
        now: Moment,
        out: &mut Out,
    ) -> Result<(), NoMemory>
        requires empty { out.old ≡ [] }
        requires opcode { view.now.opcode < 16 }
        requires fits { FitsForm (request_form view.now.opcode) (shown_body view.now.body) }
        ensures plain { OnOk result (self.new ≡ (htcp_request_step (at_clock self.old now) from to (received view.now)).0) }
        ensures actions { OnOk result (out.new ≡ (htcp_request_step (at_clock self.old now) from to (received view.now)).1) }
        ensures refused { OnErr result ((self.new ≡ self.old) × (out.new ≡ [])) }
        ensures silent { sends_none (htcp_request_step (at_clock self.old now) from to (received view.now)).1 ≡ true → writes_key (at_clock self.old now) from (shown view.now) (standing (at_clock self.old now) from to (received view.now)) ≡ false → IsOk result }
    {
        if !view.f1 && !is_clear(&view.body) {
            self.tick(now);
            return Ok(());
        }
        let clock = self.clock.later(now);
        let (finding, written) = self.respond(alloc, clock, from, to, view, out)?;
        self.tick(now);
        self.clear(finding, &view.body, &written);
        Ok(())
    }

    /// Evaluates a request at a moment and sends the response if one is requested (RD). Returns the result, and the store key
    /// of its URI if that differs from the URI.
    fn respond(
        &self,
        alloc: Global,
        clock: Moment,
        from: End,
        to: End,
        view: &HtcpView<'_>,
        out: &mut Out,
    ) -> Result<(Finding, Option<Octets>), NoMemory>
        requires empty { out.old ≡ [] }
        requires opcode { view.now.opcode < 16 }
        requires fits { FitsForm (request_form view.now.opcode) (shown_body view.now.body) }
        ensures finding { IfOk result (λ found. found.0 ≡ comes_to (record self.now { clock = clock }) (shown_body view.now.body) (refusal_code (record self.now { clock = clock }) from view.now.opcode (standing (record self.now { clock = clock }) from to (received view.now)))) }
        ensures key { IfOk result (λ found. is_cleared found.0 ≡ true → unwrap_or found.1 (uri_in (shown_body view.now.body)) ≡ uri_key (uri_in (shown_body view.now.body))) }
        ensures actions { IfOk result (λ found. out.new ≡ answers_to (record self.now { clock = clock }) from (shown view.now) (standing (record self.now { clock = clock }) from to (received view.now)) found.0 view.now.f1) }
        ensures refused { OnErr result (out.new ≡ []) }
        ensures silent { view.now.f1 ≡ false → (is_none (refusal_code (record self.now { clock = clock }) from view.now.opcode (standing (record self.now { clock = clock }) from to (received view.now))) && is_some (slash_behind_80 (uri_in (shown_body view.now.body)))) ≡ false → IsOk result }
    {
        let judgement = self.judgement(view, from, to, clock);
        let refusal_code = self.refusal_code(from, view.opcode, &judgement);
        let written = written_unless(alloc, refusal_code, &view.body)?;
        let finding = self.finding(clock, refusal_code, &view.body, &written);
        self.answer_request(alloc, clock, from, view, finding, &judgement, out)?;
        Ok((finding, written))
    }

    /// Sends the response to a request at a moment, if one is requested (RD).
    fn answer_request(
        &self,
        alloc: Global,
        clock: Moment,
        to: End,
        request: &HtcpView<'_>,
        finding: Finding,
        judgement: &Judgement<'_>,
        out: &mut Out,
    ) -> Result<(), NoMemory>
        requires empty { out.old ≡ [] }
        requires opcode { request.now.opcode < 16 }
        requires suits { Suits request.now.opcode finding }
        requires named { IsShortlyNamed (key_of_standing (shown_standing judgement.now)) }
        ensures actions { OnOk result (out.new ≡ answers_to (record self.now { clock = clock }) to (shown request.now) (shown_standing judgement.now) finding request.now.f1) }
        ensures refused { OnErr result (out.new ≡ []) }
        ensures silent { request.now.f1 ≡ false → IsOk result }
    {
        if request.f1 {
            let payload = self.answer_text(alloc, clock, to, request, finding, judgement.key())?;
            out.push(Action::Send {
                socket: Socket::Htcp,
                to,
                payload,
            });
        }
        Ok(())
    }

    /// The result of a request at a moment: refused with this code, if any, else evaluated. `written` is the store key of its
    /// URI if that differs from the URI.
    fn finding(
        &self,
        clock: Moment,
        refusal_code: Option<u8>,
        body: &HtcpBody<'_>,
        written: &Option<Octets>,
    ) -> Finding
        requires key { refusal_code ≡ None → unwrap_or written.now (uri_in (shown_body body.now)) ≡ uri_key (uri_in (shown_body body.now)) }
        ensures { result ≡ comes_to (record self.now { clock = clock }) (shown_body body.now) refusal_code }
    {
        match refusal_code {
            Some(code) => Finding::Refused(code),
            None => self.served(clock, body, written),
        }
    }

    /// The overall response code that refuses a request, the first that applies, or `None` if it is served.
    #[tactic(auto, unfolding(crate::specs::HtcpRequests::refusal_code))]
    fn refusal_code(&self, from: End, opcode: u8, judgement: &Judgement<'_>) -> Option<u8>
        ensures { (clock : ℕ) → result ≡ refusal_code (record self.now { clock = clock }) from opcode (shown_standing judgement.now) }
    {
        if !self.rules.allows(from.addr) {
            return Some(NOT_ALLOWED);
        }
        if opcode != NOP && opcode != TST && opcode != CLR {
            return Some(NOT_IMPLEMENTED);
        }
        if judgement.is_bad() {
            return Some(AUTHENTICATION_FAILED);
        }
        if opcode == CLR && judgement.is_absent() {
            return Some(AUTHENTICATION_REQUIRED);
        }
        None
    }

    /// The result of a request that isn't refused. `written` is the store key of its URI if that differs from the URI.
    fn served(&self, clock: Moment, body: &HtcpBody<'_>, written: &Option<Octets>) -> Finding
        requires key { unwrap_or written.now (uri_in (shown_body body.now)) ≡ uri_key (uri_in (shown_body body.now)) }
        ensures { result ≡ served (record self.now { clock = clock }) (shown_body body.now) }
    {
        match body {
            HtcpBody::Empty => Finding::Alive,
            HtcpBody::Specifier(specifier) => {
                let key = key_or(written, specifier.uri);
                if is_get_or_head(specifier.method)
                    && self.store.peek_octets(key, clock).is_some()
                {
                    return Finding::Found;
                }
                Finding::NotFound
            }
            HtcpBody::Clear { specifier, .. } => {
                let key = key_or(written, specifier.uri);
                if is_get_or_head(specifier.method) && self.store.holds_octets(key) {
                    return Finding::Cleared;
                }
                Finding::NotCleared
            }
            HtcpBody::Detail(_) | HtcpBody::CacheHeaders(_) | HtcpBody::Opaque(_) => {
                Finding::Refused(NOT_IMPLEMENTED)
            }
        }
    }

    /// The response to a request at a moment, signed with the request's key if its signature was good.
    fn answer_text(
        &self,
        alloc: Global,
        clock: Moment,
        to: End,
        request: &HtcpView<'_>,
        finding: Finding,
        key: Option<Signer<'_>>,
    ) -> Result<Payload, NoMemory>
        requires opcode { request.now.opcode < 16 }
        requires suits { Suits request.now.opcode finding }
        requires named { IsShortlyNamed (option_map shown_key key) }
        ensures { IfOk result (λ payload. payload ≡ text_to (record self.now { clock = clock }) to (answer (shown request.now) finding) (option_map shown_key key.entry)) }
    {
        let view = HtcpView {
            minor: request.minor,
            opcode: request.opcode,
            response: finding.code(),
            f1: finding.is_refusal(),
            rr: true,
            trans: request.trans,
            body: finding.body(),
            raw: b"",
            auth: HtcpAuth::Unsigned,
        };
        self.text_to(alloc, clock, to, &view, key)
    }

    /// Removes a cleared object from the store. `written` is the store key of its URI if that differs from the URI.
    fn clear(&mut self, finding: Finding, body: &HtcpBody<'_>, written: &Option<Octets>)
        requires key { is_cleared finding ≡ true → unwrap_or written.now (uri_in (shown_body body.now)) ≡ uri_key (uri_in (shown_body body.now)) }
        ensures { self.new ≡ after_clear self.old finding (shown_body body.now) }
    {
        if finding == Finding::Cleared && is_clear(body) {
            let _ = self.store.remove_octets(key_or(written, uri_in(body)));
        }
    }
}

/// Whether a request is a CLR.
fn is_clear(body: &HtcpBody<'_>) -> bool
    ensures { result ≡ is_clear (shown_body body.now) }
{
    matches!(body, HtcpBody::Clear { .. })
}

/// The URI of a TST or CLR; empty for other operations.
fn uri_in<'a>(body: &HtcpBody<'a>) -> &'a [u8]
    ensures { result.now ≡ uri_in (shown_body body.now) }
{
    match body {
        HtcpBody::Specifier(specifier) => specifier.uri,
        HtcpBody::Clear { specifier, .. } => specifier.uri,
        _ => b"",
    }
}

/// Whether the method is GET or HEAD.
fn is_get_or_head(method: &[u8]) -> bool
    ensures { result ≡ is_get_or_head method.now }
{
    method == b"GET".as_slice() || method == b"HEAD".as_slice()
}

/// The key `written`, or the URI itself if there is none.
fn key_or<'a>(written: &'a Option<Octets>, uri: &'a [u8]) -> &'a [u8]
    ensures { result.now ≡ unwrap_or written.now uri.now }
{
    match written {
        Some(key) => key.as_slice(),
        None => uri,
    }
}

/// The store key of a request's URI if it differs from the URI; `None` for a refused request.
fn written_unless(
    alloc: Global,
    refusal_code: Option<u8>,
    body: &HtcpBody<'_>,
) -> Result<Option<Octets>, NoMemory>
    ensures key { IfOk result (λ written. refusal_code ≡ None → unwrap_or written (uri_in (shown_body body.now)) ≡ uri_key (uri_in (shown_body body.now))) }
    ensures silent { (is_none refusal_code && is_some (slash_behind_80 (uri_in (shown_body body.now)))) ≡ false → IsOk result }
{
    match refusal_code {
        Some(_) => Ok(None),
        None => written_key(alloc, uri_in(body)),
    }
}

/// The store key of a URI if it differs from the URI: without `:80` before the first slash after `http://`. Errors: out of
/// memory.
#[tactic(auto, unfolding(crate::specs::HtcpRequests::uri_key))]
fn written_key(alloc: Global, uri: &[u8]) -> Result<Option<Octets>, NoMemory>
    ensures key { IfOk result (λ written. unwrap_or written uri.now ≡ uri_key uri.now) }
    ensures silent { is_some (slash_behind_80 uri.now) ≡ false → IsOk result }
{
    let Some(end) = slash_behind_80(uri) else {
        return Ok(None);
    };
    let mut key = Vec::with_capacity(alloc, uri.len())?;
    key.extend_from_slice(&uri[..end + 4])?;
    key.extend_from_slice(&uri[end + 7..])?;
    Ok(Some(Octets::new(key)))
}

/// The index of the first slash after `http://`, counted from there, if `:80` comes right before it.
#[tactic(auto, unfolding(crate::specs::HtcpRequests::slash_behind_80))]
fn slash_behind_80(uri: &[u8]) -> Option<usize>
    ensures value { result ≡ slash_behind_80 uri.now }
    ensures within { IfSome result (λ end. end + 7 ≤ length uri.now) }
{
    let rest = behind_scheme(uri)?;
    let end = first_slash(rest)?;
    if !rest[..end].ends_with(b":80") {
        return None;
    }
    Some(end)
}

/// The rest of a URI after `http://`, or `None` if it begins otherwise.
fn behind_scheme(uri: &[u8]) -> Option<&[u8]>
    ensures value { option_copied result ≡ (if is_http uri.now then Some (drop 7 uri.now) else None) }
    ensures rest { IfSome result (λ rest. length rest.now + 7 ≡ length uri.now) }
{
    if !uri.starts_with(b"http://") {
        return None;
    }
    Some(&uri[7..])
}

/// The index of the first slash.
fn first_slash(rest: &[u8]) -> Option<usize>
    ensures value { result ≡ position (λ octet. octet == 47) rest.now }
    ensures within { IfSome result (λ end. end < length rest.now) }
{
    rest.iter().position(|&octet| octet == b'/')
}
