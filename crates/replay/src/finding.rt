//! What a filter makes of a datagram.

ghost use Rattle.std.specs.Prelude.{◌≡◌, IsTrue, length};
ghost use Rattle.bpf_run.specs.Packet.{filter_packet};
ghost use Rattle.bpf_run.specs.Run.{EndsAt};
ghost use Rattle.capture.specs.View.{shown};
ghost use Rattle.replay.specs.Aim.{is_complete};
ghost use Rattle.replay.specs.Finding.{handed_on, is_no_message, finding_by, finding_of};

use bpf_check::Checked;
use bpf_run::packet::HEADER;
use bpf_run::{Packet, Socket, judge_with_end};
use capture::UdpView;

/// What a filter makes of a datagram.
#[derive(Clone, Copy)]
pub struct Finding {
    /// The verdict; 0 rejects the datagram.
    pub value: u32,
    /// Whether it is accepted, and less than its payload handed on.
    pub cut: bool,
    /// Whether it is accepted, and what is handed on is no message of the socket's protocol.
    pub malformed: bool,
    /// Whether its whole payload is no message.
    pub unfiltered: bool,
}

/// A finding, and where the run ended.
#[derive(Clone, Copy)]
pub struct Judged {
    pub finding: Finding,
    /// The 0-based index of the instruction that ended the run.
    pub end: usize,
}

/// Runs the program on a datagram for the socket, all of whose payload is there.
pub fn judge_datagram(program: &Checked, socket: Socket, datagram: &UdpView<'_>) -> Judged
    requires { IsTrue (is_complete (shown datagram.now)) }
    ensures finding { result.finding ≡ finding_of program.now socket (shown datagram.now) }
    ensures end { EndsAt program.now (filter_packet datagram.now.from datagram.now.to datagram.now.payload.now) result.end }
{
    let Some(packet) = Packet::new(datagram.from, datagram.to, datagram.payload) else {
        unreachable!();
    };
    let ending = judge_with_end(program, &packet);
    Judged {
        finding: finding_by(ending.value, socket, datagram.payload),
        end: ending.place,
    }
}

// What becomes of a payload under a verdict.
fn finding_by(value: u32, socket: Socket, payload: &[u8]) -> Finding
    ensures { result ≡ finding_by value socket payload.now }
{
    let unfiltered = is_no_message(socket, payload);
    let handed_on = handed_on(payload, value);
    // All of it is handed on: the same message, which need not be decoded again.
    if handed_on.len() == payload.len() {
        return Finding {
            value,
            cut: false,
            malformed: value != 0 && unfiltered,
            unfiltered,
        };
    }
    Finding {
        value,
        cut: value != 0,
        malformed: value != 0 && is_no_message(socket, handed_on),
        unfiltered,
    }
}

/// The part of a payload that a verdict hands on.
pub(crate) fn handed_on(payload: &[u8], value: u32) -> &[u8]
    ensures part { result.now ≡ handed_on payload.now value }
    ensures all { length result.now ≡ length payload.now → result.now ≡ payload.now }
{
    let most = value.saturating_sub(HEADER as u32) as usize;
    if most < payload.len() {
        &payload[..most]
    } else {
        payload
    }
}

// Whether the octets are no message of the socket's protocol.
fn is_no_message(socket: Socket, octets: &[u8]) -> bool
    ensures { result ≡ is_no_message socket octets.now }
{
    match socket {
        Socket::Icp => icp_packet::decode(octets).is_err(),
        Socket::Htcp => htcp_packet::decode(octets).is_err(),
    }
}
