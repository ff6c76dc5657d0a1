//! How two filters differ in datagrams.

ghost use Rattle.std.specs.Prelude.{◌≡◌, IsTrue, length};
ghost use Rattle.capture.specs.View.{shown};
ghost use Rattle.replay.specs.Aim.{is_complete};
ghost use Rattle.replay.specs.Comparison.{differing, differing_at, no_comparison, together};
ghost use Rattle.replay.specs.Contrast.{contrast_by};
ghost use Rattle.replay.specs.Finding.{value_of};
ghost use Rattle.replay.specs.Tally.{plus};

use crate::finding::handed_on;
use bpf_check::Checked;
use bpf_run::{Packet, Socket, judge};
use capture::UdpView;

/// How two filters differ in a datagram.
#[derive(Clone, Copy, PartialEq, Eq)]
pub enum Contrast {
    /// Both reject it, or both hand on as many octets.
    Same,
    /// The first accepts it, the other rejects it.
    FirstAlone,
    /// The other accepts it, the first rejects it.
    OtherAlone,
    /// Both accept it, and hand on different numbers of octets.
    Lengths,
}

/// Numbers of datagrams, by how the two filters differ in them. Saturating.
#[derive(Clone, Copy)]
pub struct Differences {
    /// All that were judged.
    pub datagrams: u64,
    /// Those that the first filter alone accepts.
    pub first_alone: u64,
    /// Those that the other filter alone accepts.
    pub other_alone: u64,
    /// Those that both accept, and hand on with different lengths.
    pub lengths: u64,
}

/// The counts of both query sockets, and of what is not judged. Saturating.
#[derive(Clone, Copy)]
pub struct Comparison {
    pub icp: Differences,
    pub htcp: Differences,
    /// Datagrams for one of the sockets whose payload was not captured as a whole.
    pub partial: u64,
    /// Frames without a datagram for one of the sockets.
    pub others: u64,
}

impl Differences {
    /// All counters at 0.
    pub(crate) const ZERO: Differences = Differences {
        datagrams: 0,
        first_alone: 0,
        other_alone: 0,
        lengths: 0,
    };

    /// The counts after one more datagram.
    pub(crate) fn differing(self, contrast: Contrast) -> Differences
        ensures { result ≡ differing self contrast }
    {
        let counts = Differences {
            datagrams: self.datagrams.saturating_add(1),
            ..self
        };
        match contrast {
            Contrast::Same => counts,
            Contrast::FirstAlone => Differences {
                first_alone: self.first_alone.saturating_add(1),
                ..counts
            },
            Contrast::OtherAlone => Differences {
                other_alone: self.other_alone.saturating_add(1),
                ..counts
            },
            Contrast::Lengths => Differences {
                lengths: self.lengths.saturating_add(1),
                ..counts
            },
        }
    }

    /// The counts of these and the other datagrams.
    fn together(self, other: Differences) -> Differences
        ensures { result ≡ together self other }
    {
        Differences {
            datagrams: self.datagrams.saturating_add(other.datagrams),
            first_alone: self.first_alone.saturating_add(other.first_alone),
            other_alone: self.other_alone.saturating_add(other.other_alone),
            lengths: self.lengths.saturating_add(other.lengths),
        }
    }
}

impl Comparison {
    /// All counters at 0.
    pub(crate) fn new() -> Comparison
        ensures { result ≡ no_comparison }
    {
        Comparison {
            icp: Differences::ZERO,
            htcp: Differences::ZERO,
            partial: 0,
            others: 0,
        }
    }

    /// The counts of both sockets together.
    pub fn both(&self) -> Differences
        ensures { result ≡ together self.now.icp self.now.htcp }
    {
        self.icp.together(self.htcp)
    }

    /// The counts after one more datagram for this socket.
    pub(crate) fn differing_at(self, socket: Socket, contrast: Contrast) -> Comparison
        ensures { result ≡ differing_at socket self contrast }
    {
        match socket {
            Socket::Icp => Comparison {
                icp: self.icp.differing(contrast),
                ..self
            },
            Socket::Htcp => Comparison {
                htcp: self.htcp.differing(contrast),
                ..self
            },
        }
    }

    /// The counts after one more datagram that was not captured as a whole.
    pub(crate) fn with_partial(self) -> Comparison
        ensures { result ≡ record self { partial = plus self.partial 1 } }
    {
        Comparison {
            partial: self.partial.saturating_add(1),
            ..self
        }
    }

    /// The counts after one more frame without a datagram for a socket.
    pub(crate) fn with_other(self) -> Comparison
        ensures { result ≡ record self { others = plus self.others 1 } }
    {
        Comparison {
            others: self.others.saturating_add(1),
            ..self
        }
    }
}

/// The program's verdict on a datagram, all of whose payload is there.
pub(crate) fn verdict_on(program: &Checked, datagram: &UdpView<'_>) -> u32
    requires { IsTrue (is_complete (shown datagram.now)) }
    ensures { result ≡ value_of program.now (shown datagram.now) }
{
    let Some(packet) = Packet::new(datagram.from, datagram.to, datagram.payload) else {
        unreachable!();
    };
    judge(program, &packet).value
}

/// How two verdicts on a payload differ.
pub fn contrast_by(payload: &[u8], first: u32, other: u32) -> Contrast
    ensures { result ≡ contrast_by payload.now first other }
{
    if first == 0 {
        return if other == 0 {
            Contrast::Same
        } else {
            Contrast::OtherAlone
        };
    }
    if other == 0 {
        return Contrast::FirstAlone;
    }
    if handed_on(payload, first).len() == handed_on(payload, other).len() {
        Contrast::Same
    } else {
        Contrast::Lengths
    }
}
