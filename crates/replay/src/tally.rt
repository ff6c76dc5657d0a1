//! The counts of a capture.

ghost use Rattle.std.specs.Prelude.{◌≡◌};
ghost use Rattle.replay.specs.Tally.{counted, counted_at, no_counts, no_tally, plus};

use crate::finding::Finding;
use bpf_run::Socket;

/// Numbers of datagrams, by what the filter makes of them. Saturating.
#[derive(Clone, Copy)]
pub struct Counts {
    /// All that were judged.
    pub datagrams: u64,
    /// With verdict 0.
    pub rejected: u64,
    /// Accepted, but not handed on as a whole.
    pub cut: u64,
    /// Accepted, but what is handed on is no message.
    pub malformed: u64,
    /// The whole payload is no message.
    pub unfiltered: u64,
}

/// The counts of both query sockets, and of what is not judged. Saturating.
#[derive(Clone, Copy)]
pub struct Tally {
    pub icp: Counts,
    pub htcp: Counts,
    /// Datagrams for one of the sockets whose payload was not captured as a whole.
    pub partial: u64,
    /// Frames without a datagram for one of the sockets.
    pub others: u64,
}

impl Counts {
    /// All counters at 0.
    pub(crate) const ZERO: Counts = Counts {
        datagrams: 0,
        rejected: 0,
        cut: 0,
        malformed: 0,
        unfiltered: 0,
    };

    /// The counts after one more datagram.
    pub(crate) fn counted(self, finding: Finding) -> Counts
        ensures { result ≡ counted self finding }
    {
        Counts {
            datagrams: self.datagrams.saturating_add(1),
            rejected: self.rejected.saturating_add((finding.value == 0) as u64),
            cut: self.cut.saturating_add(finding.cut as u64),
            malformed: self.malformed.saturating_add(finding.malformed as u64),
            unfiltered: self.unfiltered.saturating_add(finding.unfiltered as u64),
        }
    }

    /// The number of accepted datagrams.
    pub fn accepted(&self) -> u64 {
        self.datagrams.saturating_sub(self.rejected)
    }
}

impl Tally {
    /// All counters at 0.
    pub(crate) fn new() -> Tally
        ensures { result ≡ no_tally }
    {
        Tally {
            icp: Counts::ZERO,
            htcp: Counts::ZERO,
            partial: 0,
            others: 0,
        }
    }

    /// The counts after one more datagram for this socket.
    pub(crate) fn counted_at(self, socket: Socket, finding: Finding) -> Tally
        ensures { result ≡ counted_at socket self finding }
    {
        match socket {
            Socket::Icp => Tally {
                icp: self.icp.counted(finding),
                ..self
            },
            Socket::Htcp => Tally {
                htcp: self.htcp.counted(finding),
                ..self
            },
        }
    }

    /// The counts after one more datagram that was not captured as a whole.
    pub(crate) fn with_partial(self) -> Tally
        ensures { result ≡ record self { partial = plus self.partial 1 } }
    {
        Tally {
            partial: self.partial.saturating_add(1),
            ..self
        }
    }

    /// The counts after one more frame without a datagram for a socket.
    pub(crate) fn with_other(self) -> Tally
        ensures { result ≡ record self { others = plus self.others 1 } }
    {
        Tally {
            others: self.others.saturating_add(1),
            ..self
        }
    }
}
