//! Counts of datagrams and of answers.

ghost use Rattle.std.specs.Prelude.{◌≡◌};
ghost use Rattle.filter_replay.specs.Tally.{answered, are_equal, counted};

use crate::answer::Kind;
use crate::part::Part;

/// Numbers of packets, by what they are to the cache. Saturating.
#[derive(Clone, Copy)]
pub struct Counts {
    /// Datagrams to one of the query sockets.
    pub received: u64,
    /// Datagrams from one of them.
    pub sent: u64,
    /// Datagrams to or from one of them that were not captured as a whole.
    pub partial: u64,
    /// All other packets.
    pub others: u64,
}

/// Numbers of answers at a socket, by how those of the capture and of the node differ. Saturating.
#[derive(Clone, Copy)]
pub struct Answers {
    /// Both have it, with the same octets.
    pub equal: u64,
    /// Both have it, with the same opcode and URL, but other octets.
    pub alike: u64,
    /// Both have an answer, but these are not the same.
    pub other: u64,
    /// The capture alone has it.
    pub capture_alone: u64,
    /// The node alone sent it.
    pub node_alone: u64,
}

impl Counts {
    /// All counters at 0.
    pub(crate) const ZERO: Counts = Counts {
        received: 0,
        sent: 0,
        partial: 0,
        others: 0,
    };

    /// The counts after one more packet.
    pub(crate) fn counted(self, part: Part) -> Counts
        ensures { result ≡ counted self part }
    {
        match part {
            Part::Received(_) => Counts {
                received: self.received.saturating_add(1),
                ..self
            },
            Part::Sent(_) => Counts {
                sent: self.sent.saturating_add(1),
                ..self
            },
            Part::Partial => Counts {
                partial: self.partial.saturating_add(1),
                ..self
            },
            Part::Other => Counts {
                others: self.others.saturating_add(1),
                ..self
            },
        }
    }
}

impl Answers {
    /// All counters at 0.
    pub(crate) const ZERO: Answers = Answers {
        equal: 0,
        alike: 0,
        other: 0,
        capture_alone: 0,
        node_alone: 0,
    };

    /// The counts after one more answer, or pair of answers.
    pub(crate) fn answered(self, kind: Kind) -> Answers
        ensures { result ≡ answered self kind }
    {
        match kind {
            Kind::Equal => Answers {
                equal: self.equal.saturating_add(1),
                ..self
            },
            Kind::Alike => Answers {
                alike: self.alike.saturating_add(1),
                ..self
            },
            Kind::Other => Answers {
                other: self.other.saturating_add(1),
                ..self
            },
            Kind::CaptureAlone => Answers {
                capture_alone: self.capture_alone.saturating_add(1),
                ..self
            },
            Kind::NodeAlone => Answers {
                node_alone: self.node_alone.saturating_add(1),
                ..self
            },
        }
    }

    /// Whether each answer of one side is equal to one of the other.
    pub fn are_equal(&self) -> bool
        ensures { result ≡ are_equal self.now }
    {
        self.alike == 0 && self.other == 0 && self.capture_alone == 0 && self.node_alone == 0
    }
}
