//! Why a record or block of a capture is not read.

use std::alloc::AllocError;
use std::fmt;

/// Why the next packet of a capture is not read. It prints as `capture fault` and its number.
#[derive(Clone, Copy, PartialEq, Eq)]
pub enum CaptureFault {
    /// 1: The file does not begin as a classic pcap file of version 2 does, nor a section as those of a pcapng file of version 1.
    NotCapture,
    /// 2: The link type of the classic file is not one that is read.
    LinkType,
    /// 3: The file ends within its header, or within a record or block.
    Ends,
    /// 4: A record or block says that it has more than 262,144 octets of a packet, or a block more than 1,048,576 in all.
    TooLong,
    /// 5: The reader failed.
    Read,
    /// 6: An allocation failed.
    NoMemory,
    /// 7: A block's length is no multiple of four, does not stand at its end too, or has no room for the block's fields.
    Block,
    /// 8: A packet's interface was not described, or counts moments in parts of a second finer than 10^-19 or 2^-63; or a section
    /// describes more than 65,536 interfaces.
    Interface,
}

impl CaptureFault {
    /// The fault's number in printed messages, 1 to 8.
    pub fn number(&self) -> u8 {
        match self {
            CaptureFault::NotCapture => 1,
            CaptureFault::LinkType => 2,
            CaptureFault::Ends => 3,
            CaptureFault::TooLong => 4,
            CaptureFault::Read => 5,
            CaptureFault::NoMemory => 6,
            CaptureFault::Block => 7,
            CaptureFault::Interface => 8,
        }
    }
}

impl fmt::Display for CaptureFault {
    fn fmt<W: fmt::Write>(&self, f: &mut fmt::Formatter<W>) -> fmt::Result {
        write!(f, "capture fault {}", self.number())
    }
}

impl From<AllocError> for CaptureFault {
    ghost use Rattle.std.specs.Prelude.{◌≡◌};
    ghost use Rattle.capture.specs.declared.fault.CaptureFault.TheVariants.{NoMemory};

    ghost from_gives = { λ _ e. e ≡ NoMemory };

    fn from(_e: AllocError) -> CaptureFault {
        CaptureFault::NoMemory
    }
}
