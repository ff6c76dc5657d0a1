//! The header of a classic pcap file.

ghost use Rattle.std.specs.Prelude.{◌≡◌, ◌≤◌, length, IfOk};
ghost use Rattle.capture.specs.Block.{prepended};
ghost use Rattle.capture.specs.Head.{Says, TakesHead, form_of};

use crate::block::{FRONT, join};
use crate::fault::CaptureFault;
use crate::link::Link;
use crate::order::{Order, half, word};
use crate::record::{fill, take_octets};
use std::alloc::Global;
use std::io::Read;

/// The magic number of files whose moments are in microseconds.
const MICROSECONDS: u32 = 0xa1b2_c3d4;

/// The magic number of files whose moments are in nanoseconds.
const NANOSECONDS: u32 = 0xa1b2_3c4d;

/// What the header of a classic pcap file says.
#[derive(Clone, Copy)]
pub struct FileHead {
    /// The byte order of the file's numbers.
    pub order: Order,
    /// Whether the fraction of a moment counts nanoseconds; microseconds otherwise.
    pub nanoseconds: bool,
    /// The link type of all records.
    pub link: Link,
}

/// Takes the header of a classic pcap file (24 octets) out of a reader.
///
/// Errors: `NotCapture` for a magic number or a major version other than pcap's, `LinkType`, `Ends`, `Read`.
pub fn take_head<R: Read>(reader: &mut R) -> Result<FileHead, CaptureFault>
    ensures { IfOk result (λ head. TakesHead (R.remaining reader.old) (R.remaining reader.new) head) }
{
    let mut header = [0u8; 24];
    let got = fill(reader, &mut header)?;
    if got < header.len() {
        return Err(CaptureFault::Ends);
    }
    head_of(&header)
}

/// Takes the rest of a classic pcap file's header (24 octets) out of a reader, whose first octets were taken already.
///
/// Errors: `NotCapture` for a magic number or a major version other than pcap's, `LinkType`, `Ends`, `Read`, `NoMemory`.
#[tactic(auto, using(crate::proofs::Starts::takes_head))]
pub(crate) fn take_head_behind<R: Read>(
    alloc: Global,
    reader: &mut R,
    front: &[u8; FRONT],
) -> Result<FileHead, CaptureFault>
    ensures { IfOk result (λ head. TakesHead (prepended front.now (R.remaining reader.old)) (R.remaining reader.new) head) }
{
    let mut rest = Vec::new(alloc);
    take_octets(reader, 12, &mut rest)?;
    let mut header = Vec::new(alloc);
    join(front, &rest, &mut header)?;
    if header.len() != 24 {
        return Err(CaptureFault::Ends);
    }
    let head = head_of(&header)?;
    Ok(head)
}

// What the header says.
fn head_of(header: &[u8]) -> Result<FileHead, CaptureFault>
    requires { 24 ≤ length header.now }
    ensures { IfOk result (λ head. Says header.now head) }
{
    let Some((order, nanoseconds)) = form_of(header) else {
        return Err(CaptureFault::NotCapture);
    };
    if half(order, header, 4) != 2 {
        return Err(CaptureFault::NotCapture);
    }
    // The upper bits say whether frames end with a check sequence, and how long it is.
    match Link::of(word(order, header, 20) % 65_536) {
        Some(link) => Ok(FileHead {
            order,
            nanoseconds,
            link,
        }),
        None => Err(CaptureFault::LinkType),
    }
}

// The byte order, and whether moments count nanoseconds, by the magic number.
fn form_of(header: &[u8]) -> Option<(Order, bool)>
    requires { 24 ≤ length header.now }
    ensures { result ≡ form_of header.now }
{
    let big = word(Order::Big, header, 0);
    let little = word(Order::Little, header, 0);
    if big == MICROSECONDS {
        Some((Order::Big, false))
    } else if big == NANOSECONDS {
        Some((Order::Big, true))
    } else if little == MICROSECONDS {
        Some((Order::Little, false))
    } else if little == NANOSECONDS {
        Some((Order::Little, true))
    } else {
        None
    }
}
