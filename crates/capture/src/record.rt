//! The records of a classic pcap file.

ghost use Rattle.std.specs.Prelude.{◌≡◌, ◌<◌, ◌≤◌, length, take, IfOk, MatchOption};
ghost use Rattle.std.specs.Io.KnownBytes.{Consumes, IsAtEnd};
ghost use Rattle.capture.specs.Record.{TakesRecord};

use crate::fault::CaptureFault;
use crate::order::{Order, word};
use std::io::{ErrorKind, Read};

/// The most octets of a packet that are read.
pub const MOST_OCTETS: u32 = 262_144;

/// What the header of a record says besides the number of captured octets.
#[derive(Clone, Copy)]
pub struct RecordHead {
    /// The whole seconds of the moment at which the packet came.
    pub seconds: u32,
    /// The rest of that moment, in the file's unit: micro- or nanoseconds.
    pub fraction: u32,
    /// The number of octets that the packet had.
    pub original: u32,
}

/// Takes the next record out of a reader: its header's fields are returned, and its captured octets replace the contents of
/// `octets`. Returns `None` at the end of the file.
///
/// Errors: `Ends`, `TooLong`, `Read` and `NoMemory`. After an error the reader stands within the record.
pub fn take_record<R: Read>(
    reader: &mut R,
    order: Order,
    octets: &mut Vec<u8>,
) -> Result<Option<RecordHead>, CaptureFault>
    ensures { IfOk result (λ taken. MatchOption taken (IsAtEnd (R.remaining reader.old)) (λ head. TakesRecord order (R.remaining reader.old) (R.remaining reader.new) head octets.new.items)) }
{
    let mut header = [0u8; 16];
    let got = fill(reader, &mut header)?;
    if got == 0 {
        return Ok(None);
    }
    if got < header.len() {
        return Err(CaptureFault::Ends);
    }
    let captured = word(order, &header, 8);
    if captured > MOST_OCTETS {
        return Err(CaptureFault::TooLong);
    }
    take_octets(reader, captured, octets)?;
    Ok(Some(RecordHead {
        seconds: word(order, &header, 0),
        fraction: word(order, &header, 4),
        original: word(order, &header, 12),
    }))
}

/// Takes `count` octets out of a reader; they replace the contents of `octets`. Errors: `Ends`, `Read` and `NoMemory`.
pub(crate) fn take_octets<R: Read>(
    reader: &mut R,
    count: u32,
    octets: &mut Vec<u8>,
) -> Result<(), CaptureFault>
    ensures taken { IfOk result (λ _. Consumes (R.remaining reader.old) (R.remaining reader.new) octets.new.items) }
    ensures long { IfOk result (λ _. length octets.new.items ≡ count) }
{
    octets.resize(count as usize, 0)?;
    match reader.read_exact(octets.as_mut_slice()) {
        Ok(()) => Ok(()),
        Err(e) if e.kind() == ErrorKind::UnexpectedEof => Err(CaptureFault::Ends),
        Err(_) => Err(CaptureFault::Read),
    }
}

/// Reads until the buffer is full or the reader is at its end, and returns the number of octets that were read. Interrupted reads
/// are retried. Errors: `Read`.
pub(crate) fn fill<R: Read>(reader: &mut R, octets: &mut [u8]) -> Result<usize, CaptureFault>
    ensures within { IfOk result (λ n. n ≤ length octets.old) }
    ensures taken { IfOk result (λ n. Consumes (R.remaining reader.old) (R.remaining reader.new) (take n octets.new)) }
    ensures end { IfOk result (λ n. n < length octets.old → IsAtEnd (R.remaining reader.new)) }
{
    let mut at = 0;
    'turns: for _ in 0..u64::MAX {
        if at >= octets.len() {
            return Ok(at);
        }
        match reader.read(&mut octets[at..]) {
            Ok(0) => return Ok(at),
            Ok(n) => at += n,
            Err(e) => {
                if e.kind() != ErrorKind::Interrupted {
                    return Err(CaptureFault::Read);
                }
            }
        }
    }
    Err(CaptureFault::Read)
}
