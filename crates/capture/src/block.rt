//! The blocks of a pcapng file, as octets.

ghost use Rattle.std.specs.Prelude.{◌≡◌, ◌≤◌, ◌++◌, length, IsTrue, Some, IfOk, IfSome, MatchOption};
ghost use Rattle.std.specs.Io.KnownBytes.{IsAtEnd};
ghost use Rattle.capture.specs.Block.{begins_section, is_block, order_of, prepended, TakesBlock};

use crate::fault::CaptureFault;
use crate::order::{Order, word};
use crate::record::{fill, take_octets};
use std::alloc::AllocError;
use std::io::Read;

/// The type of a section header block; it is the same in both byte orders.
const SECTION: u32 = 0x0a0d_0d0a;

/// What stands in a section header block in the byte order of its section.
const MAGIC: u32 = 0x1a2b_3c4d;

/// The longest block that is read, in octets.
pub const MOST_BLOCK: u32 = 1_048_576;

/// The number of octets of the shortest block: its type, its length, and its length again.
pub(crate) const FRONT: usize = 12;

/// Takes the next block out of a reader, behind blocks of the byte order `order`: it replaces the contents of `block`, and its own
/// byte order is returned. The contents of `rest` are lost. Returns `None` at the end of the file.
///
/// Errors: `Ends`, `TooLong`, `Block`, `NotCapture` for a section's magic number that is none, `Read` and `NoMemory`.
#[tactic(auto, using(crate::proofs::Blocks::behind_front))]
pub(crate) fn take_block<R: Read>(
    reader: &mut R,
    order: Order,
    block: &mut Vec<u8>,
    rest: &mut Vec<u8>,
) -> Result<Option<Order>, CaptureFault>
    ensures taken { IfOk result (λ taken. MatchOption taken (IsAtEnd (R.remaining reader.old)) (λ own. TakesBlock order (R.remaining reader.old) (R.remaining reader.new) own block.new.items)) }
    ensures long { IfOk result (λ taken. IfSome taken (λ _. 12 ≤ length block.new.items)) }
{
    let mut front = [0u8; FRONT];
    let got = fill(reader, &mut front)?;
    if got == 0 {
        return Ok(None);
    }
    if got < FRONT {
        return Err(CaptureFault::Ends);
    }
    let own = take_behind(reader, order, &front, block, rest)?;
    Ok(Some(own))
}

/// Takes the rest of a block out of a reader, whose first octets were taken already. Otherwise as `take_block`.
#[tactic(auto, using(crate::proofs::Blocks::takes_block))]
pub(crate) fn take_behind<R: Read>(
    reader: &mut R,
    order: Order,
    front: &[u8; FRONT],
    block: &mut Vec<u8>,
    rest: &mut Vec<u8>,
) -> Result<Order, CaptureFault>
    ensures taken { IfOk result (λ own. TakesBlock order (prepended front.now (R.remaining reader.old)) (R.remaining reader.new) own block.new.items) }
    ensures long { IfOk result (λ _. 12 ≤ length block.new.items) }
{
    let own = order_of(order, front)?;
    let total = word(own, front, 4);
    if total > MOST_BLOCK {
        return Err(CaptureFault::TooLong);
    }
    if total < FRONT as u32 {
        return Err(CaptureFault::Block);
    }
    take_octets(reader, total - FRONT as u32, rest)?;
    join(front, rest, block)?;
    let own = whole_block(order, block)?;
    Ok(own)
}

/// Puts two parts together; they replace the contents of `whole`.
pub(crate) fn join(front: &[u8], rest: &[u8], whole: &mut Vec<u8>) -> Result<(), AllocError>
    ensures { IfOk result (λ _. whole.new.items ≡ front.now ++ rest.now) }
{
    whole.clear();
    whole.extend_from_slice(front)?;
    whole.extend_from_slice(rest)?;
    Ok(())
}

// The byte order of a block, where it is whole.
fn whole_block(order: Order, block: &[u8]) -> Result<Order, CaptureFault>
    ensures own { IfOk result (λ own. order_of order block.now ≡ Some own) }
    ensures whole { IfOk result (λ own. IsTrue (is_block own block.now)) }
    ensures long { IfOk result (λ _. 12 ≤ length block.now) }
{
    if block.len() < FRONT {
        return Err(CaptureFault::Block);
    }
    let own = order_of(order, block)?;
    if !is_block(own, block) {
        return Err(CaptureFault::Block);
    }
    Ok(own)
}

/// Whether a section header block begins so.
pub(crate) fn begins_section(block: &[u8]) -> bool
    requires { 4 ≤ length block.now }
    ensures { result ≡ begins_section block.now }
{
    word(Order::Big, block, 0) == SECTION
}

// The byte order of a block behind blocks of the order `order`. Errors: `NotCapture` for a section's magic number that is none.
fn order_of(order: Order, block: &[u8]) -> Result<Order, CaptureFault>
    requires { 12 ≤ length block.now }
    ensures { IfOk result (λ own. order_of order block.now ≡ Some own) }
{
    if !begins_section(block) {
        return Ok(order);
    }
    if word(Order::Big, block, 8) == MAGIC {
        return Ok(Order::Big);
    }
    if word(Order::Little, block, 8) == MAGIC {
        return Ok(Order::Little);
    }
    Err(CaptureFault::NotCapture)
}

// Whether the octets are a block: its length stands behind its type and at its end.
fn is_block(order: Order, block: &[u8]) -> bool
    ensures { result ≡ is_block order block.now }
{
    block.len() >= 12
        && block.len() % 4 == 0
        && word(order, block, 4) as usize == block.len()
        && word(order, block, block.len() - 4) as usize == block.len()
}
