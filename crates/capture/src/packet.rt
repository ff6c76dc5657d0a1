//! The packets in blocks of a pcapng file.

ghost use Rattle.std.specs.Prelude.{◌≡◌, ◌+◌, ◌*◌, ◌%◌, ◌/◌, ◌<◌, ◌≤◌, length, take, drop, Some, IfOk, IfSome};
ghost use Rattle.std.specs.List.{slice_get};
ghost use Rattle.capture.specs.Blocks.{HoldsPacket, captured_by, fields_of, simple, stamp_of, stamped};
ghost use Rattle.capture.specs.Moment.{head_by, nanoseconds_of, parts_of_second, seconds_of, with_offset};

use crate::fault::CaptureFault;
use crate::head::PacketHead;
use crate::interface::Interface;
use crate::order::{Order, half, word};
use crate::record::MOST_OCTETS;

/// What the fields of a packet block say.
#[derive(Clone, Copy)]
pub struct Fields {
    /// The number of the packet's interface, from 0.
    pub interface: u32,
    /// Its moment in parts of a second, if the block has one.
    pub stamp: Option<u64>,
    /// The number of captured octets, if the block says it.
    pub captured: Option<u32>,
    /// The number of octets that the packet had.
    pub original: u32,
    /// Where the captured octets begin in the block.
    pub at: usize,
}

/// A packet in a block; its captured octets are borrowed from it.
#[derive(Clone, Copy)]
pub(crate) struct Held<'a> {
    pub(crate) head: PacketHead,
    pub(crate) captured: &'a [u8],
}

/// The packet in a packet block of a section with these interfaces.
///
/// Errors: `Block` if it has no room for its fields and octets, `TooLong`, `Interface`.
#[tactic(auto, using(crate::proofs::Packets::holds))]
pub(crate) fn packet_of<'a>(
    order: Order,
    interfaces: &[Interface],
    block: &'a [u8],
) -> Result<Held<'a>, CaptureFault>
    requires { 4 ≤ length block.now }
    ensures { IfOk result (λ held. HoldsPacket order interfaces.now block.now held.head held.captured.now) }
{
    let Some(fields) = fields_of(order, block) else {
        return Err(CaptureFault::Block);
    };
    let Some(interface) = described(interfaces, fields.interface) else {
        return Err(CaptureFault::Interface);
    };
    let count = captured_by(interface, fields.original, fields.captured);
    if count > MOST_OCTETS {
        return Err(CaptureFault::TooLong);
    }
    let Some(captured) = captured_in(block, fields.at, count as usize) else {
        return Err(CaptureFault::Block);
    };
    let Some(head) = head_by(interface, fields) else {
        return Err(CaptureFault::Interface);
    };
    Ok(Held { head, captured })
}

// The interface with this number, if it was described.
fn described(interfaces: &[Interface], number: u32) -> Option<Interface>
    ensures { result ≡ slice_get interfaces.now number }
{
    interfaces.get(number as usize).copied()
}

// So many octets of a block from the place `at`, or `None` if they reach into the length at its end.
fn captured_in(block: &[u8], at: usize, count: usize) -> Option<&[u8]>
    ensures value { IfSome result (λ captured. captured.now ≡ take count (drop at block.now)) }
    ensures within { IfSome result (λ _. at + count + 4 ≤ length block.now) }
{
    if at > block.len() || block.len() - at < 4 || block.len() - at - 4 < count {
        return None;
    }
    let octets = &block[at..];
    Some(&octets[..count])
}

// What a packet block's fields say, where it has room for them.
fn fields_of(order: Order, block: &[u8]) -> Option<Fields>
    requires { 4 ≤ length block.now }
    ensures { result ≡ fields_of order block.now }
{
    let kind = word(order, block, 0);
    if kind == 6 && block.len() >= 32 {
        return Some(stamped(order, word(order, block, 8), block));
    }
    if kind == 2 && block.len() >= 32 {
        return Some(stamped(order, u32::from(half(order, block, 8)), block));
    }
    if kind == 3 && block.len() >= 16 {
        return Some(simple(order, block));
    }
    None
}

// What the fields of an enhanced packet block say, or of a packet block.
fn stamped(order: Order, interface: u32, block: &[u8]) -> Fields
    requires { 32 ≤ length block.now }
    ensures { result ≡ stamped order interface block.now }
{
    Fields {
        interface,
        stamp: Some(stamp_of(order, block)),
        captured: Some(word(order, block, 20)),
        original: word(order, block, 24),
        at: 28,
    }
}

// The moment in a packet block.
fn stamp_of(order: Order, block: &[u8]) -> u64
    requires { 32 ≤ length block.now }
    ensures { result ≡ stamp_of order block.now }
{
    word(order, block, 12) as u64 * 4_294_967_296 + word(order, block, 16) as u64
}

// What the fields of a simple packet block say.
fn simple(order: Order, block: &[u8]) -> Fields
    requires { 16 ≤ length block.now }
    ensures { result ≡ simple order block.now }
{
    Fields {
        interface: 0,
        stamp: None,
        captured: None,
        original: word(order, block, 8),
        at: 12,
    }
}

// The number of captured octets.
fn captured_by(interface: Interface, original: u32, captured: Option<u32>) -> u32
    ensures { result ≡ captured_by interface original captured }
{
    match captured {
        Some(captured) => captured,
        None => {
            if interface.snap == 0 {
                original
            } else {
                original.min(interface.snap)
            }
        }
    }
}

// What the file says of a packet, or `None` if its interface counts parts of a second that 64 bits don't hold.
fn head_by(interface: Interface, fields: Fields) -> Option<PacketHead>
    ensures { IfSome result (λ head. head ≡ head_by interface fields) }
{
    let parts = parts_of_second(interface.resolution)?;
    Some(PacketHead {
        link: interface.link,
        seconds: seconds_of(interface, parts, fields.stamp),
        nanoseconds: nanoseconds_of(interface, parts, fields.stamp),
        original: fields.original,
    })
}

// The whole seconds of a moment.
fn seconds_of(interface: Interface, parts: u64, stamp: Option<u64>) -> u64
    requires some { 0 < parts }
    requires parts { parts ≡ parts_of_second interface.resolution }
    ensures { result ≡ seconds_of interface stamp }
{
    match stamp {
        Some(stamp) => with_offset(interface.offset, stamp / parts),
        None => 0,
    }
}

// The rest of a moment.
fn nanoseconds_of(interface: Interface, parts: u64, stamp: Option<u64>) -> u32
    requires some { 0 < parts }
    requires parts { parts ≡ parts_of_second interface.resolution }
    ensures { result ≡ nanoseconds_of interface stamp }
{
    match stamp {
        Some(stamp) => ((stamp % parts) as u128 * 1_000_000_000 / parts as u128) as u32,
        None => 0,
    }
}

// Seconds with an offset in two's complement: none below 0.
fn with_offset(offset: u64, seconds: u64) -> u64
    ensures { result ≡ with_offset offset seconds }
{
    if offset < 0x8000_0000_0000_0000 {
        seconds.saturating_add(offset)
    } else {
        seconds.saturating_sub(0xffff_ffff_ffff_ffff - offset + 1)
    }
}

// The parts of a second that moments count, or `None` if 64 bits don't hold the number.
#[tactic(auto, using(crate::proofs::Moments::tens))]
fn parts_of_second(resolution: u8) -> Option<u64>
    ensures value { IfSome result (λ parts. parts ≡ parts_of_second resolution) }
    ensures some { IfSome result (λ parts. 0 < parts) }
{
    if resolution < 20 {
        return Some(10u64.pow(resolution as u32));
    }
    if resolution >= 128 && resolution < 192 {
        return Some(2u64.pow(resolution as u32 - 128));
    }
    None
}
