//! Captures, read packet by packet.

ghost use Rattle.std.specs.Prelude.{◌≡◌, ◌≤◌, length, Some, IfOk, MatchOption};
ghost use Rattle.capture.specs.Packet.{SoFar, TakesPacket, TakesNoPacket, head_of, ticks_in_second};
ghost use Rattle.capture.specs.Start.{TakesStart, TakesSection};
ghost use Rattle.capture.specs.Step.{Steps};
ghost use Rattle.capture.specs.Block.{prepended};
ghost use Rattle.capture.specs.Blocks.{interfaces_after, is_packet, is_section};
ghost use Rattle.capture.specs.declared.reading.Form.TheVariants.{Classic, Blocks};

use crate::block::{FRONT, begins_section, take_behind, take_block};
use crate::fault::CaptureFault;
use crate::file::{FileHead, take_head_behind};
use crate::head::PacketHead;
use crate::interface::{Interface, interface_of};
use crate::order::{Order, half, word};
use crate::packet::packet_of;
use crate::record::{RecordHead, fill, take_record};
use std::alloc::Global;
use std::io::Read;
use std::marker::Model;

/// The number of octets of a classic file's header, and of a record's.
const HEAD: u64 = 24;

const RECORD_HEAD: u64 = 16;

/// The most interfaces of a section that are read.
pub const MOST_INTERFACES: usize = 65_536;

/// The form of a capture file.
#[derive(Clone, Copy)]
pub enum Form {
    /// A classic pcap file, with what its header says.
    Classic(FileHead),
    /// A pcapng file, with the byte order of the section that was reached.
    Blocks(Order),
}

/// What a record or block was.
#[derive(Clone, Copy)]
pub enum Step {
    /// None: the file ends.
    End,
    /// A block without a packet.
    Passed,
    /// A packet.
    Packet(PacketHead),
}

/// A capture file, as far as it was read. Contracts see its form, and the interfaces that its section described so far.
#[derive(Drop)]
pub struct Capture {
    form: Form,
    interfaces: Vec<Interface>,
    block: Vec<u8>,
    place: u64,
}

impl Model for Capture {
    ghost use Rattle.capture.specs.Packet.{SoFar};

    ghost Value = { SoFar };

    ghost view = { λ c. record { form = c.form; interfaces = c.interfaces.items } };
}

/// Takes what a capture file begins with out of a reader: the header of a classic pcap file, 24 octets, or the section header block
/// of a pcapng file.
///
/// Errors: `NotCapture` for a magic number or a major version other than these forms have, `LinkType` (of a classic file), `Ends`,
/// `TooLong`, `Block`, `Read`, `NoMemory`. Each is about octet 0.
#[tactic(auto, using(crate::proofs::Starts::classic_start, crate::proofs::Starts::section_start))]
pub fn take_start<R: Read>(alloc: Global, reader: &mut R) -> Result<Capture, CaptureFault>
    ensures { IfOk result (λ capture. TakesStart (R.remaining reader.old) (R.remaining reader.new) capture) }
{
    let mut block = Vec::new(alloc);
    let interfaces = Vec::new(alloc);
    let mut front = [0u8; FRONT];
    let got = fill(reader, &mut front)?;
    if got < FRONT {
        return Err(CaptureFault::Ends);
    }
    if !begins_section(&front) {
        let head = take_head_behind(alloc, reader, &front)?;
        return Ok(Capture {
            form: Form::Classic(head),
            interfaces,
            block,
            place: HEAD,
        });
    }
    let order = take_section_behind(alloc, reader, &front, &mut block)?;
    let place = block.len() as u64;
    Ok(Capture {
        form: Form::Blocks(order),
        interfaces,
        block,
        place,
    })
}

// Takes the rest of a section header block out of a reader, whose first octets were taken already. It replaces the contents of
// `block`.
#[tactic(auto, using(crate::proofs::Starts::takes_section))]
fn take_section_behind<R: Read>(
    alloc: Global,
    reader: &mut R,
    front: &[u8; FRONT],
    block: &mut Vec<u8>,
) -> Result<Order, CaptureFault>
    ensures { IfOk result (λ order. TakesSection (prepended front.now (R.remaining reader.old)) (R.remaining reader.new) order) }
{
    let mut rest = Vec::new(alloc);
    let order = take_behind(reader, Order::Big, front, block, &mut rest)?;
    if block.len() < FRONT || !begins_section(block) || !is_section(order, block) {
        return Err(CaptureFault::NotCapture);
    }
    Ok(order)
}

impl Capture {
    /// Takes the next packet out of a reader: what the file says of it is returned, and its captured octets replace the contents of
    /// `frame`. Blocks without a packet are passed over. Returns `None` at the end of the file; then, and
    /// after an error, what `frame` holds is not said.
    ///
    /// Errors: `Ends`, `TooLong`, `Read`, `NoMemory`, and of a pcapng file `Block`, `Interface`, and `NotCapture` of another major
    /// version. After an error the reader stands within the record or block that begins at `place`.
    #[tactic(auto, using(crate::proofs::Passing::leads_none, crate::proofs::Passing::leads_more, crate::proofs::Passing::leads_packet, crate::proofs::Passing::leads_end))]
    pub fn take_packet<R: Read>(
        &mut self,
        reader: &mut R,
        frame: &mut Vec<u8>,
    ) -> Result<Option<PacketHead>, CaptureFault>
        ensures taken { IfOk result (λ taken. MatchOption taken (TakesNoPacket self.old (R.remaining reader.old)) (λ head. TakesPacket self.old (R.remaining reader.old) self.new (R.remaining reader.new) head frame.new.items)) }
    {
        'blocks: for _ in 0..u64::MAX {
            match self.step(reader, frame)? {
                Step::End => return Ok(None),
                Step::Passed => (),
                Step::Packet(head) => return Ok(Some(head)),
            }
        }
        Err(CaptureFault::Read)
    }

    /// Where the record or block begins that is taken next, or that the last fault is about, in octets from the file's start.
    pub fn place(&self) -> u64 {
        self.place
    }

    // Takes the next record or block.
    fn step<R: Read>(&mut self, reader: &mut R, frame: &mut Vec<u8>) -> Result<Step, CaptureFault>
        ensures { IfOk result (λ step. Steps self.old (R.remaining reader.old) self.new (R.remaining reader.new) frame.new.items step) }
    {
        match self.form {
            Form::Classic(file) => self.step_record(reader, frame, file),
            Form::Blocks(order) => self.step_block(reader, frame, order),
        }
    }

    // Takes the next record of a classic file.
    #[tactic(auto, using(crate::proofs::Packets::stands_record))]
    fn step_record<R: Read>(
        &mut self,
        reader: &mut R,
        frame: &mut Vec<u8>,
        file: FileHead,
    ) -> Result<Step, CaptureFault>
        requires { self.old.form ≡ Classic file }
        ensures { IfOk result (λ step. Steps self.old (R.remaining reader.old) self.new (R.remaining reader.new) frame.new.items step) }
    {
        let Some(said) = take_record(reader, file.order, frame)? else {
            return Ok(Step::End);
        };
        self.place = self
            .place
            .saturating_add(RECORD_HEAD)
            .saturating_add(frame.len() as u64);
        Ok(Step::Packet(head_of(file, said)))
    }

    // Takes the next block of a pcapng file.
    #[tactic(auto, using(crate::proofs::Packets::stands_packet, crate::proofs::Packets::stands_other))]
    fn step_block<R: Read>(
        &mut self,
        reader: &mut R,
        frame: &mut Vec<u8>,
        order: Order,
    ) -> Result<Step, CaptureFault>
        requires { self.old.form ≡ Blocks order }
        ensures { IfOk result (λ step. Steps self.old (R.remaining reader.old) self.new (R.remaining reader.new) frame.new.items step) }
    {
        let Some(own) = take_block(reader, order, &mut self.block, frame)? else {
            return Ok(Step::End);
        };
        let place = self.place.saturating_add(self.block.len() as u64);
        if is_packet(word(own, &self.block, 0)) {
            let held = packet_of(own, &self.interfaces, &self.block)?;
            frame.clear();
            frame.extend_from_slice(held.captured)?;
            self.place = place;
            return Ok(Step::Packet(held.head));
        }
        note(own, &self.block, &mut self.interfaces)?;
        self.form = Form::Blocks(own);
        self.place = place;
        Ok(Step::Passed)
    }
}

// Notes what a block without a packet says of interfaces.
//
// Errors: `NotCapture` for a section of another version, `Block` if it has no room for its fields, `Interface`, `NoMemory`.
fn note(order: Order, block: &[u8], interfaces: &mut Vec<Interface>) -> Result<(), CaptureFault>
    requires { 12 ≤ length block.now }
    ensures { IfOk result (λ _. interfaces_after order interfaces.old.items block.now ≡ Some interfaces.new.items) }
{
    if begins_section(block) {
        if !is_section(order, block) {
            return Err(CaptureFault::NotCapture);
        }
        interfaces.clear();
        return Ok(());
    }
    if word(order, block, 0) != 1 {
        return Ok(());
    }
    if block.len() < 20 {
        return Err(CaptureFault::Block);
    }
    if interfaces.len() >= MOST_INTERFACES {
        return Err(CaptureFault::Interface);
    }
    match interfaces.push(interface_of(order, block)) {
        Ok(()) => Ok(()),
        Err(_) => Err(CaptureFault::NoMemory),
    }
}

// Whether a section header is one of version 1.
fn is_section(order: Order, block: &[u8]) -> bool
    ensures { result ≡ is_section order block.now }
{
    block.len() >= 28 && half(order, block, 12) == 1
}

// Whether blocks of this type hold a packet.
fn is_packet(kind: u32) -> bool
    ensures { result ≡ is_packet kind }
{
    kind == 2 || kind == 3 || kind == 6
}

// What a classic file says of a packet by the header of its record.
fn head_of(file: FileHead, said: RecordHead) -> PacketHead
    ensures { result ≡ head_of file said }
{
    let second = ticks_in_second(file.nanoseconds);
    PacketHead {
        link: Some(file.link),
        seconds: said.seconds as u64 + (said.fraction / second) as u64,
        nanoseconds: said.fraction % second * (1_000_000_000 / second),
        original: said.original,
    }
}

// The number of parts that a file counts in a second.
fn ticks_in_second(nanoseconds: bool) -> u32
    ensures { result ≡ ticks_in_second nanoseconds }
{
    if nanoseconds {
        1_000_000_000
    } else {
        1_000_000
    }
}
