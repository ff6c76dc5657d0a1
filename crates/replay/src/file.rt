//! Replays of whole files.

ghost use Rattle.std.specs.Prelude.{◌≡◌, IfOk, IfSome, MatchOption};
ghost use Rattle.capture.specs.Packet.{TakesPacket, TakesNoPacket};
ghost use Rattle.capture.specs.Start.{TakesStart};
ghost use Rattle.capture.specs.Udp.{udp_at};
ghost use Rattle.replay.specs.File.{IsCountOf, AreCounted};
ghost use Rattle.replay.specs.Tally.{no_tally, seen};

use crate::aim::{Aim, is_complete};
use crate::details::{Details, Share};
use crate::fault::ReplayFault;
use crate::finding::{Finding, judge_datagram};
use crate::samples::Samples;
use crate::tally::Tally;
use bpf_check::Checked;
use bpf_run::Socket;
use capture::{Capture, Link, PacketHead, UdpView, take_start, udp_at};
use node_terms::Network;
use std::alloc::{AllocError, Global};
use std::io::Read;

/// What is asked of a capture.
#[derive(Clone, Copy)]
pub struct Question<'a> {
    /// The filter.
    pub program: &'a Checked,
    /// The datagrams that are judged.
    pub aim: Aim,
    /// The senders that are counted once more by themselves.
    pub network: Network,
}

/// What a filter makes of the datagrams of a capture.
#[derive(Drop)]
pub struct Report {
    /// The counts.
    pub tally: Tally,
    /// The same by sender, opcode and instruction.
    pub details: Details,
    /// The judged datagrams of the network's senders.
    pub within: Share,
    /// The first datagrams that are accepted as a whole, that are cut, and that are rejected.
    pub accepted: Samples,
    pub cut: Samples,
    pub rejected: Samples,
}

/// Runs a filter over all datagrams of a classic pcap file or a pcapng file. Memory is bounded whatever the file's size.
///
/// Errors: `Capture` for a file that is not one or is broken, with the place of the broken header, record or block; `NoMemory`.
#[tactic(auto, using(crate::proofs::Records::whole_file))]
pub fn replay<R: Read>(
    alloc: Global,
    reader: &mut R,
    question: &Question<'_>,
) -> Result<Report, ReplayFault>
    ensures { IfOk result (λ report. IfSome (R.remaining reader.old) (λ octets. IsCountOf question.now.program.now question.now.aim octets report.tally)) }
{
    let mut capture = open(alloc, reader)?;
    let mut report = Report::new(alloc, question.program.len())?;
    report.take_all(alloc, reader, question, &mut capture)?;
    report.details.settle()?;
    Ok(report)
}

/// Takes what the file begins with.
pub(crate) fn open<R: Read>(alloc: Global, reader: &mut R) -> Result<Capture, ReplayFault>
    ensures { IfOk result (λ capture. TakesStart (R.remaining reader.old) (R.remaining reader.new) capture) }
{
    match take_start(alloc, reader) {
        Ok(capture) => Ok(capture),
        Err(fault) => Err(ReplayFault::Capture { fault, place: 0 }),
    }
}

/// Takes the next packet; its octets replace the contents of `frame`. Returns `None` at the end of the file.
pub(crate) fn next_packet<R: Read>(
    capture: &mut Capture,
    reader: &mut R,
    frame: &mut Vec<u8>,
) -> Result<Option<PacketHead>, ReplayFault>
    ensures { IfOk result (λ taken. MatchOption taken (TakesNoPacket capture.old (R.remaining reader.old)) (λ head. TakesPacket capture.old (R.remaining reader.old) capture.new (R.remaining reader.new) head frame.new.items)) }
{
    match capture.take_packet(reader, frame) {
        Ok(taken) => Ok(taken),
        Err(fault) => Err(ReplayFault::Capture {
            fault,
            place: capture.place(),
        }),
    }
}

impl Report {
    // Nothing counted yet, for a program with this number of instructions.
    fn new(alloc: Global, instructions: usize) -> Result<Report, AllocError>
        ensures { IfOk result (λ report. report.tally ≡ no_tally) }
    {
        let details = Details::new(alloc, instructions)?;
        Ok(Report {
            tally: Tally::new(),
            details,
            within: Share::NONE,
            accepted: Samples::new(alloc),
            cut: Samples::new(alloc),
            rejected: Samples::new(alloc),
        })
    }

    // Takes all packets that are left of the file.
    #[tactic(auto, using(crate::proofs::Records::leads_none, crate::proofs::Records::leads_more, crate::proofs::Records::leads_end))]
    fn take_all<R: Read>(
        &mut self,
        alloc: Global,
        reader: &mut R,
        question: &Question<'_>,
        capture: &mut Capture,
    ) -> Result<(), ReplayFault>
        ensures { IfOk result (λ _. IfSome (R.remaining reader.old) (λ octets. AreCounted question.now.program.now question.now.aim capture.old octets self.old.tally self.new.tally)) }
    {
        let mut frame = Vec::new(alloc);
        'packets: for number in 0..u64::MAX {
            let Some(head) = next_packet(capture, reader, &mut frame)? else {
                return Ok(());
            };
            self.take(alloc, question, number + 1, head.link, &frame)?;
        }
        Err(ReplayFault::NoMemory)
    }

    // Counts the frame of a packet.
    fn take(
        &mut self,
        alloc: Global,
        question: &Question<'_>,
        number: u64,
        link: Option<Link>,
        frame: &[u8],
    ) -> Result<(), AllocError>
        ensures { IfOk result (λ _. self.new.tally ≡ seen question.now.program.now question.now.aim self.old.tally (udp_at link frame.now)) }
    {
        let Some(datagram) = udp_at(link, frame) else {
            self.tally = self.tally.with_other();
            return Ok(());
        };
        let Some(socket) = question.aim.socket_of(datagram.to) else {
            self.tally = self.tally.with_other();
            return Ok(());
        };
        if !is_complete(&datagram) {
            self.tally = self.tally.with_partial();
            return Ok(());
        }
        let judged = judge_datagram(question.program, socket, &datagram);
        self.tally = self.tally.counted_at(socket, judged.finding);
        self.details
            .count(socket, datagram.from, datagram.payload, &judged)?;
        if question.network.contains(datagram.from.addr) {
            self.within = self.within.counted(judged.finding.value == 0);
        }
        self.keep(alloc, number, socket, &datagram, judged.finding)
    }

    // Keeps a datagram, if it is one of the first of its kind.
    fn keep(
        &mut self,
        alloc: Global,
        number: u64,
        socket: Socket,
        datagram: &UdpView<'_>,
        finding: Finding,
    ) -> Result<(), AllocError>
        ensures { self.new.tally ≡ self.old.tally }
    {
        if finding.value == 0 {
            return self.rejected.keep(alloc, number, socket, datagram);
        }
        if finding.cut {
            return self.cut.keep(alloc, number, socket, datagram);
        }
        self.accepted.keep(alloc, number, socket, datagram)
    }
}
