//! Comparisons of two filters over whole files.

ghost use Rattle.std.specs.Prelude.{◌≡◌, IfOk, IfSome};
ghost use Rattle.capture.specs.Udp.{udp_at};
ghost use Rattle.replay.specs.Comparison.{AreCompared, IsComparisonOf, met, no_comparison};

use crate::aim::{Aim, is_complete};
use crate::contrast::{Comparison, Contrast, contrast_by, verdict_on};
use crate::fault::ReplayFault;
use crate::file::{next_packet, open};
use crate::samples::MOST_SAMPLES;
use bpf_check::Checked;
use bpf_run::{End, Socket};
use capture::{Capture, Link, UdpView, udp_at};
use std::alloc::{AllocError, Global};
use std::io::Read;

/// The two filters that are compared.
#[derive(Clone, Copy)]
pub struct Pair<'a> {
    pub first: &'a Checked,
    pub other: &'a Checked,
    /// The datagrams that are judged.
    pub aim: Aim,
}

/// A datagram in which two filters differ.
#[derive(Clone, Copy)]
pub struct Differing {
    /// The number of its packet in the file, from 1.
    pub number: u64,
    /// The socket that it is for.
    pub socket: Socket,
    /// Its source.
    pub from: End,
    /// The number of octets of its payload.
    pub octets: usize,
    /// The verdicts of both filters.
    pub first: u32,
    pub other: u32,
}

/// What two filters make of the same datagrams.
#[derive(Drop)]
pub struct Compared {
    /// The counts.
    pub comparison: Comparison,
    /// The first ten datagrams in which they differ, in the order of the file.
    pub samples: Vec<Differing>,
}

/// Runs two filters over all datagrams of a classic pcap file or a pcapng file, and counts where they differ. Memory is bounded
/// whatever the file's size.
///
/// Errors: `Capture` for a file that is not one or is broken, with the place of the broken header, record or block; `NoMemory`.
#[tactic(auto, using(crate::proofs::Comparing::whole_file))]
pub fn compare<R: Read>(
    alloc: Global,
    reader: &mut R,
    pair: &Pair<'_>,
) -> Result<Compared, ReplayFault>
    ensures { IfOk result (λ compared. IfSome (R.remaining reader.old) (λ octets. IsComparisonOf pair.now.first.now pair.now.other.now pair.now.aim octets compared.comparison)) }
{
    let mut capture = open(alloc, reader)?;
    let mut compared = Compared::new(alloc);
    compared.take_all(alloc, reader, pair, &mut capture)?;
    Ok(compared)
}

impl Compared {
    // Nothing compared yet.
    fn new(alloc: Global) -> Compared
        ensures { result.comparison ≡ no_comparison }
    {
        Compared {
            comparison: Comparison::new(),
            samples: Vec::new(alloc),
        }
    }

    // Takes all packets that are left of the file.
    #[tactic(auto, using(crate::proofs::Comparing::leads_none, crate::proofs::Comparing::leads_more, crate::proofs::Comparing::leads_end))]
    fn take_all<R: Read>(
        &mut self,
        alloc: Global,
        reader: &mut R,
        pair: &Pair<'_>,
        capture: &mut Capture,
    ) -> Result<(), ReplayFault>
        ensures { IfOk result (λ _. IfSome (R.remaining reader.old) (λ octets. AreCompared pair.now.first.now pair.now.other.now pair.now.aim capture.old octets self.old.comparison self.new.comparison)) }
    {
        let mut frame = Vec::new(alloc);
        'packets: for number in 0..u64::MAX {
            let Some(head) = next_packet(capture, reader, &mut frame)? else {
                return Ok(());
            };
            self.take(pair, number + 1, head.link, &frame)?;
        }
        Err(ReplayFault::NoMemory)
    }

    // Counts the frame of a packet.
    fn take(
        &mut self,
        pair: &Pair<'_>,
        number: u64,
        link: Option<Link>,
        frame: &[u8],
    ) -> Result<(), AllocError>
        ensures { IfOk result (λ _. self.new.comparison ≡ met pair.now.first.now pair.now.other.now pair.now.aim self.old.comparison (udp_at link frame.now)) }
    {
        let Some(datagram) = udp_at(link, frame) else {
            self.comparison = self.comparison.with_other();
            return Ok(());
        };
        let Some(socket) = pair.aim.socket_of(datagram.to) else {
            self.comparison = self.comparison.with_other();
            return Ok(());
        };
        if !is_complete(&datagram) {
            self.comparison = self.comparison.with_partial();
            return Ok(());
        }
        let first = verdict_on(pair.first, &datagram);
        let other = verdict_on(pair.other, &datagram);
        let contrast = contrast_by(datagram.payload, first, other);
        self.comparison = self.comparison.differing_at(socket, contrast);
        if contrast == Contrast::Same {
            return Ok(());
        }
        self.keep(Differing {
            number,
            socket,
            from: datagram.from,
            octets: datagram.payload.len(),
            first,
            other,
        })
    }

    // Keeps a datagram, unless there are ten already.
    fn keep(&mut self, differing: Differing) -> Result<(), AllocError>
        ensures { self.new.comparison ≡ self.old.comparison }
    {
        if self.samples.len() < MOST_SAMPLES {
            self.samples.push(differing)?;
        }
        Ok(())
    }
}
