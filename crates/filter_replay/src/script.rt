//! The script of a capture.

ghost use Rattle.std.specs.Prelude.{◌≡◌, ◌++◌, OnOk};
ghost use Rattle.capture.specs.Udp.{udp_at};
ghost use Rattle.filter_replay.specs.Taking.{clock_by, lines_of, part_in};
ghost use Rattle.filter_replay.specs.Tally.{counted};

use crate::fault::ScriptFault;
use crate::line::push_datagram;
use crate::moment::Clock;
use crate::packets::{Packet, Packets};
use crate::part::{Part, Sockets, part_of};
use crate::plan::Plan;
use crate::tally::Counts;
use capture::udp_at;
use std::alloc::{AllocError, Global};
use std::io::{Read, Write};
use std::net::Ipv4Addr;

/// The most octets of a script that `feed` reads.
pub const SCRIPT_LIMIT: u64 = 1_000_000_000;

/// How far the packets of a capture are taken.
#[derive(Clone, Copy)]
pub(crate) struct Progress {
    pub(crate) clock: Clock,
    pub(crate) counts: Counts,
}

/// A writer of a script, and the number of octets that it wrote.
#[derive(Drop)]
struct Script<'a, W: Write> {
    output: &'a mut W,
    octets: u64,
}

/// Writes the script for `feed` that delivers to a node what the cache received: the settings of the plan, a line for each
/// datagram to one of the query sockets, in the order of the file, and a comment with the counts. Memory is bounded whatever the
/// file's size.
///
/// Errors: [`ScriptFault`]; what is written by then are whole lines, and a script that `feed` accepts. Only after `Write` the last
/// line may not be whole.
pub fn write_script<R: Read, W: Write>(
    alloc: Global,
    reader: &mut R,
    output: &mut W,
    plan: &Plan<'_>,
) -> Result<Counts, ScriptFault> {
    let mut packets = Packets::open(alloc, reader)?;
    let mut script = Script { output, octets: 0 };
    script.put_settings(alloc, plan)?;
    let mut progress = Progress::new(plan);
    let mut frame = Vec::new(alloc);
    let mut line = Vec::new(alloc);
    for _ in 0..u64::MAX {
        let Some(packet) = packets.take(reader, &mut frame)? else {
            script.put_counts(alloc, progress.counts)?;
            return Ok(progress.counts);
        };
        line.clear();
        progress.take(alloc, &plan.sockets, &packet, &frame, &mut line)?;
        script.put(&line, packet.number)?;
    }
    Ok(progress.counts)
}

impl Progress {
    /// Nothing taken yet.
    pub(crate) fn new(plan: &Plan<'_>) -> Progress {
        Progress {
            clock: Clock::new(plan.from_1970),
            counts: Counts::ZERO,
        }
    }

    // Takes a packet, and appends its line, if it has one.
    fn take(
        &mut self,
        alloc: Global,
        sockets: &Sockets,
        packet: &Packet,
        frame: &[u8],
        line: &mut Vec<u8>,
    ) -> Result<(), AllocError>
        ensures lines { OnOk result (line.new.items ≡ line.old.items ++ lines_of sockets.now self.old.clock packet.now.time (udp_at packet.now.link frame.now)) }
        ensures clock { OnOk result (self.new.clock ≡ clock_by self.old.clock packet.now.time (part_in sockets.now (udp_at packet.now.link frame.now))) }
        ensures counts { OnOk result (self.new.counts ≡ counted self.old.counts (part_in sockets.now (udp_at packet.now.link frame.now))) }
    {
        self.clock = self.clock.started(packet.time);
        let Some(datagram) = udp_at(packet.link, frame) else {
            self.counts = self.counts.counted(Part::Other);
            return Ok(());
        };
        let part = part_of(sockets, &datagram);
        self.counts = self.counts.counted(part);
        let Part::Received(socket) = part else {
            return Ok(());
        };
        let now = self.clock.moment(packet.time);
        self.clock.last = now;
        push_datagram(line, alloc, socket, datagram.from, datagram.payload, now)?;
        line.extend_from_slice(b"\n")
    }
}

impl<W: Write> Script<'_, W> {
    // Writes lines, which come from this record. Errors: `Write`; `TooLong`, then nothing is written.
    fn put(&mut self, lines: &[u8], record: u64) -> Result<(), ScriptFault> {
        let octets = self.octets.saturating_add(lines.len() as u64);
        if octets > SCRIPT_LIMIT {
            return Err(ScriptFault::TooLong { record });
        }
        match self.output.write_all(lines) {
            Ok(()) => {
                self.octets = octets;
                Ok(())
            }
            Err(_) => Err(ScriptFault::Write),
        }
    }

    // Writes the settings, and the line that starts the node.
    fn put_settings(&mut self, alloc: Global, plan: &Plan<'_>) -> Result<(), ScriptFault> {
        let own = Ipv4Addr::from_octets(plan.sockets.own);
        let mut lines = format!(in alloc; "own {own}\n")?;
        for network in plan.allowed {
            let (address, prefix) = (Ipv4Addr::from_octets(network.addr), network.prefix);
            write!(lines, "allow {address}/{prefix}\n")?;
        }
        if plan.miss_nofetch {
            lines.push_str("nofetch on\n")?;
        }
        lines.push_str("go\n")?;
        self.put(lines.as_bytes(), 0)
    }

    // Writes the counts, in a comment; nothing if there is no room for it.
    fn put_counts(&mut self, alloc: Global, counts: Counts) -> Result<(), ScriptFault> {
        let Counts {
            received,
            sent,
            partial,
            others,
        } = counts;
        let line = format!(in alloc;
            "# received {received} sent {sent} partial {partial} others {others}\n"
        )?;
        match self.put(line.as_bytes(), 0) {
            Err(ScriptFault::TooLong { .. }) => Ok(()),
            result => result,
        }
    }
}
