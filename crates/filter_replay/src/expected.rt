//! How the answers of a node differ from those in a capture.

use crate::answer::{Kind, answer_of, is_question, kind_of};
use crate::fault::ScriptFault;
use crate::packets::{Packet, Packets};
use crate::part::{Part, part_of};
use crate::plan::Plan;
use crate::script::Progress;
use crate::tally::{Answers, Counts};
use crate::waiting::{Queue, Samples, Shown, Waiting};
use bpf_run::{End, Moment, Socket};
use capture::{UdpView, udp_at};
use filter_slots::Datagram;
use node_core::{Action, Config, Event, Node, Out};
use std::alloc::{AllocError, Global};
use std::collections::BTreeMap;
use std::io::Read;
use std::sync::Arc;

/// The limits of the node's store, which stays empty.
const ENTRIES: u32 = 1_000;

const OCTETS: u32 = 1_048_576;

/// How the answers of a node differ from those in a capture.
#[derive(Drop)]
pub struct Expected {
    pub counts: Counts,
    /// Datagrams of the cache that ask others.
    pub questions: u64,
    pub icp: Answers,
    pub htcp: Answers,
    /// Pairs of answers with other codes, by `pair_of` the socket and both codes.
    pub codes: BTreeMap<u64, u64>,
    pub samples: Samples,
}

/// A node that is given what the captured cache received.
#[derive(Drop)]
struct Trial {
    node: Node,
    actions: Out,
    progress: Progress,
    queue: Queue,
    expected: Expected,
}

/// Gives a node with the settings of the plan what the captured cache received, in the order of the file, and compares its answers
/// with those of the cache: each captured one with the oldest answer of the node so far that comes from the same socket, goes to
/// the same end, has the same request number and is not compared yet. Of the node's answers the newest 1,024 wait for theirs.
///
/// Errors: `Capture` for a file that is not one or is broken; `NoMemory`.
pub fn expect<R: Read>(
    alloc: Global,
    reader: &mut R,
    plan: &Plan<'_>,
) -> Result<Expected, ScriptFault> {
    let mut packets = Packets::open(alloc, reader)?;
    let mut trial = Trial::new(alloc, plan)?;
    let mut frame = Vec::new(alloc);
    for _ in 0..u64::MAX {
        let Some(packet) = packets.take(reader, &mut frame)? else {
            break;
        };
        trial.take(alloc, plan, &packet, &frame)?;
    }
    trial.end()
}

/// The key of a socket and two codes in `Expected::codes`.
pub fn pair_of(socket: Socket, node: u16, captured: u16) -> u64 {
    let codes = u64::from(node) * 65_536 + u64::from(captured);
    match socket {
        Socket::Icp => codes,
        Socket::Htcp => 4_294_967_296 + codes,
    }
}

impl Expected {
    fn new(alloc: Global) -> Expected {
        Expected {
            counts: Counts::ZERO,
            questions: 0,
            icp: Answers::ZERO,
            htcp: Answers::ZERO,
            codes: BTreeMap::new(alloc),
            samples: Samples::new(alloc),
        }
    }

    /// Whether each answer of one side is equal to one of the other.
    pub fn are_equal(&self) -> bool {
        self.icp.are_equal() && self.htcp.are_equal()
    }

    // Counts an answer or a pair, and keeps it if it is one of the first of its kind.
    fn note(&mut self, kind: Kind, shown: Shown) -> Result<(), AllocError> {
        match shown.socket {
            Socket::Icp => self.icp = self.icp.answered(kind),
            Socket::Htcp => self.htcp = self.htcp.answered(kind),
        }
        self.samples.keep(kind, shown)
    }

    // Counts the codes of two answers that differ.
    fn note_codes(
        &mut self,
        socket: Socket,
        node: &[u8],
        captured: &[u8],
    ) -> Result<(), AllocError> {
        let (Some(first), Some(other)) = (answer_of(socket, node), answer_of(socket, captured))
        else {
            return Ok(());
        };
        let pair = pair_of(socket, first.code, other.code);
        if let Some(count) = self.codes.get_mut(&pair) {
            *count = count.saturating_add(1);
            return Ok(());
        }
        self.codes.insert(pair, 1)?;
        Ok(())
    }

    // Notes an answer of the node that the capture does not have.
    fn note_node_alone(&mut self, one: Waiting) -> Result<(), AllocError> {
        self.note(
            Kind::NodeAlone,
            Shown {
                record: one.record,
                moment: one.moment,
                socket: one.socket,
                peer: one.to,
                node: Some(one.octets),
                captured: None,
            },
        )
    }
}

impl Trial {
    fn new(alloc: Global, plan: &Plan<'_>) -> Result<Trial, ScriptFault> {
        let mut allowed = Vec::new(alloc);
        allowed.extend_from_slice(plan.allowed)?;
        let config = Config {
            icp: plan.sockets.end_of(Socket::Icp),
            htcp: plan.sockets.end_of(Socket::Htcp),
            allowed,
            miss_nofetch: plan.miss_nofetch,
            origin: true,
            entries: ENTRIES,
            octets: OCTETS,
            neighbours: Vec::new(alloc),
            keys: Vec::new(alloc),
        };
        let node = match Node::new(alloc, config) {
            Ok(node) => node,
            Err(_) => return Err(ScriptFault::NoMemory),
        };
        Ok(Trial {
            node,
            actions: Out::new(alloc)?,
            progress: Progress::new(plan),
            queue: Queue::new(alloc),
            expected: Expected::new(alloc),
        })
    }

    // Takes a packet.
    fn take(
        &mut self,
        alloc: Global,
        plan: &Plan<'_>,
        packet: &Packet,
        frame: &[u8],
    ) -> Result<(), AllocError> {
        self.progress.clock = self.progress.clock.started(packet.time);
        let Some(datagram) = udp_at(packet.link, frame) else {
            self.progress.counts = self.progress.counts.counted(Part::Other);
            return Ok(());
        };
        let part = part_of(&plan.sockets, &datagram);
        self.progress.counts = self.progress.counts.counted(part);
        let now = self.progress.clock.moment(packet.time);
        match part {
            Part::Received(socket) => {
                self.progress.clock.last = now;
                self.deliver(alloc, socket, plan, packet.number, &datagram, now)
            }
            Part::Sent(socket) => self.compare(alloc, socket, packet.number, &datagram, now),
            Part::Partial | Part::Other => Ok(()),
        }
    }

    // Gives the node a datagram, and has its answers wait.
    fn deliver(
        &mut self,
        alloc: Global,
        socket: Socket,
        plan: &Plan<'_>,
        record: u64,
        datagram: &UdpView<'_>,
        now: Moment,
    ) -> Result<(), AllocError> {
        let mut payload = Vec::new(alloc);
        payload.extend_from_slice(datagram.payload)?;
        let own = plan.sockets.end_of(socket);
        // The datagram is complete, so that its payload is short enough.
        let Ok(datagram) = Datagram::new(socket, datagram.from, own, payload) else {
            return Ok(());
        };
        let datagram = Arc::new(alloc, datagram)?;
        self.actions.clear();
        let event = Event::Datagram { datagram, now };
        self.node.step(alloc, &event, &mut self.actions)?;
        for action in self.actions.actions() {
            let Action::Send {
                socket,
                to,
                payload,
            } = action
            else {
                continue;
            };
            let mut octets = Vec::new(alloc);
            octets.extend_from_slice(payload.as_slice())?;
            let Some(answer) = answer_of(*socket, &octets) else {
                continue;
            };
            if self.queue.is_full() {
                if let Some(one) = self.queue.oldest() {
                    self.expected.note_node_alone(one)?;
                }
            }
            self.queue.push(Waiting {
                socket: *socket,
                to: *to,
                number: answer.number,
                record,
                moment: now.millis(),
                octets,
            })?;
        }
        Ok(())
    }

    // Compares an answer of the captured cache with that of the node.
    fn compare(
        &mut self,
        alloc: Global,
        socket: Socket,
        record: u64,
        datagram: &UdpView<'_>,
        now: Moment,
    ) -> Result<(), AllocError> {
        if is_question(socket, datagram.payload) {
            self.expected.questions = self.expected.questions.saturating_add(1);
            return Ok(());
        }
        let mut octets = Vec::new(alloc);
        octets.extend_from_slice(datagram.payload)?;
        let waiting = match answer_of(socket, datagram.payload) {
            Some(answer) => self.queue.take(socket, datagram.to, answer.number),
            None => None,
        };
        let (kind, node) = match waiting {
            None => (Kind::CaptureAlone, None),
            Some(one) => {
                let kind = kind_of(socket, &one.octets, datagram.payload);
                if kind == Kind::Other {
                    self.expected
                        .note_codes(socket, &one.octets, datagram.payload)?;
                }
                (kind, Some(one.octets))
            }
        };
        self.expected.note(
            kind,
            Shown {
                record,
                moment: now.millis(),
                socket,
                peer: datagram.to,
                node,
                captured: Some(octets),
            },
        )
    }

    // Ends the trial: what still waits is answered by the node alone.
    fn end(self) -> Result<Expected, ScriptFault> {
        let Trial {
            progress,
            mut queue,
            mut expected,
            ..
        } = self;
        expected.counts = progress.counts;
        for _ in 0..crate::waiting::MOST_WAITING {
            match queue.oldest() {
                Some(one) => expected.note_node_alone(one)?,
                None => break,
            }
        }
        Ok(expected)
    }
}
