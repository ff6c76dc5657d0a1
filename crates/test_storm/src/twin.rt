//! The twin: a node without filters that is given what the filters let through, computed here from the definition.
use bpf_check::Checked;
use bpf_run::{Packet, judge};
use filter_slots::{Datagram, End, Moment, Slot, Socket};
use neighbours::Neighbour;
use node_core::{Counters, Event, Node, Out, Stats};
use std::alloc::{AllocError, Global};
use std::mem;
use std::sync::Arc;

/// What the filters let through of a datagram.
enum Kept {
    Nothing,
    All,
    Cut(Datagram),
}

/// The slot of a neighbour: the socket and source of its datagrams, and an optional program.
#[derive(Drop)]
pub struct Held {
    socket: Socket,
    from: End,
    program: Option<Arc<Checked>>,
}

impl Held {
    /// The empty slot of a neighbour.
    pub fn of(neighbour: &Neighbour) -> Held {
        Held {
            socket: neighbour.protocol,
            from: neighbour.end,
            program: None,
        }
    }
}

/// A node without filters, with the programs in force and their counters beside it.
#[derive(Drop)]
pub struct Twin {
    node: Node,
    icp: Option<Arc<Checked>>,
    htcp: Option<Arc<Checked>>,
    // In configuration order.
    neighbours: Vec<Held>,
    counted: Stats,
}

const NONE: Counters = Counters {
    judged: 0,
    rejected: 0,
    cut: 0,
    malformed: 0,
};

impl Twin {
    /// The twin of a node that has taken no event, with a slot for each of its neighbours.
    pub fn new(node: Node, neighbours: Vec<Held>) -> Twin {
        Twin {
            node,
            icp: None,
            htcp: None,
            neighbours,
            counted: Stats {
                icp: NONE,
                htcp: NONE,
            },
        }
    }

    /// The counters that a node with filters must show.
    pub fn stats(&self) -> Stats {
        let own = self.node.stats();
        let mut wanted = self.counted;
        wanted.icp.malformed = own.icp.malformed;
        wanted.htcp.malformed = own.htcp.malformed;
        wanted
    }

    /// Applies the filters to an event, and takes what is left.
    pub fn take(&mut self, alloc: Global, event: &Event, out: &mut Out) -> Result<(), AllocError> {
        out.clear();
        match event {
            Event::Swap { slot, program } => self.swap(*slot, program),
            Event::Datagram { datagram, now } => self.arrive(alloc, event, &**datagram, *now, out),
            _ => self.node.step(alloc, event, out),
        }
    }

    fn step(&mut self, alloc: Global, event: &Event, out: &mut Out) -> Result<(), AllocError> {
        out.clear();
        self.node.step(alloc, event, out)
    }

    fn swap(&mut self, slot: Slot, program: &Option<Arc<Checked>>) -> Result<(), AllocError> {
        let program = match program {
            Some(program) => Some(Arc::try_clone(program)?),
            None => None,
        };
        match self.place_of(slot) {
            Some(place) => drop(mem::replace(place, program)),
            None => drop(program),
        }
        Ok(())
    }

    // Where the program of a slot is, if there is such a slot.
    fn place_of(&mut self, slot: Slot) -> Option<&mut Option<Arc<Checked>>> {
        match slot {
            Slot::Socket(Socket::Icp) => Some(&mut self.icp),
            Slot::Socket(Socket::Htcp) => Some(&mut self.htcp),
            Slot::Neighbour(n) => match self.neighbours.get_mut(n) {
                Some(held) => Some(&mut held.program),
                None => None,
            },
        }
    }

    fn arrive(
        &mut self,
        alloc: Global,
        event: &Event,
        datagram: &Datagram,
        now: Moment,
        out: &mut Out,
    ) -> Result<(), AllocError> {
        let kept = self.kept(alloc, datagram)?;
        self.count(datagram.socket(), &kept);
        match kept {
            Kept::Nothing => Ok(()),
            Kept::All => self.step(alloc, event, out),
            Kept::Cut(datagram) => self.take_cut(alloc, datagram, now, out),
        }
    }

    fn take_cut(
        &mut self,
        alloc: Global,
        datagram: Datagram,
        now: Moment,
        out: &mut Out,
    ) -> Result<(), AllocError> {
        let Ok(datagram) = Arc::new(alloc, datagram) else {
            return Err(AllocError);
        };
        let event = Event::Datagram { datagram, now };
        let taken = self.step(alloc, &event, out);
        drop(event);
        taken
    }

    // The program of the neighbour that sent the datagram.
    fn of_sender(&self, datagram: &Datagram) -> Option<&Arc<Checked>> {
        for held in self.neighbours.iter() {
            if held.socket == datagram.socket() && held.from == datagram.from() {
                return held.program.as_ref();
            }
        }
        None
    }

    // The program of the socket judges the datagram, that of the sender what the first lets through. The smaller verdict
    // counts, so that nothing is kept if either is 0.
    fn kept(&self, alloc: Global, datagram: &Datagram) -> Result<Kept, AllocError> {
        let program = match datagram.socket() {
            Socket::Icp => self.icp.as_ref(),
            Socket::Htcp => self.htcp.as_ref(),
        };
        let payload = datagram.payload();
        let first = verdict(program, datagram, payload);
        let left = front(payload, first);
        let second = verdict(self.of_sender(datagram), datagram, left);
        if first == 0 || second == 0 {
            return Ok(Kept::Nothing);
        }
        let left = front(left, second);
        if left.len() == payload.len() {
            return Ok(Kept::All);
        }
        let octets = left.to_vec(alloc)?;
        match Datagram::new(datagram.socket(), datagram.from(), datagram.to(), octets) {
            Ok(datagram) => Ok(Kept::Cut(datagram)),
            Err(_) => Ok(Kept::Nothing),
        }
    }

    fn count(&mut self, socket: Socket, kept: &Kept) {
        let mut counted = match socket {
            Socket::Icp => self.counted.icp,
            Socket::Htcp => self.counted.htcp,
        };
        counted.judged = counted.judged.saturating_add(1);
        match kept {
            Kept::Nothing => counted.rejected = counted.rejected.saturating_add(1),
            Kept::Cut(_) => counted.cut = counted.cut.saturating_add(1),
            Kept::All => {}
        }
        match socket {
            Socket::Icp => self.counted.icp = counted,
            Socket::Htcp => self.counted.htcp = counted,
        }
    }
}

/// The verdict of a program on a datagram with this payload. No program lets everything through.
fn verdict(program: Option<&Arc<Checked>>, datagram: &Datagram, payload: &[u8]) -> u32 {
    let Some(program) = program else {
        return u32::MAX;
    };
    match Packet::new(datagram.from(), datagram.to(), payload) {
        Some(packet) => judge(program, &packet).value,
        None => 0,
    }
}

/// Truncates a payload by a verdict, which counts octets of the packet including 28 of header.
fn front(payload: &[u8], verdict: u32) -> &[u8] {
    let left = (verdict as usize).saturating_sub(28);
    payload.get(..left).unwrap_or(payload)
}
