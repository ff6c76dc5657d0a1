//! A chapter: a sequence of events for a node with filters, behind a desk with two seats, and for its twin without
//! filters. Each chapter has a new node.
ghost use Rattle.std.specs.Prelude.{◌≡◌, IfOk};
ghost use Rattle.node_book.specs.Book.{count_of};

use crate::draws::Draws;
use crate::happenings::Weather;
use crate::packets;
use crate::sums::Sums;
use crate::twin::{Held, Twin};
use filter_slots::{End, Socket};
use neighbours::{Key, Neighbour, Octets, Role};
use node_book::{Booked, Desk, Seat};
use node_core::{Config, Event, Network, Node, Out, same_tally};
use std::alloc::{AllocError, Global};
use std::sync::ledger::{Blank, Ledger};
use std::sync::{Arc, Wait};
use thiserror::Error;

/// Number of events per volume of the book.
const VOLUME: usize = 4_096;

/// Why a run ended early.
#[derive(Clone, Copy, Debug, PartialEq, Eq, Error)]
pub enum StormFault {
    /// An allocation failed.
    #[error("no memory")]
    NoMemory,
    /// The node or the desk could not be made.
    #[error("no node")]
    Node,
    /// The desk refused an event.
    #[error("the desk refused an event")]
    Refused,
    /// The actions of the twin differ.
    #[error("the actions differ")]
    Actions,
    /// The counters of the twin differ.
    #[error("the counters differ")]
    Counters,
    /// The receipts of the seats do not agree with the book.
    #[error("the book does not settle")]
    Book,
}

impl StormFault {
    /// Whether it is a difference between the nodes, or between the book and its receipts.
    pub fn is_difference(self) -> bool {
        match self {
            StormFault::Actions | StormFault::Counters | StormFault::Book => true,
            StormFault::NoMemory | StormFault::Node | StormFault::Refused => false,
        }
    }
}

impl From<AllocError> for StormFault {
    fn from(_: AllocError) -> StormFault {
        StormFault::NoMemory
    }
}

/// A neighbour with the address 10.0.0.`last`.
fn neighbour(
    alloc: Global,
    kind: Role,
    protocol: Socket,
    last: u8,
    is_signed: bool,
) -> Result<Neighbour, AllocError> {
    let port = match protocol {
        Socket::Icp => 3130,
        Socket::Htcp => 4827,
    };
    let key = if is_signed {
        Some(Octets::new(packets::KEY.to_vec(alloc)?))
    } else {
        None
    };
    Ok(Neighbour {
        kind,
        protocol,
        end: End {
            addr: [10, 0, 0, last],
            port,
        },
        http_port: 3128,
        weight: u32::from(last),
        key,
    })
}

/// The neighbours of a node that has some: kind, socket, the last octet of the address, and whether messages are signed.
const NEIGHBOURS: [(Role, Socket, u8, bool); 4] = [
    (Role::Parent, Socket::Icp, 2, false),
    (Role::Sibling, Socket::Icp, 3, false),
    (Role::Parent, Socket::Htcp, 4, true),
    (Role::Sibling, Socket::Htcp, 5, false),
];

/// Adds the neighbours of a node that has some.
fn add_neighbours(alloc: Global, neighbours: &mut Vec<Neighbour>) -> Result<(), AllocError> {
    for (kind, protocol, last, is_signed) in &NEIGHBOURS {
        let neighbour = neighbour(alloc, *kind, *protocol, *last, *is_signed)?;
        if neighbours.push(neighbour).is_err() {
            return Err(AllocError);
        }
    }
    Ok(())
}

/// The signing key.
fn signing_key(alloc: Global) -> Result<Key, AllocError> {
    let name = packets::KEY.to_vec(alloc)?;
    let secret = packets::SECRET.to_vec(alloc)?;
    Ok(Key {
        name: Octets::new(name),
        secret: Octets::new(secret),
    })
}

/// The signing keys: one.
fn keys_of(alloc: Global) -> Result<Vec<Key>, AllocError> {
    let key = signing_key(alloc)?;
    let mut keys = Vec::new(alloc);
    match keys.push(key) {
        Ok(()) => Ok(keys),
        Err(_) => Err(AllocError),
    }
}

/// The networks whose queries are answered: one.
fn allowed_of(alloc: Global) -> Result<Vec<Network>, AllocError> {
    let mut allowed = Vec::new(alloc);
    allowed.push(Network {
        addr: [10, 0, 0, 0],
        prefix: 8,
    })?;
    Ok(allowed)
}

/// A random configuration of a node with these neighbours.
fn config_with(
    alloc: Global,
    draws: &mut Draws,
    neighbours: Vec<Neighbour>,
) -> Result<Config, AllocError> {
    let (Ok(keys), Ok(allowed)) = (keys_of(alloc), allowed_of(alloc)) else {
        drop(neighbours);
        return Err(AllocError);
    };
    Ok(Config {
        icp: packets::ICP,
        htcp: packets::HTCP,
        allowed,
        miss_nofetch: draws.one_in(2),
        origin: !draws.one_in(3),
        entries: draws.of(&[1, 4, 100], 10),
        octets: draws.of(&[200, 1_000, 100_000], 1_000),
        neighbours,
        keys,
    })
}

/// A random configuration.
fn config(alloc: Global, draws: &mut Draws) -> Result<Config, AllocError> {
    let mut neighbours = Vec::new(alloc);
    if draws.one_in(4) {
        return config_with(alloc, draws, neighbours);
    }
    match add_neighbours(alloc, &mut neighbours) {
        Ok(()) => config_with(alloc, draws, neighbours),
        Err(fault) => {
            drop(neighbours);
            Err(fault)
        }
    }
}

/// Empty program slots for the neighbours.
fn places_of(alloc: Global, config: &Config) -> Result<Vec<Held>, AllocError> {
    let mut held = Vec::new(alloc);
    for neighbour in config.neighbours.iter() {
        held.push(Held::of(neighbour))?;
    }
    Ok(held)
}

/// The seats of a node, and its twin. Both take the same events.
#[derive(Drop)]
struct Both<L: Ledger> {
    first: Seat<L>,
    second: Seat<L>,
    twin: Twin,
    out: Out,
    twin_out: Out,
}

/// Submits an event to the node through one of its seats.
fn hand_in<L: Ledger, R: Wait>(
    rt: &R,
    alloc: Global,
    desk: &Desk<L>,
    seat: &mut Seat<L>,
    event: &Arc<Event>,
    out: &mut Out,
) -> Result<(), StormFault> {
    out.clear();
    let shared = Arc::try_clone(event)?;
    let submitted = desk.submit(rt, alloc, seat, shared, out);
    let is_taken = submitted.is_ok();
    drop(submitted);
    if is_taken {
        Ok(())
    } else {
        Err(StormFault::Refused)
    }
}

/// Both take an event; compares their actions and counters.
fn take<L: Ledger, R: Wait>(
    rt: &R,
    alloc: Global,
    desk: &Desk<L>,
    both: &mut Both<L>,
    event: &Arc<Event>,
    is_first: bool,
) -> Result<(), StormFault> {
    if is_first {
        hand_in(rt, alloc, desk, &mut both.first, event, &mut both.out)?;
    } else {
        hand_in(rt, alloc, desk, &mut both.second, event, &mut both.out)?;
    }
    both.twin.take(alloc, &**event, &mut both.twin_out)?;
    if !same_tally(&both.out.tally(), &both.twin_out.tally()) {
        return Err(StormFault::Actions);
    }
    if desk.stats(rt) != both.twin.stats() {
        return Err(StormFault::Counters);
    }
    Ok(())
}

/// Both take an event, and the generator and the totals hear of what it brought.
fn take_and_hear<L: Ledger, R: Wait>(
    rt: &R,
    alloc: Global,
    desk: &Desk<L>,
    both: &mut Both<L>,
    weather: &mut Weather,
    event: &Arc<Event>,
    sums: &mut Sums,
) -> Result<(), StormFault> {
    let is_first = weather.draws().one_in(2);
    take(rt, alloc, desk, both, event, is_first)?;
    weather.hear(both.out.actions())?;
    sums.hear(&both.out.tally());
    Ok(())
}

/// An event that can be shared.
fn shared(alloc: Global, event: Event) -> Result<Arc<Event>, StormFault> {
    match Arc::new(alloc, event) {
        Ok(event) => Ok(event),
        Err(_) => Err(StormFault::NoMemory),
    }
}

/// Plays `count` random events.
fn play<L: Ledger, R: Wait>(
    rt: &R,
    alloc: Global,
    desk: &Desk<L>,
    both: &mut Both<L>,
    weather: &mut Weather,
    count: u64,
    sums: &mut Sums,
) -> Result<(), StormFault> {
    let mut left = count;
    for _ in 0..u64::MAX {
        if left == 0 {
            break;
        }
        let Some(event) = weather.event(alloc)? else {
            continue;
        };
        left -= 1;
        sums.count(&event);
        let event = shared(alloc, event)?;
        let taken = take_and_hear(rt, alloc, desk, both, weather, &event, sums);
        drop(event);
        taken?;
    }
    Ok(())
}

/// A node with a random configuration, and its twin.
fn nodes_of(alloc: Global, weather: &mut Weather) -> Result<(Node, Twin), StormFault> {
    let config = config(alloc, weather.draws())?;
    let held = places_of(alloc, &config);
    match Node::new(alloc, config) {
        Ok(node) => with_twin(alloc, node, held),
        Err(_) => {
            drop(held);
            Err(StormFault::Node)
        }
    }
}

/// A node, and its twin with these slots.
fn with_twin(
    alloc: Global,
    node: Node,
    held: Result<Vec<Held>, AllocError>,
) -> Result<(Node, Twin), StormFault> {
    let held = match held {
        Ok(held) => held,
        Err(_) => {
            drop(node);
            return Err(StormFault::NoMemory);
        }
    };
    match node.copy(alloc) {
        Ok(copy) => Ok((node, Twin::new(copy, held))),
        Err(_) => {
            drop(held);
            drop(node);
            Err(StormFault::NoMemory)
        }
    }
}

/// The book of a node.
fn book_of(alloc: Global, node: Node) -> Result<Booked, StormFault>
    ensures { IfOk result (λ b. count_of b ≡ 0) }
{
    Booked::new(alloc, node, VOLUME).map_err(|_| StormFault::Node)
}

/// A desk with two seats.
fn desk_of<L: Ledger>(
    alloc: Global,
    blank: Blank,
    booked: Booked,
) -> Result<(Desk<L>, Vec<Seat<L>>), StormFault>
    requires new { count_of booked ≡ 0 }
    requires name { blank.name ≡ L.name }
    requires parts { blank.parts ≡ L.parts }
    requires two { blank.parts ≡ 2 }
{
    Desk::<L>::open(alloc, blank, booked, 2).map_err(|_| StormFault::Node)
}

/// The actions of a node and of its twin: none yet.
fn outs_of(alloc: Global) -> Result<(Out, Out), AllocError> {
    let out = Out::new(alloc)?;
    match Out::new(alloc) {
        Ok(twin_out) => Ok((out, twin_out)),
        Err(fault) => {
            drop(out);
            Err(fault)
        }
    }
}

/// The seats of a desk, and the twin of its node.
fn both_of<L: Ledger>(
    alloc: Global,
    mut seats: Vec<Seat<L>>,
    twin: Twin,
) -> Result<Both<L>, StormFault> {
    let (out, twin_out) = match outs_of(alloc) {
        Ok(outs) => outs,
        Err(_) => {
            drop(seats);
            drop(twin);
            return Err(StormFault::NoMemory);
        }
    };
    let (Some(second), Some(first)) = (seats.pop(), seats.pop()) else {
        drop(twin);
        drop(out);
        drop(twin_out);
        return Err(StormFault::Node);
    };
    Ok(Both {
        first,
        second,
        twin,
        out,
        twin_out,
    })
}

/// The seats as a desk takes them back.
fn seats_of<L: Ledger>(
    alloc: Global,
    first: Seat<L>,
    second: Seat<L>,
) -> Result<Vec<Seat<L>>, StormFault> {
    let mut seats = Vec::new(alloc);
    let are_pushed = [seats.push(first).is_ok(), seats.push(second).is_ok()];
    if are_pushed[0] && are_pushed[1] {
        Ok(seats)
    } else {
        drop(seats);
        Err(StormFault::NoMemory)
    }
}

/// Settles the book of a desk, which must have `count` events.
fn settled<L: Ledger>(
    alloc: Global,
    desk: Desk<L>,
    both: Both<L>,
    count: u64,
) -> Result<(), StormFault> {
    let Both {
        first,
        second,
        twin,
        out,
        twin_out,
    } = both;
    drop(twin);
    drop(out);
    drop(twin_out);
    let seats = match seats_of(alloc, first, second) {
        Ok(seats) => seats,
        Err(fault) => {
            drop(desk);
            return Err(fault);
        }
    };
    let settled = desk.settle(seats);
    let is_settled = match &settled {
        Ok(report) => report.count == count,
        Err(_) => false,
    };
    drop(settled);
    if is_settled {
        Ok(())
    } else {
        Err(StormFault::Book)
    }
}

/// A desk with two seats for this node.
fn opened<L: Ledger>(
    alloc: Global,
    blank: Blank,
    node: Node,
) -> Result<(Desk<L>, Vec<Seat<L>>), StormFault>
    requires name { blank.name ≡ L.name }
    requires parts { blank.parts ≡ L.parts }
    requires two { blank.parts ≡ 2 }
{
    let booked = book_of(alloc, node)?;
    desk_of::<L>(alloc, blank, booked)
}

/// Plays `count` random events at a desk, and settles its book.
fn play_and_settle<L: Ledger, R: Wait>(
    rt: &R,
    alloc: Global,
    desk: Desk<L>,
    both: Result<Both<L>, StormFault>,
    weather: &mut Weather,
    count: u64,
    sums: &mut Sums,
) -> Result<(), StormFault> {
    let mut both = match both {
        Ok(both) => both,
        Err(fault) => {
            drop(desk);
            return Err(fault);
        }
    };
    match play(rt, alloc, &desk, &mut both, weather, count, sums) {
        Ok(()) => {
            sums.add(&both.twin.stats());
            settled(alloc, desk, both, count)
        }
        Err(fault) => {
            drop(both);
            drop(desk);
            Err(fault)
        }
    }
}

/// Plays `count` random events on a node with a random configuration, and settles its book.
pub fn chapter<L: Ledger, R: Wait>(
    rt: &R,
    alloc: Global,
    blank: Blank,
    weather: &mut Weather,
    count: u64,
    sums: &mut Sums,
) -> Result<(), StormFault>
    requires name { blank.name ≡ L.name }
    requires parts { blank.parts ≡ L.parts }
    requires two { blank.parts ≡ 2 }
{
    weather.turn();
    let (node, twin) = nodes_of(alloc, weather)?;
    match opened::<L>(alloc, blank, node) {
        Ok((desk, seats)) => {
            let both = both_of(alloc, seats, twin);
            play_and_settle(rt, alloc, desk, both, weather, count, sums)
        }
        Err(fault) => {
            drop(twin);
            Err(fault)
        }
    }
}
