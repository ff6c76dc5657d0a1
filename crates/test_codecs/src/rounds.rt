//! The sources that a round chooses, for each order of its replies.

ghost use Rattle.std.specs.Prelude.{◌≡◌, true};
ghost use Rattle.peer_select.specs.Poll.{matches};

use crate::made::add;
use crate::rows::{Question, all_hold};
use crate::table::{end_of, neighbour_at, parent, table_of};
use neighbours::{Moment, Role, Socket, Table};
use peer_select::{Kind, Round, Source};
use std::alloc::Global;
use std::process::Abort;

// Two parents of weight 1 and 2, and a sibling of weight 1.
fn table<R: Abort>(rt: &R, alloc: Global) -> Table {
    let sibling = neighbour_at(Role::Sibling, Socket::Icp, end_of(4, 3130), 1, None);
    let mut list = Vec::new(alloc);
    add(rt, &mut list, parent(2, 1, None));
    add(rt, &mut list, parent(3, 2, None));
    add(rt, &mut list, sibling);
    table_of(rt, alloc, list, Vec::new(alloc))
}

// Peer n replies after 40, 70 or 100 ms, given in eighths of a millisecond.
fn answer(round: &mut Round, table: &Table, n: usize, kinds: [Kind; 3])
    requires { matches table.now.neighbours round.old.peers ≡ true }
    ensures { matches table.now.neighbours round.new.peers ≡ true }
{
    if n < table.len() && n < 3 {
        let times = [320, 560, 800];
        round.reply(table, n, kinds[n], times[n]);
    }
}

// A source as a number: the index of a peer, 7 for the origin, 9 for none.
fn name(source: Option<Source>) -> usize {
    match source {
        Some(Source::Peer(n)) => n,
        Some(Source::Origin) => 7,
        None => 9,
    }
}

// The sources that are chosen after these replies, in this order.
fn sources(
    table: &Table,
    now: Moment,
    order: [usize; 3],
    kinds: [Kind; 3],
    origin: bool,
) -> [usize; 4] {
    let mut round = Round::start(table, now);
    let [first, second, third] = order;
    answer(&mut round, table, first, kinds);
    answer(&mut round, table, second, kinds);
    answer(&mut round, table, third, kinds);
    let sources = [
        name(round.source(table, 0, origin)),
        name(round.source(table, 1, origin)),
        name(round.source(table, 2, origin)),
        name(round.source(table, 3, origin)),
    ];
    drop(round);
    sources
}

const ORDERS: [[usize; 3]; 6] = [
    [0, 1, 2],
    [1, 0, 2],
    [0, 2, 1],
    [1, 2, 0],
    [2, 0, 1],
    [2, 1, 0],
];

// What the peers reply, and the sources for each order of these replies: with the origin, and without it.
type Replies = ([Kind; 3], [[usize; 4]; 6], [[usize; 4]; 6]);

// A HIT from the third peer decides the round, and later replies don't count.
const REPLIES: [Replies; 3] = [
    (
        [Kind::Miss, Kind::Miss, Kind::Hit],
        [
            [2, 1, 7, 9],
            [2, 1, 7, 9],
            [2, 0, 7, 9],
            [2, 1, 7, 9],
            [2, 7, 9, 9],
            [2, 7, 9, 9],
        ],
        [
            [2, 1, 0, 9],
            [2, 1, 0, 9],
            [2, 0, 1, 9],
            [2, 1, 0, 9],
            [2, 0, 1, 9],
            [2, 0, 1, 9],
        ],
    ),
    (
        [Kind::Miss, Kind::Miss, Kind::Miss],
        [[1, 7, 9, 9]; 6],
        [[1, 0, 9, 9]; 6],
    ),
    (
        [Kind::Miss, Kind::Refused, Kind::Miss],
        [[0, 7, 9, 9]; 6],
        [[0, 9, 9, 9]; 6],
    ),
];

// Whether the sources of a round are these, for each order of its replies.
fn are_chosen(
    table: &Table,
    now: Moment,
    kinds: [Kind; 3],
    origin: bool,
    wanted: &[[usize; 4]; 6],
) -> bool {
    for i in 0..6 {
        if sources(table, now, ORDERS[i], kinds, origin) != wanted[i] {
            return false;
        }
    }
    true
}

// They are those of a row, with the origin and without it.
struct AreChosen;

impl Question<Replies> for AreChosen {
    fn holds<R: Abort>(&self, rt: &R, alloc: Global, row: &Replies) -> bool {
        let now = Moment::new(1000).expect(rt, "a moment");
        let table = table(rt, alloc);
        let are_chosen = are_chosen(&table, now, row.0, true, &row.1)
            && are_chosen(&table, now, row.0, false, &row.2);
        drop(table);
        are_chosen
    }
}

#[test]
fn sources_in_every_order(rt: HostRuntime) {
    all_hold(&rt, rt.alloc(), &REPLIES, &AreChosen);
}
