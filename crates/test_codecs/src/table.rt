//! Neighbour tables: which are refused, and what a table knows of its neighbours.

use crate::made::{NO_MEMORY, add, octets, repeated};
use crate::rows::{Question, all_hold};
use neighbours::{ConfigFault, End, Key, Neighbour, Octets, Ranked, Role, Socket, Table};
use std::alloc::Global;
use std::process::Abort;

/// The endpoint 10.0.0.(last octet), with this port.
pub(crate) fn end_of(last: u8, port: u16) -> End {
    End {
        addr: [10, 0, 0, last],
        port,
    }
}

/// A neighbour at this endpoint.
pub(crate) fn neighbour_at(
    kind: Role,
    protocol: Socket,
    end: End,
    weight: u32,
    key: Option<Octets>,
) -> Neighbour {
    Neighbour {
        kind,
        protocol,
        end,
        http_port: 3128,
        weight,
        key,
    }
}

/// A parent at 10.0.0.(last octet):3130, which is queried by ICP.
pub(crate) fn parent(last: u8, weight: u32, key: Option<Octets>) -> Neighbour {
    neighbour_at(Role::Parent, Socket::Icp, end_of(last, 3130), weight, key)
}

// The name of a key, of one octet, if there is one.
fn named<R: Abort>(rt: &R, alloc: Global, key: Option<u8>) -> Option<Octets> {
    match key {
        None => None,
        Some(octet) => Some(Octets::new(octets(rt, alloc, &[octet]))),
    }
}

// `count` neighbours at distinct endpoints, and one more with this endpoint, weight and key.
fn neighbours<R: Abort>(
    rt: &R,
    alloc: Global,
    count: u8,
    last: u8,
    weight: u32,
    key: Option<u8>,
) -> Vec<Neighbour> {
    let mut list = Vec::new(alloc);
    for i in 0..count {
        add(rt, &mut list, parent(i, 1, None));
    }
    let key = named(rt, alloc, key);
    add(rt, &mut list, parent(last, weight, key));
    list
}

// A key with this name and secret.
fn key(name: Vec<u8>, secret: Vec<u8>) -> Key {
    Key {
        name: Octets::new(name),
        secret: Octets::new(secret),
    }
}

// Keys with names of one octet, and one secret.
fn keys<R: Abort>(rt: &R, alloc: Global, names: &[u8]) -> Vec<Key> {
    let mut list = Vec::new(alloc);
    for name in names {
        let secret = octets(rt, alloc, &[1, 2, 3]);
        add(rt, &mut list, key(octets(rt, alloc, &[*name]), secret));
    }
    list
}

// The fault of a table, if it has one.
fn fault_of(alloc: Global, list: Vec<Neighbour>, keys: Vec<Key>) -> Option<ConfigFault> {
    Table::new(alloc, list, keys).err()
}

/// A table without a fault.
pub(crate) fn table_of<R: Abort>(
    rt: &R,
    alloc: Global,
    list: Vec<Neighbour>,
    keys: Vec<Key>,
) -> Table {
    Table::new(alloc, list, keys).ok().expect(rt, "a table")
}

// How many neighbours stand before the last one; its last octet, weight and key; the names of the keys; and the table's fault.
type Faulty = (u8, u8, u32, Option<u8>, &'static [u8], Option<ConfigFault>);

const FAULTY: [Faulty; 9] = [
    (2, 9, 100, Some(b'k'), b"k", None),
    (63, 63, 1, None, b"", None),
    (64, 64, 1, None, b"", Some(ConfigFault::Count)),
    (64, 0, 0, None, b"", Some(ConfigFault::Count)),
    (2, 0, 0, None, b"", Some(ConfigFault::DoubleAddress)),
    (2, 9, 0, None, b"", Some(ConfigFault::Weight)),
    (2, 9, 101, Some(b'k'), b"", Some(ConfigFault::Weight)),
    (2, 9, 1, Some(b'k'), b"j", Some(ConfigFault::KeyName)),
    (2, 9, 1, Some(b'k'), b"kk", Some(ConfigFault::KeyName)),
];

// The first fault of a table is that of its row.
struct FirstFault;

impl Question<Faulty> for FirstFault {
    fn holds<R: Abort>(&self, rt: &R, alloc: Global, row: &Faulty) -> bool {
        let (count, last, weight, key, names, fault) = *row;
        let list = neighbours(rt, alloc, count, last, weight, key);
        let keys = keys(rt, alloc, names);
        fault_of(alloc, list, keys) == fault
    }
}

#[test]
fn first_faults(rt: HostRuntime) {
    all_hold(&rt, rt.alloc(), &FAULTY, &FirstFault);
}

// Neighbours at 10.0.0.n, for each of these n.
fn neighbours_at<R: Abort>(rt: &R, alloc: Global, ends: &[u8]) -> Vec<Neighbour> {
    let mut list = Vec::new(alloc);
    for last in ends {
        add(rt, &mut list, parent(*last, 1, None));
    }
    list
}

// The last octets of neighbours, which are the names of keys too, and whether one of them is there twice.
type Doubled = (&'static [u8], bool);

const PLACES: [Doubled; 6] = [
    (&[1, 2, 3], false),
    (&[1, 1, 2], true),
    (&[1, 2, 1], true),
    (&[2, 1, 1], true),
    (&[1, 2, 2], true),
    (&[2, 2], true),
];

// What a row has twice is the fault of a table of these neighbours, and of one of these keys.
struct IsDoubled;

impl Question<Doubled> for IsDoubled {
    fn holds<R: Abort>(&self, rt: &R, alloc: Global, row: &Doubled) -> bool {
        let (octets, is_double) = *row;
        let list = neighbours_at(rt, alloc, octets);
        let of_ends = fault_of(alloc, list, Vec::new(alloc));
        let keys = keys(rt, alloc, octets);
        let of_names = fault_of(alloc, Vec::new(alloc), keys);
        of_ends == is_double.then_some(ConfigFault::DoubleAddress)
            && of_names == is_double.then_some(ConfigFault::KeyName)
    }
}

#[test]
fn doubles_at_every_place(rt: HostRuntime) {
    all_hold(&rt, rt.alloc(), &PLACES, &IsDoubled);
}

// The length of a key's name, and the fault of a table with that key.
type Named = (usize, Option<ConfigFault>);

const NAMES: [Named; 4] = [
    (0, Some(ConfigFault::KeyName)),
    (1, None),
    (255, None),
    (256, Some(ConfigFault::KeyName)),
];

// A table with a key whose name has the length of a row has its fault.
struct OfName;

impl Question<Named> for OfName {
    fn holds<R: Abort>(&self, rt: &R, alloc: Global, row: &Named) -> bool {
        let name = repeated(rt, alloc, b'k', row.0);
        let mut keys = Vec::new(alloc);
        add(rt, &mut keys, key(name, Vec::new(alloc)));
        fault_of(alloc, Vec::new(alloc), keys) == row.1
    }
}

#[test]
fn lengths_of_names(rt: HostRuntime) {
    all_hold(&rt, rt.alloc(), &NAMES, &OfName);
}

// The debug output of a table.
fn shown<R: Abort>(rt: &R, alloc: Global, table: &Table) -> String {
    format!(in alloc; "{table:?}").expect(rt, NO_MEMORY)
}

// Whether a table has this debug output.
fn is_shown<R: Abort>(rt: &R, alloc: Global, table: &Table, text: &str) -> bool {
    let shown = shown(rt, alloc, table);
    let is_same = shown.as_str() == text;
    drop(shown);
    is_same
}

// Records a miss of the first neighbour of two.
fn miss<R: Abort>(rt: &R, table: &mut Table) {
    assert!(*rt; table.len() == 2, "two neighbours");
    table.missed(0);
}

// Whether a table has this output, and its copy too; then, after the table has recorded another miss, the copy alone.
fn are_as_copied<R: Abort>(
    rt: &R,
    alloc: Global,
    table: &mut Table,
    copy: &Table,
    text: &str,
) -> bool {
    let are_same = is_shown(rt, alloc, copy, text);
    miss(rt, table);
    let is_changed = !is_shown(rt, alloc, table, text);
    are_same && is_changed && is_shown(rt, alloc, copy, text)
}

// Whether a table of two neighbours, with a time and a miss, shows no secret, and its copy is as it should be.
fn is_copied<R: Abort>(rt: &R, alloc: Global, table: &mut Table) -> bool {
    miss(rt, table);
    let copy = table.copy(alloc).expect(rt, NO_MEMORY);
    let text = shown(rt, alloc, table);
    let is_secret = !text.as_str().contains("1, 2, 3");
    let are_as_copied = are_as_copied(rt, alloc, table, &copy, text.as_str());
    drop(text);
    drop(copy);
    is_secret && are_as_copied
}

// A copy has the same times and misses, and changes on its own. Neither prints the secret.
#[test]
fn copied(rt: HostRuntime) {
    let list = neighbours(&rt, rt.alloc(), 1, 2, 7, Some(b'k'));
    let keys = keys(&rt, rt.alloc(), b"k");
    let mut table = table_of(&rt, rt.alloc(), list, keys);
    assert!(rt; table.len() == 2, "two neighbours");
    table.sample(1, 40);
    let is_copied = is_copied(&rt, rt.alloc(), &mut table);
    drop(table);
    assert!(rt; is_copied);
}

// Round-trip times in milliseconds, one after another, and the time that the neighbour then has.
const TIMES: [(u64, u32); 4] = [(40, 320), (70, 350), (65_535, 65_842), (1_000_000, 123_147)];

// Whether the only neighbour of a table has the expected time after each of these.
fn are_timed(table: &mut Table) -> bool {
    for (ms, time) in &TIMES {
        if table.len() != 1 {
            return false;
        }
        table.sample(0, *ms);
        if table.time(0) != Some(*time) {
            return false;
        }
    }
    true
}

// Whether the only neighbour of a table is up until its twentieth miss.
fn goes_down(table: &mut Table) -> bool {
    for miss in 0..21 {
        if table.len() != 1 || table.is_up(0) != (miss < 20) {
            return false;
        }
        table.missed(0);
    }
    true
}

// Whether the only neighbour of a table is up after a reply, and is not before itself.
fn comes_back(table: &mut Table) -> bool {
    if table.len() != 1 {
        return false;
    }
    table.replied(0);
    table.is_up(0) && !table.before(Ranked { n: 0, s: 8 }, Ranked { n: 0, s: 8 })
}

#[test]
fn times_and_misses(rt: HostRuntime) {
    let list = neighbours(&rt, rt.alloc(), 0, 2, 2, None);
    let keys = keys(&rt, rt.alloc(), b"k");
    let mut table = table_of(&rt, rt.alloc(), list, keys);
    let holds = are_timed(&mut table) && goes_down(&mut table) && comes_back(&mut table);
    drop(table);
    assert!(rt; holds);
}

// A table of a neighbour that is queried by ICP at 10.0.0.2:3130, and one by HTCP at 10.0.0.3:4827.
fn two_ends<R: Abort>(rt: &R, alloc: Global) -> Table {
    let mut list = neighbours(rt, alloc, 0, 2, 1, None);
    let second = neighbour_at(Role::Parent, Socket::Htcp, end_of(3, 4827), 1, None);
    add(rt, &mut list, second);
    table_of(rt, alloc, list, Vec::new(alloc))
}

// A protocol, the last octet and the port of an endpoint, and the place of the neighbour there.
type Sought = (Socket, u8, u16, Option<usize>);

const SOUGHT: [Sought; 6] = [
    (Socket::Icp, 2, 3130, Some(0)),
    (Socket::Htcp, 3, 4827, Some(1)),
    (Socket::Htcp, 2, 3130, None),
    (Socket::Icp, 3, 4827, None),
    (Socket::Htcp, 2, 4827, None),
    (Socket::Icp, 3, 3130, None),
];

// Such a table finds what a row seeks.
struct IsFound;

impl Question<Sought> for IsFound {
    fn holds<R: Abort>(&self, rt: &R, alloc: Global, row: &Sought) -> bool {
        let table = two_ends(rt, alloc);
        let found = table.find(row.0, end_of(row.1, row.2));
        drop(table);
        found == row.3
    }
}

#[test]
fn found_by_protocol_and_end(rt: HostRuntime) {
    all_hold(&rt, rt.alloc(), &SOUGHT, &IsFound);
}
