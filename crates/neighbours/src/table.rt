//! The table of neighbours: their configuration, and what is learned from their replies.

ghost use Rattle.std.specs.Prelude.{◌≡◌, ◌==◌, ◌<◌, ◌≤◌, ◌↔◌, ◌&&◌, length, IsTrue, IsSome, IfOk, IfErr, OnOk, unwrap_or, replicate, option_copied, slice_get, position, find};
ghost use Rattle.std.specs.Str.{bytes_eq};
ghost use Rattle.neighbours.specs.declared.key.Key.{Key};
ghost use Rattle.neighbours.specs.Rank.{before};
ghost use Rattle.neighbours.specs.Rows.{mark_at, weight_at, is_up, blank, smoothed, sampled, without_misses, missed, with_mark, same_end, same_protocol, opening, IsMark, neighbour_index, secret_of};
ghost use Rattle.neighbours.specs.Faults.{fault_of, IsTable};

use crate::checking::{fault_in, is_same_end};
use crate::fault::ConfigFault;
use crate::key::Key;
use crate::neighbour::Neighbour;
use crate::rank::{Ranked, is_before};
use node_terms::{End, Socket};
use std::alloc::{AllocError, Global};
use std::marker::Model;

/// What is learned of a neighbour: its smoothed response time in eighths of a millisecond, and the number of consecutive
/// rounds without a reply, at most 20.
#[derive(Clone, Copy, Debug)]
pub struct Mark {
    pub time: Option<u32>,
    pub misses: u8,
}

/// The neighbours in configuration order, and the signing keys. A neighbour is identified by its index. Contracts see `Rows`.
#[derive(Debug)]
pub struct Table {
    neighbours: Vec<Neighbour>,
    keys: Vec<Key>,
    marks: Vec<Mark>,
}

// Written by hand, so that what lets it go is one call for the prover (docs/GATE.md).
impl Drop for Table {
    fn drop(self) {
        let Self {
            neighbours: _,
            keys: _,
            marks: _,
        } = self;
    }
}

impl Model for Table {
    ghost use Rattle.neighbours.specs.Rows.{Rows};
    ghost use Rattle.neighbours.specs.Faults.{IsTable};

    ghost Value = { Rows };

    ghost view = { λ t. record { neighbours = t.neighbours.items; keys = t.keys.items; marks = t.marks.items } };

    ghost invariant = { λ t. IsTable (record { neighbours = t.neighbours.items; keys = t.keys.items; marks = t.marks.items }) };
}

impl Table {
    /// Makes a table with no times and no misses. Errors: the first configuration fault, or `NoMemory`.
    pub fn new(
        alloc: Global,
        neighbours: Vec<Neighbour>,
        keys: Vec<Key>,
    ) -> Result<Table, ConfigFault>
        ensures ok { IfOk result (λ table. table ≡ opening neighbours.items keys.items) }
        ensures faultless { OnOk result (fault_of neighbours.items keys.items ≡ None) }
        ensures fault { IfErr result (λ fault. fault ≡ unwrap_or (fault_of neighbours.items keys.items) ConfigFault.NoMemory) }
    {
        if let Some(fault) = fault_in(&neighbours, &keys) {
            return Err(fault);
        }
        let marks = blank_marks(alloc, neighbours.len())?;
        Ok(Table {
            neighbours,
            keys,
            marks,
        })
    }

    /// An owned copy.
    pub fn copy(&self, alloc: Global) -> Result<Table, AllocError>
        ensures { IfOk result (λ table. table ≡ self.now) }
    {
        let neighbours = copies_of_neighbours(&self.neighbours, alloc)?;
        let keys = copies_of_keys(&self.keys, alloc)?;
        let marks = Vec::from_slice(alloc, &self.marks)?;
        Ok(Table {
            neighbours,
            keys,
            marks,
        })
    }

    /// Publishes the invariant. Does nothing at run time.
    pub fn facts(&self)
        ensures { IsTable self.now }
    {
        let _ = &self.marks;
    }

    /// Number of neighbours.
    pub fn len(&self) -> usize
        ensures { result ≡ length self.now.neighbours }
    {
        self.neighbours.len()
    }

    /// Whether there are no neighbours.
    pub fn is_empty(&self) -> bool
        ensures { IsTrue result ↔ (length self.now.neighbours ≡ 0) }
    {
        self.neighbours.is_empty()
    }

    /// The neighbour at an index.
    pub fn get(&self, n: usize) -> Option<&Neighbour>
        ensures { option_copied result ≡ slice_get self.now.neighbours n }
    {
        self.neighbours.get(n)
    }

    /// Index of the neighbour with this protocol and end, or `None`.
    pub fn find(&self, socket: Socket, from: End) -> Option<usize>
        ensures { result ≡ neighbour_index self.now.neighbours socket from }
    {
        place_in(&self.neighbours, socket, from)
    }

    /// The secret of the key with this name, or `None`.
    pub fn secret(&self, name: &[u8]) -> Option<&[u8]>
        ensures value { option_copied result ≡ secret_of self.now.keys name.now }
        // The name of a key has at most 255 octets.
        ensures named { IsSome result → length name.now ≤ 255 }
    {
        secret_in(&self.keys, name)
    }

    /// Whether the neighbour is up: fewer than 20 consecutive rounds without a reply.
    pub fn is_up(&self, n: usize) -> bool
        requires { n < length self.now.neighbours }
        ensures { result ≡ is_up (mark_at self.now.marks n) }
    {
        self.marks[n].misses < 20
    }

    /// The smoothed response time in eighths of a millisecond, or `None` before the first sample.
    pub fn time(&self, n: usize) -> Option<u32>
        requires { n < length self.now.neighbours }
        ensures { result ≡ (mark_at self.now.marks n).time }
    {
        self.marks[n].time
    }

    /// Number of consecutive rounds without a reply, at most 20.
    pub fn misses(&self, n: usize) -> u8
        requires { n < length self.now.neighbours }
        ensures { result ≡ (mark_at self.now.marks n).misses }
    {
        self.marks[n].misses
    }

    /// Records a reply: resets the missed rounds.
    pub fn replied(&mut self, n: usize)
        requires { n < length self.old.neighbours }
        ensures { self.new ≡ with_mark self.old n (without_misses (mark_at self.old.marks n)) }
    {
        let mark = Mark {
            misses: 0,
            ..self.marks[n]
        };
        self.marks[n] = mark;
    }

    /// Records a round without a reply.
    pub fn missed(&mut self, n: usize)
        requires { n < length self.old.neighbours }
        ensures { self.new ≡ with_mark self.old n (missed (mark_at self.old.marks n)) }
    {
        let mark = missed_once(self.marks[n]);
        self.marks[n] = mark;
    }

    /// Records a response time of `ms` milliseconds.
    pub fn sample(&mut self, n: usize, ms: u64)
        requires { n < length self.old.neighbours }
        ensures { self.new ≡ with_mark self.old n (sampled (mark_at self.old.marks n) ms) }
    {
        let mark = sampled_once(self.marks[n], ms);
        self.marks[n] = mark;
    }

    /// Whether `a` precedes `b`, with the weights of this table.
    pub fn before(&self, a: Ranked, b: Ranked) -> bool
        requires a { a.n < length self.now.neighbours }
        requires b { b.n < length self.now.neighbours }
        ensures { result ≡ before a (weight_at self.now.neighbours a.n) b (weight_at self.now.neighbours b.n) }
    {
        is_before(
            a,
            self.neighbours[a.n].weight,
            b,
            self.neighbours[b.n].weight,
        )
    }
}

fn missed_once(mark: Mark) -> Mark
    requires { IsMark mark }
    ensures value { result ≡ missed mark }
    ensures mark { IsMark result }
{
    let misses = if mark.misses < 20 {
        mark.misses + 1
    } else {
        20
    };
    Mark { misses, ..mark }
}

fn sampled_once(mark: Mark, ms: u64) -> Mark
    requires { IsMark mark }
    ensures value { result ≡ sampled mark ms }
    ensures mark { IsMark result }
{
    Mark {
        time: Some(next_time(mark.time, ms)),
        ..mark
    }
}

fn next_time(time: Option<u32>, ms: u64) -> u32
    requires { IsMark (record { time = time; misses = 0 }) }
    ensures value { result ≡ smoothed time ms }
    ensures small { result ≤ 524280 }
{
    let r = ms.min(65_535) as u32;
    match time {
        None => 8 * r,
        Some(s) => s - s / 8 + r,
    }
}

fn blank_marks(alloc: Global, n: usize) -> Result<Vec<Mark>, ConfigFault>
    ensures items { IfOk result (λ marks. marks.items ≡ replicate n blank) }
    ensures memory { IfErr result (λ fault. fault ≡ ConfigFault.NoMemory) }
{
    let blank = Mark {
        time: None,
        misses: 0,
    };
    match vec![in alloc; blank; n] {
        Ok(marks) => Ok(marks),
        Err(_) => Err(ConfigFault::NoMemory),
    }
}

fn is_same_protocol(a: Socket, b: Socket) -> bool
    ensures { result ≡ same_protocol a b }
{
    match (a, b) {
        (Socket::Icp, Socket::Icp) | (Socket::Htcp, Socket::Htcp) => true,
        _ => false,
    }
}

fn place_in(neighbours: &[Neighbour], socket: Socket, from: End) -> Option<usize>
    ensures { result ≡ neighbour_index neighbours.now socket from }
{
    neighbours.iter().position(|n| is_same_protocol(n.protocol, socket) && is_same_end(n.end, from))
}

fn secret_in<'a>(keys: &'a [Key], name: &[u8]) -> Option<&'a [u8]>
    ensures { option_copied result ≡ secret_of keys.now name.now }
{
    keys.iter()
        .find(|key| key.name.as_slice() == name)
        .map(|key| key.secret.as_slice())
}

fn copies_of_neighbours(
    neighbours: &[Neighbour],
    alloc: Global,
) -> Result<Vec<Neighbour>, AllocError>
    ensures { IfOk result (λ copies. copies.items ≡ neighbours.now) }
{
    let mut copies = Vec::with_capacity(alloc, neighbours.len())?;
    for neighbour in neighbours {
        copies.push(neighbour.copy(alloc)?)?;
    }
    Ok(copies)
}

fn copies_of_keys(keys: &[Key], alloc: Global) -> Result<Vec<Key>, AllocError>
    ensures { IfOk result (λ copies. copies.items ≡ keys.now) }
{
    let mut copies = Vec::with_capacity(alloc, keys.len())?;
    for key in keys {
        copies.push(key.copy(alloc)?)?;
    }
    Ok(copies)
}
