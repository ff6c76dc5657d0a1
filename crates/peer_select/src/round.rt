//! Query rounds.

ghost use Rattle.std.specs.Prelude.{◌≡◌, ◌<◌, ◌≤◌, take, Some, ◌↔◌, ◌∷◌, ◌++◌, [], List, MatchResult, length, slice_get, true, false, IsTrue, ◌&&◌, nat_lt};
ghost use Rattle.neighbours.specs.Rows.{mark_at, is_up};
ghost use Rattle.peer_select.specs.Poll.{begun, peers_of, peers_from, decided, reply_added, ended, has_reply, matches, IsPoll};
ghost use Rattle.peer_select.specs.Choice.{sources, last_sources, listed, hit_of, parent_of};

use crate::choice::{hit_after, parent_after, parent_left, refused_after, up_of};
use crate::laws::matching_law;
use crate::reply::{Kind, Peer, Reply, Source};
use crate::set::PeerSet;
use neighbours::{Moment, Role, Table, one_way_law, through_law};
use std::marker::Model;

/// A query round: the peers asked and all replies in order. The remaining fields cache what follows from these: the first
/// Hit, the best parent with a Miss, and which peers were up, have replied, and replied Refused.
#[derive(Drop)]
pub struct Round {
    start: Moment,
    asked: bool,
    peers: [Peer; 64],
    count: usize,
    replies: [Reply; 64],
    len: usize,
    expired: bool,
    hit: Option<Reply>,
    parent: Option<Reply>,
    up: PeerSet,
    replied: PeerSet,
    refused: PeerSet,
}

impl Model for Round {
    ghost use Rattle.std.specs.Prelude.{◌≤◌, take};
    ghost use Rattle.peer_select.specs.Poll.{Poll, IsHeld};
    ghost use Rattle.peer_select.specs.Kept.{IsKept};

    ghost Value = { Poll };

    ghost view = { λ r. record {
      start = r.start;
      asked = r.asked;
      peers = take r.count r.peers;
      replies = take r.len r.replies;
      expired = r.expired;
    } };

    ghost invariant = { λ r. IsHeld r.count r.len r.peers r.replies (record {
      start = r.start;
      asked = r.asked;
      peers = take r.count r.peers;
      replies = take r.len r.replies;
      expired = r.expired;
    }) × IsKept r.hit r.parent r.up r.replied r.refused (record {
      start = r.start;
      asked = r.asked;
      peers = take r.count r.peers;
      replies = take r.len r.replies;
      expired = r.expired;
    }) };
}

impl Round {
    /// Starts a round that asks all neighbours, including those that are down.
    pub fn start(table: &Table, now: Moment) -> Round
        ensures value { result ≡ begun table.now true now }
        ensures matching { matches table.now.neighbours result.peers ≡ true }
    {
        matching_law();
        Round::begin(table, true, now)
    }

    /// A round that asks nobody. It is decided from the start.
    pub fn unasked(table: &Table, now: Moment) -> Round
        ensures value { result ≡ begun table.now false now }
        ensures matching { matches table.now.neighbours result.peers ≡ true }
    {
        matching_law();
        Round::begin(table, false, now)
    }

    fn begin(table: &Table, asked: bool, start: Moment) -> Round
        ensures { result ≡ begun table.now asked start }
    {
        table.facts();
        let peers = peers_in(table);
        let count = table.len();
        let up = up_of(&peers[..count]);
        Round {
            start,
            asked,
            peers,
            count,
            replies: [Reply {
                s: 0,
                n: 0,
                kind: Kind::Refused,
            }; 64],
            len: 0,
            expired: false,
            hit: None,
            parent: None,
            up,
            replied: PeerSet::empty(),
            refused: PeerSet::empty(),
        }
    }

    /// A copy. Allocates nothing.
    pub fn copy(&self) -> Round
        ensures { result ≡ self.now }
    {
        Round {
            start: self.start,
            asked: self.asked,
            peers: self.peers,
            count: self.count,
            replies: self.replies,
            len: self.len,
            expired: self.expired,
            hit: self.hit,
            parent: self.parent,
            up: self.up,
            replied: self.replied,
            refused: self.refused,
        }
    }

    /// Publishes the invariant. Does nothing at run time.
    pub fn facts(&self)
        ensures { IsPoll self.now }
    {
        let _ = &self.replies;
    }

    /// Start of the round.
    pub fn began(&self) -> Moment
        ensures { result ≡ self.now.start }
    {
        self.start
    }

    /// Whether it asked the neighbour at this index.
    pub fn asked(&self, n: usize) -> bool
        ensures { result ≡ (self.now.asked && nat_lt n (length self.now.peers)) }
    {
        if !self.asked {
            return false;
        }
        n < self.count
    }

    /// Whether the neighbour at this index has replied.
    pub fn has_reply(&self, n: usize) -> bool
        ensures { result ≡ has_reply self.now.replies n }
    {
        if self.count <= n {
            return false;
        }
        self.replied.has(n)
    }

    /// Whether the round is decided, that is, its sources are final.
    pub fn decided(&self) -> bool
        ensures { result ≡ decided self.now }
    {
        if !self.asked || self.expired {
            return true;
        }
        if self.hit.is_some() {
            return true;
        }
        self.up.is_within(self.replied)
    }

    /// Records a reply of peer `n`, whose smoothed response time including this reply is `s`. Changes nothing if the round is
    /// decided or the peer has replied before. Requires that the table has the same roles and weights as at the start.
    #[tactic(auto, using(crate::proofs::Shapes::matches_length))]
    pub fn reply(&mut self, table: &Table, n: usize, kind: Kind, s: u32)
        requires place { n < length table.now.neighbours }
        requires table { matches table.now.neighbours self.old.peers ≡ true }
        ensures value { self.new ≡ reply_added self.old (record { s = s; n = n; kind = kind }) }
        ensures peers { self.new.peers ≡ self.old.peers }
    {
        table.facts();
        if self.decided() || self.has_reply(n) {
            return;
        }
        let n = n as u8;
        self.push(Reply { s, n, kind });
    }

    fn push(&mut self, reply: Reply)
        requires known { reply.n < length self.old.peers }
        requires fresh { has_reply self.old.replies reply.n ≡ false }
        ensures { self.new ≡ record self.old { replies = self.old.replies ++ reply ∷ [] } }
    {
        one_way_law();
        through_law();
        let parent = parent_after(&self.peers[..self.count], self.parent, reply);
        let hit = hit_after(self.hit, reply);
        let replied = self.replied.with(reply.n as usize);
        let refused = refused_after(self.refused, reply);
        self.replies[self.len] = reply;
        self.len += 1;
        self.hit = hit;
        self.parent = parent;
        self.replied = replied;
        self.refused = refused;
    }

    /// Ends the round by timeout. Changes nothing if it is decided.
    pub fn expire(&mut self)
        ensures value { self.new ≡ ended self.old }
        ensures peers { self.new.peers ≡ self.old.peers }
    {
        if self.decided() {
            return;
        }
        self.expired = true;
    }

    /// The source for an attempt, counted from 0, or `None` if there is none left. `origin` says whether the origin server may
    /// be used. Requires that the table has the same roles and weights as at the start.
    pub fn source(&self, table: &Table, attempt: u16, origin: bool) -> Option<Source>
        requires { matches table.now.neighbours self.now.peers ≡ true }
        ensures { result ≡ slice_get (sources self.now origin) attempt }
    {
        let _ = table;
        let hit = self.hit();
        let parent = self.parent();
        match listed_at(hit, attempt) {
            Ok(source) => Some(source),
            Err(place) => match listed_at(parent, place) {
                Ok(source) => Some(source),
                Err(place) => self.from_last(hit, parent, place, origin),
            },
        }
    }

    fn hit(&self) -> Option<Reply>
        ensures { result ≡ hit_of self.now.replies }
    {
        self.hit
    }

    fn parent(&self) -> Option<Reply>
        ensures { result ≡ parent_of self.now.peers self.now.replies }
    {
        self.parent
    }

    fn from_last(
        &self,
        hit: Option<Reply>,
        parent: Option<Reply>,
        place: u16,
        origin: bool,
    ) -> Option<Source>
        ensures { result ≡ slice_get (last_sources self.now hit parent origin) place }
    {
        if origin {
            return if place == 0 {
                Some(Source::Origin)
            } else {
                None
            };
        }
        parent_left(self.refused, hit, parent, &self.peers[..self.count], place)
    }
}

// Indexes a list that begins with the peer of `reply`, if any. Returns that peer as a source, or the index in the rest of
// the list.
fn listed_at(reply: Option<Reply>, place: u16) -> Result<Source, u16>
    ensures { (rest : List Source) → MatchResult result (λ source. slice_get (listed reply ++ rest) place ≡ Some source) (λ left. slice_get (listed reply ++ rest) place ≡ slice_get rest left) }
{
    match reply {
        None => Err(place),
        Some(reply) => {
            if place == 0 {
                return Ok(Source::Peer(reply.n as usize));
            }
            Err(place - 1)
        }
    }
}

fn peer_in(table: &Table, n: usize) -> Peer
    requires { n < length table.now.neighbours }
    ensures { (x : _) → slice_get table.now.neighbours n ≡ Some x →
        result ≡ record { weight = x.weight; role = x.kind; up = is_up (mark_at table.now.marks n) } }
{
    let up = table.is_up(n);
    match table.get(n) {
        Some(neighbour) => Peer {
            weight: neighbour.weight,
            role: neighbour.kind,
            up,
        },
        None => Peer {
            weight: 1,
            role: Role::Sibling,
            up,
        },
    }
}

fn peers_in(table: &Table) -> [Peer; 64]
    requires { length table.now.neighbours ≤ 64 }
    ensures peers { take (length table.now.neighbours) result ≡ peers_of table.now }
    ensures places { length result ≡ 64 }
{
    let mut peers = [Peer {
        weight: 1,
        role: Role::Sibling,
        up: false,
    }; 64];
    for n in 0..table.len() {
        peers[n] = peer_in(table, n);
    }
    peers
}
