//! Choice of sources from the peers and the replies of a round.

ghost use Rattle.std.specs.Prelude.{◌≡◌, ◌≤◌, ℕ, ◌<◌, ◌==◌, ◌&&◌, ◌||◌, not, length, slice_get, is_some, if◌then◌else◌};
ghost use Rattle.peer_select.specs.Poll.{is_hit};
ghost use Rattle.peer_select.specs.Choice.{is_miss, is_parent, is_refused, peer_at, reply_before, is_parent_miss, is_at};
ghost use Rattle.peer_select.specs.Best.{better};
ghost use Rattle.peer_select.specs.Kept.{has, is_left_by, left_by};

use crate::reply::{Kind, Peer, Reply, Source};
use crate::set::PeerSet;
use neighbours::{Ranked, Role, is_before};

fn is_hit_kind(kind: Kind) -> bool
    ensures { result ≡ is_hit kind }
{
    matches!(kind, Kind::Hit)
}

fn is_miss_kind(kind: Kind) -> bool
    ensures { result ≡ is_miss kind }
{
    matches!(kind, Kind::Miss)
}

fn is_refused_kind(kind: Kind) -> bool
    ensures { result ≡ is_refused kind }
{
    matches!(kind, Kind::Refused)
}

fn is_parent_role(role: Role) -> bool
    ensures { result ≡ is_parent role }
{
    matches!(role, Role::Parent)
}

fn find_peer(peers: &[Peer], n: usize) -> Peer
    ensures { result ≡ peer_at peers.now n }
{
    if n < peers.len() {
        return peers[n];
    }
    Peer {
        weight: 1,
        role: Role::Sibling,
        up: false,
    }
}

/// The first Hit after one more reply.
pub fn hit_after(hit: Option<Reply>, reply: Reply) -> Option<Reply>
    ensures { result ≡ (if is_some hit || not (is_hit reply.kind) then hit else Some reply) }
{
    if hit.is_some() || !is_hit_kind(reply.kind) {
        return hit;
    }
    Some(reply)
}

/// The peers that replied Refused, after one more reply.
pub fn refused_after(refused: PeerSet, reply: Reply) -> PeerSet
    requires { reply.n < 64 }
    ensures { (n : ℕ) → has result n ≡ (has refused n || ((reply.n == n) && is_refused reply.kind)) }
{
    refused.with_if(reply.n as usize, is_refused_kind(reply.kind))
}

/// The set of peers that were up at the start.
pub fn up_of(peers: &[Peer]) -> PeerSet
    requires { length peers.now ≤ 64 }
    ensures { (k : ℕ) → has result k ≡ (peer_at peers.now k).up }
{
    let mut up = PeerSet::empty();
    for n in 0..peers.len() {
        up = up.with_if(n, peers[n].up);
    }
    up
}

fn is_less(peers: &[Peer], a: Reply, b: Reply) -> bool
    ensures { result ≡ reply_before peers.now a b }
{
    let first = Ranked {
        n: a.n as usize,
        s: a.s,
    };
    let second = Ranked {
        n: b.n as usize,
        s: b.s,
    };
    is_before(
        first,
        find_peer(peers, a.n as usize).weight,
        second,
        find_peer(peers, b.n as usize).weight,
    )
}

fn is_miss_of_parent(peers: &[Peer], reply: Reply) -> bool
    ensures { result ≡ is_parent_miss peers.now reply }
{
    is_miss_kind(reply.kind) && is_parent_role(find_peer(peers, reply.n as usize).role)
}

fn better_of(peers: &[Peer], best: Option<Reply>, reply: Reply) -> Option<Reply>
    ensures { result ≡ better (reply_before peers.now) best reply }
{
    match best {
        None => Some(reply),
        Some(best) => {
            if is_less(peers, reply, best) {
                Some(reply)
            } else {
                Some(best)
            }
        }
    }
}

/// The best parent with a Miss after one more reply.
pub fn parent_after(peers: &[Peer], parent: Option<Reply>, reply: Reply) -> Option<Reply>
    ensures { result ≡ (if is_parent_miss peers.now reply then better (reply_before peers.now) parent reply else parent) }
{
    if !is_miss_of_parent(peers, reply) {
        return parent;
    }
    better_of(peers, parent, reply)
}

fn stands_at(reply: Option<Reply>, n: usize) -> bool
    ensures { result ≡ is_at reply n }
{
    match reply {
        None => false,
        Some(reply) => reply.n as usize == n,
    }
}

fn is_to_list(
    refused: PeerSet,
    hit: Option<Reply>,
    parent: Option<Reply>,
    n: usize,
    peer: Peer,
) -> bool
    requires { n < 64 }
    ensures { result ≡ is_left_by refused hit parent n peer }
{
    is_parent_role(peer.role) && !stands_at(hit, n) && !stands_at(parent, n) && !refused.has(n)
}

/// The remaining parent at an index: neither listed already nor Refused.
pub fn parent_left(
    refused: PeerSet,
    hit: Option<Reply>,
    parent: Option<Reply>,
    peers: &[Peer],
    place: u16,
) -> Option<Source>
    requires { length peers.now ≤ 64 }
    ensures { result ≡ slice_get (left_by refused hit parent 0 peers.now) place }
{
    let mut left = place;
    for n in 0..peers.len() {
        if !is_to_list(refused, hit, parent, n, peers[n]) {
            continue;
        }
        if left == 0 {
            return Some(Source::Peer(n));
        }
        left -= 1;
    }
    None
}
