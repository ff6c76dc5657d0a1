//! Room for octets that several share.
ghost use Rattle.std.specs.Prelude.{◌≡◌, ◌↔◌, ℕ, ◌+◌, ◌≤◌, ◌<◌, ◌^◌, [], None, true, false, nat_lt, length, slice_get, Some, IsSome, IsSomeAnd, IfSome, IfNone, MatchOption, IsOk, IfOk, IfErr, OnErr};
ghost use Rattle.std.specs.List.{remove};
ghost use Rattle.fair_use.specs.declared.room.EnterFault.TheVariants.{TooMuch};
ghost use Rattle.fair_use.specs.Room.{held_of, held_for, held_from, other_asker_waits, other_server_waits, is_askers_share, is_servers_share, is_fair, IsKept, leaves_room, may_have, last_turn, wanted_of, place_of, taken_of, after_giving, after_waiting, after_taking, Takes, after_entering, is_next_at, turn_at, IsLongest, IsNobodyNext};

use std::alloc::Global;
use std::marker::Model;

/// One that holds room or waits for some.
#[derive(Clone, Copy)]
pub struct Holder {
    /// Its number, by which it is told from others.
    pub number: u64,
    /// The address of the client that began it, as a number, if a client did.
    pub asker: Option<u128>,
    /// The address of the server that its octets come from, as a number.
    pub server: u128,
    /// The most octets that it ever takes.
    pub most: usize,
    /// The octets that it holds.
    pub held: usize,
    /// The octets that it waits for; 0 if it doesn't wait.
    pub wanted: usize,
    /// When it began to wait: the smaller, the longer it waits.
    pub turn: u64,
}

/// What becomes of octets that are asked for.
#[derive(Clone, Copy)]
pub enum Taken {
    /// They are held now.
    Given,
    /// They are waited for.
    Waits,
    /// They are more than it ever takes, as it said. Nothing has changed.
    Beyond,
}

// The octets that all of these hold.
fn held_of(holders: &[Holder]) -> usize
    requires { held_of holders.now < 2 ^ 64 }
    ensures { result ≡ held_of holders.now }
{
    let mut held = 0;
    let mut left = holders;
    while let [first, others @ ..] = left {
        held += first.held;
        left = others;
    }
    held
}

// The octets that all of these hold, which share so many.
fn held_in(size: usize, holders: &[Holder]) -> usize
    requires { held_of holders.now ≤ size }
    ensures { result ≡ held_of holders.now }
{
    held_of(holders)
}

// Whether so many octets more for the one at this place leave each that began before it room for all that it ever takes.
fn leaves_room(size: usize, octets: usize, place: usize, holders: &[Holder]) -> bool
    requires kept { IsKept size holders.now }
    requires fits { held_of holders.now ≤ size }
    ensures { result ≡ leaves_room size octets place holders.now }
{
    let mut after = held_of(holders);
    let mut before = place;
    let mut left = holders;
    while let [first, others @ ..] = left {
        if before == 0 {
            return true;
        }
        after -= first.held;
        if size - first.most - after < octets {
            return false;
        }
        before -= 1;
        left = others;
    }
    true
}

// The octets that those hold that a client of this address began.
fn held_for(asker: Option<u128>, holders: &[Holder]) -> usize
    requires { held_of holders.now < 2 ^ 64 }
    ensures { result ≡ held_for asker holders.now }
{
    let mut held = 0;
    let mut left = holders;
    while let [first, others @ ..] = left {
        if first.asker == asker {
            held += first.held;
        }
        left = others;
    }
    held
}

// The octets that those hold that come from the server of this address.
fn held_from(server: u128, holders: &[Holder]) -> usize
    requires { held_of holders.now < 2 ^ 64 }
    ensures { result ≡ held_from server holders.now }
{
    let mut held = 0;
    let mut left = holders;
    while let [first, others @ ..] = left {
        if first.server == server {
            held += first.held;
        }
        left = others;
    }
    held
}

// Whether one waits that a client of another address began.
fn other_asker_waits(asker: Option<u128>, holders: &[Holder]) -> bool
    ensures { result ≡ other_asker_waits asker holders.now }
{
    holders
        .iter()
        .any(|holder| 0 < holder.wanted && holder.asker != asker)
}

// Whether one waits that comes from another server.
fn other_server_waits(server: u128, holders: &[Holder]) -> bool
    ensures { result ≡ other_server_waits server holders.now }
{
    holders
        .iter()
        .any(|holder| 0 < holder.wanted && holder.server != server)
}

// Whether so many octets more leave the address of its client within a quarter of the room, and its server within a half, as far as others
// wait.
fn is_fair(size: usize, holder: &Holder, octets: usize, holders: &[Holder]) -> bool
    requires { held_of holders.now ≤ size }
    ensures { result ≡ is_fair size holder.now octets holders.now }
{
    is_askers_share(size, holder, octets, holders)
        && is_servers_share(size, holder, octets, holders)
}

// Whether so many octets more leave the address of its client within a quarter of the room, if one of another address waits.
fn is_askers_share(size: usize, holder: &Holder, octets: usize, holders: &[Holder]) -> bool
    requires { held_of holders.now ≤ size }
    ensures { result ≡ is_askers_share size holder.now octets holders.now }
{
    if !other_asker_waits(holder.asker, holders) {
        return true;
    }
    match held_for(holder.asker, holders).checked_add(octets) {
        Some(held) => held <= size / 4,
        None => false,
    }
}

// Whether so many octets more leave its server within a half of the room, if one of another server waits.
fn is_servers_share(size: usize, holder: &Holder, octets: usize, holders: &[Holder]) -> bool
    requires { held_of holders.now ≤ size }
    ensures { result ≡ is_servers_share size holder.now octets holders.now }
{
    if !other_server_waits(holder.server, holders) {
        return true;
    }
    match held_from(holder.server, holders).checked_add(octets) {
        Some(held) => held <= size / 2,
        None => false,
    }
}

// Whether so many octets more are more than one ever takes that holds so many.
fn is_beyond(most: usize, held: usize, octets: usize) -> bool
    ensures { result ≡ nat_lt most (held + octets) }
{
    match held.checked_add(octets) {
        Some(held) => most < held,
        None => true,
    }
}

// Whether the one at this place, which is this, may have so many octets more now.
#[tactic(auto, using(crate::proofs::Kept::held_within))]
fn may_have(size: usize, place: usize, holder: &Holder, octets: usize, holders: &[Holder]) -> bool
    requires kept { IsKept size holders.now }
    ensures { result ≡ may_have size place holder.now octets holders.now }
{
    place == 0
        || (leaves_room(size, octets, place, holders) && is_fair(size, holder, octets, holders))
}

// Whether the one at this place waits and may have what it waits for.
fn is_next(size: usize, place: usize, holders: &[Holder]) -> bool
    requires kept { IsKept size holders.now }
    ensures { result ≡ is_next_at size holders.now place }
{
    match holders.get(place) {
        Some(holder) => {
            0 < holder.wanted && may_have(size, place, holder, holder.wanted, holders)
        }
        None => false,
    }
}

// The one at this place.
fn holder_at(holders: &[Holder], place: usize) -> Option<Holder>
    ensures { result ≡ slice_get holders.now place }
{
    match holders.get(place) {
        Some(holder) => Some(*holder),
        None => None,
    }
}

// Since when the one at this place waits.
fn turn_at(holders: &[Holder], place: usize) -> u64
    ensures { result ≡ turn_at holders.now place }
{
    match holders.get(place) {
        Some(holder) => holder.turn,
        None => 0,
    }
}

// Whether the one at this place waits longer than the one at the other, if there is another.
fn waits_longer(holders: &[Holder], place: usize, other: Option<usize>) -> bool
    ensures longer { result ≡ true → IfSome other (λ other. turn_at holders.now place ≤ turn_at holders.now other) }
    ensures shorter { result ≡ false → IsSomeAnd other (λ other. turn_at holders.now other ≤ turn_at holders.now place) }
{
    match other {
        Some(other) => turn_at(holders, place) < turn_at(holders, other),
        None => true,
    }
}

// The place of the one that waits longest of those that wait and may have what they wait for.
fn next_of(size: usize, holders: &[Holder]) -> Option<usize>
    requires kept { IsKept size holders.now }
    ensures longest { IfSome result (λ place. IsLongest size holders.now place) }
    ensures nobody { IfNone result (IsNobodyNext size holders.now) }
{
    let mut found = None;
    for place in 0..holders.len() {
        if is_next(size, place, holders) && waits_longer(holders, place, found) {
            found = Some(place);
        }
    }
    found
}

// The place of the first one with this number.
fn place_of(number: u64, holders: &[Holder]) -> Option<usize>
    ensures value { result ≡ place_of number holders.now }
    ensures within { IfSome result (λ place. place < length holders.now) }
{
    let mut place = 0usize;
    let mut left = holders;
    while let [first, others @ ..] = left {
        if first.number == number {
            return Some(place);
        }
        place += 1;
        left = others;
    }
    None
}

// The last turn at which one of these began to wait.
fn last_turn(holders: &[Holder]) -> u64
    ensures { result ≡ last_turn holders.now }
{
    let mut last = 0;
    let mut left = holders;
    while let [first, others @ ..] = left {
        last = first.turn.max(last);
        left = others;
    }
    last
}

// The octets that these wait for, or as many as can be told.
#[tactic(auto, using(crate::proofs::Kept::wanted_least))]
fn wanted_of(holders: &[Holder]) -> usize
    ensures { result ≡ wanted_of holders.now }
{
    let mut wanted = 0usize;
    let mut left = holders;
    while let [first, others @ ..] = left {
        wanted = wanted.saturating_add(first.wanted);
        left = others;
    }
    wanted
}

/// Why one doesn't share the room.
#[derive(Clone, Copy)]
pub enum EnterFault {
    /// It may take more than there is.
    TooMuch,
    /// Out of memory.
    NoMemory,
}

/// Room for octets. Each that shares it takes some piece by piece, and gives all of it back when it leaves. Contracts see how many octets
/// there are, and who holds some or waits, those that began first before others.
#[derive(Drop)]
pub struct Room {
    size: usize,
    // How many have entered.
    entered: u64,
    holders: Vec<Holder>,
}

impl Model for Room {
    ghost use Rattle.fair_use.specs.Room.{Shared, IsKept, IsNumbered};

    ghost Value = { Shared };

    ghost view = { λ r. record { size = r.size; entered = r.entered; holders = r.holders.items } };

    ghost invariant = { λ r. IsKept r.size r.holders.items × IsNumbered r.entered r.holders.items };
}

impl Room {
    /// Room for so many octets, which nobody shares as yet.
    pub fn new(alloc: Global, size: usize) -> Room
        ensures { result ≡ record { size = size; entered = 0; holders = [] } }
    {
        Room {
            size,
            entered: 0,
            holders: Vec::new(alloc),
        }
    }

    /// Who holds some or waits, those that began first before others.
    pub fn holders(&self) -> &[Holder]
        ensures { result.now ≡ self.now.holders }
    {
        &self.holders[..]
    }

    /// The octets that are held, which are never more than there are.
    #[tactic(auto, using(crate::proofs::Kept::held_within))]
    pub fn held(&self) -> usize
        ensures value { result ≡ held_of self.now.holders }
        ensures within { result ≤ self.now.size }
    {
        held_in(self.size, self.holders.as_slice())
    }

    /// The octets that are waited for, over all that wait, or as many as can be told.
    pub fn wanted(&self) -> usize
        ensures { result ≡ wanted_of self.now.holders }
    {
        wanted_of(self.holders.as_slice())
    }

    /// One more shares the room, behind all others, which never takes more than `most`: its number, which nobody else has, unless 2^64 have
    /// entered before. Errors: that is more than there is, or
    /// out of memory; nothing changes.
    #[tactic(auto, using(crate::proofs::Kept::kept_more, crate::proofs::Numbers::numbered_more, crate::proofs::Numbers::nobody_has))]
    pub fn enter(
        &mut self,
        asker: Option<u128>,
        server: u128,
        most: usize,
    ) -> Result<u64, EnterFault>
        ensures entered { IfOk result (λ number. self.new ≡ after_entering self.old number asker server most) }
        ensures fresh { IfOk result (λ number. number < 18446744073709551615 → place_of number self.old.holders ≡ None) }
        ensures numbered { IfOk result (λ number. number ≡ self.old.entered) }
        ensures fits { IsOk result → most ≤ self.old.size }
        ensures too_much { IfErr result (λ fault. fault ≡ TooMuch ↔ self.old.size < most) }
        ensures unchanged { OnErr result (self.new ≡ self.old) }
    {
        if self.size < most {
            return Err(EnterFault::TooMuch);
        }
        let number = self.entered;
        let holder = Holder {
            number,
            asker,
            server,
            most,
            held: 0,
            wanted: 0,
            turn: 0,
        };
        if self.holders.push(holder).is_err() {
            return Err(EnterFault::NoMemory);
        }
        self.entered = self.entered.saturating_add(1);
        Ok(number)
    }

    /// Takes so many octets for the one with this number, or has it wait for them. One that waits may ask again, and waits no less long for
    /// it.
    pub fn take(&mut self, number: u64, octets: usize) -> Taken
        ensures { Takes self.old number octets self.new result }
    {
        match place_of(number, self.holders.as_slice()) {
            Some(place) => self.take_at(place, octets),
            None => Taken::Beyond,
        }
    }

    // As `take`, for the one at this place.
    fn take_at(&mut self, place: usize, octets: usize) -> Taken
        ensures { IfSome (slice_get self.old.holders place) (λ holder. (result ≡ taken_of self.old place holder octets) × (self.new ≡ after_taking self.old place holder octets result)) }
    {
        let found = holder_at(self.holders.as_slice(), place);
        match found {
            Some(holder) => self.take_by(place, holder, octets),
            None => Taken::Beyond,
        }
    }

    // As `take`, for this one, which is at this place.
    fn take_by(&mut self, place: usize, holder: Holder, octets: usize) -> Taken
        requires there { slice_get self.old.holders place ≡ Some holder }
        ensures taken { result ≡ taken_of self.old place holder octets }
        ensures changed { self.new ≡ after_taking self.old place holder octets result }
    {
        if is_beyond(holder.most, holder.held, octets) {
            return Taken::Beyond;
        }
        if may_have(self.size, place, &holder, octets, self.holders.as_slice()) {
            self.give(place, holder, octets);
            return Taken::Given;
        }
        self.delay(place, holder, octets);
        Taken::Waits
    }

    // Gives so many octets to the one at this place.
    #[tactic(auto, using(crate::proofs::Kept::kept_giving, crate::proofs::Numbers::numbered_set))]
    fn give(&mut self, place: usize, holder: Holder, octets: usize)
        requires there { slice_get self.old.holders place ≡ Some holder }
        requires within { holder.held + octets ≤ holder.most }
        requires may { may_have self.old.size place holder octets self.old.holders ≡ true }
        ensures { self.new ≡ after_giving self.old place holder octets }
    {
        let mut holder = holder;
        holder.held += octets;
        holder.wanted = 0;
        self.holders[place] = holder;
    }

    // Has the one at this place wait for so many octets, since when it waited if it did.
    #[tactic(auto, using(crate::proofs::Kept::kept_same, crate::proofs::Numbers::numbered_set))]
    fn delay(&mut self, place: usize, holder: Holder, octets: usize)
        requires there { slice_get self.old.holders place ≡ Some holder }
        ensures { self.new ≡ after_waiting self.old place holder octets }
    {
        let mut holder = holder;
        if holder.wanted == 0 {
            holder.turn = last_turn(self.holders.as_slice()).saturating_add(1);
        }
        holder.wanted = octets;
        self.holders[place] = holder;
    }

    /// The one with this number gives all that it holds back, and waits no more.
    #[tactic(auto, using(crate::proofs::Kept::kept_less, crate::proofs::Numbers::numbered_less))]
    pub fn leave(&mut self, number: u64)
        ensures { MatchOption (place_of number self.old.holders) (self.new ≡ self.old) (λ place. self.new ≡ record self.old { holders = remove self.old.holders place }) }
    {
        if let Some(place) = place_of(number, self.holders.as_slice()) {
            let _ = self.holders.remove(place);
        }
    }

    /// The place of the one that is woken: of those that wait and may have what they wait for, the one that waits longest. None only if
    /// nobody may have it; so where all wait there is one, since the one that began first always may.
    #[tactic(auto, using(crate::proofs::Kept::next_first))]
    pub fn next(&self) -> Option<usize>
        ensures longest { IfSome result (λ place. IsLongest self.now.size self.now.holders place) }
        ensures nobody { IfNone result (IsNobodyNext self.now.size self.now.holders) }
        ensures first { IfSome (slice_get self.now.holders 0) (λ holder. 0 < holder.wanted → IsSome result) }
    {
        next_of(self.size, self.holders.as_slice())
    }
}
