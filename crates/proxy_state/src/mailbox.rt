//! Waiting clients and in-flight fetches.
ghost use Rattle.std.specs.Prelude.{◌≡◌, IfOk};
ghost use Rattle.object_store.specs.Object.{head_of};

use crate::attendance::Attendance;
use crate::in_flight::{Flight, InFlight, Look, Reading, Unwanted};
use futures::channel::oneshot;
use http_traffic::{Outcome, Progress, Supplier};
use node_terms::Mode;
use object_store::{CacheKey, SharedObject};
use std::alloc::{AllocError, Global};
use std::collections::BTreeMap;
use std::net::IpAddr;
use std::sync::Arc;
use std::time::Instant;

/// A header field: its name in lower case, and its value.
pub type Field = (Vec<u8>, Vec<u8>);

/// What a waiting client is served by.
#[derive(Clone, Copy, PartialEq, Eq)]
pub enum Service {
    /// What is stored, or a fetch for all clients.
    Shared,
    /// A fetch of its own.
    Own,
    /// A fetch of its own, which may ask the origin about an object that is there.
    Asking,
}

/// A waiting client.
#[derive(Drop)]
pub struct Waiting<A> {
    /// Sends the client its answer.
    pub reply: A,
    /// The address of the client.
    pub asker: IpAddr,
    /// The key of the request, if it is shared.
    pub shared: Option<CacheKey>,
    /// The request fields that a fetch forwards: of a private one all, of a shared one the CDN-Loop fields of the client that began it.
    pub fields: Vec<Field>,
    /// The key whose shared fetch the client began, if it has CDN-Loop fields.
    pub looped: Option<CacheKey>,
    /// What it is served by.
    pub service: Service,
    /// The client's private fetch, once it has started.
    pub fetch: Option<u32>,
    /// The key whose shared fetch the client waits for, where that is noted.
    pub attends: Option<CacheKey>,
}

impl<A> Waiting<A> {
    // Whether it is not known as yet whether the client waits for a shared fetch.
    fn is_new(&self) -> bool {
        self.service == Service::Shared && self.attends.is_none()
    }

    // Whether its request is one for all clients of this key.
    fn asks_for(&self, key: &[u8]) -> bool {
        match &self.shared {
            Some(shared) => shared.as_slice() == key,
            None => false,
        }
    }
}

/// A client that is given the answer of a fetch while it is collected.
#[derive(Drop)]
pub struct Led<A> {
    /// Sends the client its answer.
    pub reply: A,
    /// Whom the answer comes from.
    pub supplier: Supplier,
}

/// A fetch whose attempt has ended. `O` is an object.
#[derive(Drop)]
pub struct Ended<O> {
    pub flight: Flight,
    /// The object whose validators its request had.
    pub asked: Option<O>,
    /// Whether what it fetched was changed while it was under way, so that it may have brought what was there before.
    pub is_outdated: bool,
}

/// A fetch whose attempt has ended, with the objects of this program.
pub type Landed = Ended<SharedObject>;

/// Waiting clients by client number, and in-flight fetches by fetch number. Generic over what sends a client its answer, what is asked about,
/// what cancels a fetch, and what says that a client reads no more, since the prover does not look behind a type parameter (docs/GATE.md).
pub struct Mailbox<A, O, W, D> {
    clients: BTreeMap<u64, Waiting<A>>,
    fetches: BTreeMap<u32, InFlight<O, W, D>>,
    // Clients that began the shared fetch of a key and have CDN-Loop fields, by key.
    looped: BTreeMap<Vec<u8>, u64>,
    attendance: Attendance,
    // Under how many missing octets a shared fetch goes on whose last client has gone. Without this each does.
    quick_abort: Option<u64>,
}

// Written by hand, so that what lets it go is one call for the prover (docs/GATE.md).
impl<A: Drop, O: Drop, W: Drop, D: Drop> Drop for Mailbox<A, O, W, D> {
    fn drop(self) {
        let Self {
            clients: _,
            fetches: _,
            looped: _,
            attendance: _,
            quick_abort: _,
        } = self;
    }
}

// Whether the request of one of these clients is just being taken that is one for all clients of this key.
fn is_taken_for<A>(clients: &BTreeMap<u64, Waiting<A>>, key: &[u8]) -> bool {
    clients
        .values()
        .any(|waiting| waiting.is_new() && waiting.asks_for(key))
}

impl<A: Drop, O: Drop, W: Drop, D: Reading> Mailbox<A, O, W, D> {
    /// No clients and no fetches. A shared fetch whose last client has gone ends if at least `quick_abort` octets are missing, as
    /// `fair_use::ends_unwanted` says; without this number it goes on.
    pub fn new(alloc: Global, quick_abort: Option<u64>) -> Mailbox<A, O, W, D> {
        Mailbox {
            clients: BTreeMap::new(alloc),
            fetches: BTreeMap::new(alloc),
            looped: BTreeMap::new(alloc),
            attendance: Attendance::new(alloc),
            quick_abort,
        }
    }

    /// Adds a waiting client. Errors: out of memory.
    pub fn add(&mut self, client: u64, waiting: Waiting<A>) -> Result<(), AllocError> {
        match self.clients.insert(client, waiting) {
            Ok(_) => Ok(()),
            Err(_) => Err(AllocError),
        }
    }

    /// Whether this client waits.
    pub fn waits(&self, client: u64) -> bool {
        self.clients.contains_key(&client)
    }

    /// Removes a client that has gone at this time, cancels its private fetch, and ends the shared one that it was the last to wait for, if
    /// that is to end.
    pub fn remove(&mut self, client: u64, now: Option<Instant>) {
        let Some(waiting) = self.take(client) else {
            return;
        };
        if let Some(fetch) = waiting.fetch {
            let _ = self.fetches.remove(&fetch);
        }
        if let Some(key) = &waiting.attends
            && let Some(now) = now
        {
            self.leave(key.as_slice(), now);
        }
    }

    // Looks at the shared fetch of a key for which a client waits no more. Nothing is to be done where another one does.
    fn leave(&mut self, key: &[u8], now: Instant) {
        let Some(quick_abort) = self.quick_abort else {
            return;
        };
        if self.may_be_awaited(key) {
            return;
        }
        self.attendance.note_last(key, now);
        for fetching in self.fetches.values_mut() {
            if fetching.is_shared_of(key) {
                fetching.leave(Look { quick_abort, now });
            }
        }
    }

    /// Ends the shared fetches that have no client and are to end. One for whose key a client's request is just being taken has one, unless it
    /// needs none: then it ends once it has been without one for too long.
    pub fn end_unwanted(&mut self, now: Instant) {
        let Some(quick_abort) = self.quick_abort else {
            return;
        };
        let (attendance, clients) = (&self.attendance, &self.clients);
        for fetching in self.fetches.values_mut() {
            if fetching.flight.mode == Mode::Shared {
                let key = fetching.key.as_slice();
                let is_attended = attendance.has(key)
                    || (!fetching.is_spared() && is_taken_for(clients, key));
                fetching.look(is_attended, Look { quick_abort, now });
            }
        }
        self.attendance.forget_old(now);
    }

    /// Removes a fetch if it was ended for want of clients: what is known of it.
    pub fn take_unwanted(&mut self, fetch: u32) -> Option<Unwanted> {
        let fetching = self.fetches.get(&fetch)?;
        if !fetching.is_ended() {
            return None;
        }
        let unwanted = Unwanted {
            flight: fetching.flight,
            is_awaited: self.may_be_awaited(fetching.key.as_slice()),
        };
        let _ = self.fetches.remove(&fetch);
        Some(unwanted)
    }

    /// Whether a client waits, or may wait, for what is fetched of this key for all, or nobody needs to at this time.
    pub fn is_wanted(&self, key: &[u8], now: Instant) -> bool {
        self.may_be_awaited(key) || self.attendance.spared_since(key, now).is_some()
    }

    /// Whether a client waits for what is fetched of this key for all, or may: a client's request for it is just being taken.
    pub fn may_be_awaited(&self, key: &[u8]) -> bool {
        self.attendance.has(key) || is_taken_for(&self.clients, key)
    }

    /// Notes that what is fetched of this key for all needs no client for some time from now on.
    pub fn spare(&mut self, alloc: Global, key: &[u8], now: Instant) {
        if self.quick_abort.is_none() {
            return;
        }
        self.attendance.spare(alloc, key, now);
        for fetching in self.fetches.values_mut() {
            if fetching.is_shared_of(key) {
                fetching.spare();
            }
        }
    }

    /// Notes that what is fetched of this key for all needs clients again.
    pub fn spare_no_more(&mut self, key: &[u8]) {
        self.attendance.forget(key);
    }

    /// Notes that this client, if it waits, does so for the shared fetch of this key, and whether it may have the answer while that is
    /// collected. Errors: out of memory.
    pub fn attend(
        &mut self,
        alloc: Global,
        client: u64,
        key: CacheKey,
        leads: bool,
    ) -> Result<(), AllocError> {
        let Some(waiting) = self.clients.get_mut(&client) else {
            return Ok(());
        };
        if waiting.attends.is_none() {
            self.attendance.join(alloc, key.as_slice())?;
        }
        if leads {
            self.attendance.lead(key.as_slice(), client);
        }
        waiting.attends = Some(key);
        Ok(())
    }

    /// Removes a client.
    fn take(&mut self, client: u64) -> Option<Waiting<A>> {
        let waiting = self.clients.remove(&client)?;
        if let Some(key) = &waiting.looped
            && self.looped.get(key.as_slice()) == Some(&client)
        {
            let _ = self.looped.remove(key.as_slice());
        }
        if let Some(key) = &waiting.attends {
            self.attendance.leave(key.as_slice(), client);
        }
        Some(waiting)
    }

    /// Removes the client that may have the answer of this fetch while it is collected, and that says over `reading` when it reads no more.
    /// `None` if none waits for it.
    pub fn take_leader(&mut self, fetch: u32, reading: D) -> Option<Led<A>> {
        let (client, supplier) = self.leader_of(fetch)?;
        if let Some(fetching) = self.fetches.get_mut(&fetch) {
            fetching.note_reading(reading);
        }
        let Waiting { reply, .. } = self.take(client)?;
        Some(Led { reply, supplier })
    }

    // The client that may have the answer of this fetch while it is collected, and whom that comes from.
    fn leader_of(&self, fetch: u32) -> Option<(u64, Supplier)> {
        let fetching = self.fetches.get(&fetch)?;
        if fetching.flight.mode != Mode::Shared {
            return None;
        }
        let client = self.attendance.leader(fetching.key.as_slice())?;
        Some((client, fetching.flight.supplier))
    }

    /// Notes that this client, if it waits, began the shared fetch of this key and has CDN-Loop fields. Errors: out of memory.
    pub fn loop_from(
        &mut self,
        alloc: Global,
        client: u64,
        key: CacheKey,
    ) -> Result<(), AllocError> {
        let Some(waiting) = self.clients.get_mut(&client) else {
            return Ok(());
        };
        let octets = key.as_slice().to_vec(alloc)?;
        if self.looped.insert(octets, client).is_err() {
            return Err(AllocError);
        }
        waiting.looped = Some(key);
        Ok(())
    }

    /// The CDN-Loop fields of the client that began the shared fetch of this key, or of the only one that asks for it, since a fetch may start
    /// before it is noted who began it; none if it has none, or does not wait any more. Errors: out of memory.
    pub fn loop_fields(&self, alloc: Global, key: &[u8]) -> Result<Vec<Field>, AllocError> {
        if let Some(client) = self.looped.get(key) {
            return self.fields_of(alloc, *client);
        }
        match self.only_asker(key) {
            Some(only) => copy_of(alloc, only.fields.as_slice()),
            None => Ok(Vec::new(alloc)),
        }
    }

    // The client that asks for what is fetched of this key for all, if just one does.
    fn only_asker(&self, key: &[u8]) -> Option<&Waiting<A>> {
        let asking = self
            .clients
            .values()
            .filter(|waiting| waiting.asks_for(key))
            .count();
        if asking != 1 {
            return None;
        }
        self.clients.values().find(|waiting| waiting.asks_for(key))
    }

    /// The fields that a fetch for this client forwards; none if it does not wait. Errors: out of memory.
    pub fn fields_of(&self, alloc: Global, client: u64) -> Result<Vec<Field>, AllocError> {
        match self.clients.get(&client) {
            Some(waiting) => copy_of(alloc, waiting.fields.as_slice()),
            None => Ok(Vec::new(alloc)),
        }
    }

    /// Records `fetch` as the client's private fetch. Returns a copy of the fields to forward, or `None` if the client no longer
    /// waits. Errors: out of memory.
    pub fn fields_for(
        &mut self,
        alloc: Global,
        client: u64,
        fetch: u32,
    ) -> Result<Option<Vec<Field>>, AllocError> {
        let Some(waiting) = self.clients.get_mut(&client) else {
            return Ok(None);
        };
        waiting.fetch = Some(fetch);
        Ok(Some(copy_of(alloc, waiting.fields.as_slice())?))
    }

    /// The address of the client that owns a fetch; of a shared one of this key, that of the client that leads those who wait for it, or else
    /// of the first of these. `None` if there is none.
    pub fn asker_of(&self, owner: Option<u64>, key: &[u8]) -> Option<IpAddr> {
        let owner = match owner {
            Some(client) => Some(client),
            None => self.attendance.leader(key),
        };
        if let Some(client) = owner {
            return Some(self.clients.get(&client)?.asker);
        }
        let waiting = self.clients.values().find(|waiting| waiting.asks_for(key));
        Some(waiting?.asker)
    }

    /// Whether this client waits, and its private fetch may ask the origin about an object that is there.
    pub fn validates(&self, client: u64) -> bool {
        match self.clients.get(&client) {
            Some(waiting) => waiting.service == Service::Asking,
            None => false,
        }
    }

    /// Adds an in-flight fetch of this key, which is cancelled when `wanted` is dropped, and of whose answer `progress` tells how much has
    /// come. It replaces, and so cancels, an earlier attempt of the same fetch. Errors: out of memory.
    pub fn begin(
        &mut self,
        fetch: u32,
        key: CacheKey,
        flight: Flight,
        wanted: W,
        progress: Option<Arc<Progress>>,
    ) -> Result<(), AllocError> {
        let spared = match flight.began {
            Some(now) => self.attendance.spared_since(key.as_slice(), now),
            None => None,
        };
        let fetching = InFlight::new(key, flight, wanted, progress, spared);
        match self.fetches.insert(fetch, fetching) {
            Ok(_) => Ok(()),
            Err(_) => Err(AllocError),
        }
    }

    /// Notes that the request of a fetch in flight has the validators of this object.
    pub fn ask(&mut self, fetch: u32, object: O) {
        if let Some(fetching) = self.fetches.get_mut(&fetch) {
            fetching.asked = Some(object);
        }
    }

    /// Notes that what is stored under a key was changed: what is being fetched of it may be what was there before. Returns whether
    /// something is.
    pub fn outdate(&mut self, key: &[u8]) -> bool {
        let mut is_one = false;
        for fetching in self.fetches.values_mut() {
            if fetching.key.as_slice() == key {
                fetching.is_outdated = true;
                is_one = true;
            }
        }
        is_one
    }

    /// Whether something is being fetched of this key for all that was changed meanwhile.
    pub fn is_outdated(&self, key: &[u8]) -> bool {
        self.fetches.values().any(|fetching| fetching.misleads() && fetching.key.as_slice() == key)
    }

    /// Whether anything is being fetched for all that was changed meanwhile.
    pub fn has_outdated(&self) -> bool {
        self.fetches.values().any(|fetching| fetching.misleads())
    }

    /// What is known of a fetch whose attempt has ended, with the object that it asked about. It stays in flight until `end`, so that a
    /// change is noted of it. One that is not in flight counts as private, so that nothing is stored.
    pub fn landed(&mut self, fetch: u32) -> Ended<O> {
        match self.fetches.get_mut(&fetch) {
            Some(fetching) => Ended {
                flight: fetching.flight,
                asked: fetching.asked.take(),
                is_outdated: fetching.is_outdated,
            },
            None => Ended {
                flight: Flight {
                    mode: Mode::Private,
                    supplier: Supplier::Origin,
                    only_if_cached: false,
                    began: None,
                },
                asked: None,
                is_outdated: false,
            },
        }
    }

    /// Whether nothing that this fetch brings may be kept: what it fetches was changed while it is under way, or it is not in flight any
    /// more.
    pub fn is_lost(&self, fetch: u32) -> bool {
        match self.fetches.get(&fetch) {
            Some(fetching) => fetching.is_outdated,
            None => true,
        }
    }

    /// Removes a fetch whose attempt has ended.
    pub fn end(&mut self, fetch: u32) {
        let _ = self.fetches.remove(&fetch);
    }

    /// The number of waiting clients.
    pub fn waiting(&self) -> usize {
        self.clients.len()
    }

    /// The number of in-flight fetches.
    pub fn fetching(&self) -> usize {
        self.fetches.len()
    }

    /// Cancels all fetches and drops all clients without an answer.
    pub fn clear(&mut self) {
        self.fetches.clear();
        self.clients.clear();
        self.looped.clear();
        self.attendance.clear();
    }
}

impl<O: Drop, W: Drop, D: Reading> Mailbox<oneshot::Sender<Outcome>, O, W, D> {
    /// Answers a client, if it is still waiting, and removes it.
    pub fn answer(&mut self, client: u64, answer: Outcome) {
        if let Some(waiting) = self.take(client) {
            let _ = waiting.reply.send(answer);
        }
    }
}

/// A copy of some fields. Errors: out of memory.
pub(crate) fn copy_of(alloc: Global, fields: &[Field]) -> Result<Vec<Field>, AllocError>
    ensures { IfOk result (λ copy. head_of copy.items ≡ head_of fields.now) }
{
    let mut copy = Vec::new(alloc);
    for i in 0..fields.len() {
        let name = fields[i].0.as_slice().to_vec(alloc)?;
        copy.push((name, fields[i].1.as_slice().to_vec(alloc)?))?;
    }
    Ok(copy)
}
