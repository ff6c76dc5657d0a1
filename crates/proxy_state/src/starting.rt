//! Actions of the node that are carried out by the shared state: answers to clients, and fetches that start.
use crate::addressing::Destination;
use crate::early::gives_early;
use crate::in_flight::Flight;
use crate::kept::Kept;
use crate::mail::Mail;
use crate::mailbox::Field;
use crate::shared::{Shared, tell_not_taken};
use futures::channel::oneshot;
use http_traffic as serving;
use http_traffic::{Order, Progress, Supplier};
use node_words::{Action, Answer, Mode, NoMemory};
use object_store::{CacheKey, Object, SharedObject};
use peer_select::Source;
use std::alloc::{AllocError, Global};
use std::net::IpAddr;
use std::sync::{Arc, Wait};
use std::time::{Clock, Instant};

/// What an action of the node follows from.
#[derive(Clone, Copy)]
pub struct Cause {
    /// Whom the object comes from of the fetch whose result was handed in.
    pub supplier: Option<Supplier>,
    /// Whether that fetch was ended, or not begun, for want of clients.
    pub is_unwanted: bool,
    /// Whether it is no event of the client itself: one whose request has begun a fetch may have gone until its round is decided.
    pub is_later: bool,
    /// The client whose request it is, if that has CDN-Loop fields.
    pub marked: Option<u64>,
}

impl Cause {
    /// The request of a client without CDN-Loop fields, or an event of the proxy itself.
    pub fn request() -> Cause {
        Cause {
            supplier: None,
            is_unwanted: false,
            is_later: false,
            marked: None,
        }
    }

    /// The request of this client, which has CDN-Loop fields.
    pub fn marked(client: u64) -> Cause {
        Cause {
            supplier: None,
            is_unwanted: false,
            is_later: false,
            marked: Some(client),
        }
    }

    /// A datagram, or that some time has passed.
    pub fn round() -> Cause {
        Cause {
            supplier: None,
            is_unwanted: false,
            is_later: true,
            marked: None,
        }
    }

    /// The result of a fetch, whose object comes from `supplier`.
    pub fn result(supplier: Option<Supplier>) -> Cause {
        Cause {
            supplier,
            is_unwanted: false,
            is_later: true,
            marked: None,
        }
    }

    /// The end of a fetch for want of clients.
    pub fn unwanted() -> Cause {
        Cause {
            supplier: None,
            is_unwanted: true,
            is_later: true,
            marked: None,
        }
    }
}

/// Why a fetch was not started.
#[derive(Clone, Copy, PartialEq, Eq)]
pub enum Unstarted {
    /// No client waits for it any more.
    Unwanted,
    /// It could not be.
    NoMemory,
}

/// A fetch that the node asks for.
#[derive(Clone, Copy)]
struct Wanted {
    fetch: u32,
    attempt: u16,
    source: Source,
    only_if_cached: bool,
    owner: Option<u64>,
    marked: Option<u64>,
}

impl Wanted {
    /// What is to be known of the fetch while it is in flight.
    fn flight(&self, began: Option<Instant>) -> Flight {
        Flight {
            mode: match self.owner {
                Some(_) => Mode::Private,
                None => Mode::Shared,
            },
            supplier: match self.source {
                Source::Origin => Supplier::Origin,
                Source::Peer(place) => Supplier::Neighbour(place),
            },
            only_if_cached: self.only_if_cached,
            began,
        }
    }
}

/// What a fetch thread is told of a fetch that is in flight.
#[derive(Drop)]
struct Entered {
    flight: Flight,
    asker: Option<IpAddr>,
    deadline: Instant,
    fields: Vec<Field>,
    receiver: oneshot::Receiver<()>,
    progress: Option<Arc<Progress>>,
}

/// Carries out an action other than `Send`, which it ignores. Errors: a fetch was not started.
pub fn perform<R: Wait + Clock, S: Shared>(
    rt: &R,
    alloc: Global,
    proxy: &S,
    action: &Action,
    cause: &Cause,
) -> Result<(), Unstarted> {
    match action {
        Action::Send { .. } => Ok(()),
        Action::Serve { client, answer } => {
            let answer = outcome_of(answer, cause, proxy.kept().tells_stored);
            proxy.mail().mailbox.lock(rt).answer(*client, answer);
            Ok(())
        }
        Action::Fetch {
            fetch,
            attempt,
            source,
            only_if_cached,
            owner,
        } => {
            let wanted = Wanted {
                fetch: *fetch,
                attempt: *attempt,
                source: *source,
                only_if_cached: *only_if_cached,
                owner: *owner,
                marked: cause.marked,
            };
            begin(rt, alloc, proxy, wanted, cause)
        }
    }
}

/// Starts an attempt of a fetch for all clients once more, which was ended for want of clients and is `flight`, since one waits for it now.
/// Errors: it could not be started.
pub fn begin_again<R: Wait + Clock, S: Shared>(
    rt: &R,
    alloc: Global,
    proxy: &S,
    fetch: u32,
    attempt: u16,
    flight: Flight,
) -> Result<(), Unstarted> {
    let wanted = Wanted {
        fetch,
        attempt,
        source: match flight.supplier {
            Supplier::Neighbour(place) => Source::Peer(place),
            Supplier::Origin | Supplier::Confirmed | Supplier::Stale(_) => Source::Origin,
        },
        only_if_cached: flight.only_if_cached,
        owner: None,
        marked: None,
    };
    begin(rt, alloc, proxy, wanted, &Cause::request())
}

/// Starts a fetch.
fn begin<R: Wait + Clock, S: Shared>(
    rt: &R,
    alloc: Global,
    proxy: &S,
    wanted: Wanted,
    cause: &Cause,
) -> Result<(), Unstarted> {
    match proxy.key_of(rt, wanted.fetch) {
        Ok(Some(key)) => {
            let begun = begin_wanted(rt, alloc, proxy, wanted, cause, &key);
            drop(key);
            begun
        }
        Ok(None) | Err(_) => Err(Unstarted::NoMemory),
    }
}

/// Starts a fetch of this key, unless nobody wants it any more, which is counted once for a fetch.
fn begin_wanted<R: Wait + Clock, S: Shared>(
    rt: &R,
    alloc: Global,
    proxy: &S,
    wanted: Wanted,
    cause: &Cause,
    key: &CacheKey,
) -> Result<(), Unstarted> {
    if is_left(rt, proxy, wanted, cause, key.as_slice()) {
        if !cause.is_unwanted {
            proxy.telling().figures.note_unwanted();
        }
        return Err(Unstarted::Unwanted);
    }
    match begin_under(rt, alloc, proxy, wanted, key) {
        Ok(()) => Ok(()),
        Err(_) => Err(Unstarted::NoMemory),
    }
}

/// Whether the clients of a fetch of `key` have gone that is to start, where such a fetch is not to. The client is there whose own request
/// has just begun it.
fn is_left<R: Wait + Clock, S: Shared>(
    rt: &R,
    proxy: &S,
    wanted: Wanted,
    cause: &Cause,
    key: &[u8],
) -> bool {
    let mail = proxy.mail();
    if !mail.ends_unwanted || wanted.owner.is_some() || (!cause.is_later && wanted.attempt == 0) {
        return false;
    }
    let is_asking = asked_about(rt, proxy.kept(), mail, wanted, key).is_some();
    !mail.is_wanted(rt, key, is_asking, cause.is_unwanted)
}

/// Starts a fetch of this key.
fn begin_under<R: Wait + Clock, S: Shared>(
    rt: &R,
    alloc: Global,
    proxy: &S,
    wanted: Wanted,
    key: &CacheKey,
) -> Result<(), NoMemory> {
    let outward = proxy.outward();
    let Some(destination) = outward.destination(alloc, wanted.source, key) else {
        return Err(AllocError);
    };
    match put_in_flight(rt, alloc, proxy, wanted, key) {
        Ok(entered) => send_to(rt, alloc, proxy, wanted, destination, entered),
        Err(fault) => {
            drop(destination);
            Err(fault)
        }
    }
}

/// Notes that a fetch of `key` is in flight, as `enter` does. Errors: out of memory, or there is no clock; the fetch is not in flight.
fn put_in_flight<R: Wait + Clock, S: Shared>(
    rt: &R,
    alloc: Global,
    proxy: &S,
    wanted: Wanted,
    key: &CacheKey,
) -> Result<Entered, AllocError> {
    let began = Instant::now(rt).ok();
    let flight = wanted.flight(began);
    let Some(deadline) = proxy.outward().deadline(began) else {
        return Err(AllocError);
    };
    let (progress, told) = progress_of(alloc, proxy.mail().ends_unwanted, wanted)?;
    match oneshot::channel(alloc) {
        Ok((sender, receiver)) => {
            let fields = enter(rt, alloc, proxy, wanted, key, flight, sender, told);
            let asker = proxy.mail().asker_of(rt, wanted.owner, key.as_slice());
            order_entered(flight, asker, deadline, fields, receiver, progress)
        }
        Err(fault) => {
            drop(progress);
            drop(told);
            Err(fault)
        }
    }
}

/// A fetch with these fields that is in flight. Errors: it is not.
fn order_entered(
    flight: Flight,
    asker: Option<IpAddr>,
    deadline: Instant,
    fields: Result<Vec<Field>, AllocError>,
    receiver: oneshot::Receiver<()>,
    progress: Option<Arc<Progress>>,
) -> Result<Entered, AllocError> {
    match fields {
        Ok(fields) => Ok(Entered {
            flight,
            asker,
            deadline,
            fields,
            receiver,
            progress,
        }),
        Err(fault) => {
            drop(receiver);
            drop(progress);
            Err(fault)
        }
    }
}

/// Two handles to where is noted how much of the answer of a fetch has come: none where nobody looks at that, as none does unless shared fetches
/// are ended that have no client. Errors: out of memory.
fn progress_of(
    alloc: Global,
    ends_unwanted: bool,
    wanted: Wanted,
) -> Result<(Option<Arc<Progress>>, Option<Arc<Progress>>), AllocError> {
    if !ends_unwanted || wanted.owner.is_some() {
        return Ok((None, None));
    }
    let progress = Arc::new(alloc, Progress::new())?;
    match Arc::try_clone(&progress) {
        Ok(other) => Ok((Some(progress), Some(other))),
        Err(_) => {
            drop(progress);
            Err(AllocError)
        }
    }
}

/// Notes that a fetch of `key` is in flight, and then what it asks about: a change of what is stored that comes between is noted of the
/// fetch. Returns the fields of its request, as `fields` does. Errors: out of memory; the fetch is not in flight.
fn enter<R: Wait, S: Shared>(
    rt: &R,
    alloc: Global,
    proxy: &S,
    wanted: Wanted,
    key: &CacheKey,
    flight: Flight,
    sender: oneshot::Sender<()>,
    progress: Option<Arc<Progress>>,
) -> Result<Vec<Field>, AllocError> {
    let mail = proxy.mail();
    mail.begin(rt, wanted.fetch, key, flight, sender, progress)?;
    let asked = asked_about(rt, proxy.kept(), mail, wanted, key.as_slice());
    let fields = fields(rt, alloc, proxy, wanted, key.as_slice(), asked.as_ref());
    mail.note_asked(rt, wanted.fetch, asked);
    if fields.is_err() {
        mail.end(rt, wanted.fetch);
    }
    fields
}

/// Sends the order of a fetch that is in flight to a fetch thread. Errors: it was not accepted; the fetch is no longer in flight.
fn send_to<R: Wait + Clock, S: Shared>(
    rt: &R,
    alloc: Global,
    proxy: &S,
    wanted: Wanted,
    destination: Destination,
    entered: Entered,
) -> Result<(), NoMemory> {
    let Destination {
        name,
        port,
        host,
        target,
    } = destination;
    let Entered {
        flight,
        asker,
        deadline,
        fields,
        receiver,
        progress,
    } = entered;
    let order = Order {
        fetch: wanted.fetch,
        attempt: wanted.attempt,
        host,
        target,
        fields,
        is_origin: flight.is_origin(),
        is_early: flight.mode == Mode::Shared && gives_early(proxy.passes()),
        asker,
        deadline,
        wanted: receiver,
        progress,
    };
    match proxy.fetchers().send(rt, alloc, name, port, order) {
        Ok(()) => Ok(()),
        Err(fault) => {
            tell_not_taken(rt, alloc, proxy, asker, fault);
            proxy.mail().end(rt, wanted.fetch);
            Err(AllocError)
        }
    }
}

/// The object that the origin is asked about by a fetch of `key`: what is on the shelf, unless the client that owns the fetch
/// wants another answer.
fn asked_about<R: Wait>(
    rt: &R,
    kept: &Kept,
    mail: &Mail,
    wanted: Wanted,
    key: &[u8],
) -> Option<SharedObject> {
    if kept.shelf.is_none() || !matches!(wanted.source, Source::Origin) {
        return None;
    }
    if mail.validates(rt, wanted.owner) {
        kept.to_ask_about(rt, key)
    } else {
        None
    }
}

/// The request fields of a fetch of `key` other than Host: those of the client that owns a private fetch, without Accept-Encoding
/// where something is asked about, or the CDN-Loop fields of the one that began a shared one and the fields of all shared ones; the conditions of the object that is asked about;
/// `only-if-cached` for a sibling; CDN-Loop and Via of this cache.
fn fields<R: Wait, S: Shared>(
    rt: &R,
    alloc: Global,
    proxy: &S,
    wanted: Wanted,
    key: &[u8],
    asked: Option<&SharedObject>,
) -> Result<Vec<Field>, AllocError> {
    let mut fields = first_fields(rt, alloc, proxy, wanted, key, asked.is_some())?;
    let (outward, cached) = (proxy.outward(), wanted.only_if_cached);
    match outward.add_further(alloc, cached, asked, &mut fields) {
        Ok(()) => Ok(fields),
        Err(fault) => {
            drop(fields);
            Err(fault)
        }
    }
}

/// The fields of the client that owns a private fetch, or those of a shared one.
fn first_fields<R: Wait, S: Shared>(
    rt: &R,
    alloc: Global,
    proxy: &S,
    wanted: Wanted,
    key: &[u8],
    is_asking: bool,
) -> Result<Vec<Field>, AllocError> {
    let mail = proxy.mail();
    match wanted.owner {
        Some(client) => mail.own_fields(rt, alloc, client, wanted.fetch, is_asking),
        None => shared_fields(rt, alloc, proxy, wanted.marked, key),
    }
}

/// The fields of a shared fetch of `key`: the CDN-Loop fields of the client that began it, which is `marked` where its own request has it
/// started, and those of all shared fetches.
fn shared_fields<R: Wait, S: Shared>(
    rt: &R,
    alloc: Global,
    proxy: &S,
    marked: Option<u64>,
    key: &[u8],
) -> Result<Vec<Field>, AllocError> {
    let mut fields = proxy.mail().marks(rt, alloc, marked, key)?;
    match proxy.outward().add_shared(alloc, &mut fields) {
        Ok(()) => Ok(fields),
        Err(fault) => {
            drop(fields);
            Err(fault)
        }
    }
}

/// Whether the client of a fetched object is told that it was stored.
fn is_told(object: &Object, tells_stored: Option<u32>) -> bool {
    match tells_stored {
        Some(most) => 0 < object.life() && octets_of(object) <= most as usize,
        None => false,
    }
}

/// The octets of an object's fields and body.
fn octets_of(object: &Object) -> usize {
    let mut octets = object.body().len();
    for (name, value) in object.head() {
        octets = octets
            .saturating_add(name.len())
            .saturating_add(value.len());
    }
    octets
}

/// An answer of the node as the HTTP server takes it; status 503 if the object cannot get one more owner.
fn outcome_of(answer: &Answer, cause: &Cause, tells_stored: Option<u32>) -> serving::Outcome {
    match answer {
        Answer::Hit { object, age } => match object.share() {
            Ok(object) => serving::Outcome::Hit { object, age: *age },
            Err(_) => serving::Outcome::Fail(503),
        },
        Answer::Got(object) => match object.share() {
            Ok(object) => serving::Outcome::Got {
                is_stored: is_told(object.get(), tells_stored),
                object,
                supplier: cause.supplier,
            },
            Err(_) => serving::Outcome::Fail(503),
        },
        Answer::Fail(502) if cause.is_unwanted => serving::Outcome::Again,
        Answer::Fail(status) => serving::Outcome::Fail(*status),
    }
}
