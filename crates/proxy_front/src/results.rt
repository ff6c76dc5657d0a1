//! Results of fetches on their way to the node.
ghost use Rattle.std.specs.Prelude.{◌≡◌, IfOk, IfSome, None, false, true};
ghost use Rattle.http_rules.specs.Fields.{fields_of};
ghost use Rattle.http_rules.specs.Storing.{IsOf};

use crate::ends::{end_of, is_down};
use crossbeam_channel::Sender;
use fair_use::{SharedEnd, Upload, may_have_changed};
use filter_slots::Moment;
use http_header::HeaderMap;
use http_rules::{
    Changed, PassFault, Revalidated, SourceEnd, StaleUse, Storable, age_of, changed_keys,
    complete_length, supersedes,
};
use http_traffic::{Change, Ended, FetchEnd, FetchFault, Fetched, LeftChange, Page, Supplier};
use httpdate::HttpDate;
use node_words::{Event, Mode, Outcome};
use object_store::{CacheKey, SharedObject};
use proxy_state::{
    Cause, Exchange, Flight, Landed, Profile, RETRIES, RETRY_MILLIS, Received, Shared, Stale,
    TakeEvents, Unwanted, begin_again, confirmed, date_seconds, has_other_rules, hides_rules,
    micros_since, refusal, stale_object, stored_object, unkept_object, unstored_object, withdraw,
};
use shared_thread::Submit;
use std::alloc::Global;
use std::sync::{Arc, RwLock, Wait};
use std::time::{Clock, Duration};
use std::{mem, thread};
use traffic_figures::{FetchNote, FetchOutcome, FetchedFrom};

/// The status with which a cache refuses a request that has come back to it (RFC 5842, section 7.2).
const LOOP_DETECTED: u16 = 508;

/// The status of a response with a part of an object (RFC 9110, section 15.3.7).
const PARTIAL_CONTENT: u16 = 206;

/// The status of a response to a request with conditions that are not met (RFC 9110, section 15.4.5).
const NOT_MODIFIED: u16 = 304;

/// The status of a response to a request with conditions that are not met, where it is no GET (RFC 9110, section 15.5.13).
const PRECONDITION_FAILED: u16 = 412;

/// Whether a page says only that its neighbour would have asked this cache again, so that the next source is to be asked.
fn is_for_the_next(flight: Flight, page: &Page) -> bool {
    !flight.is_origin() && page.status == LOOP_DETECTED
}

/// Whom the object of a fetch comes from: nobody if it was refused.
fn supplier_of(landed: &Landed, end: &FetchEnd) -> Option<Supplier> {
    match end {
        FetchEnd::Refused => None,
        FetchEnd::Whole(page) if page.status == NOT_MODIFIED && landed.asked.is_some() => {
            Some(Supplier::Confirmed)
        }
        FetchEnd::Whole(_) | FetchEnd::Failed(_) => Some(landed.flight.supplier),
    }
}

/// Whether an origin has a response for all clients that is too long to be kept, in place of what was kept before.
fn is_too_long(flight: Flight, end: &FetchEnd) -> bool {
    flight.is_origin()
        && flight.mode == Mode::Shared
        && matches!(end, FetchEnd::Failed(FetchFault::TooLarge))
}

/// Whether an origin that was asked about an object was reached, and has not answered as it should. It may answer a request without
/// conditions, so the next fetch has none.
fn is_unanswered(landed: &Landed, end: &FetchEnd) -> bool {
    landed.asked.is_some()
        && matches!(
            end_of(end),
            SourceEnd::Answered(PRECONDITION_FAILED) | SourceEnd::Unread
        )
}

/// What the shelf does after a response that stands for nothing.
fn step_of_none(landed: &Landed, page: &Page) -> ShelfStep {
    if page.status == NOT_MODIFIED && landed.asked.is_some() {
        ShelfStep::Remove
    } else {
        ShelfStep::Stay
    }
}

/// What the page of a fetch stands for.
#[derive(Clone, Copy)]
enum Meaning {
    /// A response of its own.
    Itself,
    /// What was asked about, which it may confirm.
    Confirmation,
    /// Nothing.
    Nothing,
}

/// What the shelf does when the object of a fetch is handed in.
#[derive(Clone, Copy)]
enum ShelfStep {
    /// Nothing.
    Stay,
    /// It takes away what it has under the key.
    Remove,
    /// It follows the object, as `Results::follow` says.
    Follow,
}

/// What a fetch brought by itself.
struct Brought {
    /// `None` if the attempt has failed.
    object: Option<SharedObject>,
    step: ShelfStep,
    /// Whether a client's reload has found something else than was there.
    is_changed: bool,
}

// Written by hand, so that what lets it go is one call for the prover (docs/GATE.md).
impl Drop for Brought {
    fn drop(self) {
        let Self {
            object: _,
            step: _,
            is_changed: _,
        } = self;
    }
}

impl Brought {
    /// An object, if there is one, with which the shelf has nothing to do.
    fn alone(object: Option<SharedObject>) -> Brought {
        Brought {
            object,
            step: ShelfStep::Stay,
            is_changed: false,
        }
    }
}

/// What came of a fetch, as far as that is known before an object is made of it.
#[derive(Clone, Copy)]
enum Came {
    /// A response.
    Head,
    /// A response whose content is too long.
    TooLarge,
    /// Whatever came was changed meanwhile.
    Overtaken,
    /// No response.
    Nothing,
}

impl Came {
    /// What came of an attempt that has ended so.
    fn of(landed: &Landed, end: &FetchEnd) -> Came {
        match end {
            _ if landed.is_outdated => Came::Overtaken,
            FetchEnd::Whole(_) => Came::Head,
            FetchEnd::Failed(FetchFault::TooLarge) => Came::TooLarge,
            FetchEnd::Failed(_) | FetchEnd::Refused => Came::Nothing,
        }
    }

    /// How the fetch ended of which this is handed in. What stands in place of an error is no response of its origin.
    fn end_with(self, delivery: &Delivery, is_replaced: bool) -> SharedEnd {
        match (self, &delivery.brought.object) {
            (Came::Overtaken, _) => SharedEnd::Overtaken,
            (Came::TooLarge, _) => SharedEnd::TooLarge,
            (Came::Head, Some(object)) if !is_replaced => match object.get().life() {
                0 => SharedEnd::Unstorable(object.get().status()),
                _ => SharedEnd::Storable,
            },
            (Came::Head | Came::Nothing, _) => SharedEnd::Headless,
        }
    }
}

/// What is handed in of a fetch, and whom its object comes from.
struct Delivery {
    brought: Brought,
    supplier: Option<Supplier>,
}

// Written by hand, so that what lets it go is one call for the prover (docs/GATE.md).
impl Drop for Delivery {
    fn drop(self) {
        let Self {
            brought: _,
            supplier: _,
        } = self;
    }
}

/// How a fetch has ended that a stale object takes the place of.
#[derive(Drop)]
struct Replaced {
    landed: Landed,
    end: FetchEnd,
}

/// All that is made of what a fetch brought before it is handed in.
struct Made {
    flight: Flight,
    /// The key of the fetch, where responses are kept by RFC 9111.
    key: Option<CacheKey>,
    /// Whether the origin is not asked about the object again.
    is_unanswered: bool,
    delivery: Delivery,
    replaced: Option<Replaced>,
    /// How the fetch ended, for who asks for the same next.
    end: SharedEnd,
}

// Written by hand, so that what lets it go is one call for the prover (docs/GATE.md).
impl Drop for Made {
    fn drop(self) {
        let Self {
            flight: _,
            key: _,
            is_unanswered: _,
            delivery: _,
            replaced: _,
            end: _,
        } = self;
    }
}

impl Made {
    /// Whether it is to be handed in only if nothing was changed: an object that is stored, or one that was on the shelf.
    fn wants_no_change(&self) -> bool {
        let is_stored = match &self.delivery.brought.object {
            Some(object) => object.get().life() > 0,
            None => false,
        };
        is_stored || self.replaced.is_some()
    }
}

/// Submits the results of one fetch thread. `S` is the state that all threads share, `N` the thread's handle to the node.
#[derive(Drop)]
pub struct Results<R, S, N> {
    pub rt: R,
    pub alloc: Global,
    pub proxy: Arc<S>,
    pub node: N,
    /// The lock by which changes of what is stored wait for results that are being handed in: the proxy's own.
    pub changes: Arc<RwLock<()>>,
    /// Whether a result could not be submitted even after all retries.
    pub has_given_up: bool,
    /// Receives a message when that happens: the clients of the fetch would wait forever, so the proxy shuts down.
    pub end: Sender<(), Global>,
    /// Receives a message once the thread takes fetches; `None` from then on.
    pub opened: Option<Sender<(), Global>>,
}

// The age of a response with this head, of which there is this to show that it may be stored.
fn age_by(storable: &Option<Storable<'_>>, head: &HeaderMap) -> u32 {
    match storable {
        Some(storable) => storable.age(),
        None => age_of(head),
    }
}

// What there is to show that a response may be stored, unless it is not to be kept.
fn unless(is_unkept: bool, storable: Option<Storable<'_>>) -> Option<Storable<'_>>
    ensures unkept { is_unkept ≡ true → result ≡ None }
    ensures kept { is_unkept ≡ false → result ≡ storable.entry }
{
    if is_unkept {
        drop(storable);
        return None;
    }
    storable
}

// The object of a received response, with a life if there is something to show that it may be stored. Errors: there are too many names in
// Connection, or out of memory.
fn object_by(
    alloc: Global,
    name: &[u8],
    storable: Option<Storable<'_>>,
    received: Received<'_>,
    body: Vec<u8>,
    date: &[u8],
) -> Result<SharedObject, PassFault>
    requires status { IfSome storable (λ it. it.status ≡ received.status) }
    ensures status { IfOk result (λ object. object.status ≡ received.entry.status) }
    ensures unkept { storable.entry ≡ None → IfOk result (λ object. object.life ≡ 0) }
{
    match storable {
        Some(storable) => {
            let object = stored_object(alloc, name, &storable, body, date);
            drop(storable);
            object
        }
        None => unstored_object(alloc, name, received, body, date),
    }
}

// Hands in the outcome of an attempt. Returns whether the node has taken it.
fn take<N: TakeEvents>(
    node: &mut N,
    fetch: u32,
    attempt: u16,
    cause: Cause,
    outcome: Outcome,
    now: Moment,
) -> bool {
    let event = Event::Fetched {
        fetch,
        attempt,
        result: outcome,
        now,
    };
    node.take_fetched(event, cause).is_some()
}

impl<R: Wait + Clock + Drop, S: Shared, N: TakeEvents> Results<R, S, N> {
    // The key of a fetch, where responses are kept by RFC 9111; otherwise nothing depends on it.
    fn key_of(&self, fetch: u32) -> Option<CacheKey> {
        match self.proxy.kept().profile {
            Profile::Published => None,
            Profile::Rfc9111(_) => self.proxy.key_of(&self.rt, fetch).unwrap_or(None),
        }
    }

    // What a page stands for: what was asked about, if it is a 304 that may confirm this, and otherwise itself. Nothing for a 304 that
    // nobody's conditions have asked for, and for a 412 to conditions that are not the client's.
    fn meaning_of(&self, landed: &Landed, page: &Page) -> Meaning {
        let is_asking = landed.asked.is_some();
        match page.status {
            PRECONDITION_FAILED if is_asking => Meaning::Nothing,
            NOT_MODIFIED if is_asking => Meaning::Confirmation,
            NOT_MODIFIED if !self.is_theirs(landed.flight) => Meaning::Nothing,
            _ => Meaning::Itself,
        }
    }

    // Whether a 304 to a fetch that asked about nothing answers conditions of a client's own.
    fn is_theirs(&self, flight: Flight) -> bool {
        self.proxy.kept().shelf.is_none() || flight.mode != Mode::Shared
    }

    // The response that a page stands for, as `meaning_of` says. `None` also for a 304 that fits another object than was asked about.
    fn whole_of(&self, landed: &Landed, page: Page) -> Option<Page> {
        match self.meaning_of(landed, &page) {
            Meaning::Itself => Some(page),
            Meaning::Confirmation => {
                let whole = self.confirmed_by(landed, &page);
                drop(page);
                whole
            }
            Meaning::Nothing => {
                drop(page);
                None
            }
        }
    }

    // What was asked about with the fields of this 304, if it fits that.
    fn confirmed_by(&self, landed: &Landed, page: &Page) -> Option<Page> {
        let asked = landed.asked.as_ref()?;
        let revalidated = Revalidated::by(page.status, &page.head, asked.get())?;
        confirmed(self.alloc, &revalidated)
    }

    // Puts an object on the shelf that is stored. Returns whether it is there, as `Kept::shelve` says.
    fn shelve(&self, key: &CacheKey, object: &SharedObject) -> bool {
        let now = self.proxy.now(&self.rt);
        self.proxy.kept().shelve(&self.rt, key, object, now)
    }

    // Has the shelf follow what a fetch brought: what is stored is put there if the origin has given it itself, since its 304 would
    // otherwise confirm what a neighbour made of it; and what the origin has something else for now is taken away, for all but the one
    // client of a private fetch. So what is there is never older than what was stored.
    fn follow(&self, key: &CacheKey, flight: Flight, object: &SharedObject) {
        if object.get().life() > 0 {
            if !flight.is_origin() || !self.shelve(key, object) {
                self.proxy.kept().unshelve(&self.rt, key);
            }
        } else if flight.mode == Mode::Shared && supersedes(object.get().status()) {
            self.proxy.kept().unshelve(&self.rt, key);
        }
    }

    // A fetch of this key whose response has come, as far as the life of that depends on it.
    fn exchange<'a>(&self, key: Option<&'a CacheKey>, flight: Flight) -> Exchange<'a>
        ensures mode { result.mode ≡ flight.mode }
    {
        let received = date_seconds(&self.rt);
        let took = micros_since(&self.rt, flight.began).unwrap_or(0) / 1_000_000;
        Exchange {
            mode: flight.mode,
            url: match key {
                Some(key) => key.as_slice(),
                None => b"",
            },
            requested: received.saturating_sub(took),
            received,
        }
    }

    // What there is to show that a response with this status and head may be stored.
    fn storable<'a>(
        &self,
        key: Option<&CacheKey>,
        flight: Flight,
        status: u16,
        head: &'a HeaderMap,
    ) -> Option<Storable<'a>>
        ensures of { IfSome result (IsOf flight.mode status (fields_of head.now)) }
        ensures private { flight.mode ≡ Mode.Private → result ≡ None }
    {
        let exchange = self.exchange(key, flight);
        self.proxy.kept().profile.storable(exchange, status, head)
    }

    // Notes the length of what a part has come of, if the whole may be stored.
    fn note_part(&self, fetch: u32, flight: Flight, end: &FetchEnd) {
        let kept = self.proxy.kept();
        let (Some(parts), FetchEnd::Whole(page)) = (&kept.parts, end) else {
            return;
        };
        if page.status != PARTIAL_CONTENT {
            return;
        }
        let Some(length) = complete_length(&page.head) else {
            return;
        };
        let Some(key) = self.key_of(fetch) else {
            return;
        };
        let exchange = self.exchange(Some(&key), flight);
        if kept.profile.may_keep_whole(exchange, &page.head) {
            parts.lock(&self.rt).note_length(key, length);
        } else {
            drop(key);
        }
    }

    // Whether a client's reload has brought something else than was there, if that may be stored, or a 304 with other rules for what was
    // there.
    fn is_changed(&self, key: Option<&CacheKey>, landed: &Landed, page: &Page) -> bool {
        let (Some(key), Some(asked)) = (key, &landed.asked) else {
            return false;
        };
        if landed.flight.mode != Mode::Private {
            return false;
        }
        let exchange = self.exchange(Some(key), landed.flight);
        match page.status {
            200 => self
                .proxy
                .kept()
                .profile
                .may_keep_whole(exchange, &page.head),
            NOT_MODIFIED => has_other_rules(&page.head, asked.get()),
            _ => false,
        }
    }

    // The object of a whole response that came on this date, without a life if it is not to be kept. `None` if there are too many names in
    // Connection, or if out of memory.
    fn object_of_whole(
        &self,
        key: Option<&CacheKey>,
        flight: Flight,
        is_unkept: bool,
        page: Page,
        date: &[u8],
    ) -> Option<SharedObject>
        ensures status { IfSome result (λ object. object.status ≡ page.status) }
        ensures unkept { is_unkept ≡ true → IfSome result (λ object. object.life ≡ 0) }
        ensures private { flight.mode ≡ Mode.Private → IfSome result (λ object. object.life ≡ 0) }
    {
        let Page { status, head, body } = page;
        let name = self.proxy.outward().name.as_bytes();
        let storable = self.storable(key, flight, status, &head);
        let age = age_by(&storable, &head);
        let head = &head;
        let received = Received { status, head, age };
        object_by(
            self.alloc,
            name,
            unless(is_unkept, storable),
            received,
            body,
            date,
        )
        .ok()
    }

    // Whether the object of a response is not to be kept.
    fn is_unkept(&self, key: Option<&CacheKey>, landed: &Landed, page: &Page) -> bool {
        let is_by_rules = key.is_some() || landed.asked.is_some();
        landed.is_outdated || (is_by_rules && hides_rules(self.alloc, &page.head))
    }

    // What a response brought that came on this date. After a 304 that fits nothing, what was asked about goes, so that the next fetch asks
    // for the whole of it.
    fn brought_by(
        &self,
        key: Option<&CacheKey>,
        landed: &Landed,
        page: Page,
        date: &[u8],
    ) -> Brought {
        let is_changed = self.is_changed(key, landed, &page);
        let is_unkept = self.is_unkept(key, landed, &page);
        let step_of_none = step_of_none(landed, &page);
        match self.whole_of(landed, page) {
            Some(page) => Brought {
                object: self.object_of_whole(key, landed.flight, is_unkept, page, date),
                step: ShelfStep::Follow,
                is_changed,
            },
            None => Brought {
                object: None,
                step: step_of_none,
                is_changed,
            },
        }
    }

    // What a fetch brought by itself.
    fn brought(&self, key: Option<&CacheKey>, landed: &Landed, end: FetchEnd) -> Brought {
        match HttpDate::from_unix_secs(date_seconds(&self.rt)) {
            Ok(date) => self.brought_on(key, landed, end, date.to_bytes().as_slice()),
            Err(_) => {
                drop(end);
                Brought::alone(None)
            }
        }
    }

    // What a fetch brought by itself that ended on this date.
    fn brought_on(
        &self,
        key: Option<&CacheKey>,
        landed: &Landed,
        end: FetchEnd,
        date: &[u8],
    ) -> Brought {
        match end {
            FetchEnd::Whole(page) => {
                if is_for_the_next(landed.flight, &page) {
                    drop(page);
                    return Brought::alone(None);
                }
                self.brought_by(key, landed, page, date)
            }
            FetchEnd::Refused => Brought::alone(refusal(self.alloc, date).ok()),
            FetchEnd::Failed(_) => Brought::alone(None),
        }
    }

    // What is handed in of a fetch where nothing takes its place.
    fn delivery(&self, key: Option<&CacheKey>, landed: &Landed, end: FetchEnd) -> Delivery {
        let supplier = supplier_of(landed, &end);
        let is_too_long = is_too_long(landed.flight, &end);
        let mut brought = self.brought(key, landed, end);
        if is_too_long {
            brought.step = ShelfStep::Remove;
        }
        Delivery { brought, supplier }
    }

    // What is served in place of what the origin could not give, if there is something. After a change there is nothing: the shelf has
    // not got anything of this key since then, and what it had before is not given.
    fn stale(&self, key: Option<&CacheKey>, landed: &Landed, end: &FetchEnd) -> Option<Delivery> {
        let flight = landed.flight;
        if landed.is_outdated || !is_down(flight.is_origin(), flight.mode, end) {
            return None;
        }
        let (kept, now) = (self.proxy.kept(), self.proxy.now(&self.rt));
        let occasion = StaleUse::InPlaceOfError;
        let Stale { object, age } = kept.stale(&self.rt, now, key?.as_slice(), occasion)?;
        let in_place = stale_object(self.alloc, object.get(), age);
        drop(object);
        match in_place {
            Ok(object) => Some(Delivery {
                brought: Brought::alone(Some(object)),
                supplier: Some(Supplier::Stale(age)),
            }),
            Err(_) => None,
        }
    }

    // Makes all that is handed in of a fetch, while it is still in flight and no change waits for that. Beside what is counted and told of
    // it, nothing is done yet.
    fn make(&self, fetch: u32, end: FetchEnd) -> Made {
        let landed = self.proxy.mail().mailbox.lock(&self.rt).landed(fetch);
        let flight = landed.flight;
        self.note_all(fetch, flight, &end);
        let key = self.key_of(fetch);
        let is_unanswered = is_unanswered(&landed, &end);
        let came = Came::of(&landed, &end);
        let (delivery, replaced) = match self.stale(key.as_ref(), &landed, &end) {
            Some(stale) => (stale, Some(Replaced { landed, end })),
            None => {
                let delivery = self.delivery(key.as_ref(), &landed, end);
                drop(landed);
                (delivery, None)
            }
        };
        Made {
            flight,
            key,
            is_unanswered,
            end: came.end_with(&delivery, replaced.is_some()),
            delivery,
            replaced,
        }
    }

    // Has an object be one that is not kept. Where memory is short, there is none then.
    fn unkeep(&self, brought: &mut Brought) {
        let unkept = match &brought.object {
            Some(object) => unkept_object(self.alloc, object.get()).ok(),
            None => None,
        };
        drop(mem::replace(&mut brought.object, unkept));
    }

    // What is handed in of a fetch after a change, where a stale object was to take its place.
    fn in_its_place(&self, key: Option<&CacheKey>, replaced: Replaced) -> Delivery {
        let Replaced { mut landed, end } = replaced;
        landed.is_outdated = true;
        let delivery = self.delivery(key, &landed, end);
        drop(landed);
        delivery
    }

    // Makes anew what is handed in of a fetch, after a change: so that it is not kept, and without what the change has taken off the shelf.
    fn make_unkept(&self, made: &mut Made) {
        made.end = SharedEnd::Overtaken;
        match made.replaced.take() {
            Some(replaced) => {
                let delivery = self.in_its_place(made.key.as_ref(), replaced);
                drop(mem::replace(&mut made.delivery, delivery));
            }
            None => self.unkeep(&mut made.delivery.brought),
        }
    }

    // Counts how a fetch ended.
    fn note(&self, flight: Flight, end: &FetchEnd) {
        let (outcome, octets) = match end {
            FetchEnd::Whole(page) => (FetchOutcome::Whole, page.body.len() as u64),
            FetchEnd::Refused => (FetchOutcome::Refused, 0),
            FetchEnd::Failed(_) => (FetchOutcome::Failed, 0),
        };
        let note = FetchNote {
            from: match flight.supplier {
                Supplier::Origin | Supplier::Confirmed | Supplier::Stale(_) => FetchedFrom::Origin,
                Supplier::Neighbour(place) => FetchedFrom::Neighbour(place),
            },
            outcome,
            octets,
            micros: micros_since(&self.rt, flight.began),
        };
        self.proxy.telling().figures.note_fetch(note);
    }

    // Tells why a fetch failed, if that is asked for. One that the node does not have any more is not wanted by anybody.
    fn tell(&self, fetch: u32, supplier: Supplier, fault: FetchFault) {
        let Some(notices) = &self.proxy.telling().notices else {
            return;
        };
        if let Ok(Some(key)) = self.proxy.key_of(&self.rt, fetch) {
            let url = key.as_slice();
            notices.tell_fetch(&self.rt, self.alloc, fetch, url, supplier, fault);
        }
    }

    // Counts and tells how a fetch ended, and notes what of that is asked for later.
    fn note_all(&self, fetch: u32, flight: Flight, end: &FetchEnd) {
        self.note(flight, end);
        if let FetchEnd::Failed(fault) = end {
            self.tell(fetch, flight.supplier, *fault);
            self.note_large(fetch, *fault);
        }
        self.note_part(fetch, flight, end);
    }

    // Notes that the body of a fetch's response was too large, where such responses are passed on.
    fn note_large(&self, fetch: u32, fault: FetchFault) {
        let passes = self.proxy.passes();
        if fault != FetchFault::TooLarge || passes.large.is_none() {
            return;
        }
        if let Ok(Some(key)) = self.proxy.key_of(&self.rt, fetch) {
            passes.note_large(&self.rt, key);
        }
    }

    // Hands in that an attempt has failed.
    fn fail(&mut self, fetch: u32, attempt: u16, cause: Cause) -> bool {
        let now = self.proxy.now(&self.rt);
        take(&mut self.node, fetch, attempt, cause, Outcome::Failed, now)
    }

    // Hands in that an attempt was ended for want of clients, unless one waits for it again: then it is begun once more. It is neither counted
    // nor told as one that failed, nothing stale takes its place, and what it asked about is asked about again.
    fn leave(&mut self, fetch: u32, attempt: u16, unwanted: Unwanted) -> bool {
        let Unwanted { flight, is_awaited } = unwanted;
        if is_awaited {
            let begun = begin_again(&self.rt, self.alloc, &*self.proxy, fetch, attempt, flight);
            return begun.is_ok() || self.fail(fetch, attempt, Cause::unwanted());
        }
        self.proxy.telling().figures.note_unwanted();
        self.fail(fetch, attempt, Cause::unwanted())
    }

    // What is known of an attempt that has ended so, if that is for want of clients.
    fn unwanted(&self, fetch: u32, end: &FetchEnd) -> Option<Unwanted> {
        match end {
            FetchEnd::Failed(FetchFault::Cancelled) => {
                self.proxy.mail().take_unwanted(&self.rt, fetch)
            }
            _ => None,
        }
    }

    // Hands in how an attempt has ended. Whatever takes long with a long body is done before any change has to wait for this; what was
    // changed meanwhile is made anew, and not kept. `false` also where the lock of changes cannot get one more owner.
    fn land(&mut self, done: Fetched) -> bool {
        let Ok(changes) = Arc::try_clone(&self.changes) else {
            drop(done);
            return false;
        };
        let Fetched {
            fetch,
            attempt,
            end,
        } = done;
        if let Some(unwanted) = self.unwanted(fetch, &end) {
            drop(changes);
            drop(end);
            return self.leave(fetch, attempt, unwanted);
        }
        let mut made = self.make(fetch, end);
        let is_taken = self.hand_in_at_last(&changes, fetch, attempt, &mut made);
        drop(made);
        is_taken
    }

    // Hands in what was made of an attempt, made anew if it would be kept and was changed. Returns whether the node has taken it.
    fn hand_in_at_last(
        &mut self,
        changes: &RwLock<()>,
        fetch: u32,
        attempt: u16,
        made: &mut Made,
    ) -> bool {
        match self.hand_in(changes, fetch, attempt, made) {
            Some(is_taken) => is_taken,
            None => {
                self.make_unkept(made);
                self.hand_in(changes, fetch, attempt, made).unwrap_or(false)
            }
        }
    }

    // Hands in what was made of an attempt. What was changed is noted until the attempt is taken out of the mailbox, and changes wait from
    // the look at that until the event was taken: so what is stored after all is there when the change takes it out of the store. Returns
    // whether the node has taken it; `None` if it was not handed in, since it would be kept, and was changed.
    fn hand_in(
        &mut self,
        changes: &RwLock<()>,
        fetch: u32,
        attempt: u16,
        made: &mut Made,
    ) -> Option<bool> {
        let landing = changes.read(&self.rt);
        let handed = if self.is_lost(fetch, made) {
            None
        } else {
            Some(self.deliver(fetch, attempt, made))
        };
        drop(landing);
        handed
    }

    // Whether what was made must not be handed in as it is, since there was a change.
    fn is_lost(&self, fetch: u32, made: &Made) -> bool {
        made.wants_no_change() && self.proxy.mail().mailbox.lock(&self.rt).is_lost(fetch)
    }

    // Takes an attempt out of the mailbox, has the shelf know what it brought, and hands that in.
    fn deliver(&mut self, fetch: u32, attempt: u16, made: &mut Made) -> bool {
        self.proxy.mail().end(&self.rt, fetch);
        self.note_end(fetch, made);
        if let Some(key) = &made.key {
            self.settle(key, made);
        }
        let outcome = match made.delivery.brought.object.take() {
            Some(object) => Outcome::Object(object),
            None => Outcome::Failed,
        };
        let cause = Cause::result(made.delivery.supplier);
        let now = self.proxy.now(&self.rt);
        take(&mut self.node, fetch, attempt, cause, outcome, now)
    }

    // Notes how a fetch for all clients ended, for who asks for the same next.
    fn note_end(&self, fetch: u32, made: &Made) {
        if made.flight.mode != Mode::Shared || made.end == SharedEnd::Headless {
            return;
        }
        if let Ok(Some(key)) = self.proxy.key_of(&self.rt, fetch) {
            let now = self.proxy.now(&self.rt);
            self.proxy
                .mail()
                .note_shared_end(&self.rt, key, made.end, now);
        }
    }

    // Does beside handing in what a fetch of this key asks for.
    fn settle(&self, key: &CacheKey, made: &Made) {
        let kept = self.proxy.kept();
        let brought = &made.delivery.brought;
        if made.flight.mode == Mode::Shared && brought.object.is_some() {
            self.proxy.mail().spare_no_more(&self.rt, key.as_slice());
        }
        if made.is_unanswered
            && let Ok(key) = key.share()
        {
            kept.ask_no_more(&self.rt, key);
        }
        if brought.is_changed
            && let Ok(key) = key.share()
        {
            kept.note_changed(&self.rt, key);
        }
        match (brought.step, &brought.object) {
            (ShelfStep::Remove, _) => kept.unshelve(&self.rt, key),
            (ShelfStep::Follow, Some(object)) => self.follow(key, made.flight, object),
            (ShelfStep::Follow, None) | (ShelfStep::Stay, _) => {}
        }
    }

    fn give_up(&mut self) {
        if !self.has_given_up {
            self.has_given_up = true;
            let _ = self.end.send(&self.rt, ());
        }
    }
}

impl<R: Wait + Clock + Drop, S: Shared, N: TakeEvents> Results<R, S, N> {
    // Hands in how an attempt has ended, and where memory is short, by and by that it has failed.
    fn submit_fetched(&mut self, done: Fetched) {
        let (fetch, attempt) = (done.fetch, done.attempt);
        if self.land(done) {
            return;
        }
        for _ in 0..RETRIES {
            thread::sleep(&self.rt, Duration::from_millis(RETRY_MILLIS));
            if self.fail(fetch, attempt, Cause::result(None)) {
                return;
            }
        }
        self.give_up();
    }

    // Takes out of the store what a request may have changed whose client has gone: by its answer, or without one if all of it was sent.
    fn submit_left(&mut self, left: Box<LeftChange>) {
        let LeftChange {
            change,
            is_whole,
            head,
        } = Box::into_inner(left);
        let upload = if is_whole {
            Upload::Whole
        } else {
            Upload::Broken
        };
        let status = match &head {
            Some((status, _)) => Some(*status),
            None => None,
        };
        if may_have_changed(upload, status) {
            self.clear_change(&change, &head);
        }
        drop(head);
        drop(change);
    }

    // Takes out what a request has changed whose answer has this head, or what it names if there is none. Where memory is short, what its
    // answer names stays until it is stale.
    fn clear_change(&mut self, change: &Change, head: &Option<(u16, HeaderMap)>) {
        let Some((status, fields)) = head else {
            self.clear(&change.key);
            return;
        };
        let method = change.method.as_str();
        let Changed { own, others } = changed_keys(
            self.alloc,
            &change.key,
            method,
            *status,
            fields,
        );
        if own {
            self.clear(&change.key);
        }
        if let Ok(others) = others {
            self.clear_all(others.as_slice());
            drop(others);
        }
    }

    // Takes what is stored under each of these keys out of the store and off the shelf.
    fn clear_all(&mut self, changed: &[CacheKey]) {
        for key in changed {
            self.clear(key);
        }
    }

    // Takes what is stored under a key out of the store and off the shelf, as the administration does.
    fn clear(&mut self, key: &CacheKey) {
        withdraw(&self.rt, &*self.proxy, key);
        let now = self.proxy.now(&self.rt);
        let event = self.proxy.passes().purger.event(self.alloc, key, now);
        match event {
            Ok(event) => {
                let _ = self.node.take(event);
            }
            Err(fault) => drop(fault),
        }
    }
}

impl<R: Wait + Clock + Drop, S: Shared, N: TakeEvents> Submit<Ended> for Results<R, S, N> {
    fn opened(&mut self) {
        if let Some(to) = self.opened.take() {
            let _ = to.send(&self.rt, ());
        }
    }

    fn submit(&mut self, done: Ended) {
        match done {
            Ended::Fetched(done) => self.submit_fetched(done),
            Ended::Left(left) => self.submit_left(left),
        }
    }
}
