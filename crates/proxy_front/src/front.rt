//! Client requests on their way to the node.
use crate::good_texts::GoodTexts;
use crate::handing::{Call, Returned, TakeCalls, hand_over};
use crate::shapes::shape_of;
use crossbeam_channel::Sender;
use futures::channel::oneshot;
use http_header::HOST;
use http_rules::{
    AdmittedOrigin, Mirror, SixNetwork, TargetFault, has_come_back, has_long_name, is_host,
    is_plain_request, may_validate, mirrored,
};
use http_traffic::{Asked, Asking, FollowUp, Forward, Front, How, Outcome, PassOn, Shape, Told};
use node_words::{Event, Mode, Network};
use object_store::{CacheKey, Object};
use proxy_state::{
    Field, FrontRules, Given, KnownKeys, Profile, Service, Shared, TakeEvents, Waiting, has_marks,
    loop_fields, micros_since, passed_on, server_in_digits, status_of, withdraw,
};
use std::alloc::{AllocError, Global};
use std::io;
use std::net::{IpAddr, SocketAddr};
use std::sync::atomic::Ordering;
use std::sync::{Arc, Mutex, Wait};
use std::time::{Clock, Instant};
use traffic_figures::{AnswerNote, Course};

/// The most octets of a name, and so of a key that needn't be looked at for one that is too long.
const MOST_NAME_OCTETS: usize = 253;

/// Serves a front, whichever it is.
pub trait ServeFront: Drop {
    /// Serves it until clients are to end.
    fn serve<F: Front + FollowUp + PassOn>(self, front: F) -> io::Result<()>;
}

/// Submits client requests to the node and counts the answers. Owned by a thread that serves clients. `S` is the state that all threads
/// share, `N` the thread's handle to the node.
pub struct NodeFront<R, S, N> {
    pub rt: R,
    pub alloc: Global,
    /// State shared by all threads.
    pub proxy: Arc<S>,
    /// The thread's handle to the node. Only this thread locks it; a second owner takes the seat back after the server ends.
    pub node: Arc<Mutex<N>>,
    pub rules: Arc<FrontRules>,
    /// The keys of targets that were asked for before.
    pub keys: KnownKeys,
    /// Values of Host that were found valid.
    pub hosts: GoodTexts,
    /// Servers of URLs that may be fetched from. Each address is judged once more where it is connected to.
    pub servers: GoodTexts,
    /// The number of the last client. It begins with the thread's own, which is less than `step`.
    pub last: u64,
    /// What each client's number is more than that of the one before: how many threads serve clients, so that no two have a number.
    pub step: u64,
    /// Answers that all threads give before the proxy stops; 0 means no limit.
    pub stop_after: u64,
    /// Receives a message when the last answer has been given.
    pub stop: Sender<(), Global>,
}

// Written by hand, so that what lets it go is one call for the prover (docs/GATE.md).
impl<R: Drop, S: Drop, N: Drop> Drop for NodeFront<R, S, N> {
    fn drop(self) {
        let Self {
            rt: _,
            alloc: _,
            proxy: _,
            node: _,
            rules: _,
            keys: _,
            hosts: _,
            servers: _,
            last: _,
            step: _,
            stop_after: _,
            stop: _,
        } = self;
    }
}

/// What a fetch for a request forwards.
#[derive(Drop)]
struct Forwarded {
    asker: IpAddr,
    shared: Option<CacheKey>,
    fields: Vec<Field>,
    service: Service,
}

/// What became of the event of a request.
#[derive(Clone, Copy)]
struct Taken {
    /// How many actions it caused.
    actions: usize,
    /// What they have given the client.
    given: Given,
}

/// The key of what a request asks for: its target, or the URL that stands for it at one of these mirrors. Errors: the HTTP status to
/// answer.
fn key_for(
    alloc: Global,
    mirrors: &[Mirror],
    keys: &mut KnownKeys,
    target: &str,
) -> Result<CacheKey, u16> {
    let Ok(url) = mirrored(alloc, mirrors, target) else {
        return Err(503);
    };
    let key = match &url {
        Some(url) => keys.key_of(url.as_str()),
        None => keys.key_of(target),
    };
    match key {
        Ok(key) => Ok(key),
        Err(TargetFault::NotHttp) => Err(400),
        Err(TargetFault::TooLong) => Err(414),
        Err(TargetFault::NoMemory) => Err(503),
    }
}

/// Errors: 400 if the Host field of a request is no valid value (RFC 9112, section 3.2). A request with several is refused before it comes
/// here.
pub(crate) fn check_host(asked: &Asked) -> Result<(), u16> {
    match asked.head.get(HOST) {
        Some(host) if !is_host(host.as_bytes()) => Err(400),
        _ => Ok(()),
    }
}

/// As `check_host`, where these values were found valid before.
fn check_host_by(hosts: &mut GoodTexts, asked: &Asked) -> Result<(), u16> {
    let Some(host) = asked.head.get(HOST) else {
        return Ok(());
    };
    if hosts.has(host.as_bytes()) {
        return Ok(());
    }
    check_host(asked)?;
    hosts.note(host.as_bytes());
    Ok(())
}

/// The server of an `http://` URL, its name and port, as they are written; nothing of another one.
fn server_in(key: &[u8]) -> &[u8] {
    let Some(behind) = key.strip_prefix(b"http://".as_slice()) else {
        return &[];
    };
    let end = behind.iter().position(|it| *it == b'/');
    match end {
        Some(end) => behind.get(..end).unwrap_or(&[]),
        None => behind,
    }
}

/// What a fetch forwards for a request in this mode, which has CDN-Loop fields only if `is_marked`. A private fetch for it
/// may ask the origin about what is there unless the request itself wants another answer. Errors: the HTTP status to answer.
fn forwarded_of(
    alloc: Global,
    asked: &Asked,
    key: &CacheKey,
    mode: Mode,
    is_marked: bool,
) -> Result<Forwarded, u16> {
    let shared = shared_if(key, mode == Mode::Shared)?;
    match fields_of(alloc, asked, mode, is_marked) {
        Ok(fields) => Ok(Forwarded {
            asker: asked.from,
            shared,
            fields,
            service: service_in(mode, asked),
        }),
        Err(status) => {
            drop(shared);
            Err(status)
        }
    }
}

/// What a request in this mode is served by. A fetch of its own may ask about what is there unless the request wants another answer.
fn service_in(mode: Mode, asked: &Asked) -> Service {
    match mode {
        Mode::Shared => Service::Shared,
        Mode::Private if may_validate(&asked.head) => Service::Asking,
        Mode::Private | Mode::Cached => Service::Own,
    }
}

/// The fields that a fetch forwards for a request in this mode, which has CDN-Loop fields only if `is_marked`. Errors: the HTTP status to
/// answer.
fn fields_of(alloc: Global, asked: &Asked, mode: Mode, is_marked: bool) -> Result<Vec<Field>, u16> {
    match mode {
        Mode::Private => match passed_on(alloc, asked) {
            Ok(fields) => Ok(fields),
            Err(fault) => Err(status_of(fault)),
        },
        Mode::Shared | Mode::Cached if is_marked => match loop_fields(alloc, asked) {
            Ok(fields) => Ok(fields),
            Err(_) => Err(503),
        },
        Mode::Shared | Mode::Cached => Ok(Vec::new(alloc)),
    }
}

/// One owner more of a key, if it is to have one. Errors: 503, as one owner more cannot be counted.
fn shared_if(key: &CacheKey, is_wanted: bool) -> Result<Option<CacheKey>, u16> {
    if !is_wanted {
        return Ok(None);
    }
    match key.share() {
        Ok(key) => Ok(Some(key)),
        Err(_) => Err(503),
    }
}

/// A client that waits for its answer, before its fetch has started.
fn waiting_of<A>(reply: A, forwarded: Forwarded) -> Waiting<A> {
    let Forwarded {
        asker,
        shared,
        fields,
        service,
    } = forwarded;
    Waiting {
        reply,
        asker,
        shared,
        fields,
        looped: None,
        service,
        fetch: None,
        attends: None,
    }
}

/// How a request that is not a hit is forwarded, by its mode and the number of actions it caused: a shared request without an
/// action joined a pending fetch.
fn forward_of(mode: Mode, actions: usize) -> Forward {
    match mode {
        Mode::Private => Forward::Bypass,
        Mode::Shared | Mode::Cached if actions == 0 => Forward::Collapsed,
        Mode::Shared | Mode::Cached => Forward::Miss,
    }
}

impl<R: Wait + Clock + Drop, S: Shared, N: TakeEvents> NodeFront<R, S, N> {
    /// Has this front served. That it takes the calls of one is looked at here, where little else is in sight, since each function that
    /// hands it over looks at all of it.
    pub fn served_by<T: ServeFront>(self, server: T) -> io::Result<()> {
        let has_passages = self.proxy.passes().has_any();
        hand_over(self, has_passages, server)
    }

    /// Registers a client as waiting. Returns the receiver of its answer.
    fn expect(
        &self,
        client: u64,
        forwarded: Forwarded,
    ) -> Result<oneshot::Receiver<Outcome>, AllocError> {
        match oneshot::channel(self.alloc) {
            Ok((reply, answer)) => match self.add(client, waiting_of(reply, forwarded)) {
                Ok(()) => Ok(answer),
                Err(fault) => {
                    drop(answer);
                    Err(fault)
                }
            },
            Err(_) => {
                drop(forwarded);
                Err(AllocError)
            }
        }
    }

    /// Adds a waiting client.
    fn add(
        &self,
        client: u64,
        waiting: Waiting<oneshot::Sender<Outcome>>,
    ) -> Result<(), AllocError> {
        let mut mailbox = self.proxy.mail().mailbox.lock(&self.rt);
        mailbox.add(client, waiting)
    }

    /// Removes a client that has gone: its private fetch is cancelled, and a shared one may end for want of clients.
    fn forget(&self, client: u64) {
        self.proxy.mail().remove(&self.rt, client);
    }

    /// Submits an event. Returns the number of its actions, or `None` if it was refused.
    pub(crate) fn take(&self, event: Event) -> Option<usize> {
        self.node.lock(&self.rt).take(event)
    }

    /// Submits the event of the request of this client, which has CDN-Loop fields only if `is_marked`. Returns `None` if it was refused.
    fn take_request(&self, event: Event, client: u64, is_marked: bool) -> Option<Taken> {
        let mut node = self.node.lock(&self.rt);
        let actions = if is_marked {
            node.take_marked(event, client)?
        } else {
            node.take(event)?
        };
        Some(Taken {
            actions,
            given: node.given(),
        })
    }

    /// The number of a new client, which no other has.
    pub(crate) fn next_client(&mut self) -> u64 {
        self.last = self.last.saturating_add(self.step);
        self.last
    }

    /// Has what reloads have found changed fetched anew for all.
    fn renew_changed(&mut self) {
        for key in self.proxy.kept().take_changed(&self.rt, self.alloc) {
            self.renew(key);
        }
    }

    /// Has what is stored under a key fetched anew for all: it is taken out, as the administration does, and what is on its way of it is not
    /// stored; a request of the cache's own, whose answer nobody waits for, asks for it. Where the cache may not ask itself it stays.
    fn renew(&mut self, key: CacheKey) {
        let now = self.proxy.now(&self.rt);
        match self.rules.purger.event(self.alloc, &key, now) {
            Ok(event) => self.replace(key, event),
            Err(fault) => {
                drop(fault);
                drop(key);
            }
        }
    }

    /// Takes what is stored under a key out by this event, and has it fetched anew for all.
    fn replace(&mut self, key: CacheKey, event: Event) {
        withdraw(&self.rt, &*self.proxy, &key);
        if self.take(event).is_some() {
            self.fetch_for_all(key);
        } else {
            drop(key);
        }
    }

    /// Fetches what is under a key for all, by a request of the cache's own, whose answer nobody waits for.
    pub(crate) fn fetch_for_all(&mut self, key: CacheKey) {
        let client = self.next_client();
        self.proxy
            .mail()
            .spare(&self.rt, self.alloc, key.as_slice());
        let now = self.proxy.now(&self.rt);
        let event = Event::Request {
            client,
            key,
            mode: Mode::Shared,
            now,
        };
        let _ = self.take(event);
        let _ = self.take(Event::Gone { client });
    }

    /// Errors: 508 if a request has come through this cache before, 403 if its host is an address in digits that may not be fetched
    /// from. A request has CDN-Loop fields only if `is_marked`.
    pub(crate) fn check(&self, asked: &Asked, key: &CacheKey, is_marked: bool) -> Result<(), u16> {
        if is_marked && has_come_back(&asked.head, self.proxy.outward().loop_mark.as_slice()) {
            return Err(508);
        }
        match server_in_digits(key) {
            Some(server) if self.proxy.outward().refuses(&self.rt, server) => Err(403),
            _ => Ok(()),
        }
    }

    /// The key of what a request asks for. Errors: the HTTP status to answer, 400 if its Host is no valid value or the name of the server is
    /// longer than any can be.
    pub(crate) fn key(&mut self, asked: &Asked) -> Result<CacheKey, u16> {
        check_host_by(&mut self.hosts, asked)?;
        let mirrors = self.rules.mirrors.as_slice();
        let key = key_for(self.alloc, mirrors, &mut self.keys, asked.target.as_str())?;
        if MOST_NAME_OCTETS < key.as_slice().len() && has_long_name(&key) {
            drop(key);
            return Err(400);
        }
        Ok(key)
    }

    /// How a request for this key in this mode is taken beside what is being fetched: alone where that was changed meanwhile.
    fn mode_beside(&self, mode: Mode, key: &CacheKey) -> Mode {
        match mode {
            Mode::Shared if self.proxy.mail().is_outdated(&self.rt, key) => Mode::Private,
            _ => mode,
        }
    }

    /// Submits a request for this key in this mode, as a new client, as `request_as` does; once more and alone where it has joined a fetch
    /// whose answer is known not to be of use to it. It has CDN-Loop fields only if `is_marked`. Errors: the HTTP status to answer.
    fn request(
        &mut self,
        asked: &Asked,
        key: CacheKey,
        mode: Mode,
        is_marked: bool,
    ) -> Result<Asking, u16> {
        let asking = self.request_as(asked, key, mode, is_marked)?;
        if asking.forward == Forward::Collapsed && self.is_kept_out(asked, asking.client) {
            return self.request_instead(asked, asking, is_marked);
        }
        Ok(asking)
    }

    /// Whether this client, whose request has joined a fetch, is to ask alone, since answers of the URL can't be stored.
    fn is_kept_out(&mut self, asked: &Asked, client: u64) -> bool {
        let Ok(key) = self.key(asked) else {
            return false;
        };
        let now = self.proxy.now(&self.rt);
        let is_kept_out = self.proxy.mail().is_kept_out(&self.rt, client, &key, now);
        drop(key);
        is_kept_out
    }

    /// Submits a request that has joined a fetch once more, alone. Errors: the HTTP status to answer.
    fn request_instead(
        &mut self,
        asked: &Asked,
        joined: Asking,
        is_marked: bool,
    ) -> Result<Asking, u16> {
        let client = joined.client;
        drop(joined);
        self.forget(client);
        let _ = self.take(Event::Gone { client });
        let key = self.key(asked)?;
        self.request_as(asked, key, Mode::Private, is_marked)
    }

    /// Submits a request for this key in this mode, as a new client; alone where it would join what was changed since it is being fetched.
    /// It has CDN-Loop fields only if `is_marked`. Errors: the HTTP status to answer.
    fn request_as(
        &mut self,
        asked: &Asked,
        key: CacheKey,
        mode: Mode,
        is_marked: bool,
    ) -> Result<Asking, u16> {
        let mode = self.mode_beside(mode, &key);
        match self.forwarded(asked, &key, mode, is_marked) {
            Ok(forwarded) => self.submit(asked, key, mode, is_marked, forwarded),
            Err(status) => {
                drop(key);
                Err(status)
            }
        }
    }

    /// As `check`, where the server of the URL was found to be one that may be fetched from before.
    fn check_known(&mut self, asked: &Asked, key: &CacheKey, is_marked: bool) -> Result<(), u16> {
        let server = server_in(key.as_slice());
        if !is_marked && self.servers.has(server) {
            return Ok(());
        }
        self.check(asked, key, is_marked)?;
        self.servers.note(server);
        Ok(())
    }

    /// What a fetch for a request forwards, if the request may be taken, as `check` says. Errors: the HTTP status to answer.
    fn forwarded(
        &mut self,
        asked: &Asked,
        key: &CacheKey,
        mode: Mode,
        is_marked: bool,
    ) -> Result<Forwarded, u16> {
        let forwarded = forwarded_of(self.alloc, asked, key, mode, is_marked)?;
        match self.check_known(asked, key, is_marked) {
            Ok(()) => Ok(forwarded),
            Err(status) => {
                drop(forwarded);
                Err(status)
            }
        }
    }

    /// Submits a request that may be taken, as a new client. Errors: 503, if it is refused, or if out of memory.
    fn submit(
        &mut self,
        asked: &Asked,
        key: CacheKey,
        mode: Mode,
        is_marked: bool,
        forwarded: Forwarded,
    ) -> Result<Asking, u16> {
        let began = Instant::now(&self.rt).ok();
        let client = self.next_client();
        let answer = match self.expect(client, forwarded) {
            Ok(answer) => answer,
            Err(_) => {
                drop(key);
                return Err(503);
            }
        };
        let Some(taken) = self.take_new(client, key, mode, is_marked) else {
            drop(answer);
            return Err(503);
        };
        let asking = Asking {
            client,
            forward: forward_of(mode, taken.actions),
            began,
            answer,
        };
        match mode {
            Mode::Shared if is_marked => {
                if taken.given == Given::Nothing {
                    self.attend(asked, client);
                }
                Ok(self.with_marks(asked, asking))
            }
            Mode::Shared => Ok(self.with_stale(asked, taken.given, asking)),
            _ => Ok(asking),
        }
    }

    /// A request for all clients that has CDN-Loop fields: where it began a fetch, that forwards them, whenever it is made. Where memory is
    /// short, only what is fetched at once does.
    fn with_marks(&mut self, asked: &Asked, asking: Asking) -> Asking {
        if asking.forward == Forward::Miss
            && let Ok(key) = self.key(asked)
        {
            let mut mailbox = self.proxy.mail().mailbox.lock(&self.rt);
            let _ = mailbox.loop_from(self.alloc, asking.client, key);
        }
        asking
    }

    /// Submits the event of a new client's request for this key, which has CDN-Loop fields only if `is_marked`. If it is refused, the client
    /// is no longer waiting, and this returns `None`.
    fn take_new(
        &mut self,
        client: u64,
        key: CacheKey,
        mode: Mode,
        is_marked: bool,
    ) -> Option<Taken> {
        let event = Event::Request {
            client,
            key,
            mode,
            now: self.proxy.now(&self.rt),
        };
        let taken = self.take_request(event, client, is_marked);
        if taken.is_none() {
            self.forget(client);
        }
        taken
    }
}

impl<R: Wait + Clock + Drop, S: Shared, N: TakeEvents> TakeCalls for NodeFront<R, S, N> {
    fn take_call(&mut self, call: Call<'_>) -> Returned {
        match call {
            Call::Allows(address) => Returned::Whether(self.allows(address)),
            Call::Road(method) => Returned::Road(self.road_of(method)),
            Call::Ask(asked) => Returned::Asking(self.ask(asked)),
            Call::AskAlone(asked) => Returned::Asking(self.ask_alone(asked)),
            Call::Shape(asked, object) => Returned::Shape(self.shape(asked, object)),
            Call::IsLarge(asked) => Returned::Whether(self.is_beside_node(asked).unwrap_or(false)),
            Call::PassOn(asked, content) => Returned::Passing(self.pass(asked, content)),
            Call::Tunnel(asked) => Returned::Tunnel(self.lead(asked)),
            Call::Gone(client) => self.gone(client),
            Call::Answered => self.answered(),
            Call::Tell(told) => self.tell(told),
            Call::Passed(asked, status, head) => {
                self.clear_changed(asked, status, head);
                Returned::Nothing
            }
        }
    }

    fn admitted(&mut self, server: SocketAddr) -> Option<AdmittedOrigin> {
        self.proxy.passes().admitted(&self.rt, server)
    }
}

impl<R: Wait + Clock + Drop, S: Shared, N: TakeEvents> NodeFront<R, S, N> {
    fn allows(&mut self, address: IpAddr) -> bool {
        match address {
            IpAddr::V4(address) => is_in(self.rules.allowed.as_slice(), address.octets()),
            IpAddr::V6(address) => is_in_six(self.rules.allowed_six.as_slice(), address.to_bits()),
        }
    }

    fn ask(&mut self, asked: &Asked) -> Result<Asking, u16> {
        if asked.method.as_str() == "GET" && is_plain_request(&asked.head) {
            let key = self.key(asked)?;
            return self.request(asked, key, Mode::Shared, false);
        }
        let published = self.published_mode(asked)?;
        let key = self.key(asked)?;
        match published {
            Some(mode) => self.request(asked, key, mode, has_marks(asked)),
            None => self.ask_fresh(asked, key),
        }
    }

    /// Accepts a request for this key by RFC 9111.
    fn ask_fresh(&mut self, asked: &Asked, key: CacheKey) -> Result<Asking, u16> {
        match self.counted_mode(asked, &key) {
            Ok(mode) => self.request(asked, key, mode, has_marks(asked)),
            Err(status) => {
                let asking = self.without_fetch(asked, &key, status);
                drop(key);
                asking
            }
        }
    }

    fn ask_alone(&mut self, asked: &Asked) -> Result<Asking, u16> {
        let key = self.key(asked)?;
        self.request(asked, key, Mode::Private, has_marks(asked))
    }

    fn shape(&mut self, asked: &Asked, object: &Object) -> Shape {
        match self.proxy.kept().profile {
            Profile::Published => Shape::Whole,
            Profile::Rfc9111(_) => match shape_of(self.alloc, asked, object) {
                Ok(shape) => shape,
                Err(_) => Shape::Whole,
            },
        }
    }

    fn gone(&mut self, client: u64) -> Returned {
        self.forget(client);
        let _ = self.take(Event::Gone { client });
        Returned::Nothing
    }

    fn answered(&mut self) -> Returned {
        self.renew_changed();
        let before = self.proxy.telling().answered.fetch_add(1, Ordering::SeqCst);
        if self.stop_after != 0 && before == self.stop_after.saturating_sub(1) {
            let _ = self.stop.send(&self.rt, ());
        }
        Returned::Nothing
    }

    fn tell(&mut self, told: &Told<'_>) -> Returned {
        let how = how_of(told);
        if told.how == How::Passed && matches!(told.status, Some(502 | 504)) {
            self.clear_unanswered(told);
        }
        let micros = micros_since(&self.rt, told.began);
        self.proxy
            .telling()
            .figures
            .note_answer(note_of(told, how, micros));
        if let Some(log) = &self.proxy.telling().log {
            let millis = micros.unwrap_or(0) / 1_000;
            log.write(&self.rt, self.alloc, told, how, millis);
        }
        Returned::Nothing
    }
}

/// Whether an address is in one of these networks.
fn is_in(networks: &[Network], octets: [u8; 4]) -> bool {
    for network in networks {
        if network.contains(octets) {
            return true;
        }
    }
    false
}

/// Whether an address of IPv6 is in one of these networks.
fn is_in_six(networks: &[SixNetwork], number: u128) -> bool {
    for network in networks {
        if network.contains(number) {
            return true;
        }
    }
    false
}

/// How a request was answered. It was by the proxy itself where nothing was fetched for it: what is not stored and was to come from
/// the store alone (504), a fetch that nobody could be asked for, or for which there was no room (503), or one from a server that may
/// not be fetched from (403).
fn how_of(told: &Told<'_>) -> How {
    match (told.how, told.supplier, told.status) {
        (How::Fetch(_), None, Some(403 | 503 | 504)) => How::Own,
        (how, _, _) => how,
    }
}

/// What became of a request, for the figures.
fn note_of(told: &Told<'_>, how: How, micros: Option<u64>) -> AnswerNote {
    AnswerNote {
        course: match how {
            How::Hit => Course::Hit,
            How::Fetch(Forward::Miss) => Course::Miss,
            How::Fetch(Forward::Collapsed) => Course::Collapsed,
            How::Fetch(Forward::Bypass) | How::Passed => Course::Bypass,
            How::Own => Course::Own,
        },
        status: told.status.unwrap_or(0),
        octets: told.octets,
        micros,
    }
}
