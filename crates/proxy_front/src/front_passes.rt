//! Client requests that are passed on without the node, and tunnels.
use crate::front::{NodeFront, check_host};
use futures::channel::{mpsc, oneshot};
use http_header::HeaderMap;
use http_rules::{
    Authority, Changed, Onward, authority_of, changed_keys, has_come_back, is_for_server,
    is_unsafe, onward,
};
use http_traffic::{
    Asked, Change, Coming, PassFault, Passage, PassedHead, Passing, Piece, Road, Server, Ticket,
    Told, TunnelEnd, address_in_digits,
};
use node_words::Mode;
use object_store::CacheKey;
use proxy_state::{
    Destination, Field, Onwards, Places, Profile, Shared, TakeEvents, add_values, status_of,
    tell_not_taken, withdraw,
};
use std::alloc::{AllocError, Global};
use std::net::{IpAddr, Ipv4Addr, SocketAddr, SocketAddrV4};
use std::sync::{Arc, Wait};
use std::time::{Clock, Instant};

/// How many pieces of an answer that is passed on wait for its client.
const PIECES: usize = 2;

/// The fields of a request that is passed on. Errors: 501 for one whose last recipient this cache is (RFC 9110, section 7.6.2), 400 or
/// 503 as `status_of` says.
fn end_to_end_fields(alloc: Global, asked: &Asked) -> Result<Vec<Field>, u16> {
    match onward(alloc, asked.method.as_str(), &asked.head) {
        Ok(Onward::Pass(fields)) => Ok(fields),
        Ok(Onward::Last) => Err(501),
        Err(fault) => Err(status_of(fault)),
    }
}

/// What a request for this key may change, if its method is unsafe. Errors: 503, if out of memory.
fn change_of(alloc: Global, asked: &Asked, key: &CacheKey) -> Result<Option<Change>, u16> {
    if !is_unsafe(asked.method.as_str()) {
        return Ok(None);
    }
    let Ok(method) = String::from_str(alloc, asked.method.as_str()) else {
        return Err(503);
    };
    match key.share() {
        Ok(key) => Ok(Some(Change { key, method })),
        Err(_) => {
            drop(method);
            Err(503)
        }
    }
}

/// The end that a CONNECT target names by an IPv6 address in brackets, and a port from 1 to 65,535. `None` for any other text.
fn six_authority_of(target: &str) -> Option<Authority<'_>> {
    let (host, digits) = target.rsplit_once(':')?;
    if !address_in_digits(host)?.is_ipv6() || !digits.bytes().all(|c| c.is_ascii_digit()) {
        return None;
    }
    match digits.parse::<u16>() {
        Ok(port) if 0 < port => Some(Authority { host, port }),
        _ => None,
    }
}

/// How a request is passed on.
#[derive(Drop)]
struct Way {
    asker: IpAddr,
    fields: Vec<Field>,
    change: Option<Change>,
    onwards: Onwards,
    ticket: Ticket,
}

/// The method of a request that is passed on, and the ends of what its answer comes over.
#[derive(Drop)]
struct Lines {
    method: String,
    head: oneshot::Sender<Result<PassedHead, PassFault>>,
    pieces: mpsc::Sender<Piece>,
    passing: Passing,
}

impl Lines {
    /// Errors: out of memory.
    fn new<R: Clock>(rt: &R, alloc: Global, asked: &Asked) -> Result<Lines, AllocError> {
        let method = String::from_str(alloc, asked.method.as_str())?;
        match open_ends(alloc) {
            Ok(
                Ends {
                    head,
                    heard,
                    pieces,
                    coming,
                },
            ) => Ok(Lines {
                method,
                head,
                pieces,
                passing: Passing {
                    head: heard,
                    pieces: coming,
                    began: Instant::now(rt).ok(),
                },
            }),
            Err(fault) => {
                drop(method);
                Err(fault)
            }
        }
    }
}

/// Both ends of what an answer comes over that is passed on.
#[derive(Drop)]
struct Ends {
    head: oneshot::Sender<Result<PassedHead, PassFault>>,
    heard: oneshot::Receiver<Result<PassedHead, PassFault>>,
    pieces: mpsc::Sender<Piece>,
    coming: mpsc::Receiver<Piece>,
}

/// Errors: out of memory.
fn open_ends(alloc: Global) -> Result<Ends, AllocError> {
    let (head, heard) = oneshot::channel(alloc)?;
    match mpsc::channel(alloc, PIECES) {
        Ok((pieces, coming)) => Ok(Ends {
            head,
            heard,
            pieces,
            coming,
        }),
        Err(_) => {
            drop(head);
            drop(heard);
            Err(AllocError)
        }
    }
}

impl<R: Wait + Clock + Drop, S: Shared, N: TakeEvents> NodeFront<R, S, N> {
    /// How a request with this method is taken. By RFC 9111 a HEAD is answered from the store if it can be.
    pub(crate) fn road_of(&self, method: &str) -> Road {
        let passes = self.proxy.passes();
        if method == "GET" || (method == "HEAD" && self.answers_heads()) {
            Road::Node
        } else if method == "CONNECT" && passes.has_tunnels() {
            Road::Tunnel
        } else if passes.has_method(method) {
            Road::Passed
        } else {
            Road::Refused
        }
    }

    // Whether a HEAD is answered from the store.
    fn answers_heads(&self) -> bool {
        match self.proxy.kept().profile {
            Profile::Published => false,
            Profile::Rfc9111(_) => true,
        }
    }

    /// Whether a request whose method the node answers is passed on all the same: a HEAD that nothing stored answers, or a GET that
    /// nothing stored answers whose answer is known to be too long to be stored. Errors: the status to answer.
    pub(crate) fn is_beside_node(&mut self, asked: &Asked) -> Result<bool, u16> {
        if asked.method.as_str() == "HEAD" {
            return self.is_unstored_head(asked);
        }
        if self.proxy.passes().large.is_none() {
            return Ok(false);
        }
        let key = self.key(asked)?;
        let is_beside = self.is_large_and_unstored(asked, &key);
        drop(key);
        is_beside
    }

    // Whether a GET is passed on whose answer is known to be too long to be stored, and which nothing stored answers.
    fn is_large_and_unstored(&self, asked: &Asked, key: &CacheKey) -> Result<bool, u16> {
        if !self.proxy.passes().is_large(&self.rt, key) {
            return Ok(false);
        }
        match self.mode(asked, key)? {
            Mode::Cached => Ok(false),
            Mode::Private => Ok(true),
            Mode::Shared => Ok(!self.is_stored(key)),
        }
    }

    // Whether something fresh is stored under a key. Where one client's own answer was too long, that may be.
    fn is_stored(&self, key: &CacheKey) -> bool {
        let now = self.proxy.now(&self.rt);
        let found = self.proxy.stored(&self.rt, key.as_slice(), now);
        matches!(found, Ok(Some(_)))
    }

    // Whether a HEAD is to be passed on which nothing stored answers.
    fn is_unstored_head(&mut self, asked: &Asked) -> Result<bool, u16> {
        if !self.proxy.passes().has_method("HEAD") {
            return Ok(false);
        }
        let key = self.key(asked)?;
        let mode = self.mode(asked, &key);
        drop(key);
        match mode {
            Ok(_) => Ok(false),
            Err(501) => Ok(true),
            Err(status) => Err(status),
        }
    }

    /// Passes on a request, which is without its content here. Errors: the status to answer, 501 for a HEAD that isn't passed on.
    pub(crate) fn pass(&mut self, asked: &Asked, content: Option<Coming>) -> Result<Passing, u16> {
        match self.way_of(asked) {
            Ok(way) => {
                let _ = self.next_client();
                self.pass_by(asked, content, way)
            }
            Err(status) => {
                drop(content);
                Err(status)
            }
        }
    }

    // Passes on a request in this way. Errors: 503, if it was not taken, or if out of memory.
    fn pass_by(&self, asked: &Asked, content: Option<Coming>, way: Way) -> Result<Passing, u16> {
        match Lines::new(&self.rt, self.alloc, asked) {
            Ok(lines) => self.send_on(content, way, lines),
            Err(_) => {
                drop(content);
                drop(way);
                Err(503)
            }
        }
    }

    // How a request is passed on. Errors: the status to answer.
    fn way_of(&mut self, asked: &Asked) -> Result<Way, u16> {
        if asked.method.as_str() == "HEAD" && !self.proxy.passes().has_method("HEAD") {
            return Err(501);
        }
        let key = self.key(asked)?;
        let way = self.way_under(asked, &key);
        drop(key);
        way
    }

    // How a request for this key is passed on. Errors: the status to answer.
    fn way_under(&self, asked: &Asked, key: &CacheKey) -> Result<Way, u16> {
        self.check(asked, key, true)?;
        let change = change_of(self.alloc, asked, key)?;
        match self.onward_fields(asked) {
            Ok(fields) => self.way_with(asked, key, fields, change),
            Err(status) => {
                drop(change);
                Err(status)
            }
        }
    }

    // How a request for this key is passed on with these fields, which may change this. Errors: 503.
    fn way_with(
        &self,
        asked: &Asked,
        key: &CacheKey,
        fields: Vec<Field>,
        change: Option<Change>,
    ) -> Result<Way, u16> {
        match self.road_for(asked, key) {
            Some((onwards, ticket)) => Ok(Way {
                asker: asked.from,
                fields,
                change,
                onwards,
                ticket,
            }),
            None => {
                drop(fields);
                drop(change);
                Err(503)
            }
        }
    }

    // Where a request for this key goes that is passed on, and its ticket, as `road_on` has it. One about the server as a whole has the target
    // that says so.
    fn road_for(&self, asked: &Asked, key: &CacheKey) -> Option<(Onwards, Ticket)> {
        let (onwards, ticket) = self.road_on(key)?;
        if !is_for_server(asked.method.as_str(), asked.target.as_str()) {
            return Some((onwards, ticket));
        }
        match onwards.for_server(self.alloc) {
            Some(onwards) => Some((onwards, ticket)),
            None => {
                drop(ticket);
                None
            }
        }
    }

    // Where a request for this key goes that is passed on, and its ticket. `None` if there is nobody to pass it on to, if there are too
    // many, or if out of memory.
    fn road_on(&self, key: &CacheKey) -> Option<(Onwards, Ticket)> {
        let passes = self.proxy.passes();
        let onwards = passes.onwards(self.alloc, key)?;
        match self.ticket(&passes.streams) {
            Some(ticket) => Some((onwards, ticket)),
            None => {
                drop(onwards);
                None
            }
        }
    }

    // One of these, with a place for its connection to a server. `None` if there are too many, or if no file is left for the connection,
    // which is told.
    fn ticket(&self, places: &Places) -> Option<Ticket> {
        let ticket = places.take()?;
        match self.proxy.passes().servers.take(&self.rt) {
            Some(place) => Some(ticket.with_place(place)),
            None => {
                drop(ticket);
                self.tell_no_file();
                None
            }
        }
    }

    // Tells that no file is left for a connection to a server.
    fn tell_no_file(&self) {
        if let Some(notices) = &self.proxy.telling().notices {
            notices.tell_no_file(&self.rt, self.alloc);
        }
    }

    // The fields of a request that is passed on, with the marks of this cache. Errors: the status to answer.
    fn onward_fields(&self, asked: &Asked) -> Result<Vec<Field>, u16> {
        let mut fields = end_to_end_fields(self.alloc, asked)?;
        match self.proxy.outward().add_marks(self.alloc, &mut fields) {
            Ok(()) => Ok(fields),
            Err(_) => {
                drop(fields);
                Err(503)
            }
        }
    }

    // Hands a request to a fetch thread. Errors: 503, if it was not taken, or if out of memory.
    fn send_on(&self, content: Option<Coming>, way: Way, lines: Lines) -> Result<Passing, u16> {
        let Lines {
            method,
            head,
            pieces,
            passing,
        } = lines;
        let Way {
            asker,
            fields,
            change,
            onwards,
            ticket,
        } = way;
        let Onwards {
            destination,
            is_origin,
        } = onwards;
        let Destination {
            name,
            port,
            host,
            target,
        } = destination;
        let passage = Passage {
            method,
            host,
            target,
            fields,
            content,
            change,
            is_origin,
            still: self.proxy.passes().stream_still,
            head,
            pieces,
            ticket,
        };
        let sent = self.send_to(name.as_str(), port, asker, passage);
        drop(name);
        match sent {
            Ok(()) => Ok(passing),
            Err(_) => {
                drop(passing);
                Err(503)
            }
        }
    }

    // Hands what is passed on for this client to a fetch thread, for the server of this name. Errors: it was not taken, or out of memory.
    fn send_to(
        &self,
        name: &str,
        port: u16,
        asker: IpAddr,
        passage: Passage,
    ) -> Result<(), AllocError> {
        // The count of this thread's clients, by which they take turns at the fetch threads.
        let count = self.last.checked_div(self.step).unwrap_or(0);
        let (rt, alloc) = (&self.rt, self.alloc);
        let passed = self
            .proxy
            .fetchers()
            .pass_on(rt, alloc, count, name, port, Some(asker), passage);
        match passed {
            Ok(()) => Ok(()),
            Err(fault) => {
                tell_not_taken(rt, alloc, &*self.proxy, Some(asker), fault);
                Err(AllocError)
            }
        }
    }

    /// Takes out of the store what a request has changed whose answer has this head. Where memory is short for what the head names beside
    /// the request's own key, that stays there until it is stale.
    pub(crate) fn clear_changed(&mut self, asked: &Asked, status: u16, head: &HeaderMap) {
        let Ok(key) = self.key(asked) else {
            return;
        };
        let method = asked.method.as_str();
        let Changed { own, others } = changed_keys(self.alloc, &key, method, status, head);
        if own {
            self.clear(&key);
        }
        drop(key);
        if let Ok(others) = others {
            self.clear_all(others.as_slice());
            drop(others);
        }
    }

    // Takes what is stored under each of these keys out of the store and off the shelf.
    fn clear_all(&self, changed: &[CacheKey]) {
        for key in changed {
            self.clear(key);
        }
    }

    /// Takes out of the store what a request may have changed whose server was lost before its answer. Nobody knows then whether that has
    /// carried it out.
    pub(crate) fn clear_unanswered(&mut self, told: &Told<'_>) {
        let Some(asked) = told.asked else {
            return;
        };
        if !is_unsafe(asked.method.as_str()) {
            return;
        }
        if let Ok(key) = self.key(asked) {
            self.clear(&key);
            drop(key);
        }
    }

    // Takes what is stored under a key out of the store and off the shelf, as the administration does.
    fn clear(&self, key: &CacheKey) {
        withdraw(&self.rt, &*self.proxy, key);
        let now = self.proxy.now(&self.rt);
        match self.rules.purger.event(self.alloc, key, now) {
            Ok(event) => {
                let _ = self.take(event);
            }
            Err(fault) => drop(fault),
        }
    }

    /// Where the tunnel leads that a request opens. Errors: 400 if its target is no host and port, or its Host no valid value, 403 if a tunnel
    /// may not lead there, 508 if the request has come through this cache before, 503 if there are too many tunnels, or no file for its
    /// connection, or if out of memory.
    pub(crate) fn lead(&self, asked: &Asked) -> Result<TunnelEnd, u16> {
        check_host(asked)?;
        let authority = self.authority(asked).ok_or(400u16)?;
        self.check_end(asked, authority)?;
        match self.ticket(&self.proxy.passes().tunnels) {
            Some(ticket) => self.end_of(asked, authority, ticket),
            None => Err(503),
        }
    }

    // The end of a tunnel that a request names, where servers are connected to at addresses of IPv6 also such an address.
    fn authority<'a>(&self, asked: &'a Asked) -> Option<Authority<'a>> {
        let target = asked.target.as_str();
        match authority_of(target) {
            None if self.proxy.passes().has_six => six_authority_of(target),
            authority => authority,
        }
    }

    // Errors: 403 if a tunnel may not lead to this port or to this address in digits, 508 if the request has come back.
    fn check_end(&self, asked: &Asked, authority: Authority<'_>) -> Result<(), u16> {
        let Authority { host, port } = authority;
        let passes = self.proxy.passes();
        if !passes.has_port(port) {
            return Err(403);
        }
        if has_come_back(&asked.head, self.proxy.outward().loop_mark.as_slice()) {
            return Err(508);
        }
        match address_in_digits(host) {
            Some(address) if passes.refuses(&self.rt, SocketAddr::new(address, port)) => Err(403),
            _ => Ok(()),
        }
    }

    // The end of a tunnel with this ticket. Errors: 503 if there is none, or if out of memory.
    fn end_of(
        &self,
        asked: &Asked,
        authority: Authority<'_>,
        ticket: Ticket,
    ) -> Result<TunnelEnd, u16> {
        let passes = self.proxy.passes();
        let Ok(places) = Arc::try_clone(&passes.servers) else {
            drop(ticket);
            return Err(503);
        };
        let Some((server, greeting)) = self.next_hop(asked, authority) else {
            drop(ticket);
            drop(places);
            return Err(503);
        };
        Ok(TunnelEnd {
            server,
            greeting,
            is_origin: passes.is_direct,
            still: passes.tunnel_still,
            connecting: passes.connecting,
            ticket,
            places,
        })
    }

    // What a tunnel is connected to, the server itself, or the parent with what it is asked. `None` if there is neither, or if out of
    // memory.
    fn next_hop(
        &self,
        asked: &Asked,
        authority: Authority<'_>,
    ) -> Option<(Server, Option<Vec<u8>>)> {
        if self.proxy.passes().is_direct {
            return Some((self.server_for(asked.from, authority)?, None));
        }
        let server = self.parent()?;
        match self.greeting(asked, authority) {
            Ok(greeting) => Some((server, Some(greeting))),
            Err(_) => {
                drop(server);
                None
            }
        }
    }

    // The server that a tunnel of this client leads to. `None` if there is no way to it.
    fn server_for(&self, asker: IpAddr, authority: Authority<'_>) -> Option<Server> {
        let Authority { host, port } = authority;
        let (rt, alloc) = (&self.rt, self.alloc);
        match self
            .proxy
            .fetchers()
            .server_of(rt, alloc, host, port, Some(asker))
        {
            Ok(server) => Some(server),
            Err(fault) => {
                tell_not_taken(rt, alloc, &*self.proxy, Some(asker), fault);
                None
            }
        }
    }

    // The HTTP server of the first parent, if there is one.
    fn parent(&self) -> Option<Server> {
        let parent = self.proxy.passes().parent?;
        let address = Ipv4Addr::from_octets(parent.end.addr);
        let end = SocketAddrV4::new(address, parent.http_port);
        Some(Server::At(SocketAddr::V4(end)))
    }

    // The request that opens a tunnel through a parent. It has the CDN-Loop and Via fields of the client's.
    fn greeting(&self, asked: &Asked, authority: Authority<'_>) -> Result<Vec<u8>, AllocError> {
        let alloc = self.alloc;
        let Authority { host, port } = authority;
        let fields = self.greeting_fields(asked)?;
        let head = connect_head(alloc, host, port, fields.as_slice());
        drop(fields);
        head
    }

    // The fields of that request.
    fn greeting_fields(&self, asked: &Asked) -> Result<Vec<Field>, AllocError> {
        let mut fields = Vec::new(self.alloc);
        match self.add_greeting_fields(asked, &mut fields) {
            Ok(()) => Ok(fields),
            Err(fault) => {
                drop(fields);
                Err(fault)
            }
        }
    }

    fn add_greeting_fields(
        &self,
        asked: &Asked,
        fields: &mut Vec<Field>,
    ) -> Result<(), AllocError> {
        add_values(self.alloc, fields, asked, "cdn-loop")?;
        add_values(self.alloc, fields, asked, "via")?;
        self.proxy.outward().add_marks(self.alloc, fields)
    }
}

/// The head of a request for a tunnel to this host and port. Errors: out of memory.
fn connect_head(
    alloc: Global,
    host: &str,
    port: u16,
    fields: &[Field],
) -> Result<Vec<u8>, AllocError> {
    let line = format!(in alloc; "CONNECT {host}:{port} HTTP/1.1\r\nhost: {host}:{port}\r\n")?;
    let mut head = line.into_bytes();
    for field in fields {
        add_line(&mut head, field)?;
    }
    head.extend_from_slice(b"\r\n")?;
    Ok(head)
}

/// Adds the line of a field to a head.
fn add_line(head: &mut Vec<u8>, field: &Field) -> Result<(), AllocError> {
    let (name, value) = field;
    head.extend_from_slice(name.as_slice())?;
    head.extend_from_slice(b": ")?;
    head.extend_from_slice(value.as_slice())?;
    head.extend_from_slice(b"\r\n")
}
