//! The administration server: installs and removes filters, and shows counters.
use crate::account::SharedFacts;
use crate::admin_page::PAGE;
use crate::requests::{Answers, Given, OwnAnswer, Serves, TextKind};
use crate::server::{ClientSocket, ServeLimits, serve};
use crate::texts::{no_log, not_administrator, stopping, text_of};
use crate::tunnel::KeepTunnel;
use client_streams::Stops;
use crossbeam_channel::Sender;
use filter_slots::{Slot, Socket};
use futures::Future;
use futures::channel::mpsc;
use futures::future::{Ready, ready};
use http_traffic::{
    Asked, CaptureFault, Coming, Figures, Panel, PutFault, Road, StoreFault, StoreOrder, Told,
};
use std::alloc::{AllocError, AllocGlobal, Global};
use std::cell::RefCell;
use std::io;
use std::net::{IpAddr, Ipv4Addr, Net, SocketAddr, SocketAddrV4};
use std::random::RandomSource;
use std::rc::Rc;
use std::sync::Wait;
use std::time::Clock;

// State shared by all connections.
#[derive(Drop)]
struct Office<P> {
    alloc: Global,
    panel: RefCell<P>,
}

// Answers requests from a shared panel.
#[derive(Drop)]
struct Administrators<P> {
    office: Rc<Office<P>>,
}

// The slot that a path names.
fn slot_of(path: &str) -> Option<Slot> {
    match path {
        "/filter/icp" => Some(Slot::Socket(Socket::Icp)),
        "/filter/htcp" => Some(Slot::Socket(Socket::Htcp)),
        _ => {
            let place = neighbour_number(path.strip_prefix("/filter/neighbour/")?)?;
            Some(Slot::Neighbour(place))
        }
    }
}

// Parses a decimal number without leading zeros.
fn neighbour_number(text: &str) -> Option<usize> {
    let digits = text.as_bytes();
    if digits.len() > 1 && digits[0] == b'0' {
        return None;
    }
    for digit in digits {
        if !digit.is_ascii_digit() {
            return None;
        }
    }
    text.parse().ok()
}

// The path and query of a request target, which may be a whole URL.
fn path_of(target: &str) -> &str {
    let Some(rest) = target.strip_prefix("http://") else {
        return target;
    };
    match rest.find('/') {
        Some(place) => &rest[place..],
        None => "/",
    }
}

// The query of a request to capture, if it has one; `None` for any other path.
fn capture_query(path: &str) -> Option<Option<&str>> {
    match path.strip_prefix("/capture")? {
        "" => Some(None),
        rest => Some(Some(rest.strip_prefix('?')?)),
    }
}

fn text(status: u16, text: Vec<u8>) -> OwnAnswer {
    OwnAnswer::Text {
        status,
        text,
        kind: TextKind::Plain,
    }
}

fn figures(text: Vec<u8>, kind: TextKind) -> OwnAnswer {
    OwnAnswer::Text {
        status: 200,
        text,
        kind,
    }
}

// What follows `/store` in a path and query; `None` for any other path.
fn store_question(path: &str) -> Option<&str> {
    let rest = path.strip_prefix("/store")?;
    match rest.as_bytes() {
        [] | [b'/' | b'?', ..] => Some(rest),
        _ => None,
    }
}

// The answer to a question about the store that has none. Errors: out of memory.
fn no_object(alloc: Global, fault: StoreFault, path: &str) -> Result<OwnAnswer, AllocError> {
    match fault {
        StoreFault::NoQuestion(line) => Ok(text(400, line)),
        StoreFault::NotStored => Ok(text(404, text_of(alloc, 404, path.as_bytes())?)),
        StoreFault::Kept(line) => Ok(text(409, line)),
        StoreFault::NoMemory => Err(AllocError),
    }
}

// The answer to a request of what is stored. `None` if there is no such path. Errors: out of memory.
fn stored<P: Panel>(
    alloc: Global,
    panel: &mut P,
    path: &str,
) -> Result<Option<OwnAnswer>, AllocError> {
    let Some(asked) = store_question(path) else {
        return shown(alloc, panel, path);
    };
    match panel.store(asked, StoreOrder::Show) {
        Ok(line) => Ok(Some(figures(line, TextKind::Json))),
        Err(fault) => Ok(Some(no_object(alloc, fault, path)?)),
    }
}

// The answer to a request to take an object out of the store. `None` if there is no such path. Errors: out of memory.
fn removed<P: Panel>(
    alloc: Global,
    panel: &mut P,
    path: &str,
) -> Result<Option<OwnAnswer>, AllocError> {
    let asked = match store_question(path) {
        Some(asked) if asked.starts_with('/') => asked,
        _ => return Ok(None),
    };
    match panel.store(asked, StoreOrder::Remove) {
        Ok(_) => Ok(Some(text(204, Vec::new(alloc)))),
        Err(fault) => Ok(Some(no_object(alloc, fault, path)?)),
    }
}

// The answer to a request to install filters. Errors: out of memory.
fn installed(alloc: Global, done: Result<(), PutFault>) -> Result<OwnAnswer, AllocError> {
    match done {
        Ok(()) => Ok(text(204, Vec::new(alloc))),
        Err(PutFault::NoFilter(line)) => Ok(text(400, line)),
        Err(PutFault::NoMemory) => Err(AllocError),
    }
}

// The answer to a request that asks for something to be done. `None` if there is no such path. Errors: out of memory.
fn done<P: Panel>(
    alloc: Global,
    panel: &mut P,
    path: &str,
) -> Result<Option<OwnAnswer>, AllocError> {
    let given = if let Some(query) = capture_query(path) {
        captured(alloc, panel.capture(query))
    } else {
        match path {
            "/filters/reload" => installed(alloc, panel.reload()),
            "/log/reopen" => reopened(alloc, panel.reopen_log()),
            "/stop" => stopped(alloc, panel),
            _ => return Ok(None),
        }
    };
    found(given)
}

// An answer that there is. Errors: as it has.
fn found(given: Result<OwnAnswer, AllocError>) -> Result<Option<OwnAnswer>, AllocError> {
    match given {
        Ok(given) => Ok(Some(given)),
        Err(fault) => Err(fault),
    }
}

// The answer to a request to open the log anew, given whether there is one. Errors: out of memory.
fn reopened(alloc: Global, is_open: bool) -> Result<OwnAnswer, AllocError> {
    if is_open {
        Ok(text(204, Vec::new(alloc)))
    } else {
        Ok(text(404, no_log(alloc)?))
    }
}

// The answer to a request to stop. Errors: out of memory.
fn stopped<P: Panel>(alloc: Global, panel: &mut P) -> Result<OwnAnswer, AllocError> {
    // The text comes first, since what follows cannot be taken back.
    let line = stopping(alloc)?;
    panel.stop();
    Ok(text(202, line))
}

// The answer to a request of figures or of the page. `None` if there is no such path. Errors: out of memory.
fn shown<P: Panel>(
    alloc: Global,
    panel: &mut P,
    path: &str,
) -> Result<Option<OwnAnswer>, AllocError> {
    if path == "/" {
        let page = PAGE.as_bytes().to_vec(alloc)?;
        return Ok(Some(OwnAnswer::Page(page)));
    }
    let Some((asked, kind)) = figures_at(path) else {
        return Ok(None);
    };
    let text = panel.figures(asked)?;
    Ok(Some(figures(text, kind)))
}

// The figures that a path names, and what their text is.
fn figures_at(path: &str) -> Option<(Figures, TextKind)> {
    match path {
        "/metrics" => Some((Figures::Metrics, TextKind::Metrics)),
        "/stats" => Some((Figures::Sockets, TextKind::Json)),
        "/stats/clients" => Some((Figures::Clients, TextKind::Json)),
        "/stats/neighbours" => Some((Figures::Neighbours, TextKind::Json)),
        "/stats/neighbours/figures" => Some((Figures::NeighbourFigures, TextKind::Json)),
        _ => None,
    }
}

// The answer to a request to capture. Errors: out of memory.
fn captured(
    alloc: Global,
    begun: Result<mpsc::Receiver<Vec<u8>>, CaptureFault>,
) -> Result<OwnAnswer, AllocError> {
    match begun {
        Ok(pieces) => Ok(OwnAnswer::Capture(pieces)),
        Err(CaptureFault::NoLimits(line)) => Ok(text(400, line)),
        Err(CaptureFault::Busy) => Ok(text(409, text_of(alloc, 409, b"")?)),
        Err(CaptureFault::NoMemory) => Err(AllocError),
    }
}

impl<P: Panel> Administrators<P> {
    // The status that refuses a request whatever its content: 403 unless it is the administrator's, 401 if it may not change anything.
    fn refusal(&self, asked: &Asked) -> Option<u16> {
        if !self.admits(asked) {
            return Some(403);
        }
        if asked.method.as_str() != "GET" && !self.admits_change(asked) {
            return Some(401);
        }
        None
    }

    // The answer to a request. Errors: out of memory.
    fn answer(&self, asked: &Asked) -> Result<OwnAnswer, AllocError> {
        let alloc = self.office.alloc;
        match self.refusal(asked) {
            Some(403) => Ok(text(403, not_administrator(alloc)?)),
            Some(status) => {
                let path = path_of(asked.target.as_str());
                Ok(OwnAnswer::Challenge(text_of(alloc, status, path.as_bytes())?))
            }
            None => self.obey(asked),
        }
    }

    // The answer to the request of these facts. Errors: out of memory.
    fn answer_to<K: Drop>(&self, facts: &SharedFacts<K>) -> Result<OwnAnswer, AllocError> {
        let Ok(facts) = facts.0.try_borrow_mut() else {
            return Err(AllocError);
        };
        match &facts.asked {
            Some(asked) => self.answer(asked),
            None => Err(AllocError),
        }
    }

    // As `answer_to`, with a text in place of an error.
    fn answer_or_excuse<K: Drop>(&self, facts: &SharedFacts<K>) -> OwnAnswer {
        let alloc = self.office.alloc;
        match self.answer_to(facts) {
            Ok(answer) => answer,
            Err(_) => text(503, text_of(alloc, 503, b"").unwrap_or(Vec::new(alloc))),
        }
    }

    // Whether the request may change something.
    fn admits_change(&self, asked: &Asked) -> bool {
        match self.office.panel.try_borrow_mut() {
            Ok(mut panel) => panel.admits_change(asked),
            Err(_) => false,
        }
    }

    // Whether the request is the administrator's.
    fn admits(&self, asked: &Asked) -> bool {
        match self.office.panel.try_borrow_mut() {
            Ok(mut panel) => panel.admits(asked),
            Err(_) => false,
        }
    }

    // The answer to a request of the administrator. Errors: out of memory.
    fn obey(&self, asked: &Asked) -> Result<OwnAnswer, AllocError> {
        let alloc = self.office.alloc;
        let Ok(mut panel) = self.office.panel.try_borrow_mut() else {
            return Err(AllocError);
        };
        let path = path_of(asked.target.as_str());
        match answer_at(alloc, &mut *panel, asked, path) {
            Ok(Some(given)) => Ok(given),
            Ok(None) => not_found(alloc, path),
            Err(fault) => Err(fault),
        }
    }
}

// The answer to a request for this path and query. `None` if there is no such path. Errors: out of memory.
fn answer_at<P: Panel>(
    alloc: Global,
    panel: &mut P,
    asked: &Asked,
    path: &str,
) -> Result<Option<OwnAnswer>, AllocError> {
    match slot_of(path) {
        Some(slot) if panel.has(slot) => answer_of_slot(alloc, panel, asked, slot),
        _ => match asked.method.as_str() {
            "GET" => stored(alloc, panel, path),
            "DELETE" => removed(alloc, panel, path),
            "POST" => done(alloc, panel, path),
            _ => Ok(None),
        },
    }
}

// The answer to a request for a slot. `None` if there is no such method of it. Errors: out of memory.
fn answer_of_slot<P: Panel>(
    alloc: Global,
    panel: &mut P,
    asked: &Asked,
    slot: Slot,
) -> Result<Option<OwnAnswer>, AllocError> {
    match asked.method.as_str() {
        "PUT" => found(installed(alloc, panel.put(slot, asked.content.as_slice()))),
        "DELETE" => {
            panel.clear(slot)?;
            Ok(Some(text(204, Vec::new(alloc))))
        }
        "GET" => Ok(Some(text(200, panel.show(slot)?))),
        _ => Ok(None),
    }
}

// The answer where there is no such path. Errors: out of memory.
fn not_found(alloc: Global, path: &str) -> Result<OwnAnswer, AllocError> {
    Ok(text(404, text_of(alloc, 404, path.as_bytes())?))
}

impl<P: Panel> Answers for Administrators<P> {
    fn share(&self) -> Result<Administrators<P>, AllocError> {
        Ok(Administrators {
            office: self.office.clone()?,
        })
    }

    fn allows(&self, address: IpAddr) -> bool {
        match address {
            IpAddr::V4(address) => address.is_loopback(),
            IpAddr::V6(_) => false,
        }
    }

    fn note_answer(&self) {}

    fn tell(&self, _told: &Told<'_>) {}
}

impl<P: Panel, K: KeepTunnel> Serves<K> for Administrators<P> {
    type Answering = Ready<Given>;

    fn road(&self, method: &str) -> Result<Road, u16> {
        match method {
            "GET" | "PUT" | "DELETE" | "POST" => Ok(Road::Node),
            _ => Err(404),
        }
    }

    fn refuses(&self, facts: &SharedFacts<K>) -> bool {
        let Ok(facts) = facts.0.try_borrow_mut() else {
            return false;
        };
        match &facts.asked {
            Some(asked) => self.refusal(asked).is_some(),
            None => false,
        }
    }

    fn begin(&self, facts: SharedFacts<K>) -> Ready<Given>
        ensures { ⟦<Ready<Given> as Future>⟧.can_poll result }
    {
        let answer = self.answer_or_excuse(&facts);
        drop(facts);
        ready(Given::Own(answer))
    }

    // No request has this road.
    fn pass(&self, facts: SharedFacts<K>, content: Option<Coming>) -> Ready<Given>
        ensures { ⟦<Ready<Given> as Future>⟧.can_poll result }
    {
        let answer = self.answer_or_excuse(&facts);
        drop(content);
        drop(facts);
        ready(Given::Own(answer))
    }
}

/// Serves administration on the calling thread, on this port of 127.0.0.1 only, until `stops.stop` is ready or its sender is
/// dropped; open connections then have `limits.grace` to end, unless `stops.hurry` is cancelled before. Sends the address to `bound` once
/// administrators are accepted. Errors: the socket or the event loop failed.
///
/// Answers PUT, GET and DELETE of `/filter/icp`, `/filter/htcp` and `/filter/neighbour/<n>` for each neighbour; GET of `/stats`,
/// `/stats/clients`, `/stats/neighbours`, `/stats/neighbours/figures`, `/metrics`, `/store` and `/`, which is a page for people; GET and
/// DELETE of `/store/` and a percent-encoded URL; and POST of `/filters/reload`, of `/log/reopen`, of `/stop`, and of `/capture`,
/// whose answer is sent while the capture goes on. A request that `panel` does not admit gets 403, and a PUT, DELETE or POST that
/// it does not let change anything gets 401, with
/// `WWW-Authenticate: Bearer`, whatever its path; every other request gets 404, and content of more than `limits.content` octets
/// gets 413.
pub fn serve_admin<R, P>(
    rt: R,
    port: u16,
    panel: P,
    bound: Sender<SocketAddr, Global>,
    stops: Stops,
    limits: ServeLimits,
) -> io::Result<()>
where
    R: Wait + Clock + RandomSource + AllocGlobal + Net + Copy,
    P: Panel,
{
    match opened(&rt, port, panel, limits) {
        Ok((socket, administrators)) => {
            serve(rt, socket, administrators, bound, stops, None, limits)
        }
        Err(fault) => {
            drop(stops);
            drop(bound);
            Err(fault)
        }
    }
}

// Where administrators come, and what answers their requests from this panel. Errors: the socket failed, or out of memory.
fn opened<R: Net + AllocGlobal, P: Panel>(
    rt: &R,
    port: u16,
    panel: P,
    limits: ServeLimits,
) -> io::Result<(ClientSocket, Administrators<P>)> {
    let alloc = rt.alloc();
    let office = Office {
        alloc,
        panel: RefCell::new(panel),
    };
    let administrators = Administrators {
        office: Rc::new(alloc, office)?,
    };
    let address = SocketAddr::V4(SocketAddrV4::new(Ipv4Addr::new(127, 0, 0, 1), port));
    match ClientSocket::bind(rt, address, limits.connections) {
        Ok(socket) => Ok((socket, administrators)),
        Err(fault) => {
            drop(administrators);
            Err(fault)
        }
    }
}
