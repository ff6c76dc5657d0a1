//! The two query sockets, polled together.
use crate::NoMemory;
use crate::traffic::{Received, WireFault};
use filter_slots::{Datagram, End, Moment, Socket};
use mio::net::UdpSocket;
use mio::{Events, Interest, Poll, Token, Waker};
use query_handles::{Bell, Timeline};
use std::alloc::{AllocGlobal, Global};
use std::io;
use std::io::ErrorKind;
use std::net::{Ipv4Addr, Net, SocketAddr, SocketAddrV4};
use std::sync::Arc;
use std::time::{Clock, Duration};
use thiserror::Error;

/// A receive returns `Idle` at least once in this many milliseconds of its timeline.
pub const TICK: u64 = 100;

const ICP: Token = Token(0);

const HTCP: Token = Token(1);

const WAKES: Token = Token(2);

// Size of the receive buffer in octets; no IPv4 datagram is larger.
const ROOM: usize = 65_536;

/// Errors of binding the sockets.
#[derive(Clone, Copy, Debug, Error)]
pub enum BindFault {
    /// The address of this socket can't be bound.
    #[error("the end of a query socket can't be bound")]
    End(Socket, ErrorKind),
    /// The sockets can't be polled, or the system's clock can't be read.
    #[error("the query sockets can't be waited for")]
    Io,
    /// Allocation failure.
    #[error("no memory")]
    NoMemory,
}

impl From<NoMemory> for BindFault {
    fn from(_: NoMemory) -> BindFault {
        BindFault::NoMemory
    }
}

// A datagram in the buffer that was not returned yet.
#[derive(Clone, Copy)]
struct Held {
    socket: Socket,
    from: End,
    count: usize,
}

// What waits for datagrams, and the bell that wakes it.
#[derive(Drop)]
struct Polling {
    poll: Poll,
    events: Events,
    bell: Bell,
}

// Both sockets, bound and non-blocking, with one receive buffer.
#[derive(Drop)]
pub struct Sockets<R> {
    rt: R,
    timeline: Timeline,
    poll: Poll,
    events: Events,
    bell: Bell,
    icp: UdpSocket,
    htcp: UdpSocket,
    icp_end: End,
    htcp_end: End,
    // The socket to try first: not the one that had the last datagram.
    next: Socket,
    // When that socket was found empty while the other had a datagram.
    empty_at: Option<Moment>,
    // When a receive last returned `Idle`.
    ticked: Moment,
    buffer: Vec<u8>,
    held: Option<Held>,
}

impl<R: Net + Clock + AllocGlobal + Drop> Sockets<R> {
    /// Binds both sockets and registers them and a bell for polling.
    pub fn bind(rt: R, timeline: Timeline, icp: End, htcp: End) -> Result<Sockets<R>, BindFault> {
        let Ok(ticked) = timeline.now(&rt) else {
            return Err(BindFault::Io);
        };
        let buffer = vec![in rt.alloc(); 0; ROOM]?;
        let Polling { poll, events, bell } = open_polling(&rt)?;
        match both_bound(&rt, &poll, icp, htcp) {
            Ok((icp_socket, htcp_socket)) => Ok(Sockets {
                poll,
                events,
                bell,
                icp_end: own_end(&icp_socket, icp),
                htcp_end: own_end(&htcp_socket, htcp),
                icp: icp_socket,
                htcp: htcp_socket,
                next: Socket::Icp,
                empty_at: None,
                ticked,
                buffer,
                held: None,
                timeline,
                rt,
            }),
            Err(fault) => {
                drop(poll);
                drop(events);
                drop(bell);
                Err(fault)
            }
        }
    }

    /// The local address of a socket, with the port that it actually has.
    pub fn end(&self, socket: Socket) -> End {
        match socket {
            Socket::Icp => self.icp_end,
            Socket::Htcp => self.htcp_end,
        }
    }

    /// The bell that wakes a blocked receive.
    pub fn bell(&self) -> &Bell {
        &self.bell
    }

    /// Returns a datagram, or `Idle` after at most 100 milliseconds or when the bell rings. Even under a constant stream of
    /// datagrams it returns `Idle` at least once in 100 milliseconds of its timeline.
    pub fn receive(&mut self, alloc: Global) -> Result<Received, WireFault> {
        let before = self.timeline.now(&self.rt)?;
        let Some(left) = self.until_tick(before) else {
            return Ok(self.idle(before));
        };
        if self.try_both(before)? {
            return self.hand_over(alloc, before);
        }
        let rang = self.wait(left)?;
        let after = self.timeline.now(&self.rt)?;
        if rang || !self.try_both(after)? {
            return Ok(self.idle(after));
        }
        self.hand_over(alloc, after)
    }

    // Milliseconds left until a receive has to return `Idle`; `None` if it has to now.
    fn until_tick(&self, at: Moment) -> Option<u64> {
        let since = at.millis().checked_sub(self.ticked.millis())?;
        TICK.checked_sub(since).filter(|left| *left > 0)
    }

    fn idle(&mut self, at: Moment) -> Received {
        self.ticked = at;
        Received::Idle(at)
    }

    // Waits until a socket may have a datagram, the bell rings or the time is up. Returns whether the bell rang.
    fn wait(&mut self, millis: u64) -> io::Result<bool> {
        self.poll
            .poll(&mut self.events, Some(Duration::from_millis(millis)))?;
        Ok(self.events.iter().any(|event| event.token() == WAKES))
    }

    // Receives into the buffer from either socket, unless it holds a datagram. Returns whether it then holds one. The socket
    // whose turn it is comes first; once found empty, it is tried again only in another millisecond or when the other is empty.
    fn try_both(&mut self, at: Moment) -> io::Result<bool> {
        if self.held.is_some() {
            return Ok(true);
        }
        let first = self.next;
        let skipped = self.empty_at == Some(at);
        self.empty_at = None;
        if !skipped && self.try_one(first)? {
            return Ok(true);
        }
        if self.try_one(other(first))? {
            self.empty_at = Some(at);
            return Ok(true);
        }
        Ok(skipped && self.try_one(first)?)
    }

    // Receives a datagram from a socket into the buffer. Returns whether it had one.
    fn try_one(&mut self, socket: Socket) -> io::Result<bool> {
        for _ in 0..u64::MAX {
            let got = match socket {
                Socket::Icp => self.icp.recv_from(&mut self.buffer),
                Socket::Htcp => self.htcp.recv_from(&mut self.buffer),
            };
            match got {
                Ok((count, SocketAddr::V4(from))) => {
                    self.held = Some(Held {
                        socket,
                        from: end_of(from),
                        count,
                    });
                    self.next = other(socket);
                    return Ok(true);
                }
                Ok((_, SocketAddr::V6(_))) => {}
                Err(e) if e.kind() == ErrorKind::WouldBlock => return Ok(false),
                Err(e) if is_passing(e.kind()) => {}
                Err(e) => return Err(e),
            }
        }
        Ok(false)
    }

    // Returns the datagram in the buffer. On allocation failure it stays there.
    fn hand_over(&mut self, alloc: Global, at: Moment) -> Result<Received, WireFault> {
        match self.held_datagram(alloc)? {
            Some(datagram) => {
                self.held = None;
                Ok(Received::Datagram(datagram, at))
            }
            None => {
                self.held = None;
                Ok(self.idle(at))
            }
        }
    }

    // A copy of the datagram in the buffer, of exact size; `None` if there is none or it is no valid `Datagram`.
    fn held_datagram(&self, alloc: Global) -> Result<Option<Arc<Datagram>>, NoMemory> {
        let Some(held) = self.held else {
            return Ok(None);
        };
        let Some(octets) = self.buffer.get(..held.count) else {
            return Ok(None);
        };
        let payload = octets.to_vec(alloc)?;
        match Datagram::new(held.socket, held.from, self.end(held.socket), payload) {
            Ok(datagram) => Ok(Some(Arc::new(alloc, datagram)?)),
            Err(_) => Ok(None),
        }
    }

    /// Sends a datagram from a socket, trying again while interrupted.
    pub fn send(&mut self, socket: Socket, to: End, payload: &[u8]) -> io::Result<()> {
        let to = address(to);
        for _ in 0..u64::MAX {
            let sent = match socket {
                Socket::Icp => self.icp.send_to(payload, to),
                Socket::Htcp => self.htcp.send_to(payload, to),
            };
            match sent {
                Ok(_) => return Ok(()),
                Err(e) if e.kind() == ErrorKind::Interrupted => {}
                Err(e) => return Err(e),
            }
        }
        Err(ErrorKind::Interrupted.into())
    }
}

// What waits for datagrams, with the bell registered.
fn open_polling<R: Net + AllocGlobal>(rt: &R) -> Result<Polling, BindFault> {
    let Ok(poll) = Poll::new(rt) else {
        return Err(BindFault::Io);
    };
    match bell_of(rt.alloc(), &poll) {
        Ok((events, bell)) => Ok(Polling { poll, events, bell }),
        Err(fault) => {
            drop(poll);
            Err(fault)
        }
    }
}

// Room for events, and a bell that is registered for polling.
fn bell_of(alloc: Global, poll: &Poll) -> Result<(Events, Bell), BindFault> {
    let Ok(waker) = Waker::new(poll.registry(), WAKES) else {
        return Err(BindFault::Io);
    };
    let bell = Bell::new(alloc, waker)?;
    match Events::with_capacity(alloc, 4) {
        Ok(events) => Ok((events, bell)),
        Err(_) => {
            drop(bell);
            Err(BindFault::NoMemory)
        }
    }
}

// Both sockets, bound and registered for polling.
fn both_bound(
    rt: &impl Net,
    poll: &Poll,
    icp: End,
    htcp: End,
) -> Result<(UdpSocket, UdpSocket), BindFault> {
    let icp_socket = bound(rt, poll, Socket::Icp, icp)?;
    match bound(rt, poll, Socket::Htcp, htcp) {
        Ok(htcp_socket) => Ok((icp_socket, htcp_socket)),
        Err(fault) => {
            drop(icp_socket);
            Err(fault)
        }
    }
}

// Binds a socket and registers it for polling.
fn bound(rt: &impl Net, poll: &Poll, socket: Socket, end: End) -> Result<UdpSocket, BindFault> {
    let mut bound = match UdpSocket::bind(rt, address(end)) {
        Ok(bound) => bound,
        Err(error) => return Err(BindFault::End(socket, error.kind())),
    };
    let token = match socket {
        Socket::Icp => ICP,
        Socket::Htcp => HTCP,
    };
    match poll
        .registry()
        .register(&mut bound, token, Interest::READABLE)
    {
        Ok(()) => Ok(bound),
        Err(_) => Err(BindFault::Io),
    }
}

// The local address of a socket, or the requested one if the system doesn't tell it.
fn own_end(socket: &UdpSocket, asked: End) -> End {
    match socket.local_addr() {
        Ok(SocketAddr::V4(addr)) => end_of(addr),
        _ => asked,
    }
}

// Whether a receive error is transient: the call was interrupted, or an earlier send didn't reach its destination.
fn is_passing(kind: ErrorKind) -> bool {
    matches!(
        kind,
        ErrorKind::Interrupted
            | ErrorKind::ConnectionRefused
            | ErrorKind::ConnectionReset
            | ErrorKind::HostUnreachable
            | ErrorKind::NetworkUnreachable
    )
}

fn other(socket: Socket) -> Socket {
    match socket {
        Socket::Icp => Socket::Htcp,
        Socket::Htcp => Socket::Icp,
    }
}

fn address(end: End) -> SocketAddr {
    let [a, b, c, d] = end.addr;
    SocketAddr::V4(SocketAddrV4::new(Ipv4Addr::new(a, b, c, d), end.port))
}

fn end_of(addr: SocketAddrV4) -> End {
    End {
        addr: addr.ip().octets(),
        port: addr.port(),
    }
}
