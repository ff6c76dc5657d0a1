//! Counts queries to neighbours and their replies, told by the first octets of each datagram.
use filter_slots::{End, Judged, Socket, cut};
use neighbours::Neighbour;
use std::alloc::{AllocError, Global};
use traffic_figures::{Figures, ReplyKind, htcp_reply, icp_reply};

/// The version of ICP (RFC 2186), and its opcode of a query.
const ICP_VERSION: u8 = 2;

const ICP_QUERY: u8 = 1;

/// The major version of HTCP (RFC 2756), and its opcode of a TST.
const HTCP_MAJOR: u8 = 0;

const HTCP_TST: u8 = 1;

/// Where the neighbours are queried, to find which of them a datagram goes to or comes from.
#[derive(Drop)]
pub struct NeighbourEnds {
    // The number of each one's socket and end, in rising order, with its place in the configuration.
    sorted: Vec<(u64, usize)>,
}

impl NeighbourEnds {
    /// The ends of the neighbours of a configuration, no two of which are queried at the same end. Errors: out of memory.
    pub fn new(alloc: Global, neighbours: &[Neighbour]) -> Result<NeighbourEnds, AllocError> {
        let mut sorted = Vec::with_capacity(alloc, neighbours.len())?;
        for (place, neighbour) in neighbours.iter().enumerate() {
            sorted.push((number_of(neighbour.protocol, neighbour.end), place))?;
        }
        sorted.sort_unstable();
        Ok(NeighbourEnds { sorted })
    }

    /// The place in the configuration of the neighbour that is queried from this socket at this end. Strangers are looked for as
    /// quickly: six comparisons among 64 neighbours.
    fn find(&self, socket: Socket, end: End) -> Option<usize> {
        let number = number_of(socket, end);
        let index = self
            .sorted
            .binary_search_by_key(&number, |entry| entry.0)
            .ok()?;
        let (_, place) = self.sorted.get(index)?;
        Some(*place)
    }
}

// Socket, address and port as one number, each of their own octets.
fn number_of(socket: Socket, end: End) -> u64 {
    let protocol: u64 = match socket {
        Socket::Icp => 0,
        Socket::Htcp => 1,
    };
    let address = u64::from(u32::from_be_bytes(end.addr));
    protocol << 48 | address << 16 | u64::from(end.port)
}

/// Counts a datagram that is sent, if it is a query to a neighbour: in ICP by its opcode, in HTCP a TST.
pub fn note_query(
    figures: &Figures,
    ends: &NeighbourEnds,
    socket: Socket,
    to: End,
    payload: &[u8],
) {
    if !is_query(socket, payload) {
        return;
    }
    if let Some(place) = ends.find(socket, to) {
        figures.note_query(place);
    }
}

/// Counts a datagram that came in, if it is a neighbour's reply and its verdict lets it through. What is cut off is not looked at.
pub fn note_reply(figures: &Figures, ends: &NeighbourEnds, judged: &Judged) {
    let verdict = judged.verdict().value;
    if verdict == 0 {
        return;
    }
    let datagram = judged.datagram();
    let socket = datagram.socket();
    let Some(kind) = reply_kind(socket, cut(datagram, verdict)) else {
        return;
    };
    if let Some(place) = ends.find(socket, datagram.from()) {
        figures.note_reply(place, kind);
    }
}

// Whether the octets begin as a query: of a reply it is told apart by the opcode in ICP, by RR in HTCP.
fn is_query(socket: Socket, octets: &[u8]) -> bool {
    match socket {
        Socket::Icp => octets.first() == Some(&ICP_QUERY),
        Socket::Htcp => match htcp_start(octets) {
            Some(start) => start.opcode == HTCP_TST && !start.is_response,
            None => false,
        },
    }
}

// The kind of the reply that the octets begin as. `None` if they don't begin as a reply of their protocol's version.
fn reply_kind(socket: Socket, octets: &[u8]) -> Option<ReplyKind> {
    match socket {
        Socket::Icp => {
            let opcode = octets.first()?;
            let version = octets.get(1)?;
            if *version != ICP_VERSION {
                return None;
            }
            icp_reply(*opcode)
        }
        Socket::Htcp => {
            let start = htcp_start(octets)?;
            if !start.is_response {
                return None;
            }
            Some(htcp_reply(start.opcode, start.code, start.flag))
        }
    }
}

/// The first fields of an HTCP message's DATA (RFC 2756, section 2.7).
#[derive(Clone, Copy)]
struct HtcpStart {
    opcode: u8,
    code: u8,
    // F1, which is MO in a response: the code is for the message as a whole.
    flag: bool,
    // RR.
    is_response: bool,
}

// HEADER is a length of two octets, and the major and the minor version; DATA a length of two octets, opcode and response code in an
// octet, and the flags in the last two bits of the next one. `None` if the octets end before, or are of another major version.
fn htcp_start(octets: &[u8]) -> Option<HtcpStart> {
    let major = octets.get(2)?;
    let codes = octets.get(6)?;
    let flags = octets.get(7)?;
    if *major != HTCP_MAJOR {
        return None;
    }
    Some(HtcpStart {
        opcode: *codes >> 4,
        code: *codes & 0x0f,
        flag: *flags & 0x02 != 0,
        is_response: *flags & 0x01 != 0,
    })
}
