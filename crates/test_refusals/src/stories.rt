//! The scenarios: lists of events, with the actions expected at each.
use filter_slots::{Slot, Socket};
use neighbours::Role;
use node_core::{Mode, Tally};

/// An event of a scenario.
#[derive(Clone, Copy)]
pub enum What {
    /// A datagram arrives at this socket from 10.0.0.x and the default port, where x is this number, with these octets
    /// (hexadecimal).
    Comes(Socket, u8, &'static str),
    /// A client asks for `http://a/`.
    Asks(u64, Mode),
    /// The clock ticks.
    Ticks,
    /// The first attempt of fetch 1 returns an object with the body `hi` and this lifetime in seconds.
    Gives(u32),
    /// This attempt of fetch 1 returns the status 504, as from a sibling that doesn't have the object.
    Lacks(u16),
    /// This attempt of fetch 1 fails.
    Fails(u16),
    /// A client leaves.
    Leaves(u64),
    /// A slot's filter is replaced by one that accepts this many octets of each packet, or removed if `None`.
    Lets(Slot, Option<u32>),
}

/// The expected actions of an event: none, or this many of one kind.
#[derive(Clone, Copy, PartialEq, Eq)]
pub enum Wanted {
    Nothing,
    /// No action, but an object is stored.
    Stored,
    Sends(u64),
    Fetch,
    Hit,
    Gots(u64),
    Fail,
}

impl Wanted {
    /// Whether a tally is that of these actions.
    pub fn fits(self, tally: &Tally) -> bool {
        let found = [
            tally.sends,
            tally.fetches,
            tally.hits,
            tally.gots,
            tally.fails,
        ];
        match self {
            Wanted::Nothing | Wanted::Stored => found == [0, 0, 0, 0, 0],
            Wanted::Sends(count) => found == [count, 0, 0, 0, 0],
            Wanted::Fetch => found == [0, 1, 0, 0, 0],
            Wanted::Hit => found == [0, 0, 1, 0, 0],
            Wanted::Gots(count) => found == [0, 0, 0, count, 0],
            Wanted::Fail => found == [0, 0, 0, 0, 1],
        }
    }
}

/// A line of a scenario: the time in ms, the event, and the expected actions.
#[derive(Clone, Copy)]
pub struct Line(pub u64, pub What, pub Wanted);

impl Line {
    /// Whether a node takes the event without allocating: it sends nothing, finds and opens nothing, and uses no object.
    pub fn takes_none(&self) -> bool {
        let is_nothing = self.2 == Wanted::Nothing;
        match self.1 {
            What::Ticks | What::Fails(_) | What::Lacks(_) => true,
            What::Leaves(_) | What::Lets(..) => true,
            What::Comes(..) => is_nothing || self.2 == Wanted::Fetch,
            What::Asks(_, mode) => is_nothing || mode == Mode::Cached && self.2 == Wanted::Fail,
            What::Gives(_) => is_nothing,
        }
    }
}

/// A neighbour at 10.0.0.`last` and the default port, with or without a key.
#[derive(Clone, Copy)]
pub struct Beside {
    pub kind: Role,
    pub protocol: Socket,
    pub last: u8,
    pub weight: u32,
    pub is_signed: bool,
}

/// A scenario: the node's neighbours, whether it may fetch from origin servers, and its events.
#[derive(Clone, Copy)]
pub struct Story {
    pub name: &'static str,
    pub has_origin: bool,
    pub neighbours: &'static [Beside],
    pub lines: &'static [Line],
}

/// ICP queries for `http://a/` and `ftp://a/`.
const QUERY: &str = "010200220000000100000000000000000000000000000000687474703a2f2f612f00";

const OF_FTP: &str = "0102002100000001000000000000000000000000000000006674703a2f2f612f00";

/// The MISS and the HIT of request 1 for `http://a/`.
const MISS: &str = "0302001e0000000100000000000000000a000009687474703a2f2f612f00";

const HAS_IT: &str = "0202001e0000000100000000000000000a000004687474703a2f2f612f00";

/// A datagram too short to be a message.
const SHORT: &str = "0102";

/// HTCP requests: NOP, MON, an unsigned CLR, TST.
const NOP: &str = "000e000000080002000000070002";

const MON: &str = "000e000000082002000000090002";

const CLR: &str =
    "002c0000002640020000000a000000034745540009687474703a2f2f612f0008485454502f312e3100000002";

const TST: &str =
    "002a0000002410020000000900034745540009687474703a2f2f612f0008485454502f312e3100000002";

/// The CLR from 10.0.0.9, signed in the first second.
const SIGNED_CLR: &str =
    "00490000002640020000000a000000034745540009687474703a2f2f612f0008485454502f312e310000001f000000010000003d00016b001061d71a0d83efbc13115fb529e7621d2d";

/// The response to request 1 that the object is present, and the same from 10.0.0.5, signed in the first second.
const FOUND: &str = "00140000000e1001000000010000000000000002";

const SIGNED_FOUND: &str =
    "00310000000e100100000001000000000000001f000000010000003d00016b00101425a51349aee3dc6bb662ed24e08d09";

const NOBODY: &[Beside] = &[];

/// An ICP parent at 10.0.0.9.
const PARENT: &[Beside] = &[Beside {
    kind: Role::Parent,
    protocol: Socket::Icp,
    last: 9,
    weight: 1,
    is_signed: false,
}];

/// Two ICP parents and an ICP sibling.
const THREE: &[Beside] = &[
    Beside {
        kind: Role::Parent,
        protocol: Socket::Icp,
        last: 2,
        weight: 1,
        is_signed: false,
    },
    Beside {
        kind: Role::Parent,
        protocol: Socket::Icp,
        last: 3,
        weight: 2,
        is_signed: false,
    },
    Beside {
        kind: Role::Sibling,
        protocol: Socket::Icp,
        last: 4,
        weight: 1,
        is_signed: false,
    },
];

/// An HTCP sibling at 10.0.0.5.
const BY_HTCP: &[Beside] = &[Beside {
    kind: Role::Sibling,
    protocol: Socket::Htcp,
    last: 5,
    weight: 1,
    is_signed: false,
}];

/// The same sibling with a key.
const BY_SIGNED_HTCP: &[Beside] = &[Beside {
    kind: Role::Sibling,
    protocol: Socket::Htcp,
    last: 5,
    weight: 1,
    is_signed: true,
}];

/// The slots whose filters are replaced.
const OF_ICP: Slot = Slot::Socket(Socket::Icp);

const OF_HTCP: Slot = Slot::Socket(Socket::Htcp);

const OF_FIRST: Slot = Slot::Neighbour(0);

const OF_SECOND: Slot = Slot::Neighbour(1);

const ASKED_BY_ICP: Story = Story {
    name: "ICP queries",
    has_origin: true,
    neighbours: NOBODY,
    lines: &[
        Line(5, What::Comes(Socket::Icp, 9, QUERY), Wanted::Sends(1)),
        Line(6, What::Comes(Socket::Icp, 9, OF_FTP), Wanted::Sends(1)),
        Line(7, What::Comes(Socket::Icp, 200, QUERY), Wanted::Sends(1)),
        Line(8, What::Comes(Socket::Icp, 9, SHORT), Wanted::Nothing),
        Line(9, What::Comes(Socket::Icp, 9, MISS), Wanted::Nothing),
    ],
};

/// HTCP requests before and after an object is stored, and after it is cleared.
const ASKED_BY_HTCP: Story = Story {
    name: "HTCP requests",
    has_origin: true,
    neighbours: NOBODY,
    lines: &[
        Line(5, What::Comes(Socket::Htcp, 9, NOP), Wanted::Sends(1)),
        Line(6, What::Comes(Socket::Htcp, 9, MON), Wanted::Sends(1)),
        Line(7, What::Comes(Socket::Htcp, 9, CLR), Wanted::Sends(1)),
        Line(8, What::Comes(Socket::Htcp, 9, TST), Wanted::Sends(1)),
        Line(9, What::Asks(1, Mode::Shared), Wanted::Fetch),
        Line(10, What::Gives(60), Wanted::Gots(1)),
        Line(11, What::Comes(Socket::Htcp, 9, TST), Wanted::Sends(1)),
        Line(
            1_030,
            What::Comes(Socket::Htcp, 9, SIGNED_CLR),
            Wanted::Sends(1),
        ),
        Line(1_031, What::Asks(2, Mode::Shared), Wanted::Fetch),
    ],
};

/// A sibling has the object but fails; then the parents are tried in the order of their ranks, then the origin; then no
/// source is left.
const ROUND: Story = Story {
    name: "a round with a hit",
    has_origin: true,
    neighbours: THREE,
    lines: &[
        Line(1_000, What::Asks(1, Mode::Shared), Wanted::Sends(3)),
        Line(1_040, What::Comes(Socket::Icp, 2, MISS), Wanted::Nothing),
        Line(1_070, What::Comes(Socket::Icp, 3, MISS), Wanted::Nothing),
        Line(1_100, What::Comes(Socket::Icp, 4, HAS_IT), Wanted::Fetch),
        Line(1_150, What::Lacks(0), Wanted::Fetch),
        Line(1_160, What::Lacks(0), Wanted::Nothing),
        Line(1_200, What::Fails(1), Wanted::Fetch),
        Line(1_300, What::Fails(2), Wanted::Fail),
    ],
};

const SHARED: Story = Story {
    name: "clients that share a fetch",
    has_origin: true,
    neighbours: PARENT,
    lines: &[
        Line(1_000, What::Asks(1, Mode::Shared), Wanted::Sends(1)),
        Line(1_001, What::Asks(2, Mode::Shared), Wanted::Nothing),
        Line(1_002, What::Asks(3, Mode::Shared), Wanted::Nothing),
        Line(1_002, What::Leaves(3), Wanted::Nothing),
        Line(1_040, What::Comes(Socket::Icp, 9, MISS), Wanted::Fetch),
        Line(1_100, What::Gives(0), Wanted::Gots(2)),
        Line(1_200, What::Gives(0), Wanted::Nothing),
    ],
};

const STORED: Story = Story {
    name: "an object is stored and grows stale",
    has_origin: true,
    neighbours: NOBODY,
    lines: &[
        Line(1_000, What::Asks(1, Mode::Shared), Wanted::Fetch),
        Line(1_010, What::Gives(60), Wanted::Gots(1)),
        Line(1_020, What::Asks(2, Mode::Shared), Wanted::Hit),
        Line(1_030, What::Comes(Socket::Icp, 9, QUERY), Wanted::Sends(1)),
        Line(61_009, What::Asks(3, Mode::Shared), Wanted::Hit),
        Line(61_010, What::Asks(4, Mode::Cached), Wanted::Fail),
        Line(61_011, What::Asks(5, Mode::Shared), Wanted::Fetch),
    ],
};

const SILENT: Story = Story {
    name: "a silent parent",
    has_origin: true,
    neighbours: PARENT,
    lines: &[
        Line(1_000, What::Asks(1, Mode::Shared), Wanted::Sends(1)),
        Line(2_999, What::Ticks, Wanted::Nothing),
        Line(3_000, What::Ticks, Wanted::Fetch),
    ],
};

const LEFT: Story = Story {
    name: "a client that goes away",
    has_origin: true,
    neighbours: NOBODY,
    lines: &[
        Line(1_000, What::Asks(1, Mode::Shared), Wanted::Fetch),
        Line(1_001, What::Leaves(1), Wanted::Nothing),
        Line(1_002, What::Leaves(7), Wanted::Nothing),
        Line(1_010, What::Gives(60), Wanted::Stored),
        Line(1_020, What::Asks(2, Mode::Shared), Wanted::Hit),
        Line(1_030, What::Fails(0), Wanted::Nothing),
    ],
};

const PRIVATE: Story = Story {
    name: "a private request",
    has_origin: true,
    neighbours: NOBODY,
    lines: &[
        Line(5, What::Asks(1, Mode::Cached), Wanted::Fail),
        Line(6, What::Asks(1, Mode::Private), Wanted::Fetch),
        Line(7, What::Asks(1, Mode::Private), Wanted::Nothing),
        Line(10, What::Gives(60), Wanted::Gots(1)),
        Line(11, What::Asks(2, Mode::Shared), Wanted::Fetch),
    ],
};

const SOURCELESS: Story = Story {
    name: "nobody to fetch from",
    has_origin: false,
    neighbours: NOBODY,
    lines: &[
        Line(5, What::Asks(1, Mode::Shared), Wanted::Fail),
        Line(6, What::Asks(2, Mode::Cached), Wanted::Fail),
        Line(7, What::Asks(3, Mode::Private), Wanted::Fail),
        Line(8, What::Asks(1, Mode::Shared), Wanted::Fail),
    ],
};

const HTCP_ROUND: Story = Story {
    name: "a round by HTCP",
    has_origin: true,
    neighbours: BY_HTCP,
    lines: &[
        Line(1_000, What::Asks(1, Mode::Shared), Wanted::Sends(1)),
        Line(1_030, What::Comes(Socket::Htcp, 5, FOUND), Wanted::Fetch),
        Line(1_040, What::Lacks(0), Wanted::Fetch),
        Line(1_100, What::Gives(0), Wanted::Nothing),
        Line(1_110, What::Fails(1), Wanted::Fail),
    ],
};

const SIGNED_ROUND: Story = Story {
    name: "a round by signed HTCP",
    has_origin: true,
    neighbours: BY_SIGNED_HTCP,
    lines: &[
        Line(1_000, What::Asks(1, Mode::Shared), Wanted::Sends(1)),
        Line(1_030, What::Comes(Socket::Htcp, 5, FOUND), Wanted::Nothing),
        Line(
            1_033,
            What::Comes(Socket::Htcp, 5, SIGNED_FOUND),
            Wanted::Fetch,
        ),
        Line(1_100, What::Gives(60), Wanted::Gots(1)),
        Line(
            1_110,
            What::Comes(Socket::Htcp, 9, SIGNED_CLR),
            Wanted::Sends(1),
        ),
        Line(1_120, What::Asks(2, Mode::Shared), Wanted::Sends(1)),
    ],
};

const FILTERED: Story = Story {
    name: "a socket's filter comes and goes",
    has_origin: true,
    neighbours: NOBODY,
    lines: &[
        Line(5, What::Lets(OF_ICP, Some(0)), Wanted::Nothing),
        Line(5, What::Comes(Socket::Icp, 9, QUERY), Wanted::Nothing),
        Line(6, What::Lets(OF_ICP, Some(65_535)), Wanted::Nothing),
        Line(6, What::Comes(Socket::Icp, 9, QUERY), Wanted::Sends(1)),
        Line(7, What::Lets(OF_ICP, Some(40)), Wanted::Nothing),
        Line(7, What::Comes(Socket::Icp, 9, QUERY), Wanted::Nothing),
        Line(8, What::Lets(OF_ICP, None), Wanted::Nothing),
        Line(8, What::Comes(Socket::Icp, 9, QUERY), Wanted::Sends(1)),
        Line(9, What::Lets(OF_HTCP, Some(0)), Wanted::Nothing),
        Line(9, What::Comes(Socket::Htcp, 9, TST), Wanted::Nothing),
    ],
};

/// A neighbour's datagrams are rejected, and a second neighbour's filter has no slot.
const NEIGHBOUR_FILTERED: Story = Story {
    name: "a neighbour's filter comes and goes",
    has_origin: true,
    neighbours: PARENT,
    lines: &[
        Line(5, What::Lets(OF_SECOND, Some(0)), Wanted::Nothing),
        Line(6, What::Lets(OF_FIRST, Some(0)), Wanted::Nothing),
        Line(7, What::Comes(Socket::Icp, 9, QUERY), Wanted::Nothing),
        Line(8, What::Comes(Socket::Icp, 8, QUERY), Wanted::Sends(1)),
        Line(1_000, What::Asks(1, Mode::Shared), Wanted::Sends(1)),
        Line(1_010, What::Comes(Socket::Icp, 9, MISS), Wanted::Nothing),
        Line(1_020, What::Lets(OF_FIRST, None), Wanted::Nothing),
        Line(1_040, What::Comes(Socket::Icp, 9, MISS), Wanted::Fetch),
        Line(1_050, What::Lets(OF_FIRST, Some(65_535)), Wanted::Nothing),
        Line(1_060, What::Comes(Socket::Icp, 9, QUERY), Wanted::Sends(1)),
        Line(1_100, What::Gives(60), Wanted::Gots(1)),
    ],
};

/// The number of scenarios.
pub const STORIES: u8 = 13;

/// The scenario with this number, counted from 0.
pub fn story_of(number: u8) -> Option<Story> {
    let story = match number {
        0 => ASKED_BY_ICP,
        1 => ASKED_BY_HTCP,
        2 => ROUND,
        3 => SHARED,
        4 => STORED,
        5 => SILENT,
        6 => LEFT,
        7 => PRIVATE,
        8 => SOURCELESS,
        9 => HTCP_ROUND,
        10 => SIGNED_ROUND,
        11 => FILTERED,
        12 => NEIGHBOUR_FILTERED,
        _ => return None,
    };
    Some(story)
}
