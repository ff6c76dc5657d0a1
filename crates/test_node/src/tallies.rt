//! Tests of tallies of actions, against counts and digests computed independently of this program.

use crate::events::{MISS, field, greeting, spells};
use filter_slots::{End, Socket};
use node_core::{Action, Answer, Payload, Tally};
use object_store::{Object, SharedObject};
use peer_select::Source;
use std::alloc::Global;

/// An action as constant data.
#[derive(Clone, Copy)]
enum Plan {
    Sent {
        last: u8,
        octets: &'static [u8],
    },
    SentFar,
    Fetched {
        fetch: u32,
        attempt: u16,
        source: Source,
        only_if_cached: bool,
        owner: Option<u64>,
    },
    Hit {
        client: u64,
        age: u32,
    },
    Got {
        client: u64,
    },
    GotPage {
        client: u64,
    },
    Failed {
        client: u64,
        status: u16,
    },
}

/// A send from the ICP socket to port 3130 of an address in 10.0.0.0/24.
fn sent(alloc: Global, last: u8, octets: &[u8]) -> Option<Action> {
    let to = End {
        addr: [10, 0, 0, last],
        port: 3130,
    };
    Some(Action::Send {
        socket: Socket::Icp,
        to,
        payload: Payload::new(octets.to_vec(alloc).ok()?),
    })
}

/// A send of an empty datagram from the HTCP socket to port 65535 of 255.0.0.1.
fn sent_far(alloc: Global) -> Action {
    let to = End {
        addr: [255, 0, 0, 1],
        port: 65_535,
    };
    Action::Send {
        socket: Socket::Htcp,
        to,
        payload: Payload::new(Vec::new(alloc)),
    }
}

/// Two header fields, the second with an empty value.
fn two_fields(alloc: Global) -> Option<Vec<(Vec<u8>, Vec<u8>)>> {
    let mut head = Vec::new(alloc);
    head.push(field(alloc, b"content-type", b"text/plain")?)
        .ok()?;
    head.push(field(alloc, b"x", b"")?).ok()?;
    Some(head)
}

/// An object of status 200 with two header fields and a body of 80 octets.
fn page(alloc: Global) -> Option<SharedObject> {
    let mut body = Vec::new(alloc);
    for _ in 0..40 {
        body.extend_from_slice(b"\x00\xff").ok()?;
    }
    let object = Object::new(200, two_fields(alloc)?, body, 7, 2_147_483_648);
    SharedObject::new(alloc, object).ok()
}

/// The answer of a plan that serves a client.
fn answer_of(alloc: Global, plan: Plan) -> Option<Answer> {
    match plan {
        Plan::Hit { age, .. } => Some(Answer::Hit {
            object: greeting(alloc)?,
            age,
        }),
        Plan::Got { .. } => Some(Answer::Got(greeting(alloc)?)),
        Plan::GotPage { .. } => Some(Answer::Got(page(alloc)?)),
        Plan::Failed { status, .. } => Some(Answer::Fail(status)),
        _ => None,
    }
}

/// The action of a plan that serves a client.
fn serve(alloc: Global, client: u64, plan: Plan) -> Option<Action> {
    let answer = answer_of(alloc, plan)?;
    Some(Action::Serve { client, answer })
}

/// The action of a plan.
fn action_of(alloc: Global, plan: Plan) -> Option<Action> {
    match plan {
        Plan::Sent { last, octets } => sent(alloc, last, octets),
        Plan::SentFar => Some(sent_far(alloc)),
        Plan::Fetched {
            fetch,
            attempt,
            source,
            only_if_cached,
            owner,
        } => Some(Action::Fetch {
            fetch,
            attempt,
            source,
            only_if_cached,
            owner,
        }),
        Plan::Hit { client, .. }
        | Plan::Got { client }
        | Plan::GotPage { client }
        | Plan::Failed { client, .. } => serve(alloc, client, plan),
    }
}

/// The actions of some plans.
fn actions_of(alloc: Global, plans: &[Plan]) -> Option<Vec<Action>> {
    let mut actions = Vec::new(alloc);
    for plan in plans {
        actions.push(action_of(alloc, *plan)?).ok()?;
    }
    Some(actions)
}

/// A test case: the actions of an event, and their tally (the number of each kind, and the digest in hexadecimal).
struct Row {
    plans: &'static [Plan],
    counts: [u64; 5],
    digest: &'static str,
}

const ROWS: [Row; 12] = [
    Row {
        plans: &[],
        counts: [0, 0, 0, 0, 0],
        digest: "d41d8cd98f00b204e9800998ecf8427e",
    },
    Row {
        plans: &[Plan::Sent {
            last: 9,
            octets: MISS,
        }],
        counts: [1, 0, 0, 0, 0],
        digest: "31d8f4425cc92d9a24190f6732d05c8c",
    },
    Row {
        plans: &[Plan::SentFar],
        counts: [1, 0, 0, 0, 0],
        digest: "230b945c46fceb87cde5ccc595c886ac",
    },
    Row {
        plans: &[Plan::Fetched {
            fetch: 1,
            attempt: 0,
            source: Source::Origin,
            only_if_cached: false,
            owner: None,
        }],
        counts: [0, 1, 0, 0, 0],
        digest: "fdeb5ecf86e7f8380f166a92e099a280",
    },
    Row {
        plans: &[Plan::Fetched {
            fetch: 4_294_967_295,
            attempt: 65_535,
            source: Source::Peer(63),
            only_if_cached: true,
            owner: Some(18_446_744_073_709_551_615),
        }],
        counts: [0, 1, 0, 0, 0],
        digest: "eb1ad172e5f616fe282e5f5a1b6e8999",
    },
    Row {
        plans: &[Plan::Fetched {
            fetch: 1,
            attempt: 0,
            source: Source::Peer(0),
            only_if_cached: false,
            owner: Some(0),
        }],
        counts: [0, 1, 0, 0, 0],
        digest: "9e3ecff0fa6c11d76467f8b8e7767593",
    },
    Row {
        plans: &[Plan::Hit { client: 2, age: 59 }],
        counts: [0, 0, 1, 0, 0],
        digest: "7dc7599803e7c92ee647136125d87732",
    },
    Row {
        plans: &[Plan::Got { client: 1 }],
        counts: [0, 0, 0, 1, 0],
        digest: "70a684e29f16efe0227746d86c798ded",
    },
    Row {
        plans: &[Plan::GotPage { client: 1 }],
        counts: [0, 0, 0, 1, 0],
        digest: "4064e9711be8661a04c4fff2a3b09633",
    },
    Row {
        plans: &[Plan::Failed {
            client: 3,
            status: 503,
        }],
        counts: [0, 0, 0, 0, 1],
        digest: "738040d3e504ad1f8bf7ed15f4af62b0",
    },
    Row {
        plans: &[
            Plan::Got { client: 1 },
            Plan::Got { client: 2 },
            Plan::Failed {
                client: 3,
                status: 502,
            },
        ],
        counts: [0, 0, 0, 2, 1],
        digest: "619f829f79665956675f1d97999a9767",
    },
    Row {
        plans: &[
            Plan::Sent {
                last: 2,
                octets: b"\x01",
            },
            Plan::Sent {
                last: 3,
                octets: b"\x02",
            },
            Plan::Sent {
                last: 4,
                octets: b"\x03",
            },
            Plan::Fetched {
                fetch: 7,
                attempt: 0,
                source: Source::Peer(2),
                only_if_cached: true,
                owner: None,
            },
        ],
        counts: [3, 1, 0, 0, 0],
        digest: "f6f05bbef793b894c2aa459fa8a7bf27",
    },
];

/// Whether the tally of a row's actions is the expected one.
fn is_as_wanted(alloc: Global, row: &Row) -> Option<bool> {
    let actions = actions_of(alloc, row.plans)?;
    let tally = Tally::of(actions.as_slice());
    drop(actions);
    let counts = [
        tally.sends,
        tally.fetches,
        tally.hits,
        tally.gots,
        tally.fails,
    ];
    Some(counts == row.counts && spells(alloc, row.digest, &tally.digest))
}

#[test]
fn tallies(rt: HostRuntime) {
    for row in &ROWS {
        let well = is_as_wanted(rt.alloc(), row);
        assert!(rt; well == Some(true), "{}", row.digest);
    }
}
