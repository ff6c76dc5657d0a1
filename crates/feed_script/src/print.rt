//! The output format: actions, refusals and counters as text.
ghost use Rattle.std.specs.Prelude.{◌≡◌, ◌++◌, codes, decimal, OnOk};
ghost use Rattle.feed_script.specs.Printed.{action_text, actions_text, address_text, answer_text, cached_text, counters_text, end_text, field_text, key_text, octets_text, owner_text, place_text, refuse_text, socket_text, source_text, stats_text};

use bpf_check::CheckFault;
use filter_slots::{End, Socket};
use node_core::{Action, Answer, Counters, Node, Stats};
use object_store::SharedObject;
use peer_select::Source;
use std::alloc::{AllocError, Global};

fn push_number(out: &mut Vec<u8>, number: u64) -> Result<(), AllocError>
    ensures { OnOk result (out.new.items ≡ out.old.items ++ decimal number) }
{
    let mut buffer = itoa::Buffer::new();
    out.extend_from_slice(buffer.format(number).as_bytes())
}

fn push_octets(out: &mut Vec<u8>, alloc: Global, octets: &[u8]) -> Result<(), AllocError>
    ensures { OnOk result (out.new.items ≡ out.old.items ++ octets_text octets.now) }
{
    if octets.is_empty() {
        out.extend_from_slice(b"-")
    } else {
        let text = hex::encode(alloc, octets)?;
        out.extend_from_slice(text.as_str().as_bytes())
    }
}

fn push_address(out: &mut Vec<u8>, addr: [u8; 4]) -> Result<(), AllocError>
    ensures { OnOk result (out.new.items ≡ out.old.items ++ address_text addr) }
{
    push_number(out, u64::from(addr[0]))?;
    out.extend_from_slice(b".")?;
    push_number(out, u64::from(addr[1]))?;
    out.extend_from_slice(b".")?;
    push_number(out, u64::from(addr[2]))?;
    out.extend_from_slice(b".")?;
    push_number(out, u64::from(addr[3]))
}

fn push_end(out: &mut Vec<u8>, end: End) -> Result<(), AllocError>
    ensures { OnOk result (out.new.items ≡ out.old.items ++ end_text end) }
{
    push_address(out, end.addr)?;
    out.extend_from_slice(b":")?;
    push_number(out, u64::from(end.port))
}

fn push_socket(out: &mut Vec<u8>, socket: Socket) -> Result<(), AllocError>
    ensures { OnOk result (out.new.items ≡ out.old.items ++ socket_text socket) }
{
    match socket {
        Socket::Icp => out.extend_from_slice(b"icp"),
        Socket::Htcp => out.extend_from_slice(b"htcp"),
    }
}

fn push_send(
    out: &mut Vec<u8>,
    alloc: Global,
    socket: Socket,
    to: End,
    payload: &[u8],
) -> Result<(), AllocError>
    ensures { OnOk result (out.new.items ≡ out.old.items
        ++ (codes "send " ++ socket_text socket ++ codes " " ++ end_text to ++ codes " " ++ octets_text payload.now ++ codes "\n")) }
{
    out.extend_from_slice(b"send ")?;
    push_socket(out, socket)?;
    out.extend_from_slice(b" ")?;
    push_end(out, to)?;
    out.extend_from_slice(b" ")?;
    push_octets(out, alloc, payload)?;
    out.extend_from_slice(b"\n")
}

fn push_source(out: &mut Vec<u8>, source: Source) -> Result<(), AllocError>
    ensures { OnOk result (out.new.items ≡ out.old.items ++ source_text source) }
{
    match source {
        Source::Peer(n) => {
            out.extend_from_slice(b"peer ")?;
            push_number(out, n as u64)
        }
        Source::Origin => out.extend_from_slice(b"origin"),
    }
}

fn push_cached(out: &mut Vec<u8>, only_if_cached: bool) -> Result<(), AllocError>
    ensures { OnOk result (out.new.items ≡ out.old.items ++ cached_text only_if_cached) }
{
    if only_if_cached {
        out.extend_from_slice(b"cached")
    } else {
        out.extend_from_slice(b"plain")
    }
}

fn push_owner(out: &mut Vec<u8>, owner: Option<u64>) -> Result<(), AllocError>
    ensures { OnOk result (out.new.items ≡ out.old.items ++ owner_text owner) }
{
    match owner {
        None => out.extend_from_slice(b"-"),
        Some(client) => push_number(out, client),
    }
}

// Appends the key of a pending fetch; nothing if there is no such fetch.
fn push_key(out: &mut Vec<u8>, node: &Node, fetch: u32) -> Result<(), AllocError>
    ensures { OnOk result (out.new.items ≡ out.old.items ++ key_text node.now.plain.fetches.list fetch) }
{
    match node.key_of(fetch) {
        Some(key) => out.extend_from_slice(key.as_slice()),
        None => Ok(()),
    }
}

// Appends the numbers, source and kind of a fetch attempt.
fn push_attempt(
    out: &mut Vec<u8>,
    fetch: u32,
    attempt: u16,
    source: Source,
    only_if_cached: bool,
) -> Result<(), AllocError>
    ensures { OnOk result (out.new.items ≡ out.old.items
        ++ (codes "fetch " ++ decimal fetch ++ codes " " ++ decimal attempt ++ codes " " ++ source_text source ++ codes " " ++ cached_text only_if_cached)) }
{
    out.extend_from_slice(b"fetch ")?;
    push_number(out, u64::from(fetch))?;
    out.extend_from_slice(b" ")?;
    push_number(out, u64::from(attempt))?;
    out.extend_from_slice(b" ")?;
    push_source(out, source)?;
    out.extend_from_slice(b" ")?;
    push_cached(out, only_if_cached)
}

// Appends the owner of a fetch and its key.
fn push_owned(
    out: &mut Vec<u8>,
    node: &Node,
    fetch: u32,
    owner: Option<u64>,
) -> Result<(), AllocError>
    ensures { OnOk result (out.new.items ≡ out.old.items
        ++ (codes " " ++ owner_text owner ++ codes " " ++ key_text node.now.plain.fetches.list fetch ++ codes "\n")) }
{
    out.extend_from_slice(b" ")?;
    push_owner(out, owner)?;
    out.extend_from_slice(b" ")?;
    push_key(out, node, fetch)?;
    out.extend_from_slice(b"\n")
}

fn push_status(out: &mut Vec<u8>, status: u16) -> Result<(), AllocError>
    ensures { OnOk result (out.new.items ≡ out.old.items ++ decimal status) }
{
    push_number(out, u64::from(status))
}

fn push_hit(
    out: &mut Vec<u8>,
    alloc: Global,
    object: &SharedObject,
    age: u32,
) -> Result<(), AllocError>
    ensures { OnOk result (out.new.items ≡ out.old.items
        ++ (codes "hit " ++ decimal object.now.status ++ codes " " ++ decimal age ++ codes " " ++ octets_text object.now.body)) }
{
    out.extend_from_slice(b"hit ")?;
    push_status(out, object.get().status())?;
    out.extend_from_slice(b" ")?;
    push_number(out, u64::from(age))?;
    out.extend_from_slice(b" ")?;
    push_octets(out, alloc, object.get().body())
}

fn push_got(out: &mut Vec<u8>, alloc: Global, object: &SharedObject) -> Result<(), AllocError>
    ensures { OnOk result (out.new.items ≡ out.old.items
        ++ (codes "got " ++ decimal object.now.status ++ codes " " ++ octets_text object.now.body)) }
{
    out.extend_from_slice(b"got ")?;
    push_status(out, object.get().status())?;
    out.extend_from_slice(b" ")?;
    push_octets(out, alloc, object.get().body())
}

fn push_fail(out: &mut Vec<u8>, status: u16) -> Result<(), AllocError>
    ensures { OnOk result (out.new.items ≡ out.old.items ++ (codes "fail " ++ decimal status)) }
{
    out.extend_from_slice(b"fail ")?;
    push_status(out, status)
}

// Appends the answer to a client.
fn push_answer(out: &mut Vec<u8>, alloc: Global, answer: &Answer) -> Result<(), AllocError>
    ensures { OnOk result (out.new.items ≡ out.old.items ++ answer_text answer.now) }
{
    match answer {
        Answer::Hit { object, age } => push_hit(out, alloc, object, *age),
        Answer::Got(object) => push_got(out, alloc, object),
        Answer::Fail(status) => push_fail(out, *status),
    }
}

fn push_serve(
    out: &mut Vec<u8>,
    alloc: Global,
    client: u64,
    answer: &Answer,
) -> Result<(), AllocError>
    ensures { OnOk result (out.new.items
        ≡ out.old.items ++ (codes "serve " ++ decimal client ++ codes " " ++ answer_text answer.now ++ codes "\n")) }
{
    out.extend_from_slice(b"serve ")?;
    push_number(out, client)?;
    out.extend_from_slice(b" ")?;
    push_answer(out, alloc, answer)?;
    out.extend_from_slice(b"\n")
}

fn push_fetch(
    out: &mut Vec<u8>,
    node: &Node,
    fetch: u32,
    attempt: u16,
    source: Source,
    only_if_cached: bool,
    owner: Option<u64>,
) -> Result<(), AllocError>
    ensures { OnOk result (out.new.items ≡ out.old.items
        ++ (codes "fetch " ++ decimal fetch ++ codes " " ++ decimal attempt ++ codes " " ++ source_text source ++ codes " "
        ++ cached_text only_if_cached ++ codes " " ++ owner_text owner ++ codes " " ++ key_text node.now.plain.fetches.list fetch ++ codes "\n")) }
{
    push_attempt(out, fetch, attempt, source, only_if_cached)?;
    push_owned(out, node, fetch, owner)
}

fn push_action(
    out: &mut Vec<u8>,
    alloc: Global,
    node: &Node,
    action: &Action,
) -> Result<(), AllocError>
    ensures { OnOk result (out.new.items ≡ out.old.items ++ action_text node.now.plain.fetches.list action.now) }
{
    match action {
        Action::Send {
            socket,
            to,
            payload,
        } => push_send(out, alloc, *socket, *to, payload.as_slice()),
        Action::Fetch {
            fetch,
            attempt,
            source,
            only_if_cached,
            owner,
        } => push_fetch(
            out,
            node,
            *fetch,
            *attempt,
            *source,
            *only_if_cached,
            *owner,
        ),
        Action::Serve { client, answer } => push_serve(out, alloc, *client, answer),
    }
}

/// Appends the actions of one event, one per line, then a line with a full stop. `node` is the node after the event.
pub(crate) fn push_actions(
    out: &mut Vec<u8>,
    alloc: Global,
    node: &Node,
    actions: &[Action],
) -> Result<(), AllocError>
    ensures { OnOk result (out.new.items ≡ out.old.items ++ actions_text node.now.plain.fetches.list actions.now) }
{
    for action in actions {
        push_action(out, alloc, node, action)?;
    }
    out.extend_from_slice(b".\n")
}

// Appends the index of the faulty instruction, or `-`.
fn push_place(out: &mut Vec<u8>, place: Option<usize>) -> Result<(), AllocError>
    ensures { OnOk result (out.new.items ≡ out.old.items ++ place_text place) }
{
    match place {
        None => out.extend_from_slice(b"-"),
        Some(place) => push_number(out, place as u64),
    }
}

/// Appends the line for a rejected program.
pub(crate) fn push_refusal(out: &mut Vec<u8>, fault: CheckFault) -> Result<(), AllocError>
    ensures { OnOk result (out.new.items ≡ out.old.items ++ refuse_text fault) }
{
    out.extend_from_slice(b"refuse ")?;
    push_number(out, u64::from(fault.number()))?;
    out.extend_from_slice(b" ")?;
    push_place(out, fault.place())?;
    out.extend_from_slice(b"\n")
}

fn push_field(out: &mut Vec<u8>, number: u64) -> Result<(), AllocError>
    ensures { OnOk result (out.new.items ≡ out.old.items ++ field_text number) }
{
    out.extend_from_slice(b" ")?;
    push_number(out, number)
}

fn push_counters(out: &mut Vec<u8>, counters: Counters) -> Result<(), AllocError>
    ensures { OnOk result (out.new.items ≡ out.old.items ++ counters_text counters) }
{
    push_field(out, counters.judged)?;
    push_field(out, counters.rejected)?;
    push_field(out, counters.cut)?;
    push_field(out, counters.malformed)?;
    out.extend_from_slice(b"\n")
}

/// Appends the counters of both sockets, one line each.
pub(crate) fn push_stats(out: &mut Vec<u8>, stats: Stats) -> Result<(), AllocError>
    ensures { OnOk result (out.new.items ≡ out.old.items ++ stats_text stats) }
{
    out.extend_from_slice(b"stats icp")?;
    push_counters(out, stats.icp)?;
    out.extend_from_slice(b"stats htcp")?;
    push_counters(out, stats.htcp)
}
