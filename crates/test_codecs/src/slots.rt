//! Filter slots: verdicts on one datagram under each program, and slots that are filled, shared and cleared.

use crate::icp::QUERY;
use crate::made::{NO_MEMORY, add, octets, repeated, shared};
use crate::programs::{FROM, Line, Listing, QUERIES, insns_of, program_of};
use crate::rows::{Question, all_hold};
use filter_slots::{Checked, Datagram, End, Judged, NoSlot, Slot, Slots, Socket, Verdict, cut};
use std::alloc::Global;
use std::process::Abort;
use std::sync::Arc;

const TO: End = End {
    addr: [192, 0, 2, 1],
    port: 4827,
};

// The slot of the ICP socket.
const ICP: Slot = Slot::Socket(Socket::Icp);

// The slot of the first neighbour.
const FIRST: Slot = Slot::Neighbour(0);

// The verdict of an empty slot.
const WHOLE: u32 = 4_294_967_295;

// The program with these instructions.
fn program<R: Abort>(rt: &R, alloc: Global, lines: &[Line]) -> Arc<Checked> {
    let program = program_of(rt, insns_of(rt, alloc, lines));
    shared(rt, alloc, program)
}

// The program with these instructions, if there are any.
fn program_if<R: Abort>(rt: &R, alloc: Global, lines: &[Line]) -> Option<Arc<Checked>> {
    if lines.is_empty() {
        None
    } else {
        Some(program(rt, alloc, lines))
    }
}

// The program `ret #k`, if there is a limit.
fn limit_if<R: Abort>(rt: &R, alloc: Global, limit: Option<u32>) -> Option<Arc<Checked>> {
    match limit {
        None => None,
        Some(k) => Some(program(rt, alloc, &[(6, 0, 0, k)])),
    }
}

// Installs a program, or clears the slot. Returns the limit of the program that was there.
fn put<R: Abort>(
    rt: &R,
    slots: &mut Slots,
    slot: Slot,
    program: Option<Arc<Checked>>,
) -> Option<u32> {
    let told = match program {
        None => slots.clear(slot),
        Some(program) => slots.install(slot, program),
    };
    let before = told.ok().expect(rt, "a slot");
    let limit = match &before {
        None => None,
        Some(program) => Some(program.insns()[0].k),
    };
    drop(before);
    limit
}

// The same with the program of a limit.
fn put_limit<R: Abort>(
    rt: &R,
    alloc: Global,
    slots: &mut Slots,
    slot: Slot,
    limit: Option<u32>,
) -> Option<u32> {
    put(rt, slots, slot, limit_if(rt, alloc, limit))
}

// A datagram received on this socket from this endpoint.
fn datagram<R: Abort>(rt: &R, socket: Socket, from: End, payload: Vec<u8>) -> Datagram {
    Datagram::new(socket, from, TO, payload)
        .ok()
        .expect(rt, "too long")
}

// The QUERY, received on the ICP socket.
fn query<R: Abort>(rt: &R, alloc: Global) -> Datagram {
    datagram(rt, Socket::Icp, FROM, octets(rt, alloc, &QUERY))
}

// The verdict on a datagram received on this socket from this endpoint.
fn forced<R: Abort>(
    rt: &R,
    alloc: Global,
    slots: &Slots,
    socket: Socket,
    from: End,
    payload: &[u8],
) -> Verdict {
    let datagram = datagram(rt, socket, from, octets(rt, alloc, payload));
    let forced = slots.force(&datagram);
    drop(datagram);
    forced
}

// Slots for the sockets, without neighbours.
fn sockets<R: Abort>(rt: &R) -> Slots {
    Slots::new(&[]).expect(rt, "slots")
}

// Limits, and how many octets of the payload of the QUERY they leave.
const LIMITS: [(u32, usize); 7] = [
    (0, 0),
    (28, 0),
    (29, 1),
    (40, 12),
    (61, 33),
    (62, 34),
    (65_535, 34),
];

// Whether a limit that is in force is the verdict, and leaves this many octets.
fn leaves(slots: &Slots, datagram: &Datagram, k: u32, left: usize) -> bool {
    let forced = slots.force(datagram);
    let kept = cut(datagram, forced.value);
    let is_front = kept.len() == left && QUERY.as_slice().starts_with(kept);
    is_front && forced == Verdict { value: k, steps: 1 }
}

// Whether this holds of all limits, installed in the ICP slot one after another.
fn all_leave<R: Abort>(rt: &R, alloc: Global, slots: &mut Slots, datagram: &Datagram) -> bool {
    for (k, left) in &LIMITS {
        put_limit(rt, alloc, slots, ICP, Some(*k));
        if !leaves(slots, datagram, *k, *left) {
            return false;
        }
    }
    true
}

// Whether an empty slot leaves the QUERY whole.
fn is_left_whole(slots: &Slots, datagram: &Datagram) -> bool {
    let empty = slots.force(datagram);
    (empty.value, empty.steps) == (WHOLE, 0) && cut(datagram, empty.value) == QUERY.as_slice()
}

#[test]
fn verdicts_and_cuts(rt: HostRuntime) {
    let datagram = query(&rt, rt.alloc());
    let mut slots = sockets(&rt);
    let is_whole = is_left_whole(&slots, &datagram);
    let all_leave = all_leave(&rt, rt.alloc(), &mut slots, &datagram);
    drop(slots);
    drop(datagram);
    assert!(rt; all_leave && is_whole);
}

// The verdicts on the QUERY by the ICP socket and the HTCP socket.
fn verdicts<R: Abort>(rt: &R, alloc: Global, slots: &Slots) -> (u32, u32) {
    let icp = forced(rt, alloc, slots, Socket::Icp, FROM, &QUERY);
    let htcp = forced(rt, alloc, slots, Socket::Htcp, FROM, &QUERY);
    (icp.value, htcp.value)
}

// Whether the ICP slot returns the limit 40 when 0 is installed, returns 0 when it is cleared, and is empty then.
fn is_emptied<R: Abort>(rt: &R, alloc: Global, slots: &mut Slots) -> bool {
    let first = put_limit(rt, alloc, slots, ICP, Some(0));
    let second = put_limit(rt, alloc, slots, ICP, None);
    (first, second) == (Some(40), Some(0)) && slots.installed(ICP).is_none()
}

// Whether the ICP slot holds the one instruction of the limit 40.
fn has_forty<R: Abort>(rt: &R, alloc: Global, slots: &Slots) -> bool {
    let kept = slots.installed(ICP).expect(rt, "the shared program");
    kept.insns().len() == 1 && verdicts(rt, alloc, slots) == (40, WHOLE)
}

// Whether the first program finds the ICP slot empty, and is still in a copy after the slots have lost it.
fn is_shared<R: Abort>(rt: &R, alloc: Global, slots: &mut Slots) -> bool {
    let first = put_limit(rt, alloc, slots, ICP, Some(40));
    let copy = slots.copy().expect(rt, NO_MEMORY);
    let are_apart = is_emptied(rt, alloc, slots) && has_forty(rt, alloc, &copy);
    drop(copy);
    are_apart && first.is_none()
}

#[test]
fn slots_are_shared_and_emptied(rt: HostRuntime) {
    let mut slots = sockets(&rt);
    let is_shared = is_shared(&rt, rt.alloc(), &mut slots);
    drop(slots);
    assert!(rt; is_shared);
}

// A slot, the limit to install (`None` clears it), the limit that it returns, and the verdicts on the QUERY by the ICP socket
// and the HTCP socket.
type Row = (Socket, Option<u32>, Option<u32>, u32, u32);

const STEPS: [Row; 7] = [
    (Socket::Htcp, Some(40), None, WHOLE, 40),
    (Socket::Icp, None, None, WHOLE, 40),
    (Socket::Icp, Some(29), None, 29, 40),
    (Socket::Htcp, Some(0), Some(40), 29, 0),
    (Socket::Icp, None, Some(29), WHOLE, 0),
    (Socket::Icp, Some(61), None, 61, 0),
    (Socket::Htcp, None, Some(0), 61, WHOLE),
];

// Whether a step returns the expected limit, then the slots give the step's verdicts, and the earlier copy the last ones.
fn is_step<R: Abort>(
    rt: &R,
    alloc: Global,
    slots: &mut Slots,
    last: (u32, u32),
    step: &Row,
) -> bool {
    let copy = slots.copy().expect(rt, NO_MEMORY);
    let given = put_limit(rt, alloc, slots, Slot::Socket(step.0), step.1);
    let after = verdicts(rt, alloc, slots);
    let before = verdicts(rt, alloc, &copy);
    drop(copy);
    given == step.2 && after == (step.3, step.4) && before == last
}

// Whether all steps are done, one after another.
fn all_done<R: Abort>(rt: &R, alloc: Global, slots: &mut Slots) -> bool {
    let mut last = (WHOLE, WHOLE);
    for step in &STEPS {
        if !is_step(rt, alloc, slots, last, step) {
            return false;
        }
        last = (step.3, step.4);
    }
    true
}

#[test]
fn slots_are_independent(rt: HostRuntime) {
    let mut slots = sockets(&rt);
    let all_done = all_done(&rt, rt.alloc(), &mut slots);
    drop(slots);
    assert!(rt; all_done);
}

// How many octets a payload has that is refused, of this many octets.
fn refused_of<R: Abort>(rt: &R, alloc: Global, size: usize) -> Option<usize> {
    let made = Datagram::new(Socket::Icp, FROM, TO, repeated(rt, alloc, 7, size));
    let length = match &made {
        Ok(_) => None,
        Err(payload) => Some(payload.len()),
    };
    drop(made);
    length
}

#[test]
fn ends_and_length(rt: HostRuntime) {
    let query = query(&rt, rt.alloc());
    let ends = query.ends();
    drop(query);
    assert!(rt; ends == [10, 0, 0, 9, 0x0c, 0x3a, 192, 0, 2, 1, 0x12, 0xdb]);
    assert!(rt; refused_of(&rt, rt.alloc(), 65_508) == Some(65_508));
}

// The limit of the program by which a datagram is judged, the limit installed afterwards, and the verdict in force.
type InForce = (Option<u32>, Option<u32>, u32);

const JUDGED: [InForce; 5] = [
    (None, None, WHOLE),
    (Some(40), Some(40), 40),
    (Some(40), Some(0), 0),
    (Some(40), None, WHOLE),
    (None, Some(29), 29),
];

// The QUERY on the ICP socket.
fn arrived<R: Abort>(rt: &R, alloc: Global) -> Arc<Datagram> {
    shared(rt, alloc, query(rt, alloc))
}

// The QUERY on the ICP socket, judged by the limits of the socket and the sender.
fn judged_by<R: Abort>(rt: &R, alloc: Global, socket: Option<u32>, sender: Option<u32>) -> Judged {
    let first = limit_if(rt, alloc, socket);
    let second = limit_if(rt, alloc, sender);
    Judged::new(arrived(rt, alloc), first, second)
}

// The verdict on the QUERY and the one in force after that are those of a row.
struct StaysInForce;

impl Question<InForce> for StaysInForce {
    fn holds<R: Abort>(&self, rt: &R, alloc: Global, row: &InForce) -> bool {
        let (held, limit, verdict) = *row;
        let mut slots = sockets(rt);
        put_limit(rt, alloc, &mut slots, ICP, limit);
        let judged = judged_by(rt, alloc, held, None);
        let first = judged.verdict().value;
        let forced = slots.force_judged(&judged).value;
        drop(judged);
        drop(slots);
        (first, forced) == (held.unwrap_or(WHOLE), verdict)
    }
}

#[test]
fn judged_datagrams(rt: HostRuntime) {
    all_hold(&rt, rt.alloc(), &JUDGED, &StaysInForce);
}

// A sender that is not a neighbour.
const STRANGER: End = End {
    addr: [10, 0, 0, 10],
    port: 3130,
};

// Accepts packets of 62 octets or more: `ldb [61]`.
const LONG: Listing = &[(48, 0, 0, 61), (6, 0, 0, 65_535)];

// No program.
const NONE: Listing = &[];

// `ret #0`, `ret #30`, `ret #40`, `ret #50` and `ret #62`.
const NOTHING: Listing = &[(6, 0, 0, 0)];

const TWO: Listing = &[(6, 0, 0, 30)];

const TWELVE: Listing = &[(6, 0, 0, 40)];

const TWENTY_TWO: Listing = &[(6, 0, 0, 50)];

const ALL: Listing = &[(6, 0, 0, 62)];

// An ICP reply, up to its opcode.
const REPLY: [u8; 1] = [3];

// The instructions in the ICP slot (none: no program), those in the slot of the neighbour at 10.0.0.9, the sender, the payload,
// and the verdict and number of steps.
type Twice = (Listing, Listing, End, &'static [u8], u32, u16);

const TWICE: [Twice; 8] = [
    (NONE, QUERIES, FROM, &QUERY, 65_535, 3),
    (NONE, QUERIES, FROM, &REPLY, 0, 3),
    (NONE, QUERIES, STRANGER, &REPLY, WHOLE, 0),
    // The second filter sees 40 octets.
    (TWELVE, LONG, FROM, &QUERY, 0, 2),
    (TWELVE, LONG, STRANGER, &QUERY, 40, 1),
    // The smaller verdict is in force.
    (ALL, LONG, FROM, &QUERY, 62, 3),
    (ALL, TWO, FROM, &QUERY, 30, 2),
    // A rejected datagram is judged by the second filter too, with an empty payload.
    (NOTHING, QUERIES, FROM, &QUERY, 0, 2),
];

// Slots with these programs, and one neighbour.
fn slots_of<R: Abort>(rt: &R, alloc: Global, icp: Listing, neighbour: Listing) -> Slots {
    let neighbours = [(Socket::Icp, FROM)];
    let mut slots = Slots::new(&neighbours).expect(rt, "slots");
    put(rt, &mut slots, ICP, program_if(rt, alloc, icp));
    put(rt, &mut slots, FIRST, program_if(rt, alloc, neighbour));
    slots
}

// The verdict and the steps of both filters are those of a row. On the other socket the datagram has an unknown sender and no
// program applies.
struct JudgedTwice;

impl Question<Twice> for JudgedTwice {
    fn holds<R: Abort>(&self, rt: &R, alloc: Global, row: &Twice) -> bool {
        let (icp, neighbour, from, payload, value, steps) = *row;
        let slots = slots_of(rt, alloc, icp, neighbour);
        let icp = forced(rt, alloc, &slots, Socket::Icp, from, payload);
        let htcp = forced(rt, alloc, &slots, Socket::Htcp, from, payload);
        drop(slots);
        icp == Verdict { value, steps } && htcp.value == WHOLE
    }
}

#[test]
fn two_filters_judge(rt: HostRuntime) {
    all_hold(&rt, rt.alloc(), &TWICE, &JudgedTwice);
}

// The limit of the neighbour's program by which a datagram is judged, the limit installed afterwards, and the verdict in force.
// The socket's limit is 50 throughout.
const JUDGED_AGAIN: [InForce; 6] = [
    (None, None, 50),
    (Some(65_535), Some(0), 0),
    (Some(0), Some(65_535), 50),
    (Some(40), Some(40), 40),
    (Some(40), None, 50),
    (None, Some(29), 29),
];

// The verdicts on a datagram if it is judged now: by itself, and as it is then found.
fn verdicts_now<R: Abort>(rt: &R, slots: &Slots, arrived: Arc<Datagram>) -> [Verdict; 2] {
    let judged = slots.judge(arrived).expect(rt, NO_MEMORY);
    let verdicts = [judged.verdict(), slots.force_judged(&judged)];
    drop(judged);
    verdicts
}

// The verdict in force on a datagram judged before, and the verdict on the QUERY if it is judged now.
fn both_in_force<R: Abort>(rt: &R, alloc: Global, slots: &Slots, judged: &Judged) -> (u32, u32) {
    let before = slots.force_judged(judged);
    let [now, _] = verdicts_now(rt, slots, arrived(rt, alloc));
    (before.value, now.value)
}

// Both verdicts are that of a row.
struct IsJudgedAgain;

impl Question<InForce> for IsJudgedAgain {
    fn holds<R: Abort>(&self, rt: &R, alloc: Global, row: &InForce) -> bool {
        let (held, limit, verdict) = *row;
        let mut slots = slots_of(rt, alloc, TWENTY_TWO, NONE);
        put_limit(rt, alloc, &mut slots, FIRST, limit);
        let judged = judged_by(rt, alloc, Some(50), held);
        let both = both_in_force(rt, alloc, &slots, &judged);
        drop(judged);
        drop(slots);
        both == (verdict, verdict)
    }
}

#[test]
fn either_program_is_compared(rt: HostRuntime) {
    all_hold(&rt, rt.alloc(), &JUDGED_AGAIN, &IsJudgedAgain);
}

// The verdict is the packet's length, the 28 octets of its header among them: `ld len`, `ret a`.
const LENGTH: Listing = &[(0x80, 0, 0, 0), (0x16, 0, 0, 0)];

// Lengths of payloads, from the shortest to the longest.
const SIZES: [u16; 12] = [
    0, 1, 512, 999, 1_000, 1_472, 4_096, 16_384, 32_768, 60_000, 60_001, 65_507,
];

// Both filters let through a payload of a row's length.
struct LetsThrough;

impl Question<u16> for LetsThrough {
    fn holds<R: Abort>(&self, rt: &R, alloc: Global, row: &u16) -> bool {
        let payload = repeated(rt, alloc, 7, *row as usize);
        let arrived = shared(rt, alloc, datagram(rt, Socket::Icp, FROM, payload));
        let slots = slots_of(rt, alloc, LENGTH, LENGTH);
        let verdicts = verdicts_now(rt, &slots, arrived);
        drop(slots);
        let wanted = Verdict {
            value: 28 + *row as u32,
            steps: 4,
        };
        verdicts == [wanted, wanted]
    }
}

#[test]
fn payloads_of_all_lengths_are_judged(rt: HostRuntime) {
    all_hold(&rt, rt.alloc(), &SIZES, &LetsThrough);
}

// Whether a slot that doesn't exist accepts no program, returns none and holds none.
fn is_nowhere<R: Abort>(rt: &R, alloc: Global, slots: &mut Slots, slot: Slot) -> bool {
    let installed = slots.install(slot, program(rt, alloc, NOTHING)).err();
    let cleared = slots.clear(slot).err();
    (installed, cleared) == (Some(NoSlot), Some(NoSlot))
        && slots.installed(slot).is_none()
        && !slots.has(slot)
}

// Whether an existing slot of a neighbour is empty and judges nothing.
fn is_empty<R: Abort>(rt: &R, alloc: Global, slots: &mut Slots) -> bool {
    let cleared = put(rt, slots, FIRST, None);
    cleared.is_none() && verdicts(rt, alloc, slots) == (WHOLE, WHOLE)
}

// What was refused changed nothing in the slots that there are.
#[test]
fn missing_slots_are_told(rt: HostRuntime) {
    let mut slots = slots_of(&rt, rt.alloc(), NONE, NONE);
    let is_nowhere = is_nowhere(&rt, rt.alloc(), &mut slots, Slot::Neighbour(1));
    let is_empty = is_empty(&rt, rt.alloc(), &mut slots);
    drop(slots);
    assert!(rt; is_nowhere);
    assert!(rt; is_empty);
}

// The endpoint of neighbour n; all of them fall into one bucket, since their ports differ by multiples of 256.
fn crowded(n: u16) -> End {
    End {
        addr: [10, 0, 0, 9],
        port: n.saturating_mul(256).saturating_add(1_000),
    }
}

// The first `count` of these neighbours.
fn crowd<R: Abort>(rt: &R, alloc: Global, count: u16) -> Vec<(Socket, End)> {
    let mut neighbours = Vec::new(alloc);
    for n in 0..count {
        add(rt, &mut neighbours, (Socket::Icp, crowded(n)));
    }
    neighbours
}

// Installs the limits of 64 neighbours; the n-th has the limit 100 + n.
fn put_limits<R: Abort>(rt: &R, alloc: Global, slots: &mut Slots) {
    for n in 0..64u32 {
        let slot = Slot::Neighbour(n as usize);
        put_limit(rt, alloc, slots, slot, Some(100 + n));
    }
}

// Slots of 64 of these neighbours with their limits.
fn crowded_slots<R: Abort>(rt: &R, alloc: Global) -> Slots {
    let neighbours = crowd(rt, alloc, 64);
    let mut slots = Slots::new(&neighbours).expect(rt, "slots");
    drop(neighbours);
    put_limits(rt, alloc, &mut slots);
    slots
}

// Whether each of these neighbours has its own verdict, and any other sender that of an empty slot.
fn are_told_apart<R: Abort>(rt: &R, alloc: Global, slots: &Slots) -> bool {
    for n in 0..65u16 {
        let wanted = if n < 64 { 100 + n as u32 } else { WHOLE };
        let forced = forced(rt, alloc, slots, Socket::Icp, crowded(n), &QUERY);
        if forced.value != wanted {
            return false;
        }
    }
    true
}

#[test]
fn a_crowd_in_one_bucket_is_told_apart(rt: HostRuntime) {
    let slots = crowded_slots(&rt, rt.alloc());
    let are_told_apart = are_told_apart(&rt, rt.alloc(), &slots);
    drop(slots);
    assert!(rt; are_told_apart);
}

// A copy of such slots, which are let go of.
#[test]
fn a_copy_tells_a_crowd_apart(rt: HostRuntime) {
    let slots = crowded_slots(&rt, rt.alloc());
    let copy = slots.copy().expect(&rt, NO_MEMORY);
    drop(slots);
    let are_told_apart = are_told_apart(&rt, rt.alloc(), &copy);
    drop(copy);
    assert!(rt; are_told_apart);
}

// Whether slots can be made for these neighbours.
fn are_slots(neighbours: &[(Socket, End)]) -> bool {
    let slots = Slots::new(neighbours);
    let are_made = slots.is_some();
    drop(slots);
    are_made
}

// Whether slots can be made of too many neighbours; of three and one of these ends on the other socket; of these and one of them
// twice.
#[test]
fn crowds_and_doubles_are_refused(rt: HostRuntime) {
    let mut neighbours = crowd(&rt, rt.alloc(), 65);
    let are_many_taken = are_slots(&neighbours);
    neighbours.truncate(3);
    add(&rt, &mut neighbours, (Socket::Htcp, crowded(1)));
    let are_four_taken = are_slots(&neighbours);
    add(&rt, &mut neighbours, (Socket::Icp, crowded(1)));
    let are_doubles_taken = are_slots(&neighbours);
    drop(neighbours);
    assert!(rt; [are_many_taken, are_four_taken, are_doubles_taken] == [false, true, false]);
}
