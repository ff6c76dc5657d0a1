//! Verdicts of programs on the packets of two datagrams, and programs that the checker refuses.

use crate::icp::QUERY;
use crate::made::add;
use crate::rows::{Question, all_hold};
use bpf_check::{CheckFault, Checked, Insn, check};
use bpf_run::{End, Packet, Verdict, judge};
use std::alloc::Global;
use std::process::Abort;

/// Where the datagrams come from.
pub(crate) const FROM: End = End {
    addr: [10, 0, 0, 9],
    port: 3130,
};

const TO: End = End {
    addr: [10, 0, 0, 1],
    port: 3131,
};

// An ICP MISS of 30 octets for `http://a/`, from 10.0.0.9.
const MISS: [u8; 30] = [
    3, 2, 0, 30, 0, 0, 0, 1, 0, 0, 0, 0, 0, 0, 0, 0, 10, 0, 0, 9, 104, 116, 116, 112, 58, 47, 47,
    97, 47, 0,
];

/// An instruction: code, `jt`, `jf` and `k`. (0x16, 0, 0, 0) is `ret a`.
pub(crate) type Line = (u16, u8, u8, u32);

/// The instructions of a program.
pub(crate) type Listing = &'static [Line];

/// The instructions of a listing.
pub(crate) fn insns_of<R: Abort>(rt: &R, alloc: Global, lines: &[Line]) -> Vec<Insn> {
    let mut insns = Vec::new(alloc);
    for (code, jt, jf, k) in lines {
        let insn = Insn {
            code: *code,
            jt: *jt,
            jf: *jf,
            k: *k,
        };
        add(rt, &mut insns, insn);
    }
    insns
}

/// A program that the checker accepts.
pub(crate) fn program_of<R: Abort>(rt: &R, insns: Vec<Insn>) -> Checked {
    check(insns).ok().expect(rt, "refused")
}

// The result of a program on a payload: the value and the number of steps.
fn verdict<R: Abort>(rt: &R, insns: Vec<Insn>, payload: &[u8]) -> (u32, u16) {
    let program = program_of(rt, insns);
    let packet = Packet::new(FROM, TO, payload).expect(rt, "too long");
    let Verdict { value, steps } = judge(&program, &packet);
    drop(packet);
    drop(program);
    (value, steps)
}

// The fault that the checker finds in a program.
fn fault(insns: Vec<Insn>) -> Option<CheckFault> {
    let checked = check(insns);
    let fault = match &checked {
        Ok(_) => None,
        Err((fault, _)) => Some(*fault),
    };
    drop(checked);
    fault
}

/// Accepts ICP queries: `ldb [28]`, `jeq #1`, `ret #65535`, `ret #0`.
pub(crate) const QUERIES: Listing = &[
    (48, 0, 0, 28),
    (21, 0, 1, 1),
    (6, 0, 0, 65_535),
    (6, 0, 0, 0),
];

// Each program with its value and number of steps on the QUERY.
const PROGRAMS: &[(Listing, (u32, u16))] = &[
    (QUERIES, (65_535, 3)),
    // ldb [61], the last octet; ldh [61], where one octet is outside
    (&[(0x30, 0, 0, 61), (0x16, 0, 0, 0)], (0, 2)),
    (&[(0x28, 0, 0, 61), (0x16, 0, 0, 0)], (0, 1)),
    // ldx #0; div x
    (&[(1, 0, 0, 0), (0x3c, 0, 0, 0), (0x16, 0, 0, 0)], (0, 2)),
    // ld #17; mod #5; xor #7
    (
        &[
            (0, 0, 0, 17),
            (148, 0, 0, 5),
            (164, 0, 0, 7),
            (0x16, 0, 0, 0),
        ],
        (5, 4),
    ),
    // ldx #0; mod x
    (&[(1, 0, 0, 0), (156, 0, 0, 0), (6, 0, 0, 1)], (0, 2)),
    // ld #12; ldx #10; xor x
    (
        &[
            (0, 0, 0, 12),
            (1, 0, 0, 10),
            (172, 0, 0, 0),
            (0x16, 0, 0, 0),
        ],
        (6, 4),
    ),
    // ldx #0xffffffff; ldb [x+1]
    (
        &[(1, 0, 0, 0xffff_ffff), (0x50, 0, 0, 1), (6, 0, 0, 1)],
        (0, 2),
    ),
    // ld len
    (&[(0x80, 0, 0, 0), (0x16, 0, 0, 0)], (62, 2)),
    // ldh [2], ldh [24]: the lengths in both headers
    (&[(0x28, 0, 0, 2), (0x16, 0, 0, 0)], (62, 2)),
    (&[(0x28, 0, 0, 24), (0x16, 0, 0, 0)], (42, 2)),
    // ld [20]: both ports
    (
        &[(0x20, 0, 0, 20), (0x16, 0, 0, 0)],
        (3130 * 65_536 + 3131, 2),
    ),
    // ldxb 4*([0]&0xf); ldb [x+8]: the first octet of the payload
    (&[(0xb1, 0, 0, 0), (0x50, 0, 0, 8), (0x16, 0, 0, 0)], (1, 3)),
];

// A program has the value and the number of steps of its row on the QUERY.
struct Judges;

impl Question<(Listing, (u32, u16))> for Judges {
    fn holds<R: Abort>(&self, rt: &R, alloc: Global, row: &(Listing, (u32, u16))) -> bool {
        verdict(rt, insns_of(rt, alloc, row.0), &QUERY) == row.1
    }
}

#[test]
fn verdicts(rt: HostRuntime) {
    all_hold(&rt, rt.alloc(), PROGRAMS, &Judges);
    let insns = insns_of(&rt, rt.alloc(), QUERIES);
    assert!(rt; verdict(&rt, insns, &MISS) == (0, 3));
}

const REFUSED: &[(Listing, CheckFault)] = &[
    (&[], CheckFault::Empty),
    // div #0, mod #0
    (
        &[(0x34, 0, 0, 0), (0x16, 0, 0, 0)],
        CheckFault::ZeroDivisor(0),
    ),
    (
        &[(0x94, 0, 0, 0), (0x16, 0, 0, 0)],
        CheckFault::ZeroDivisor(0),
    ),
    // ja with a distance that would wrap in 32 bits
    (
        &[(5, 0, 0, 0xffff_ffff), (6, 0, 0, 0)],
        CheckFault::BadJump(0),
    ),
    // st M[16] before div #0
    (
        &[(2, 0, 0, 16), (0x34, 0, 0, 0), (6, 0, 0, 0)],
        CheckFault::BadScratch(0),
    ),
    // tax after ret
    (&[(6, 0, 0, 0), (7, 0, 0, 0)], CheckFault::NoReturn),
];

// The checker finds the fault of a row in its program.
struct Refuses;

impl Question<(Listing, CheckFault)> for Refuses {
    fn holds<R: Abort>(&self, rt: &R, alloc: Global, row: &(Listing, CheckFault)) -> bool {
        fault(insns_of(rt, alloc, row.0)) == Some(row.1)
    }
}

#[test]
fn refusals(rt: HostRuntime) {
    all_hold(&rt, rt.alloc(), REFUSED, &Refuses);
}

// `ld #0`.
const LOAD: Insn = Insn {
    code: 0,
    jt: 0,
    jf: 0,
    k: 0,
};

// `ret #1`.
const RETURN: Insn = Insn {
    code: 6,
    jt: 0,
    jf: 0,
    k: 1,
};

// `count` instructions: loads of a constant, and `ret #1` at the end.
fn of_length<R: Abort>(rt: &R, alloc: Global, count: usize) -> Vec<Insn> {
    let mut insns = Vec::new(alloc);
    for _ in 1..count {
        add(rt, &mut insns, LOAD);
    }
    add(rt, &mut insns, RETURN);
    insns
}

const LENGTHS: [(usize, Option<CheckFault>); 4] = [
    (1, None),
    (513, None),
    (4096, None),
    (4097, Some(CheckFault::TooLong)),
];

// A program of so many instructions has the fault of its row.
struct OfLength;

impl Question<(usize, Option<CheckFault>)> for OfLength {
    fn holds<R: Abort>(&self, rt: &R, alloc: Global, row: &(usize, Option<CheckFault>)) -> bool {
        fault(of_length(rt, alloc, row.0)) == row.1
    }
}

#[test]
fn lengths(rt: HostRuntime) {
    all_hold(&rt, rt.alloc(), &LENGTHS, &OfLength);
    let insns = of_length(&rt, rt.alloc(), 4096);
    assert!(rt; verdict(&rt, insns, &QUERY) == (1, 4096));
}
