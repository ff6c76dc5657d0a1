//! Tables of texts, with the programs or faults that they are read as.

use crate::rows::{Question, all_hold};
use bpf_asm::{assemble, to_text};
use bpf_check::{Checked, Insn, check, read_listing};
use std::alloc::Global;
use std::process::Abort;

/// Listings, each with the number and the line of its fault, 0 if it has none.
const LISTINGS: &[(&str, u8, usize)] = &[
    ("4\n48 0 0 28\n21 0 1 1\n6 0 0 65535\n6 0 0 0\n", 0, 0),
    (" 2\t\r\n\t6  0\t0 00 \r\n6 0 0 4294967295", 0, 0),
    ("2\n6 0 0 0\n", 5, 0),
    ("2\n6 0 0 0", 5, 0),
    ("1\n6 0 0 4294967296\n", 3, 2),
    ("1\n65536 0 0 0\n", 3, 2),
    ("1\n6 256 0 0\n", 3, 2),
    ("1\n6 0 256 0\n", 3, 2),
    ("1\n22 0 0 0\n\n6 0 0 0\n", 6, 4),
    ("1\n22 0 0 0\n \t\n", 0, 0),
    ("2\n22 0 0 0\n\n6 0 0 0\n", 2, 3),
    ("1\n6 0 0\n", 2, 2),
    ("1\n6 0 0 +1\n", 2, 2),
    ("1\n6 0 0 1\r", 2, 2),
    ("4097\n", 4, 0),
    ("99999999999999999999999999\n", 4, 0),
    ("", 1, 0),
    ("\n", 1, 0),
    ("1 1\n6 0 0 0\n", 1, 0),
    ("0x1\n6 0 0 0\n", 1, 0),
    ("0", 0, 0),
];

/// Assembler texts, each with the number and the line of its fault, 0 if it has none.
const TEXTS: &[(&str, u8, usize)] = &[
    ("", 0, 0),
    (" ; nothing\n\t\n", 0, 0),
    ("ret #0;ret", 0, 0),
    ("L : \r\n ret # 5\r\n", 0, 0),
    ("ja E\nE:", 0, 0),
    ("ld[5]\nldx M [3]\nldxb 4 * ( [ 0x0F ] & 0xf )\nret a", 0, 0),
    ("mov #1", 1, 1),
    ("RET a", 1, 1),
    ("1a: ret a", 1, 1),
    ("A: B: ret a", 1, 1),
    ("ret", 2, 1),
    ("ret #foo", 2, 1),
    ("ret #12x", 2, 1),
    ("ret #-1", 2, 1),
    ("ret #0XFF", 2, 1),
    ("ret #1 2", 2, 1),
    ("ldxb 4*([1]&0x0f)", 2, 1),
    ("ja 5", 2, 1),
    ("jeq #1, L", 2, 1),
    ("ret #", 3, 1),
    ("ret #0x", 3, 1),
    ("ld []", 3, 1),
    ("ret #4294967296", 3, 1),
    ("ret #0x100000000", 3, 1),
    (
        "\nret #0xffffffff\nret #00004294967295\nret #99999999999999999999999",
        3,
        4,
    ),
    ("L: ret a\nL: mov", 4, 2),
    ("L: ret a\n\nL:", 4, 3),
    ("ja M\nret a", 5, 1),
    ("jeq x, M, N\nM: ret #\nret a", 3, 2),
    ("jeq x, M, N\nM: ret #1\nret a", 5, 1),
    ("L: ret a\nja L", 6, 2),
    ("ret a\nL: ja L", 6, 2),
    ("L: jeq #1, L, M", 6, 1),
    ("ret # 10.0.0.1;.1\nL:ret #0.0.0.0\t; 1.2\r\n", 0, 0),
    ("ld M[0.0.1.0]\nret a", 0, 0),
    ("jeq #256.0.0.1, L, L\nL: ret a", 2, 1),
    ("ret #1.2.3.256", 2, 1),
    ("ret #1.2.3.99999999999999999999", 2, 1),
    ("ret #10.1", 2, 1),
    ("ret #1.2.3", 2, 1),
    ("ret #1.2.3.4.5", 2, 1),
    ("ret #01.2.3.4", 2, 1),
    ("ret #1.2.3.04", 2, 1),
    ("ret #00.0.0.0", 2, 1),
    ("ret #1..2.3", 2, 1),
    ("ret #1.2.3.", 2, 1),
    ("ret #1.2.3.4.", 2, 1),
    ("ret #.1.2.3.4", 2, 1),
    ("ret #.", 2, 1),
    ("ret #1.2. 3.4", 2, 1),
    ("ret #1 .2.3.4", 2, 1),
    ("ret #1.2.3.4x", 2, 1),
    ("ret #1.2.3.4_", 2, 1),
    ("ret #1.2.3.0x4", 2, 1),
    ("ret #0x1.2.3.4", 2, 1),
    ("ret #-1.2.3.4", 2, 1),
    ("ret #1.2.3.4 5", 2, 1),
    ("ret 10.0.0.1", 2, 1),
    ("add 10.0.0.1", 2, 1),
    ("tax 10.0.0.1", 2, 1),
    ("tax #10.0.0.1", 2, 1),
    ("ja 10.0.0.1", 2, 1),
    ("jeq #1, 10.0.0.1, L\nL: ret a", 2, 1),
    ("ldxb 4.*([1]&0xf)", 2, 1),
    ("ld.1 #1", 2, 1),
    ("ret. a", 2, 1),
    (". ret a", 1, 1),
    ("10.0.0.1", 1, 1),
    ("10.0.0.1: ret a", 1, 1),
    ("L.1: ret a", 1, 1),
    ("L: ret #10.0.0.1\nL: mov", 4, 2),
    ("ret #10.0.0.1\nret #4294967296", 3, 2),
    ("jeq #10.0.0.1, M, N\nM: ret a", 5, 1),
];

/// A text with an IPv4 address at each kind of operand that has a number, and its listing.
const ADDRESSES: (&str, &str) = (
    "ld #192.0.2.7\nldx #10.0.0.1\nld [0.0.0.12]\nldh [0.0.0.20]\nldb [0.0.0.28]\nld [x+0.0.1.0]\nldh [ x + 0.1.0.0 ]\nldb [x+1.0.0.0]\nld M[0.0.0.3]\nldx M[0.0.0.15]\nldxb 4*([0.0.0.28]&0xf)\nst M[0.0.0.0]\nstx M[0.0.0.9]\nadd #1.2.3.4\nsub #4.3.2.1\nmul #0.0.0.255\ndiv #0.0.255.0\nor #0.255.0.0\nand #255.255.255.0\nlsh #0.0.0.8\nrsh #0.0.0.16\nmod #100.100.100.100\nxor #127.0.0.1\njeq #10.0.0.1,L,L\nL: jge #172.16.0.0, M, M\nM: jgt #223.255.255.255, N, N\nN: jset #240.0.0.0, O, O\nO: ret #255.255.255.255\n",
    "28\n0 0 0 3221225991\n1 0 0 167772161\n32 0 0 12\n40 0 0 20\n48 0 0 28\n64 0 0 256\n72 0 0 65536\n80 0 0 16777216\n96 0 0 3\n97 0 0 15\n177 0 0 28\n2 0 0 0\n3 0 0 9\n4 0 0 16909060\n20 0 0 67305985\n36 0 0 255\n52 0 0 65280\n68 0 0 16711680\n84 0 0 4294967040\n100 0 0 8\n116 0 0 16\n148 0 0 1684300900\n164 0 0 2130706433\n21 0 0 167772161\n53 0 0 2886729728\n37 0 0 3758096383\n69 0 0 4026531840\n6 0 0 4294967295\n",
);

/// The text of a program as the disassembler writes it, if it is given, and its listing.
type Printed = (Option<&'static str>, &'static str);

/// Texts as the disassembler writes them, each with the listing of its program.
const PROGRAMS: &[Printed] = &[
    (
        Some("ldb [28]\njeq #1, L2, L3\nL2: ret #65535\nL3: ret #0\n"),
        "4\n48 0 0 28\n21 0 1 1\n6 0 0 65535\n6 0 0 0\n",
    ),
    (
        Some("ldx #0\ndiv x\nret a\n"),
        "3\n1 0 0 0\n60 0 0 0\n22 0 0 0\n",
    ),
    (
        Some("ld #17\nmod #5\nxor #7\nret a\n"),
        "4\n0 0 0 17\n148 0 0 5\n164 0 0 7\n22 0 0 0\n",
    ),
    (
        Some("ldx #4294967295\nldb [x+1]\nret #1\n"),
        "3\n1 0 0 4294967295\n80 0 0 1\n6 0 0 1\n",
    ),
    (
        Some(
            "ld [1]\nldh [2]\nldb [3]\nld [x+4]\nldh [x+5]\nldb [x+6]\nld #7\nld M[8]\nld len\nldx #9\nldx M[10]\nldx len\nldxb 4*([11]&0xf)\nst M[12]\nstx M[13]\nadd #14\nsub #14\nmul #14\ndiv #14\nor #14\nand #14\nlsh #14\nrsh #14\nadd x\nsub x\nmul x\ndiv x\nor x\nand x\nlsh x\nrsh x\nneg\ntax\ntxa\njeq #15, L35, L36\nL35: jge #15, L36, L37\nL36: jgt #15, L37, L38\nL37: jset #15, L38, L39\nL38: jeq x, L39, L40\nL39: jge x, L40, L41\nL40: jgt x, L41, L42\nL41: jset x, L42, L43\nL42: ja L44\nL43: ret #16\nL44: ret a\n",
        ),
        "45\n32 0 0 1\n40 0 0 2\n48 0 0 3\n64 0 0 4\n72 0 0 5\n80 0 0 6\n0 0 0 7\n96 0 0 8\n128 0 0 0\n1 0 0 9\n97 0 0 10\n129 0 0 0\n177 0 0 11\n2 0 0 12\n3 0 0 13\n4 0 0 14\n20 0 0 14\n36 0 0 14\n52 0 0 14\n68 0 0 14\n84 0 0 14\n100 0 0 14\n116 0 0 14\n12 0 0 0\n28 0 0 0\n44 0 0 0\n60 0 0 0\n76 0 0 0\n92 0 0 0\n108 0 0 0\n124 0 0 0\n132 0 0 0\n7 0 0 0\n135 0 0 0\n21 0 1 15\n53 0 1 15\n37 0 1 15\n69 0 1 15\n29 0 1 0\n61 0 1 0\n45 0 1 0\n77 0 1 0\n5 0 0 1\n6 0 0 16\n22 0 0 0\n",
    ),
];

/// Listings printed by tcpdump (`tcpdump -y RAW -ddd`).
const PRINTED: &[Printed] = &[
    (
        None,
        "8\n48 0 0 0\n84 0 0 240\n21 0 4 64\n32 0 0 12\n84 0 0 4278190080\n21 0 1 167772160\n6 0 0 262144\n6 0 0 0\n",
    ),
    (
        None,
        "22\n48 0 0 0\n84 0 0 240\n21 0 18 64\n48 0 0 9\n21 0 16 17\n32 0 0 12\n84 0 0 4278190080\n21 3 0 167772160\n32 0 0 12\n84 0 0 4294901760\n21 0 10 3232235520\n40 0 0 6\n69 8 0 8191\n177 0 0 0\n72 0 0 2\n21 0 5 3130\n80 0 0 8\n21 0 3 1\n80 0 0 9\n21 0 1 2\n6 0 0 262144\n6 0 0 0\n",
    ),
    (
        None,
        "23\n48 0 0 0\n84 0 0 240\n21 0 6 96\n48 0 0 6\n21 0 17 17\n40 0 0 40\n21 14 0 3130\n40 0 0 42\n21 12 13 3130\n48 0 0 0\n84 0 0 240\n21 0 10 64\n48 0 0 9\n21 0 8 17\n40 0 0 6\n69 6 0 8191\n177 0 0 0\n72 0 0 0\n21 2 0 3130\n72 0 0 2\n21 0 1 3130\n6 0 0 262144\n6 0 0 0\n",
    ),
];

// A text, and the number and the line of its fault.
type Faulty = (&'static str, u8, usize);

struct OfListing;

impl Question<Faulty> for OfListing {
    fn holds<R: Abort>(&self, _rt: &R, alloc: Global, row: &Faulty) -> bool {
        let found = match read_listing(alloc, row.0.as_bytes()).err() {
            Some(fault) => (fault.number(), fault.line().unwrap_or(0)),
            None => (0, 0),
        };
        found == (row.1, row.2)
    }
}

struct OfText;

impl Question<Faulty> for OfText {
    fn holds<R: Abort>(&self, _rt: &R, alloc: Global, row: &Faulty) -> bool {
        let found = match assemble(alloc, row.0.as_bytes()).err() {
            Some(fault) => (fault.number(), fault.line().unwrap_or(0)),
            None => (0, 0),
        };
        found == (row.1, row.2)
    }
}

#[test]
fn faults_come_in_order(rt: HostRuntime) {
    all_hold(&rt, rt.alloc(), LISTINGS, &OfListing);
    all_hold(&rt, rt.alloc(), TEXTS, &OfText);
}

// Whether a text is assembled to the program of a listing, neither with a fault.
fn is_assembled(alloc: Global, text: &str, listing: &str) -> bool {
    let program = assemble(alloc, text.as_bytes());
    let listed = read_listing(alloc, listing.as_bytes());
    let is_same = match (&program, &listed) {
        (Ok(program), Ok(listed)) => program.as_slice() == listed.as_slice(),
        _ => false,
    };
    drop(listed);
    drop(program);
    is_same
}

#[test]
fn addresses_are_read(rt: HostRuntime) {
    assert!(rt; is_assembled(rt.alloc(), ADDRESSES.0, ADDRESSES.1));
}

// Whether a program is written as a text that is assembled to the program of a row's listing, and that is the row's text, if it has
// one.
fn is_written(alloc: Global, program: &Checked, row: &Printed) -> bool {
    let text = to_text(alloc, program);
    let is_so = match &text {
        Ok(text) => {
            let text = text.as_str();
            is_assembled(alloc, text, row.1) && text == row.0.unwrap_or(text)
        }
        Err(_) => false,
    };
    drop(text);
    is_so
}

// The same of instructions. The checker refuses none.
fn are_written(alloc: Global, insns: Vec<Insn>, row: &Printed) -> bool {
    let checked = check(insns);
    let are_written = match &checked {
        Ok(program) => is_written(alloc, program, row),
        Err(_) => false,
    };
    drop(checked);
    are_written
}

// The program of a row's listing is written as its text, or as any that is read as it.
struct IsPrinted;

impl Question<Printed> for IsPrinted {
    fn holds<R: Abort>(&self, _rt: &R, alloc: Global, row: &Printed) -> bool {
        match read_listing(alloc, row.1.as_bytes()) {
            Ok(insns) => are_written(alloc, insns, row),
            Err(_) => false,
        }
    }
}

#[test]
fn programs_are_printed_and_read(rt: HostRuntime) {
    all_hold(&rt, rt.alloc(), PROGRAMS, &IsPrinted);
    all_hold(&rt, rt.alloc(), PRINTED, &IsPrinted);
}
