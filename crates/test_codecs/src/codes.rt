//! Codes by HMAC-MD5, and whether two are the same (hmac_md5).

use crate::rows::{Question, all_hold};
use hmac_md5::{mac, same};
use md5::{Digest, Md5};
use std::alloc::Global;
use std::process::Abort;

/// A key, a message, and its code.
type Vector = (&'static [u8], &'static [u8], u128);

const COUNTED: [u8; 25] = [
    1, 2, 3, 4, 5, 6, 7, 8, 9, 10, 11, 12, 13, 14, 15, 16, 17, 18, 19, 20, 21, 22, 23, 24, 25,
];

// Test cases 1 to 7 of RFC 2202 for HMAC-MD5.
const VECTORS: [Vector; 7] = [
    (
        &[0x0b; 16],
        b"Hi There",
        0x9294_727a_3638_bb1c_13f4_8ef8_158b_fc9d,
    ),
    (
        b"Jefe",
        b"what do ya want for nothing?",
        0x750c_783e_6ab0_b503_eaa8_6e31_0a5d_b738,
    ),
    (
        &[0xaa; 16],
        &[0xdd; 50],
        0x56be_3452_1d14_4c88_dbb8_c733_f0e8_b3f6,
    ),
    (
        &COUNTED,
        &[0xcd; 50],
        0x697e_af0a_ca3a_3aea_3a75_1647_46ff_aa79,
    ),
    (
        &[0x0c; 16],
        b"Test With Truncation",
        0x5646_1ef2_342e_dc00_f9ba_b995_690e_fd4c,
    ),
    (
        &[0xaa; 80],
        b"Test Using Larger Than Block-Size Key - Hash Key First",
        0x6b1a_b7fe_4bd7_bf8f_0b62_e6ce_61b9_d0cd,
    ),
    (
        &[0xaa; 80],
        b"Test Using Larger Than Block-Size Key and Larger Than One Block-Size Data",
        0x6f63_0fad_67cd_a0ee_1fb1_f562_db3a_a53e,
    ),
];

/// The code of a message is the one of its row, in one part and in three, of which one is empty.
struct IsCode;

impl Question<Vector> for IsCode {
    fn holds<R: Abort>(&self, _rt: &R, _alloc: Global, row: &Vector) -> bool {
        let (key, text, code) = *row;
        if text.len() < 3 {
            return false;
        }
        let (front, back) = text.split_at(3);
        let code = code.to_be_bytes();
        mac(key, &[text]) == code && mac(key, &[front, &[], back]) == code
    }
}

#[test]
fn outside_vectors(rt: HostRuntime) {
    all_hold(&rt, rt.alloc(), &VECTORS, &IsCode);
}

// A key of 65 octets is replaced by its digest.
#[test]
fn long_key(rt: HostRuntime) {
    let key = [0x0b; 65];
    let hashed = Md5::digest(key.as_slice());
    assert!(rt; mac(&key, &[b"Hi There"]) == mac(&hashed, &[b"Hi There"]));
}

/// Two codes, and whether they are the same.
type Pair = (&'static [u8], &'static [u8], bool);

const PAIRS: [Pair; 6] = [
    (b"", b"", true),
    (b"ab", b"ab", true),
    (b"ab", b"ac", false),
    (b"bb", b"ab", false),
    (b"ab", b"abc", false),
    (b"\x80", b"\x00", false),
];

struct IsSame;

impl Question<Pair> for IsSame {
    fn holds<R: Abort>(&self, _rt: &R, _alloc: Global, row: &Pair) -> bool {
        same(row.0, row.1) == row.2
    }
}

#[test]
fn equal_and_not(rt: HostRuntime) {
    all_hold(&rt, rt.alloc(), &PAIRS, &IsSame);
}
