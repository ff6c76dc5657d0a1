//! Reading and writing programs as text.
use crate::trouble::{Trouble, made};
use bpf_asm::{assemble, to_text};
use bpf_check::{Checked, check, read_listing};
use std::alloc::Global;

/// A program that accepts ICP queries only.
const LISTING: &[u8] = b"4\n48 0 0 28\n21 0 1 1\n6 0 0 65535\n6 0 0 0\n";

const TEXT: &[u8] = b"ldb [28]\njeq #1, L2, L3\nL2: ret #65535\nL3: ret #0\n";

/// The program of the listing, or `None` when out of memory.
fn listed(alloc: Global) -> Option<Checked> {
    check(read_listing(alloc, LISTING).ok()?).ok()
}

/// The program of the text, or `None` when out of memory.
fn assembled(alloc: Global) -> Option<Checked> {
    check(assemble(alloc, TEXT).ok()?).ok()
}

/// Reads a program from its listing and from its text, and writes it.
pub fn by_text(alloc: Global) -> Result<(), Trouble> {
    let (one, other) = (made(|| listed(alloc))?, made(|| assembled(alloc))?);
    let text = made(|| to_text(alloc, &one).ok())?;
    if one == other && text.as_bytes() == TEXT {
        return Ok(());
    }
    Err(Trouble::Program)
}
