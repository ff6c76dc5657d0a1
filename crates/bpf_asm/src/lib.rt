//! An assembler and a disassembler for classic BPF: `assemble` reads instructions from text, and `to_text` writes an accepted
//! program as text.
//!
//! A line holds one instruction in lower case, a label followed by `:`, or both; `;` starts a comment. Numbers are decimal,
//! hexadecimal after `0x`, or IPv4 addresses in dotted form, and `to_text` writes them in decimal. Contracts see texts as lists of
//! octets and programs as lists of instructions; `specs/Assembly.antt` defines which text is one of which program, and
//! `specs/Number.antt` how numbers are written. What `to_text` writes assembles to the same instructions (`laws`).
//!
//! Tested by: crates/test_codecs, crates/test_refusals, the script cases in cases/check, must-fail edits (more-edits/).
#![tactic(auto)]

mod assembly;
mod draft;
mod fault;
mod form;
mod labels;
pub mod laws;
mod line;
mod names;
mod number;
mod resolve;
mod rows;
mod spelling;
mod text;
mod token;

pub use assembly::assemble;
pub use fault::AsmFault;
pub use text::{NoMemory, to_text};
