//! Filter programs as operators write them: a listing, as `tcpdump -ddd` prints it, or assembler text, told apart by whether the
//! text begins with a digit; and the filters in the files that a configuration names. It also writes accepted programs as text.
//!
//! Contracts see a text as the list of its octets and a program as the list of its instructions; `specs/FilterText.antt`
//! combines the definitions of bpf_check and bpf_asm, `specs/Shown.antt` says what is printed, and `specs/Ethernet.antt` which programs
//! are for Ethernet frames. Nothing is proved of files.
//!
//! Tested by: the script cases in cases/check, cases/serve, tests/serve_operator and the other tests over loopback, must-fail edits
//! (more-edits/).
#![tactic(auto)]

mod ethernet;
mod fault;
mod file;
mod files;
mod reading;
mod showing;

pub use ethernet::is_for_ethernet;
pub use fault::ProgramFault;
pub use file::FilterFile;
pub use files::{FilesFault, Filter, read_filters};
pub use reading::read_program;
pub use showing::{accepted_text, script_text};
