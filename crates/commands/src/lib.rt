//! What an argument list asks of the program about itself: a help text, its version, or whether a configuration is right; and what
//! commands of the program read and tell: `check`, which reads a filter program from a file, `replay` and `explain`, by the crate
//! `filter_replay`, `serve --check`, and `serve` beside the proxy itself. All commands, their words and their help texts stand here, for `clap` of the toolchain's kit, which finds out which text
//! is meant, and takes the words of `replay` and `explain` apart.
//!
//! The contract of [`asked`] says which argument lists are left to the program (`specs/Asking.antt`): all in which none of the six
//! words stands that this crate answers to. It also says that each of the five words for a text has one where it stands alone, and which
//! the text of the version is; and that the configuration of `serve --check` is found, and that none is checked without the word
//! `--check`. Which help text it is, and what else the other lists with these words ask for, is only tested, and so is the rest, which
//! calls the crates below and turns their results into lines and exit statuses.
//! Tested by: cases/, tests/serve_operator, tools/documents (docs/wabretos.1 against the help texts), more-edits.
#![tactic(auto)]

mod asking;
mod capture_commands;
mod check_command;
mod configuration_command;
mod ending;
mod equipment;
mod flags;
mod patience;
mod program;
mod settings;
mod telling;
mod warnings;

pub use asking::{Question, asked};
pub use capture_commands::run_over_capture;
pub use check_command::run_check;
pub use configuration_command::check_configuration;
pub use ending::tell_finish;
pub use equipment::equipment_of;
pub use settings::settings_of;
pub use telling::{StartFacts, tell_end, tell_listening, tell_start};

/// The message when standard output cannot be written.
pub const NO_OUTPUT: &str = "standard output can't be written";
