//! A log file, written by a thread of its own: others offer it lines and never wait for the disk, and it opens the file anew where
//! it was rotated. Lines for standard output or standard error are written in the same way.
//!
//! Nothing is proved here but that it is free of panics and overflows.

mod desk;
mod file;
mod pace;
mod task;

pub use desk::{LogCounts, LogDesk};
pub use file::LogPlace;
pub use pace::Pace;
pub use task::{LogTask, open_log, run_log};
