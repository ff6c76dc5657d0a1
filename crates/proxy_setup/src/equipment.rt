//! What a proxy is given at its start.
use access_log::writer::LogTask;
use filter_text::Filter;
use proxy_state::{AccessLog, Notices};

/// What a proxy is given at its start beside its settings. `F` is a file.
#[derive(Drop)]
pub struct Equipment<F> {
    /// The filters that are in force from the first datagram on.
    pub filters: Vec<Filter>,
    /// The access log, if there is one: where lines go, and what writes them.
    pub log: Option<(AccessLog, LogTask<F>)>,
    /// The notices of what fails, if they are asked for: where they go, and what writes them.
    pub notices: Option<(Notices, LogTask<F>)>,
    /// The version of the program.
    pub version: &'static str,
}
