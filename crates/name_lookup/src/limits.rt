//! Times and numbers that a table of names keeps to.
use fair_use::Spans;

/// Times and numbers that a table of names keeps to.
#[derive(Clone, Copy)]
pub struct NameLimits {
    /// The most names.
    pub names: usize,
    /// The most threads that look names up.
    pub threads: usize,
    /// For how long what is known of a name is used, and for how long who seeks one waits.
    pub spans: Spans,
    /// After how many milliseconds an idle thread ends.
    pub idle: u64,
}

impl NameLimits {
    /// 1,024 names, which so many threads look up, and which wait for their turn for 5 s and for their look-up for 5 s. Addresses are kept
    /// for 60 s; for an hour more they are used where they are not found anew within 1.8 s or at all, and are not asked for 30 s then
    /// (RFC 8767, section 5). A failure is kept for 5 s. An idle thread ends after 10 s.
    pub fn usual(threads: usize) -> NameLimits {
        NameLimits {
            names: 1_024,
            threads,
            spans: Spans {
                fresh: 60_000,
                kept: 3_660_000,
                again: 30_000,
                failed: 5_000,
                old_after: 1_800,
                gives_up_after: 5_000,
            },
            idle: 10_000,
        }
    }
}
