//! Totals of a run.
use node_core::{Counters, Event, Stats, Tally};

/// Numbers of events and actions, by kind.
#[derive(Clone, Copy, Debug, PartialEq, Eq)]
pub struct Sums {
    pub events: u64,
    pub datagrams: u64,
    pub requests: u64,
    pub ticks: u64,
    pub results: u64,
    pub gone: u64,
    pub swaps: u64,
    pub rejected: u64,
    pub cut: u64,
    pub malformed: u64,
    pub sends: u64,
    pub fetches: u64,
    pub hits: u64,
    pub gots: u64,
    pub fails: u64,
}

/// Increments a count.
fn raise(count: &mut u64) {
    *count = count.saturating_add(1);
}

impl Sums {
    /// All zero.
    pub fn new() -> Sums {
        Sums {
            events: 0,
            datagrams: 0,
            requests: 0,
            ticks: 0,
            results: 0,
            gone: 0,
            swaps: 0,
            rejected: 0,
            cut: 0,
            malformed: 0,
            sends: 0,
            fetches: 0,
            hits: 0,
            gots: 0,
            fails: 0,
        }
    }

    /// Counts an event.
    pub fn count(&mut self, event: &Event) {
        raise(&mut self.events);
        match event {
            Event::Datagram { .. } => raise(&mut self.datagrams),
            Event::Request { .. } => raise(&mut self.requests),
            Event::Timer { .. } => raise(&mut self.ticks),
            Event::Fetched { .. } => raise(&mut self.results),
            Event::Gone { .. } => raise(&mut self.gone),
            Event::Swap { .. } => raise(&mut self.swaps),
        }
    }

    /// Adds the actions of an event.
    pub fn hear(&mut self, tally: &Tally) {
        self.sends = self.sends.saturating_add(tally.sends);
        self.fetches = self.fetches.saturating_add(tally.fetches);
        self.hits = self.hits.saturating_add(tally.hits);
        self.gots = self.gots.saturating_add(tally.gots);
        self.fails = self.fails.saturating_add(tally.fails);
    }

    /// Adds the counters of a node.
    pub fn add(&mut self, stats: &Stats) {
        self.add_socket(&stats.icp);
        self.add_socket(&stats.htcp);
    }

    fn add_socket(&mut self, counters: &Counters) {
        self.rejected = self.rejected.saturating_add(counters.rejected);
        self.cut = self.cut.saturating_add(counters.cut);
        self.malformed = self.malformed.saturating_add(counters.malformed);
    }
}
