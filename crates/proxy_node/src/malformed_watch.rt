//! Telling of datagrams that are no messages.
use crate::overseen::Overseen;
use node_words::Stats;
use proxy_state::Shared;
use std::alloc::Global;
use std::sync::Wait;
use std::time::{Clock, Duration, Instant};

/// Tells of datagrams that are no messages. Owned by the query thread.
#[derive(Drop)]
pub struct MalformedWatch {
    // When the node's counters were looked at last, and what they were.
    looked: Option<Instant>,
    icp: u64,
    htcp: u64,
}

impl MalformedWatch {
    /// A watch that has not looked yet.
    pub fn new() -> MalformedWatch {
        MalformedWatch {
            looked: None,
            icp: 0,
            htcp: 0,
        }
    }

    // Whether the last look was a second ago.
    fn is_due(&self, now: Instant) -> bool {
        match self.looked {
            Some(looked) => Duration::from_secs(1) <= now.saturating_duration_since(looked),
            None => true,
        }
    }

    /// Looks at the node's counters, at most once a second, and tells by how much they rose. Where there are no notices it does
    /// nothing.
    pub fn look<R: Wait + Clock, S: Overseen>(&mut self, rt: &R, alloc: Global, proxy: &S) {
        let Some(notices) = &proxy.telling().notices else {
            return;
        };
        let Ok(now) = Instant::now(rt) else {
            return;
        };
        if !self.is_due(now) {
            return;
        }
        let Stats { icp, htcp } = proxy.stats(rt);
        let (icp, htcp) = (icp.malformed, htcp.malformed);
        notices.tell_malformed(rt, alloc, "icp", icp.saturating_sub(self.icp));
        notices.tell_malformed(rt, alloc, "htcp", htcp.saturating_sub(self.htcp));
        self.looked = Some(now);
        self.icp = icp;
        self.htcp = htcp;
    }
}
