//! Attempts to connect that go beside others of the same server.
use std::alloc::{AllocError, Global};
use std::sync::Arc;
use std::sync::atomic::{AtomicU64, AtomicUsize, Ordering};

/// The attempts to connect that go beside others of the same server, over all threads, and what was counted of them.
pub struct Attempts {
    // How many are under way.
    under_way: Arc<AtomicUsize>,
    // How many have begun.
    begun: AtomicU64,
    // How many were refused, so that the attempt came after the other one.
    refused: AtomicU64,
}

// Written by hand, so that what lets it go is one call for the prover (docs/GATE.md).
impl Drop for Attempts {
    fn drop(self) {
        let Self {
            under_way: _,
            begun: _,
            refused: _,
        } = self;
    }
}

impl Attempts {
    // None as yet. Errors: out of memory.
    pub(crate) fn new(alloc: Global) -> Result<Attempts, AllocError> {
        Ok(Attempts {
            under_way: Arc::new(alloc, AtomicUsize::new(0))?,
            begun: AtomicU64::new(0),
            refused: AtomicU64::new(0),
        })
    }

    /// Those who are under way are counted here.
    pub fn count(&self) -> &Arc<AtomicUsize> {
        &self.under_way
    }

    /// Notes that one more has begun, or else that it was refused.
    pub fn note(&self, has_begun: bool) {
        let counted = if has_begun {
            &self.begun
        } else {
            &self.refused
        };
        counted.fetch_add(1, Ordering::SeqCst);
    }

    /// How many are under way.
    pub fn under_way(&self) -> u64 {
        self.under_way.load(Ordering::SeqCst) as u64
    }

    /// How many have begun.
    pub fn begun(&self) -> u64 {
        self.begun.load(Ordering::SeqCst)
    }

    /// How many have waited for another attempt to end, since there were as many as there may be.
    pub fn refused(&self) -> u64 {
        self.refused.load(Ordering::SeqCst)
    }
}
