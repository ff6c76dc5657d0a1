//! Whose requests are taken, and what they stand for.
use crate::storage::Purger;
use http_rules::{Mirror, SixNetwork};
use node_words::Network;

/// Whose requests are taken, and what they stand for.
pub struct FrontRules {
    /// Networks whose clients are admitted.
    pub allowed: Vec<Network>,
    /// Networks of IPv6 whose clients are admitted.
    pub allowed_six: Vec<SixNetwork>,
    /// What targets in origin form stand for.
    pub mirrors: Vec<Mirror>,
    /// Takes objects out of the store that a request has changed.
    pub purger: Purger,
}

// Written by hand, so that what lets it go is one call for the prover (docs/GATE.md).
impl Drop for FrontRules {
    fn drop(self) {
        let Self {
            allowed: _,
            allowed_six: _,
            mirrors: _,
            purger: _,
        } = self;
    }
}
