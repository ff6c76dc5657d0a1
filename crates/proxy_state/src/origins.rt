//! Which servers a fetch thread may fetch from, and who has an answer while it is collected.
use crate::early::give_early;
use crate::shared::Shared;
use http_rules::AdmittedOrigin;
use http_traffic::{Admit, Early};
use std::alloc::Global;
use std::net::SocketAddr;
use std::sync::{Arc, Wait};
use std::time::Clock;

/// Judges the servers of a thread's fetches. `S` is the state that all threads share.
#[derive(Drop)]
pub struct Origins<R, S> {
    pub rt: R,
    pub proxy: Arc<S>,
}

impl<R: Wait + Clock + Drop, S: Shared> Admit for Origins<R, S> {
    fn admitted(&self, server: SocketAddr) -> Option<AdmittedOrigin> {
        self.proxy.outward().admitted(&self.rt, server)
    }

    fn give_early(&self, alloc: Global, fetch: u32, early: Early) -> bool {
        give_early(&self.rt, alloc, &*self.proxy, fetch, early)
    }
}
