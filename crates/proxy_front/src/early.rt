//! Clients that wait for a fetch for all, and those of them that are given its answer while it is collected.
use crate::front::NodeFront;
use http_rules::is_plain_request;
use http_traffic::Asked;
use proxy_state::{Shared, TakeEvents, gives_early};
use std::sync::Wait;
use std::time::Clock;

impl<R: Wait + Clock + Drop, S: Shared, N: TakeEvents> NodeFront<R, S, N> {
    /// Notes that a client waits for the shared fetch that its request has begun or joined, where fetches are ended for want of clients.
    pub(crate) fn attend(&mut self, asked: &Asked, client: u64) {
        if !self.proxy.mail().ends_unwanted {
            return;
        }
        if let Ok(key) = self.key(asked) {
            self.proxy.mail().attend(&self.rt, self.alloc, client, key);
        }
    }

    /// Has a client that waits for the shared fetch which it began be given the answer while it is collected, if its request is one that
    /// is answered with the whole. Where memory is short, it gets the answer once that is whole.
    pub(crate) fn expect_early(&mut self, asked: &Asked, client: u64) {
        let is_whole = asked.method.as_str() == "GET" && is_plain_request(&asked.head);
        if !gives_early(self.proxy.passes()) || asked.is_old || !is_whole {
            return;
        }
        if let Ok(key) = self.key(asked) {
            let mut mailbox = self.proxy.mail().mailbox.lock(&self.rt);
            let _ = mailbox.attend(self.alloc, client, key, true);
        }
    }
}
