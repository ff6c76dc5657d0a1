//! Fetch jobs, and the interface to what fetches.
use node_core::Action;
use object_store::{CacheKey, Object};

/// A fetch to be made: the node's action, and the header fields of the client's request that go with it.
#[derive(Drop)]
pub struct Job {
    /// The action, a `Fetch`.
    pub action: Action,
    /// Names and values of the header fields to send.
    pub fields: Vec<(Vec<u8>, Vec<u8>)>,
}

/// Fetches objects, one at a time. A call may take as long as it likes: no lock is held meanwhile.
pub trait Fetcher {
    /// Fetches the object of a key from the source that the job names, with these header fields. Returns `None` if there is none.
    fn get(
        &mut self,
        job: &Action,
        key: &CacheKey,
        fields: &[(Vec<u8>, Vec<u8>)],
    ) -> Option<Object>;
}
