//! The place of one connection that carries something.
use std::alloc::AllocError;
use std::sync::Arc;
use std::sync::atomic::{AtomicUsize, Ordering};

/// The place of a connection to a server, until this is dropped.
pub struct ServerPlace {
    // How many there are.
    count: Arc<AtomicUsize>,
}

impl ServerPlace {
    /// One more. Errors: there are too many handles.
    pub(crate) fn new(count: &Arc<AtomicUsize>) -> Result<ServerPlace, AllocError> {
        let count = Arc::try_clone(count)?;
        count.fetch_add(1, Ordering::SeqCst);
        Ok(ServerPlace { count })
    }
}

impl Drop for ServerPlace {
    fn drop(self) {
        let Self { count } = self;
        count.fetch_sub(1, Ordering::SeqCst);
    }
}
