//! A handle that wakes a wire.
use crate::NoMemory;
use mio::Waker;
use std::alloc::Global;
use std::sync::Arc;

/// Wakes a wire's `receive` from any thread: the call that is blocked, or else the next one that would block.
/// Reference-counted.
#[derive(Drop)]
pub struct Bell {
    waker: Arc<Waker>,
}

impl Bell {
    /// A bell that wakes whatever polls by the registry of this waker. Errors: out of memory.
    pub fn new(alloc: Global, waker: Waker) -> Result<Bell, NoMemory> {
        Ok(Bell {
            waker: Arc::new(alloc, waker)?,
        })
    }

    /// Wakes `receive`. Doesn't block. If the system call fails, `receive` returns by itself within 100 milliseconds.
    pub fn ring(&self) {
        let _ = self.waker.wake();
    }

    /// Another handle to the same bell. Doesn't allocate. Errors: the reference count is at its maximum.
    pub fn share(&self) -> Result<Bell, NoMemory> {
        Ok(Bell {
            waker: Arc::try_clone(&self.waker)?,
        })
    }
}
