//! A buffer of the latest items.
use crate::draws::Draws;
use std::alloc::{AllocError, Global};

/// Capacity.
const MOST: usize = 256;

/// A ring buffer of the latest items, at most 256.
#[derive(Drop)]
pub struct Ring<T: Copy> {
    kept: Vec<T>,
    // Index of the oldest item, once the buffer is full.
    next: usize,
}

impl<T: Copy> Ring<T> {
    /// An empty buffer.
    pub fn new(alloc: Global) -> Ring<T> {
        Ring {
            kept: Vec::new(alloc),
            next: 0,
        }
    }

    /// Removes all items.
    pub fn clear(&mut self) {
        self.kept.clear();
        self.next = 0;
    }

    /// Adds an item, replacing the oldest if the buffer is full.
    pub fn keep(&mut self, one: T) -> Result<(), AllocError> {
        if self.kept.len() < MOST {
            return self.kept.push(one).map_err(|_| AllocError);
        }
        if let Some(place) = self.kept.get_mut(self.next) {
            *place = one;
        }
        self.next = self.next.saturating_add(1) % MOST;
        Ok(())
    }

    /// A random item, or `None` if the buffer is empty.
    pub fn pick(&self, draws: &mut Draws) -> Option<T> {
        let place = draws.place(self.kept.len());
        self.kept.get(place).copied()
    }
}
