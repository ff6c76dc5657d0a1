//! Texts that were looked at before.
use std::alloc::Global;

// How many are remembered.
const PLACES: usize = 16;

// The most octets of one that is remembered.
const MOST_OCTETS: usize = 64;

/// Texts that were found good, so that they need not be looked at again: up to 16 with at most 64 octets each. One takes the place of another
/// where both have the same place.
pub struct GoodTexts {
    alloc: Global,
    // Empty until one is remembered.
    places: Vec<Vec<u8>>,
}

// Written by hand, so that what lets it go is one call for the prover (docs/GATE.md).
impl Drop for GoodTexts {
    fn drop(self) {
        let Self {
            alloc: _,
            places: _,
        } = self;
    }
}

// The place of a text, unless it is empty or long.
fn place_of(text: &[u8]) -> Option<usize> {
    let last = *text.last()?;
    if MOST_OCTETS < text.len() {
        return None;
    }
    Some(usize::from(last).wrapping_add(text.len()) % PLACES)
}

// As many places, with nothing there. `None` if out of memory.
fn no_texts(alloc: Global) -> Option<Vec<Vec<u8>>> {
    let mut places = Vec::with_capacity(alloc, PLACES).ok()?;
    for _ in 0..PLACES {
        places.push(Vec::new(alloc)).ok()?;
    }
    Some(places)
}

impl GoodTexts {
    /// None as yet. Takes no memory until one is remembered.
    pub fn new(alloc: Global) -> GoodTexts {
        GoodTexts {
            alloc,
            places: Vec::new(alloc),
        }
    }

    /// Whether this text was found good, and is remembered.
    pub(crate) fn has(&self, text: &[u8]) -> bool {
        match place_of(text).and_then(|place| self.places.get(place)) {
            Some(known) => known.as_slice() == text,
            None => false,
        }
    }

    /// Notes that this text was found good. Where memory is short, it is not remembered.
    pub(crate) fn note(&mut self, text: &[u8]) {
        let Some(place) = place_of(text) else {
            return;
        };
        if self.places.is_empty()
            && let Some(places) = no_texts(self.alloc)
        {
            self.places = places;
        }
        if let Some(it) = self.places.get_mut(place)
            && let Ok(copy) = text.to_vec(self.alloc)
        {
            *it = copy;
        }
    }
}
