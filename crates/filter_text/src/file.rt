//! Which file has the filter of a slot.
use filter_slots::Slot;

/// The file of the filter of a slot.
#[derive(Drop)]
pub struct FilterFile {
    /// The slot.
    pub slot: Slot,
    /// The file's path, not empty.
    pub file: String,
}
