//! Splitting text at a separator.
ghost use Rattle.std.specs.Prelude.{◌≡◌, ◌==◌, IfOk, map};
ghost use Rattle.std.specs.List.{slice_split};

use std::alloc::{AllocError, Global};

/// Splits the text at each octet `at`. Errors: out of memory.
pub(crate) fn parts_of(alloc: Global, text: &[u8], at: u8) -> Result<Vec<&[u8]>, AllocError>
    ensures { IfOk result (λ v. map (λ x. x.now) v.items ≡ slice_split (λ c. c == at) text.now) }
{
    text.split(|c| *c == at).collect(alloc)
}
