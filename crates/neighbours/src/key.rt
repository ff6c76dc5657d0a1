//! Signing keys.

ghost use Rattle.std.specs.Prelude.{◌≡◌, IfOk};

use crate::octets::Octets;
use std::alloc::{AllocError, Global};
use std::fmt;

/// A signing key: its name (1 to 255 octets in a table) and its secret, which `Debug` omits.
#[derive(Drop)]
pub struct Key {
    pub name: Octets,
    pub secret: Octets,
}

impl Key {
    /// An owned copy.
    pub fn copy(&self, alloc: Global) -> Result<Key, AllocError>
        ensures { IfOk result (λ key. key ≡ self.now) }
    {
        let name = self.name.copy(alloc)?;
        let secret = self.secret.copy(alloc)?;
        Ok(Key { name, secret })
    }
}

impl fmt::Debug for Key {
    fn fmt<W: fmt::Write>(&self, f: &mut fmt::Formatter<W>) -> fmt::Result {
        f.debug_struct("Key")
            .field("name", &self.name)
            .finish_non_exhaustive()
    }
}
