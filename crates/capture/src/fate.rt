//! What became of a datagram.
ghost use Rattle.std.specs.Prelude.{◌≡◌};
ghost use Rattle.capture.specs.Written.{interface};

/// What the filters made of a datagram.
#[derive(Clone, Copy)]
pub enum Fate {
    /// It was let through with its whole payload.
    Accepted,
    /// It was let through with a part of its payload.
    Cut,
    /// It was dropped.
    Rejected,
}

impl Fate {
    /// Every one, in the order of the file's interfaces.
    pub const ALL: [Fate; 3] = [Fate::Accepted, Fate::Cut, Fate::Rejected];

    /// The number of its interface, from 0.
    pub fn interface(&self) -> u32
        ensures { result ≡ interface self.now }
    {
        *self as u32
    }
}
