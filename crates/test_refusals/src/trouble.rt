//! What a scenario can find wrong.
use thiserror::Error;

/// What a scenario found wrong.
#[derive(Clone, Copy, Debug, Error)]
pub enum Trouble {
    /// Memory ran out twice in a row.
    #[error("no memory, twice in a row")]
    Twice,
    /// An event that needs no memory was refused.
    #[error("an event that needs no memory was refused")]
    NeedsNone,
    /// A refused call changed something.
    #[error("a refused call changed something")]
    Changed,
    /// The actions are not the expected ones.
    #[error("other actions")]
    Actions,
    /// A copy, or a node that takes the same events, behaves differently.
    #[error("a copy does something else")]
    Copy,
    /// The book or its receipts are wrong.
    #[error("the book")]
    Book,
    /// The store is wrong.
    #[error("the store")]
    Store,
    /// The text of a program is wrong.
    #[error("the program")]
    Program,
}

/// The result of a call that is tried once more when out of memory.
pub fn made<T, F: Fn() -> Option<T>>(make: F) -> Result<T, Trouble>
    requires { F.IsAlwaysCallable make }
{
    if let Some(value) = make() {
        return Ok(value);
    }
    make().ok_or(Trouble::Twice)
}
