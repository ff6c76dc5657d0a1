//! Whether the answer to a request is another client's.
ghost use Rattle.std.specs.Prelude.{◌≡◌};
ghost use Rattle.http_clients.specs.Sharing.{is_for_another, is_joined, is_stale};

use http_rules::is_only_for_who_began;
use http_traffic::{Forward, Outcome, Supplier};

/// Whether the answer to a request that was forwarded so is for another client alone: the request joined that one's fetch, whose object may
/// not be stored.
pub(crate) fn is_for_another(forward: Forward, answer: &Outcome) -> bool
    ensures alone { result ≡ is_for_another forward answer.now }
{
    match answer {
        Outcome::Got {
            object,
            supplier,
            ..
        } => is_only_for_who_began(is_joined(forward), object.get().life(), is_stale(*supplier)),
        _ => false,
    }
}

// Whether a request that was forwarded so has joined the fetch of another one.
fn is_joined(forward: Forward) -> bool
    ensures { result ≡ is_joined forward }
{
    matches!(forward, Forward::Collapsed)
}

// Whether an object was there before, and is stale.
fn is_stale(supplier: Option<Supplier>) -> bool
    ensures { result ≡ is_stale supplier }
{
    matches!(supplier, Some(Supplier::Stale(_)))
}
