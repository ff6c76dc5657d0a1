//! Fetches for all clients that have no client any more.
ghost use Rattle.std.specs.Prelude.{◌≡◌, ◌*◌, nat_lt};
ghost use Rattle.fair_use.specs.Leaving.{ends_unwanted, is_alone_too_long, is_nearly_whole, missing};

// How long a fetch goes on without a client, in milliseconds, that was not begun for one, or asks about what is there.
const MOST_ALONE: u64 = 10_000;

/// Whether a fetch ends whose last client has gone, and of whose answer so many octets have come: unless fewer than `most` octets of its
/// announced length are missing, or less than 5 percent of it. One of unannounced length ends.
pub fn ends_unwanted(most: u64, announced: Option<u64>, received: u64) -> bool
    ensures { result ≡ ends_unwanted most announced received }
{
    match announced {
        Some(length) => !is_nearly_whole(most, length, received),
        None => true,
    }
}

// Whether less than `most` octets, or less than 5 percent, are missing of an answer of this length.
fn is_nearly_whole(most: u64, length: u64, received: u64) -> bool
    ensures { result ≡ is_nearly_whole most length received }
{
    let missing = length.saturating_sub(received);
    missing < most || is_below_a_twentieth(missing, length)
}

// Whether so many octets are less than 5 percent of this length.
fn is_below_a_twentieth(missing: u64, length: u64) -> bool
    ensures { result ≡ nat_lt (missing * 100) (length * 5) }
{
    u128::from(missing) * 100 < u128::from(length) * 5
}

/// Whether a fetch that goes on without a client ends, which has had none for so many milliseconds.
pub fn is_alone_too_long(alone: u64) -> bool
    ensures { result ≡ is_alone_too_long alone }
{
    MOST_ALONE <= alone
}
