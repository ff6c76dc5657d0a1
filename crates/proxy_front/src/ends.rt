//! How fetches have ended, as far as something stale may take the place of what came of them.
ghost use Rattle.std.specs.Prelude.{◌≡◌};
ghost use Rattle.http_rules.specs.Stale.{takes_the_place};
ghost use Rattle.proxy_front.specs.Ends.{end_of, end_of_fault};

use http_rules::{SourceEnd, takes_the_place};
use http_traffic::{FetchEnd, FetchFault};
use node_words::Mode;

/// How a fetch has ended.
pub(crate) fn end_of(end: &FetchEnd) -> SourceEnd
    ensures { result ≡ end_of end.now }
{
    match end {
        FetchEnd::Whole(page) => SourceEnd::Answered(page.status),
        FetchEnd::Refused => SourceEnd::Unasked,
        FetchEnd::Failed(fault) => end_of_fault(*fault),
    }
}

// How a fetch has ended that has failed.
fn end_of_fault(fault: FetchFault) -> SourceEnd
    ensures { result ≡ end_of_fault fault }
{
    match fault {
        FetchFault::Lookup | FetchFault::Connect | FetchFault::NoFile => SourceEnd::Unreached,
        FetchFault::Cut
        | FetchFault::NotHttp
        | FetchFault::LargeHead
        | FetchFault::Time
        | FetchFault::Room
        | FetchFault::Slow => SourceEnd::Unread,
        FetchFault::TooLarge => SourceEnd::TooLong,
        FetchFault::Request | FetchFault::Cancelled | FetchFault::NoMemory => SourceEnd::Unasked,
    }
}

/// Whether a stale object may be served in place of what came of a fetch in this mode.
pub(crate) fn is_down(is_origin: bool, mode: Mode, end: &FetchEnd) -> bool
    ensures { result ≡ takes_the_place is_origin mode (end_of end.now) }
{
    takes_the_place(is_origin, mode, end_of(end))
}
