//! Fetches for all that have no client any more.
ghost use Rattle.std.specs.Prelude.{◌≡◌};
ghost use Rattle.fetch_life.specs.Table.{leaves, left_alone, shown, unwanted};

use crate::commands::{Brought, Command, Count, Step, go, go_by_two, stay};
use crate::stages::{Flight, Stage};

fn leave(flight: Flight, is_awaited: bool) -> Step
    ensures { shown result ≡ leaves flight is_awaited }
{
    if is_awaited {
        return go(flight, Stage::Renewing, Command::Renew);
    }
    let counted = Command::Count(Count::Unwanted);
    let given = Command::HandIn(Brought::Unwanted);
    go_by_two(flight, Stage::Over, counted, given)
}

// Ends a fetch if it is for all.
fn leave_alone(flight: Flight, is_awaited: bool, stage: Stage) -> Step
    ensures { shown result ≡ left_alone flight is_awaited stage }
{
    if flight.is_shared {
        leave(flight, is_awaited)
    } else {
        stay(flight, stage)
    }
}

/// The last client of a fetch for all has gone, and it is to end.
pub(crate) fn unwanted(flight: Flight, is_awaited: bool, stage: Stage) -> Step
    ensures { shown result ≡ unwanted flight is_awaited stage }
{
    match stage {
        Stage::Seeking | Stage::Connecting(_) | Stage::Exchanging(_) => leave_alone(
            flight, is_awaited, stage,
        ),
        _ => stay(flight, stage),
    }
}
