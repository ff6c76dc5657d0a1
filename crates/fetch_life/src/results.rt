//! What a fetch brings, and what is done beside handing it in.
ghost use Rattle.std.specs.Prelude.{◌≡◌};
ghost use Rattle.fetch_life.specs.Table.{brings, brought, count_of, follows, hands_in, is_changed, is_error, is_for_all, is_fragile, is_gone, is_kept, is_loss, is_lost, is_misanswer, is_origin, is_own_supplier, is_replaced, is_stale, itself, is_superseded, is_too_large, is_unanswered, lands, locked, locked_at, object, object_of, remakes, shelf_step, shown, stands_for, supersedes, supplier_of, where_so};

use crate::commands::{
    Brought, BroughtObject, Command, Commands, Count, Step, Supplier, go_by_three, go_by_two, stay,
};
use crate::facts::{End, Fault, Page, Source};
use crate::stages::{Fetch, Flight, Landing, Stage};

/// Whether this is the origin itself.
pub(crate) fn is_origin(source: Source) -> bool
    ensures { result ≡ is_origin source }
{
    matches!(source, Source::Origin)
}

// Whether a status is an error in whose place something stale may be given.
fn is_error(status: u16) -> bool
    ensures { result ≡ is_error status }
{
    status == 500 || status == 502 || status == 503 || status == 504
}

// Whether a status says that what was there is so no longer.
fn supersedes(status: u16) -> bool
    ensures { result ≡ supersedes status }
{
    (200 <= status && status < 400 && status != 304) || status == 404 || status == 410
}

fn is_loss(fault: Fault) -> bool
    ensures { result ≡ is_loss fault }
{
    match fault {
        Fault::Lookup
        | Fault::Connect
        | Fault::Cut
        | Fault::NotHttp
        | Fault::LargeHead
        | Fault::Time
        | Fault::Room
        | Fault::Slow
        | Fault::NoFile => true,
        Fault::Request | Fault::TooLarge | Fault::Cancelled | Fault::NoMemory => false,
    }
}

fn is_misanswer(fault: Fault) -> bool
    ensures { result ≡ is_misanswer fault }
{
    match fault {
        Fault::Cut | Fault::NotHttp | Fault::LargeHead | Fault::Time | Fault::Room | Fault::Slow =>
            true,
        Fault::Lookup
        | Fault::Connect
        | Fault::Request
        | Fault::TooLarge
        | Fault::Cancelled
        | Fault::NoMemory
        | Fault::NoFile => false,
    }
}

fn is_too_large(fault: Fault) -> bool
    ensures { result ≡ is_too_large fault }
{
    matches!(fault, Fault::TooLarge)
}

fn is_for_all(flight: Flight) -> bool
    ensures { result ≡ is_for_all flight }
{
    is_origin(flight.source) && flight.is_shared
}

// Whether something stale is given in place of an end.
fn is_replaced(flight: Flight, is_overtaken: bool, end: End) -> bool
    ensures { result ≡ is_replaced flight is_overtaken end }
{
    match end {
        End::Whole(page) => {
            !is_overtaken && is_for_all(flight) && is_error(page.status) && page.has_stale
        }
        End::Refused => false,
        End::Failed(failure) => {
            !is_overtaken && is_for_all(flight) && is_loss(failure.fault) && failure.has_stale
        }
    }
}

fn supplier_of(source: Source) -> Supplier
    ensures { result ≡ supplier_of source }
{
    match source {
        Source::Origin => Supplier::Origin,
        Source::Parent | Source::Sibling => Supplier::Neighbour,
    }
}

// Whether an answer is kept.
fn is_kept(flight: Flight, is_overtaken: bool, page: Page) -> bool
    ensures { result ≡ is_kept flight is_overtaken page }
{
    flight.is_shared && page.may_keep && !is_overtaken && !page.hides_rules
}

fn object(is_kept: bool, supplier: Supplier) -> Brought
    ensures { result ≡ object is_kept supplier }
{
    Brought::Object(BroughtObject { is_kept, supplier })
}

fn object_of(flight: Flight, is_overtaken: bool, page: Page, supplier: Supplier) -> Brought
    ensures { result ≡ object_of flight is_overtaken page supplier }
{
    if page.is_object {
        object(is_kept(flight, is_overtaken, page), supplier)
    } else {
        Brought::Nothing
    }
}

// An answer by itself, of which only one of status 200 is kept.
fn itself(flight: Flight, is_overtaken: bool, page: Page) -> Brought
    ensures { result ≡ itself flight is_overtaken page }
{
    if page.is_object {
        let is_kept = is_kept(flight, is_overtaken, page) && page.status == 200;
        object(is_kept, supplier_of(flight.source))
    } else {
        Brought::Nothing
    }
}

// What an answer stands for.
fn stands_for(flight: Flight, is_overtaken: bool, page: Page) -> Brought
    ensures { result ≡ stands_for flight is_overtaken page }
{
    if !is_origin(flight.source) && page.status == 508 {
        return Brought::Nothing;
    }
    if flight.is_asking && page.status == 412 {
        return Brought::Nothing;
    }
    if flight.is_asking && page.status == 304 {
        return if page.is_about {
            object_of(flight, is_overtaken, page, Supplier::Confirmed)
        } else {
            Brought::Nothing
        };
    }
    if page.status == 304 && flight.is_shared && flight.has_shelf {
        return Brought::Nothing;
    }
    itself(flight, is_overtaken, page)
}

fn brings(flight: Flight, is_overtaken: bool, end: End) -> Brought
    ensures { result ≡ brings flight is_overtaken end }
{
    match end {
        End::Whole(page) => stands_for(flight, is_overtaken, page),
        End::Refused => object(false, Supplier::Nobody),
        End::Failed(_) => Brought::Nothing,
    }
}

#[tactic(auto, unfolding(crate::specs::Table::brought))]
fn brought(flight: Flight, is_overtaken: bool, end: End) -> Brought
    ensures { result ≡ brought flight is_overtaken end }
{
    if is_replaced(flight, is_overtaken, end) {
        object(false, Supplier::Stale)
    } else {
        brings(flight, is_overtaken, end)
    }
}

// Whether the origin has something else now than what is on the shelf.
fn is_superseded(flight: Flight, end: End) -> bool
    ensures { result ≡ is_superseded flight end }
{
    match end {
        End::Whole(page) => {
            flight.is_shared
                && ((flight.is_asking && page.status == 304) || supersedes(page.status))
        }
        End::Refused | End::Failed(_) => false,
    }
}

fn is_gone(flight: Flight, end: End) -> bool
    ensures { result ≡ is_gone flight end }
{
    match end {
        End::Whole(page) => flight.is_asking && page.status == 304 && !page.is_about,
        End::Refused => false,
        End::Failed(failure) => is_for_all(flight) && is_too_large(failure.fault),
    }
}

fn is_own_supplier(supplier: Supplier) -> bool
    ensures { result ≡ is_own_supplier supplier }
{
    match supplier {
        Supplier::Stale | Supplier::Nobody => true,
        Supplier::Origin | Supplier::Confirmed | Supplier::Neighbour => false,
    }
}

fn follows(flight: Flight, end: End, object: BroughtObject) -> Option<Command>
    ensures { result ≡ follows flight end object }
{
    if is_own_supplier(object.supplier) {
        return None;
    }
    if object.is_kept && is_origin(flight.source) {
        return Some(Command::Shelve);
    }
    if object.is_kept || is_superseded(flight, end) {
        Some(Command::Unshelve)
    } else {
        None
    }
}

// What the shelf does.
fn shelf_step(flight: Flight, end: End, brought: Brought) -> Option<Command>
    ensures { result ≡ shelf_step flight end brought }
{
    match brought {
        Brought::Object(object) => follows(flight, end, object),
        Brought::Nothing | Brought::Unwanted => {
            if is_gone(flight, end) {
                Some(Command::Unshelve)
            } else {
                None
            }
        }
    }
}

fn is_unanswered(flight: Flight, end: End) -> bool
    ensures { result ≡ is_unanswered flight end }
{
    match end {
        End::Whole(page) => flight.is_asking && page.status == 412,
        End::Refused => false,
        End::Failed(failure) => flight.is_asking && is_misanswer(failure.fault),
    }
}

// Whether a client's reload has found something else than was there.
fn is_changed(flight: Flight, end: End) -> bool
    ensures { result ≡ is_changed flight end }
{
    match end {
        End::Whole(page) => {
            flight.is_asking
                && !flight.is_shared
                && ((page.status == 200 && page.could_be_kept)
                    || (page.status == 304 && page.has_other_rules))
        }
        End::Refused | End::Failed(_) => false,
    }
}

fn where_so(is_so: bool, command: Command) -> Option<Command>
    ensures { result ≡ where_so is_so command }
{
    if is_so { Some(command) } else { None }
}

fn count_of(end: End) -> Count
    ensures { result ≡ count_of end }
{
    match end {
        End::Whole(_) => Count::Whole,
        End::Refused => Count::Refused,
        End::Failed(_) => Count::Failed,
    }
}

/// An attempt has ended: it is counted, and its result is made, and waits for the lock of changes.
pub(crate) fn land(flight: Flight, end: End) -> Step
    ensures { shown result ≡ lands flight end }
{
    let stage = Stage::Landing(Landing {
        end,
        is_remade: false,
    });
    let counted = Command::Count(count_of(end));
    let made = Command::Make(brought(flight, false, end));
    go_by_three(flight, stage, counted, made, Command::Lock)
}

// A result is made anew, after a change.
fn remake(flight: Flight, end: End) -> Step
    ensures { shown result ≡ remakes flight end }
{
    let stage = Stage::Landing(Landing {
        end,
        is_remade: true,
    });
    let made = Command::Make(brought(flight, true, end));
    go_by_two(flight, stage, made, Command::Lock)
}

fn is_stale(supplier: Supplier) -> bool
    ensures { result ≡ is_stale supplier }
{
    matches!(supplier, Supplier::Stale)
}

fn is_fragile(brought: Brought) -> bool
    ensures { result ≡ is_fragile brought }
{
    match brought {
        Brought::Object(object) => object.is_kept || is_stale(object.supplier),
        Brought::Nothing | Brought::Unwanted => false,
    }
}

#[tactic(auto, unfolding(crate::specs::Table::hands_in))]
fn hand_in(flight: Flight, end: End, brought: Brought) -> Step
    ensures { shown result ≡ hands_in flight end brought }
{
    Step {
        fetch: Fetch {
            flight,
            stage: Stage::Over,
        },
        commands: Commands {
            first: shelf_step(flight, end, brought),
            second: where_so(is_unanswered(flight, end), Command::AskNoMore),
            third: where_so(is_changed(flight, end), Command::NoteChanged),
            last: Some(Command::HandIn(brought)),
        },
    }
}

// Whether a result is made anew.
#[tactic(auto, unfolding(crate::specs::Table::is_lost))]
fn is_lost(flight: Flight, is_overtaken: bool, landing: Landing) -> bool
    ensures { result ≡ is_lost flight is_overtaken landing }
{
    is_overtaken && !landing.is_remade && is_fragile(brought(flight, false, landing.end))
}

fn locked_at(flight: Flight, is_overtaken: bool, landing: Landing) -> Step
    ensures { shown result ≡ locked_at flight is_overtaken landing }
{
    if is_lost(flight, is_overtaken, landing) {
        return remake(flight, landing.end);
    }
    let brought = brought(flight, is_overtaken || landing.is_remade, landing.end);
    hand_in(flight, landing.end, brought)
}

/// The lock of changes is held.
pub(crate) fn locked(flight: Flight, is_overtaken: bool, stage: Stage) -> Step
    ensures { shown result ≡ locked flight is_overtaken stage }
{
    match stage {
        Stage::Landing(landing) => locked_at(flight, is_overtaken, landing),
        _ => stay(flight, stage),
    }
}
