//! Lives that come by often, step by step. What is expected is what docs/OPERATING.md and the RFCs that are named say.

use crate::{
    Addresses, Brought, BroughtObject, Command, Commands, Count, Event, Failure, Fault, Fetch,
    Order, Page, Request, Source, Supplier, Which,
};

const ORDER: Order = Order {
    source: Source::Origin,
    is_shared: true,
    is_possible: true,
    is_unwanted: false,
    was_unwanted: false,
    has_shelf: true,
    has_shelved: false,
    lets_validate: false,
    is_streamed: false,
};

const ASKING: Order = Order {
    has_shelved: true,
    ..ORDER
};

const FOUND: Addresses = Addresses {
    is_first_admitted: true,
    has_other: true,
    is_other_admitted: true,
    is_first_kept: false,
    is_other_kept: false,
};

const OK: Page = Page {
    status: 200,
    is_about: false,
    may_keep: true,
    hides_rules: false,
    is_object: true,
    could_be_kept: true,
    has_other_rules: false,
    has_stale: false,
};

const SHARED: Request = Request {
    has_clients: false,
    has_codings: false,
    has_loop_marks: true,
    has_shared: true,
    has_conditions: false,
    has_only_if_cached: false,
};

const CONDITIONAL: Request = Request {
    has_conditions: true,
    ..SHARED
};

const CUT: Failure = Failure {
    fault: Fault::Cut,
    has_answer: false,
    has_stale: false,
};

fn one(first: Command) -> Commands {
    Commands {
        first: Some(first),
        second: None,
        third: None,
        last: None,
    }
}

fn two(first: Command, second: Command) -> Commands {
    Commands {
        second: Some(second),
        ..one(first)
    }
}

fn landed(count: Count, brought: Brought) -> Commands {
    Commands {
        third: Some(Command::Lock),
        ..two(Command::Count(count), Command::Make(brought))
    }
}

fn handed(shelf: Option<Command>, brought: Brought) -> Commands {
    Commands {
        first: shelf,
        second: None,
        third: None,
        last: Some(Command::HandIn(brought)),
    }
}

fn object(is_kept: bool, supplier: Supplier) -> Brought {
    Brought::Object(BroughtObject { is_kept, supplier })
}

// Whether a fetch does this, event by event.
fn goes_on(begun: Fetch, rows: &[(Event, Commands)]) -> bool {
    let mut fetch = begun;
    for (event, commands) in rows {
        let step = fetch.step(*event);
        if step.commands != *commands {
            return false;
        }
        fetch = step.fetch;
    }
    true
}

// A new fetch after these events.
fn after(events: &[Event]) -> Fetch {
    let mut fetch = Fetch::new();
    for event in events {
        fetch = fetch.step(*event).fetch;
    }
    fetch
}

// A fetch of this order whose request was sent.
fn sent(order: Order) -> Fetch {
    after(&[
        Event::Ordered(order),
        Event::Addressed(FOUND),
        Event::Connected,
    ])
}

#[test]
fn what_is_fetched_for_all_is_stored(rt: HostRuntime) {
    let brought = object(true, Supplier::Origin);
    let rows = [
        (Event::Ordered(ORDER), one(Command::Seek)),
        (Event::Addressed(FOUND), one(Command::Connect(Which::First))),
        (Event::Connected, one(Command::Send(SHARED))),
        (Event::Whole(OK), landed(Count::Whole, brought)),
        (Event::Locked(false), handed(Some(Command::Shelve), brought)),
    ];
    assert!(rt; goes_on(Fetch::new(), &rows));
}

// RFC 9111, section 4.3.3: a 304 has what is stored used, and updated.
#[test]
fn a_304_confirms_what_was_asked_about(rt: HostRuntime) {
    let same = Page {
        status: 304,
        is_about: true,
        ..OK
    };
    let brought = object(true, Supplier::Confirmed);
    let rows = [
        (Event::Ordered(ASKING), one(Command::Seek)),
        (Event::Addressed(FOUND), one(Command::Connect(Which::First))),
        (Event::Connected, one(Command::Send(CONDITIONAL))),
        (Event::Whole(same), landed(Count::Whole, brought)),
        (Event::Locked(false), handed(Some(Command::Shelve), brought)),
    ];
    assert!(rt; goes_on(Fetch::new(), &rows));
}

// RFC 9111, section 4.3.4: one that is about another has nothing that it could update.
#[test]
fn a_304_about_another_confirms_nothing(rt: HostRuntime) {
    let other = Page { status: 304, ..OK };
    let rows = [
        (Event::Whole(other), landed(Count::Whole, Brought::Nothing)),
        (
            Event::Locked(false),
            handed(Some(Command::Unshelve), Brought::Nothing),
        ),
    ];
    assert!(rt; goes_on(sent(ASKING), &rows));
}

// RFC 5861, section 4.
#[test]
fn stale_is_given_in_place_of_an_error(rt: HostRuntime) {
    let down = Page {
        status: 502,
        may_keep: false,
        has_stale: true,
        ..OK
    };
    let stale = object(false, Supplier::Stale);
    let rows = [
        (Event::Whole(down), landed(Count::Whole, stale)),
        (Event::Locked(false), handed(None, stale)),
    ];
    assert!(rt; goes_on(sent(ORDER), &rows));
    let own = Order {
        is_shared: false,
        ..ORDER
    };
    let error = object(false, Supplier::Origin);
    let rows = [
        (Event::Whole(down), landed(Count::Whole, error)),
        (Event::Locked(false), handed(None, error)),
    ];
    assert!(rt; goes_on(sent(own), &rows));
}

#[test]
fn what_a_change_overtook_is_not_stored(rt: HostRuntime) {
    let (kept, unkept) = (
        object(true, Supplier::Origin),
        object(false, Supplier::Origin),
    );
    let rows = [
        (Event::Whole(OK), landed(Count::Whole, kept)),
        (
            Event::Locked(true),
            two(Command::Make(unkept), Command::Lock),
        ),
        (Event::Locked(true), handed(Some(Command::Unshelve), unkept)),
    ];
    assert!(rt; goes_on(sent(ORDER), &rows));
}

// `quick_abort_octets`: nothing stale is given in the place of such a fetch, what it asked about is asked about again, and no failure is counted.
#[test]
fn a_fetch_that_nobody_waits_for_ends(rt: HostRuntime) {
    let given_up = two(
        Command::Count(Count::Unwanted),
        Command::HandIn(Brought::Unwanted),
    );
    let nothing = Commands {
        first: None,
        ..one(Command::Lock)
    };
    let late = Failure {
        has_stale: true,
        ..CUT
    };
    let rows = [
        (Event::Unwanted(false), given_up),
        (Event::Failed(late), nothing),
        (Event::Locked(false), nothing),
    ];
    assert!(rt; goes_on(sent(ASKING), &rows));
    let unwanted = Order {
        is_unwanted: true,
        ..ORDER
    };
    assert!(rt; goes_on(Fetch::new(), &[(Event::Ordered(unwanted), given_up)]));
}

// What was ended for want of clients is begun anew where one waits for it again.
#[test]
fn what_is_awaited_again_is_begun_anew(rt: HostRuntime) {
    let renewed = after(&[
        Event::Ordered(ASKING),
        Event::Addressed(FOUND),
        Event::Unwanted(true),
    ]);
    assert!(rt; goes_on(renewed, &[(Event::Ordered(ASKING), one(Command::Seek))]));
    let left = Order {
        is_unwanted: true,
        was_unwanted: true,
        ..ORDER
    };
    let given_up = two(
        Command::Count(Count::Unwanted),
        Command::HandIn(Brought::Unwanted),
    );
    assert!(rt; goes_on(renewed, &[(Event::Ordered(left), given_up)]));
    let vain = Order {
        is_possible: false,
        ..ORDER
    };
    let again = one(Command::HandIn(Brought::Unwanted));
    assert!(rt; goes_on(renewed, &[(Event::Ordered(vain), again)]));
}

// RFC 9112, section 9.3.1: a server may have closed a connection that was kept at the same moment.
#[test]
fn a_request_is_sent_again_where_nothing_came(rt: HostRuntime) {
    let kept = Addresses {
        is_first_kept: true,
        ..FOUND
    };
    let begun = after(&[Event::Ordered(ORDER), Event::Addressed(kept)]);
    let some = Failure {
        has_answer: true,
        ..CUT
    };
    let rows = [
        (Event::Failed(CUT), one(Command::Connect(Which::First))),
        (Event::Connected, one(Command::Send(SHARED))),
        (Event::Failed(CUT), one(Command::Connect(Which::Other))),
        (Event::Connected, one(Command::Send(SHARED))),
        (Event::Failed(CUT), landed(Count::Failed, Brought::Nothing)),
    ];
    assert!(rt; goes_on(begun, &rows));
    let rows = [(Event::Failed(some), landed(Count::Failed, Brought::Nothing))];
    assert!(rt; goes_on(begun, &rows));
}

#[test]
fn what_is_not_admitted_is_not_connected_to(rt: HostRuntime) {
    let denied = Addresses {
        is_first_admitted: false,
        is_other_admitted: false,
        ..FOUND
    };
    let refusal = object(false, Supplier::Nobody);
    let rows = [
        (Event::Ordered(ORDER), one(Command::Seek)),
        (Event::Addressed(denied), landed(Count::Refused, refusal)),
        (Event::Locked(true), handed(None, refusal)),
    ];
    assert!(rt; goes_on(Fetch::new(), &rows));
}
