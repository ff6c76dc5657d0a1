//! Lives that come by often, step by step. What is expected is what docs/OPERATING.md and the RFCs that are named say.

use crate::{
    Acceptance, Answer, Changed, Choice, Command, Commands, ContentEnd, Event, Failure, Fetched,
    Given, Hit, Life, Lookup, Method, Outcome, Passage, PassedEnd, PassedHead, RequestHead, Shape,
    Target, TunnelEnd, TunnelTarget,
};
use node_terms::Mode;

const GET: RequestHead = RequestHead {
    method: Method::Get,
    is_unsafe: false,
    has_passage: false,
    has_tunnels: false,
    answers_heads: true,
    has_foreign_coding: false,
    is_too_long: false,
    has_content: false,
    has_upload: false,
    has_many_options: false,
    has_loop_marks: false,
    is_streamed: false,
    is_last: false,
};

const POST: RequestHead = RequestHead {
    method: Method::Other,
    is_unsafe: true,
    has_passage: true,
    has_upload: true,
    ..GET
};

const PLAIN: Lookup = Lookup {
    target: Target::Url,
    choice: Choice::Ask(Mode::Shared),
    is_stored: false,
    is_long: false,
    has_come_back: false,
    is_barred: false,
    is_overtaken: false,
    has_accepted_stale: false,
    is_third_part: false,
};

const OPEN: Passage = Passage {
    target: Target::Url,
    has_come_back: false,
    is_barred: false,
    is_last_recipient: false,
    has_many_options: false,
    has_room: true,
};

const ACCEPTED: Acceptance = Acceptance {
    has_joined: false,
    has_stale: false,
    is_kept_out: false,
};

fn none() -> Commands {
    Commands {
        first: None,
        second: None,
    }
}

fn one(first: Command) -> Commands {
    Commands {
        first: Some(first),
        second: None,
    }
}

fn two(first: Command, second: Command) -> Commands {
    Commands {
        first: Some(first),
        second: Some(second),
    }
}

fn given(answer: Answer) -> Command {
    Command::Give(Given {
        answer,
        is_last: false,
    })
}

fn last(answer: Answer) -> Command {
    Command::Give(Given {
        answer,
        is_last: true,
    })
}

// Whether a life does this, event by event.
fn goes_on(begun: Life, rows: &[(Event, Commands)]) -> bool {
    let mut life = begun;
    for (event, commands) in rows {
        let step = life.step(*event);
        if step.commands != *commands {
            return false;
        }
        life = step.life;
    }
    true
}

// A new life after these events.
fn after(events: &[Event]) -> Life {
    let mut life = Life::new();
    for event in events {
        life = life.step(*event).life;
    }
    life
}

// A GET that the node has taken like this.
fn taken(acceptance: Acceptance) -> Life {
    after(&[
        Event::Received(GET),
        Event::Found(PLAIN),
        Event::Accepted(acceptance),
    ])
}

// A POST that is passed on, of which all was sent, or not yet.
fn passed_on(is_whole: bool) -> Life {
    let life = after(&[Event::Received(POST), Event::Routed(OPEN)]);
    if is_whole {
        life.step(Event::Read).life.step(Event::Sent).life
    } else {
        life
    }
}

fn head(status: u16) -> Event {
    Event::Passed(PassedEnd::Head(PassedHead {
        status,
        has_many_options: false,
    }))
}

fn failed(status: u16, is_long: bool) -> Event {
    Event::Answered(Outcome::Failed(Failure { status, is_long }))
}

// RFC 9110, section 13.1.2: what the client has already is not given once more.
#[test]
fn a_hit_is_given(rt: HostRuntime) {
    let hit = Event::Answered(Outcome::Hit(Hit {
        is_accepted: true,
        shape: Shape::NotModified,
    }));
    let rows = [
        (Event::Received(GET), one(Command::LookUp)),
        (Event::Found(PLAIN), one(Command::Submit(Mode::Shared))),
        (Event::Accepted(ACCEPTED), none()),
        (hit, one(given(Answer::Hit(Shape::NotModified)))),
        (hit, none()),
        (Event::Finished, one(Command::Record)),
        (Event::Left, none()),
    ];
    assert!(rt; goes_on(Life::new(), &rows));
}

// RFC 9111, section 3: what may not be stored is not given to who has joined its fetch.
#[test]
fn what_is_for_another_is_fetched_alone(rt: HostRuntime) {
    let joined = Acceptance {
        has_joined: true,
        ..ACCEPTED
    };
    let own = Event::Answered(Outcome::Fetched(Fetched {
        is_kept: false,
        is_stale: false,
        shape: Shape::Whole,
    }));
    let rows = [
        (own, one(Command::Submit(Mode::Private))),
        (Event::Accepted(ACCEPTED), none()),
        (own, one(given(Answer::Fetched(Shape::Whole)))),
    ];
    assert!(rt; goes_on(taken(joined), &rows));
    let kept_out = Acceptance {
        is_kept_out: true,
        ..joined
    };
    let submitted = after(&[Event::Received(GET), Event::Found(PLAIN)]);
    let alone = two(Command::Withdraw, Command::Submit(Mode::Private));
    assert!(rt; goes_on(submitted, &[(Event::Accepted(kept_out), alone)]));
}

#[test]
fn a_client_leaves_while_it_waits(rt: HostRuntime) {
    let withdrawn = two(Command::Withdraw, Command::Record);
    let rows = [(Event::Left, withdrawn), (failed(502, false), none())];
    assert!(rt; goes_on(taken(ACCEPTED), &rows));
}

// Who waits for a fetch that was ended for want of clients is served by one more, once.
#[test]
fn a_request_is_handed_in_anew_once(rt: HostRuntime) {
    let again = Event::Answered(Outcome::Again);
    let rows = [
        (again, one(Command::LookUp)),
        (Event::Found(PLAIN), one(Command::Submit(Mode::Shared))),
        (Event::Accepted(ACCEPTED), none()),
        (again, one(given(Answer::Own(502)))),
    ];
    assert!(rt; goes_on(taken(ACCEPTED), &rows));
}

// RFC 9111, section 4.4.
#[test]
fn what_a_change_that_is_answered_takes_out(rt: HostRuntime) {
    let changed = two(Command::TakeOut(Changed::ByAnswer), given(Answer::Passed));
    let rows = [
        (Event::Received(POST), one(Command::Route)),
        (Event::Routed(OPEN), one(Command::PassOn)),
        (Event::Read, none()),
        (Event::Sent, none()),
        (head(303), changed),
    ];
    assert!(rt; goes_on(Life::new(), &rows));
    let unchanged = one(given(Answer::Passed));
    assert!(rt; goes_on(passed_on(true), &[(head(405), unchanged)]));
    let target = Command::TakeOut(Changed::Target);
    let lost = two(target, given(Answer::Own(502)));
    let rows = [(Event::Passed(PassedEnd::Failed), lost)];
    assert!(rt; goes_on(passed_on(true), &rows));
    let rest = two(target, last(Answer::Passed));
    assert!(rt; goes_on(passed_on(false), &[(head(502), rest)]));
}

// As the table of what is passed on has it.
#[test]
fn what_a_change_that_is_left_takes_out(rt: HostRuntime) {
    let (left, cancelled) = ((Event::Left, one(Command::Record)), one(Command::Cancel));
    let changed = two(Command::Cancel, Command::TakeOut(Changed::ByAnswer));
    let target = two(Command::Cancel, Command::TakeOut(Changed::Target));
    assert!(rt; goes_on(passed_on(true), &[left, (head(405), cancelled)]));
    assert!(rt; goes_on(passed_on(true), &[left, (head(502), cancelled)]));
    assert!(rt; goes_on(passed_on(true), &[left, (head(200), changed)]));
    assert!(rt; goes_on(passed_on(true), &[left, (Event::Expired, target)]));
    let rows = [left, (Event::Sent, none()), (Event::Expired, target)];
    assert!(rt; goes_on(passed_on(false), &rows));
    assert!(rt; goes_on(passed_on(false), &[left, (Event::Expired, cancelled)]));
    assert!(rt; goes_on(passed_on(false), &[left, (head(201), changed)]));
}

#[test]
fn what_a_broken_change_takes_out(rt: HostRuntime) {
    let refused = (Event::UploadBroken, one(last(Answer::Own(400))));
    let ended = (Event::Finished, one(Command::Record));
    let cancelled = one(Command::Cancel);
    let changed = two(Command::Cancel, Command::TakeOut(Changed::ByAnswer));
    let rows = [refused, ended, (Event::Expired, cancelled)];
    assert!(rt; goes_on(passed_on(false), &rows));
    let rows = [
        refused,
        (Event::Passed(PassedEnd::Failed), cancelled),
        ended,
    ];
    assert!(rt; goes_on(passed_on(false), &rows));
    assert!(rt; goes_on(passed_on(false), &[refused, (head(200), changed), ended]));
}

// RFC 9110, section 9.3.6.
#[test]
fn a_tunnel_is_opened_or_refused(rt: HostRuntime) {
    let connect = RequestHead {
        method: Method::Connect,
        has_tunnels: true,
        ..GET
    };
    let target = TunnelTarget {
        is_authority: true,
        is_port_allowed: true,
        has_come_back: false,
        is_barred: false,
        has_room: true,
    };
    let barred = TunnelTarget {
        is_barred: true,
        ..target
    };
    let aiming = after(&[Event::Received(connect)]);
    assert!(rt;
        goes_on(
            aiming,
            &[(Event::Aimed(barred), one(last(Answer::Own(403))))]
        )
    );
    let aimed = (Event::Aimed(target), one(Command::OpenTunnel));
    let refused = Event::Tunnelled(TunnelEnd::Refused(502));
    assert!(rt; goes_on(aiming, &[aimed, (refused, one(last(Answer::Own(502))))]));
    let opened = Event::Tunnelled(TunnelEnd::Opened);
    assert!(rt; goes_on(aiming, &[aimed, (opened, one(given(Answer::Tunnel)))]));
}

#[test]
fn what_nothing_stored_answers_is_passed_on(rt: HostRuntime) {
    let head = RequestHead {
        method: Method::Head,
        has_passage: true,
        ..GET
    };
    let unstored = Lookup {
        choice: Choice::Refuse(501),
        ..PLAIN
    };
    let rows = [
        (Event::Received(head), one(Command::LookUp)),
        (Event::Found(unstored), one(Command::Route)),
        (Event::Routed(OPEN), one(Command::PassOn)),
    ];
    assert!(rt; goes_on(Life::new(), &rows));
    let rows = [(failed(502, true), one(Command::Route))];
    assert!(rt; goes_on(taken(ACCEPTED), &rows));
}

// A connection ends with an answer that comes before its request's content, and with no other.
#[test]
fn what_ends_a_connection(rt: HostRuntime) {
    let full = Passage {
        has_room: false,
        ..OPEN
    };
    let unread = [(Event::Routed(full), one(last(Answer::Own(503))))];
    assert!(rt; goes_on(after(&[Event::Received(POST)]), &unread));
    let delete = RequestHead {
        has_upload: false,
        ..POST
    };
    let refused = [(Event::Routed(full), one(given(Answer::Own(503))))];
    assert!(rt; goes_on(after(&[Event::Received(delete)]), &refused));
    let target = Command::TakeOut(Changed::Target);
    let lost = Event::Passed(PassedEnd::Failed);
    let rows = [
        (Event::Routed(OPEN), one(Command::PassOn)),
        (lost, two(target, given(Answer::Own(502)))),
    ];
    assert!(rt; goes_on(after(&[Event::Received(delete)]), &rows));
}

// Where a fetch was ended for want of clients, its request is handed in anew, once, and does not go beside the node then.
#[test]
fn what_is_handed_in_anew(rt: HostRuntime) {
    let long = Lookup {
        is_long: true,
        ..PLAIN
    };
    let rows = [
        (Event::Answered(Outcome::Again), one(Command::LookUp)),
        (Event::Found(long), one(Command::Submit(Mode::Shared))),
        (Event::Accepted(ACCEPTED), none()),
        (Event::Answered(Outcome::Lost), one(given(Answer::Own(502)))),
    ];
    assert!(rt; goes_on(taken(ACCEPTED), &rows));
}

// What is fetched for one client alone has the fields of its request, which aren't known where too many are named for this hop.
#[test]
fn what_cant_be_fetched_alone(rt: HostRuntime) {
    let head = RequestHead {
        has_many_options: true,
        ..GET
    };
    let alone = Lookup {
        choice: Choice::Ask(Mode::Private),
        has_come_back: true,
        ..PLAIN
    };
    let found = after(&[Event::Received(head)]);
    let refused = one(given(Answer::Own(400)));
    assert!(rt; goes_on(found, &[(Event::Found(alone), refused)]));
    let kept_out = Acceptance {
        has_joined: true,
        is_kept_out: true,
        ..ACCEPTED
    };
    let rows = [
        (Event::Found(PLAIN), one(Command::Submit(Mode::Shared))),
        (
            Event::Accepted(kept_out),
            two(Command::Withdraw, given(Answer::Own(400))),
        ),
    ];
    assert!(rt; goes_on(found, &rows));
}

// RFC 8586: a request that has come back is answered with 508; RFC 9111, section 5.2.1.7: only-if-cached with 504.
#[test]
fn what_goes_nowhere(rt: HostRuntime) {
    let looped = Lookup {
        has_come_back: true,
        ..PLAIN
    };
    let found = after(&[Event::Received(GET)]);
    assert!(rt;
        goes_on(
            found,
            &[(Event::Found(looped), one(given(Answer::Own(508))))]
        )
    );
    let unstored = Lookup {
        choice: Choice::Refuse(504),
        ..PLAIN
    };
    assert!(rt;
        goes_on(
            found,
            &[(Event::Found(unstored), one(given(Answer::Own(504))))]
        )
    );
    let with_content = RequestHead {
        has_content: true,
        ..GET
    };
    let rows = [
        (Event::Received(with_content), one(Command::Collect)),
        (
            Event::Collected(ContentEnd::TooLong),
            one(last(Answer::Own(413))),
        ),
    ];
    assert!(rt; goes_on(Life::new(), &rows));
}

// RFC 5861, sections 3 and 4.
#[test]
fn what_is_stale_is_given(rt: HostRuntime) {
    let stale = Acceptance {
        has_stale: true,
        ..ACCEPTED
    };
    let submitted = after(&[Event::Received(GET), Event::Found(PLAIN)]);
    let answered = two(Command::Withdraw, given(Answer::Stale));
    assert!(rt; goes_on(submitted, &[(Event::Accepted(stale), answered)]));
    let instead = one(given(Answer::Stale));
    assert!(rt; goes_on(submitted, &[(Event::Declined(true), instead)]));
    let refused = one(given(Answer::Own(503)));
    assert!(rt; goes_on(submitted, &[(Event::Declined(false), refused)]));
    assert!(rt; goes_on(taken(ACCEPTED), &[(failed(503, false), refused)]));
}
