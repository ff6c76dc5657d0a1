//! The content of a response with what a front has answered, and of a failure.
use crate::account::SharedFacts;
use crate::cache_status::{stale_age, told_forward, told_got, told_hit, told_passed, ttl_of};
use crate::requests::{Given, OwnAnswer, PassedAnswer, TextKind};
use http_rules::end_to_end;
use http_traffic::{Early, FetchFault, Forward, Outcome, PassFault, Shape};
use hyper::HeaderMap;
use object_store::SharedObject;
use std::alloc::{AllocError, Global};

/// The Cache-Status and the Via of an answer with these fields, from a cache of this label and Via. Errors: the status of a failure.
pub(crate) fn fields_of_passed(
    alloc: Global,
    fields: &HeaderMap,
    label: &[u8],
    via: &[u8],
    is_get: bool,
) -> Result<(Vec<u8>, Vec<u8>), u16> {
    if has_too_many_names(alloc, fields) {
        return Err(502);
    }
    match (told_passed(alloc, label, is_get), via.to_vec(alloc)) {
        (Ok(told), Ok(via)) => Ok((told, via)),
        _ => Err(503),
    }
}

/// The content of a failure of the request of these facts: its reason, and the target of the request.
pub(crate) fn failure<K: Drop>(alloc: Global, facts: &SharedFacts<K>, status: u16) -> Given {
    Given::Own(OwnAnswer::Text {
        status,
        text: facts.failure(alloc, status),
        kind: TextKind::Plain,
    })
}

/// The status where the request of these facts was passed on and has no answer. It is noted where it was refused.
pub(crate) fn status_after<K: Drop>(facts: &SharedFacts<K>, fault: PassFault) -> u16 {
    if fault == PassFault::Refused
        && let Ok(mut facts) = facts.0.try_borrow_mut()
    {
        facts.note_refused();
    }
    status_of(fault)
}

/// The response with this answer. Errors: 503 if out of memory.
pub(crate) fn passed_given(alloc: Global, answer: PassedAnswer) -> Result<Given, u16> {
    match Box::new(alloc, answer) {
        Ok(answer) => Ok(Given::Passed(answer)),
        Err(_) => Err(503),
    }
}

// Whether the Connection fields of an answer have more names than an answer may have that is given on.
fn has_too_many_names(alloc: Global, head: &HeaderMap) -> bool {
    matches!(
        end_to_end(alloc, head),
        Err(http_rules::PassFault::TooManyNames)
    )
}

// The status where a request that was passed on has no answer.
fn status_of(fault: PassFault) -> u16 {
    match fault {
        PassFault::Refused => 403,
        PassFault::Failed(FetchFault::Time) => 504,
        PassFault::Failed(_) => 502,
    }
}

/// The content of the response. Errors: the status of a failure.
pub(crate) fn given_of(
    alloc: Global,
    label: &[u8],
    forward: Forward,
    answer: Outcome,
    shape: Shape,
) -> Result<Given, u16> {
    match answer {
        Outcome::Hit { object, age } => {
            let told = told_hit(alloc, label, ttl_of(&object, age));
            object_given(object, shape, Some(age), told)
        }
        Outcome::Got {
            object,
            supplier,
            is_stored,
        } => {
            let told = told_got(alloc, label, forward, supplier, is_stored);
            object_given(object, shape, stale_age(supplier), told)
        }
        Outcome::Early { early, .. } => {
            drop(shape);
            early_given(alloc, label, forward, early)
        }
        Outcome::Fail(status) => {
            drop(shape);
            Err(status)
        }
        Outcome::Again => {
            drop(shape);
            Err(502)
        }
    }
}

// The content of the response with an object. Errors: 503 if out of memory.
fn object_given(
    object: SharedObject,
    shape: Shape,
    age: Option<u32>,
    told: Result<Vec<u8>, AllocError>,
) -> Result<Given, u16> {
    match told {
        Ok(told) => Ok(Given::Object {
            object,
            shape,
            age,
            told,
        }),
        Err(_) => {
            drop(shape);
            drop(object);
            Err(503)
        }
    }
}

// The content of the response with an answer that is still collected. Whether it will be stored is not known. Errors: 503 if out of
// memory.
fn early_given(
    alloc: Global,
    label: &[u8],
    forward: Forward,
    early: Box<Early>,
) -> Result<Given, u16> {
    match told_forward(alloc, label, forward, false) {
        Ok(told) => Ok(Given::Early { early, told }),
        Err(_) => Err(503),
    }
}
