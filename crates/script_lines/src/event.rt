//! Lines that describe an event.
ghost use Rattle.std.specs.Prelude.{◌≡◌, IfOk, Some};
ghost use Rattle.node_words.specs.declared.event.Outcome.TheVariants.{Failed};
ghost use Rattle.script_lines.specs.Words.{number, octets, end_at, socket, mode, key, object, moment, client_number};
ghost use Rattle.script_lines.specs.Item.{script_line_of, IsShort};
ghost use Rattle.script_lines.specs.ScriptLine.{timer_line, gone_line, program_line, swap_line, neighbour_swap_line, fetched_line, datagram_line, request_line, object_line};

use super::address::read_end;
use super::choice::{mode, socket};
use super::item::Item;
use super::number::{client, half, moment, status, word};
use super::octets::{key, octets};
use super::program::{judged, read_program};
use super::slot::neighbour_slot;
use bpf_check::Insn;
use bpf_run::packet::MOST_PAYLOAD;
use filter_slots::Slot;
use node_words::{Event, Outcome};
use object_store::{Object, SharedObject};
use std::alloc::{AllocError, Global};
use std::sync::Arc;

/// `t <now>`.
pub(crate) fn timer_item(a: &[u8]) -> Item
    ensures line { script_line_of result ≡ timer_line (moment a.now) }
    ensures short { IsShort result }
{
    match moment(a) {
        Some(now) => Item::Take(Event::Timer { now }),
        None => Item::Wrong,
    }
}

/// `g <client>`.
pub(crate) fn gone_item(a: &[u8]) -> Item
    ensures line { script_line_of result ≡ gone_line (client_number a.now) }
    ensures short { IsShort result }
{
    match client(a) {
        Some(client) => Item::Take(Event::Gone { client }),
        None => Item::Wrong,
    }
}

// A program to install in a slot, or its refusal by the checker.
fn program_item(alloc: Global, slot: Slot, insns: Vec<Insn>) -> Result<Item, AllocError>
    ensures line { IfOk result (λ item. script_line_of item ≡ program_line slot (Some insns.items)) }
    ensures short { IfOk result (λ item. IsShort item) }
{
    match judged(insns) {
        Ok(checked) => Ok(Item::Take(Event::Swap {
            slot,
            program: Some(Arc::new(alloc, checked)?),
        })),
        Err(fault) => Ok(Item::Refuse { slot, fault }),
    }
}

/// `off` or a program, for a slot; [`Item::Wrong`] if the slot is `None`.
pub(crate) fn swap_item(alloc: Global, slot: Option<Slot>, b: &[u8]) -> Result<Item, AllocError>
    ensures line { IfOk result (λ item. script_line_of item ≡ swap_line slot b.now) }
    ensures short { IfOk result (λ item. IsShort item) }
{
    let Some(slot) = slot else {
        return Ok(Item::Wrong);
    };
    if b == b"off".as_slice() {
        return Ok(Item::Take(Event::Swap {
            slot,
            program: None,
        }));
    }
    match read_program(alloc, b)? {
        Some(insns) => program_item(alloc, slot, insns),
        None => Ok(Item::Wrong),
    }
}

/// `s peer <neighbour> off`, `s peer <neighbour> <program>`: the words after `s`.
pub(crate) fn neighbour_swap_item(
    alloc: Global,
    a: &[u8],
    b: &[u8],
    c: &[u8],
) -> Result<Item, AllocError>
    ensures line { IfOk result (λ item. script_line_of item ≡ neighbour_swap_line a.now b.now c.now) }
    ensures short { IfOk result (λ item. IsShort item) }
{
    if a == b"peer".as_slice() {
        swap_item(alloc, neighbour_slot(b), c)
    } else {
        Ok(Item::Wrong)
    }
}

// The end of a fetch attempt: fetch number, attempt number, outcome and moment.
fn fetched_item(a: &[u8], b: &[u8], outcome: Outcome, c: &[u8]) -> Item
    ensures line { script_line_of result ≡ fetched_line (number 4294967295 a.now) (number 65535 b.now) outcome (moment c.now) }
    ensures short { IsShort result }
{
    match (word(a), half(b), moment(c)) {
        (Some(fetch), Some(attempt), Some(now)) => Item::Take(Event::Fetched {
            fetch,
            attempt,
            result: outcome,
            now,
        }),
        _ => Item::Wrong,
    }
}

/// `x <fetch> <attempt> <now>`.
pub(crate) fn failed_item(a: &[u8], b: &[u8], c: &[u8]) -> Item
    ensures line { script_line_of result ≡ fetched_line (number 4294967295 a.now) (number 65535 b.now) Failed (moment c.now) }
    ensures short { IsShort result }
{
    fetched_item(a, b, Outcome::Failed, c)
}

/// `d icp|htcp <from> <octets> <now>`.
pub(crate) fn datagram_item(
    alloc: Global,
    a: &[u8],
    b: &[u8],
    c: &[u8],
    d: &[u8],
) -> Result<Item, AllocError>
    ensures line { IfOk result (λ item. script_line_of item
        ≡ datagram_line (socket a.now) (end_at b.now) (octets c.now) (moment d.now)) }
    ensures short { IfOk result (λ item. IsShort item) }
{
    let (Some(socket), Some(from), Some(payload), Some(now)) = (
        socket(a),
        read_end(alloc, b)?,
        octets(alloc, c)?,
        moment(d),
    ) else {
        return Ok(Item::Wrong);
    };
    if payload.len() > MOST_PAYLOAD {
        return Ok(Item::Wrong);
    }
    Ok(Item::Receive {
        socket,
        from,
        payload,
        now,
    })
}

/// `r <client> shared|cached|private <key> <now>`.
pub(crate) fn request_item(
    alloc: Global,
    a: &[u8],
    b: &[u8],
    c: &[u8],
    d: &[u8],
) -> Result<Item, AllocError>
    ensures line { IfOk result (λ item. script_line_of item
        ≡ request_line (client_number a.now) (mode b.now) (key c.now) (moment d.now)) }
    ensures short { IfOk result (λ item. IsShort item) }
{
    let (Some(client), Some(mode), Some(key), Some(now)) = (
        client(a),
        mode(b),
        key(alloc, c)?,
        moment(d),
    ) else {
        return Ok(Item::Wrong);
    };
    Ok(Item::Take(Event::Request {
        client,
        key,
        mode,
        now,
    }))
}

// An object from its lifetime and age (seconds), status and body (hexadecimal). Its head is empty.
fn object(
    alloc: Global,
    a: &[u8],
    b: &[u8],
    c: &[u8],
    d: &[u8],
) -> Result<Option<SharedObject>, AllocError>
    ensures { IfOk result (λ o. o ≡ object a.now b.now c.now d.now) }
{
    let (Some(life), Some(age), Some(code), Some(body)) = (
        word(a),
        word(b),
        status(c),
        octets(alloc, d)?,
    ) else {
        return Ok(None);
    };
    let object = Object::new(code, Vec::new(alloc), body, age, life);
    Ok(Some(SharedObject::new(alloc, object)?))
}

/// `f <fetch> <attempt> <life> <age> <status> <octets> <now>`.
pub(crate) fn object_item(
    alloc: Global,
    a: &[u8],
    b: &[u8],
    c: &[u8],
    d: &[u8],
    e: &[u8],
    f: &[u8],
    g: &[u8],
) -> Result<Item, AllocError>
    ensures line { IfOk result (λ item. script_line_of item
        ≡ object_line (number 4294967295 a.now) (number 65535 b.now) (object c.now d.now e.now f.now) (moment g.now)) }
    ensures short { IfOk result (λ item. IsShort item) }
{
    match object(alloc, c, d, e, f)? {
        Some(object) => Ok(fetched_item(a, b, Outcome::Object(object), g)),
        None => Ok(Item::Wrong),
    }
}
