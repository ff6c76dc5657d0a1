//! Turns the words of a line into an item, by their number and the first word.
ghost use Rattle.std.specs.Prelude.{◌≡◌, IfOk, map};
ghost use Rattle.script_lines.specs.Item.{script_line_of, IsShort};
ghost use Rattle.script_lines.specs.ScriptLine.{one_word, two_words, three_words, four_words, five_words, seven_words, eight_words, line_of_fields};

use super::event::{
    datagram_item, failed_item, gone_item, neighbour_swap_item, object_item, request_item,
    swap_item, timer_item,
};
use super::item::Item;
use super::setting::{
    allow_item, key_item, limits_item, neighbour_item, nofetch_item, origin_item, own_item,
};
use super::slot::socket_slot;
use std::alloc::{AllocError, Global};

fn one_word(word: &[u8]) -> Item
    ensures line { script_line_of result ≡ one_word word.now }
    ensures short { IsShort result }
{
    if word == b"go".as_slice() {
        Item::Go
    } else if word == b"?".as_slice() {
        Item::Ask
    } else {
        Item::Wrong
    }
}

fn two_words(alloc: Global, word: &[u8], a: &[u8]) -> Result<Item, AllocError>
    ensures line { IfOk result (λ item. script_line_of item ≡ two_words word.now a.now) }
    ensures short { IfOk result (λ item. IsShort item) }
{
    if word == b"own".as_slice() {
        own_item(alloc, a)
    } else if word == b"allow".as_slice() {
        allow_item(alloc, a)
    } else if word == b"nofetch".as_slice() {
        Ok(nofetch_item(a))
    } else if word == b"origin".as_slice() {
        Ok(origin_item(a))
    } else if word == b"t".as_slice() {
        Ok(timer_item(a))
    } else if word == b"g".as_slice() {
        Ok(gone_item(a))
    } else {
        Ok(Item::Wrong)
    }
}

fn three_words(alloc: Global, word: &[u8], a: &[u8], b: &[u8]) -> Result<Item, AllocError>
    ensures line { IfOk result (λ item. script_line_of item ≡ three_words word.now a.now b.now) }
    ensures short { IfOk result (λ item. IsShort item) }
{
    if word == b"s".as_slice() {
        swap_item(alloc, socket_slot(a), b)
    } else if word == b"limits".as_slice() {
        Ok(limits_item(a, b))
    } else if word == b"key".as_slice() {
        key_item(alloc, a, b)
    } else {
        Ok(Item::Wrong)
    }
}

fn four_words(alloc: Global, word: &[u8], a: &[u8], b: &[u8], c: &[u8]) -> Result<Item, AllocError>
    ensures line { IfOk result (λ item. script_line_of item ≡ four_words word.now a.now b.now c.now) }
    ensures short { IfOk result (λ item. IsShort item) }
{
    if word == b"x".as_slice() {
        Ok(failed_item(a, b, c))
    } else if word == b"s".as_slice() {
        neighbour_swap_item(alloc, a, b, c)
    } else {
        Ok(Item::Wrong)
    }
}

fn five_words(
    alloc: Global,
    word: &[u8],
    a: &[u8],
    b: &[u8],
    c: &[u8],
    d: &[u8],
) -> Result<Item, AllocError>
    ensures line { IfOk result (λ item. script_line_of item ≡ five_words word.now a.now b.now c.now d.now) }
    ensures short { IfOk result (λ item. IsShort item) }
{
    if word == b"d".as_slice() {
        datagram_item(alloc, a, b, c, d)
    } else if word == b"r".as_slice() {
        request_item(alloc, a, b, c, d)
    } else {
        Ok(Item::Wrong)
    }
}

fn seven_words(
    alloc: Global,
    word: &[u8],
    a: &[u8],
    b: &[u8],
    c: &[u8],
    d: &[u8],
    e: &[u8],
    f: &[u8],
) -> Result<Item, AllocError>
    ensures line { IfOk result (λ item. script_line_of item ≡ seven_words word.now a.now b.now c.now d.now e.now f.now) }
    ensures short { IfOk result (λ item. IsShort item) }
{
    if word == b"peer".as_slice() {
        neighbour_item(alloc, a, b, c, d, e, f)
    } else {
        Ok(Item::Wrong)
    }
}

fn eight_words(
    alloc: Global,
    word: &[u8],
    a: &[u8],
    b: &[u8],
    c: &[u8],
    d: &[u8],
    e: &[u8],
    f: &[u8],
    g: &[u8],
) -> Result<Item, AllocError>
    ensures line { IfOk result (λ item. script_line_of item ≡ eight_words word.now a.now b.now c.now d.now e.now f.now g.now) }
    ensures short { IfOk result (λ item. IsShort item) }
{
    if word == b"f".as_slice() {
        object_item(alloc, a, b, c, d, e, f, g)
    } else {
        Ok(Item::Wrong)
    }
}

/// Turns the words of a line into an item; [`Item::Wrong`] if no line of the format has these words. Errors: out of memory.
pub(crate) fn line_of(alloc: Global, fields: &[&[u8]]) -> Result<Item, AllocError>
    ensures line { IfOk result (λ item. script_line_of item ≡ line_of_fields (map (λ x. x.now) fields.now)) }
    ensures short { IfOk result (λ item. IsShort item) }
{
    match fields {
        [word] => Ok(one_word(*word)),
        [word, a] => two_words(alloc, *word, *a),
        [word, a, b] => three_words(alloc, *word, *a, *b),
        [word, a, b, c] => four_words(alloc, *word, *a, *b, *c),
        [word, a, b, c, d] => five_words(alloc, *word, *a, *b, *c, *d),
        [word, a, b, c, d, e, f] => seven_words(alloc, *word, *a, *b, *c, *d, *e, *f),
        [word, a, b, c, d, e, f, g] => eight_words(alloc, *word, *a, *b, *c, *d, *e, *f, *g),
        _ => Ok(Item::Wrong),
    }
}
