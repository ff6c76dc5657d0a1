//! What is stored, as JSON.
use filter_slots::Moment;
use json::Writer;
use node_words::Sizes;
use object_store::{CacheKey, Entry};
use std::alloc::{AllocError, Global};

/// How much is stored, and the objects that were used last, the most recently used first.
pub fn store_text(
    alloc: Global,
    sizes: Sizes,
    newest: &[(CacheKey, Entry)],
    now: Moment,
) -> Option<String> {
    let mut out = Writer::new(Vec::new(alloc));
    write_store(&mut out, sizes, newest, now).ok()?;
    line_of(out)
}

/// One stored object.
pub fn stored_text(alloc: Global, key: &CacheKey, entry: &Entry, now: Moment) -> Option<String> {
    let mut out = Writer::new(Vec::new(alloc));
    write_entry(&mut out, key, entry, now).ok()?;
    line_of(out)
}

// What was written, and LF.
fn line_of(out: Writer) -> Option<String> {
    let mut text = String::from_utf8(out.into_inner()).ok()?;
    text.push('\n').ok()?;
    Some(text)
}

fn write_store(
    out: &mut Writer,
    sizes: Sizes,
    newest: &[(CacheKey, Entry)],
    now: Moment,
) -> Result<(), AllocError> {
    out.begin_object()?;
    out.key("objects")?;
    out.u64(sizes.objects as u64)?;
    out.key("octets")?;
    out.u64(sizes.octets)?;
    out.key("evictions")?;
    out.u64(sizes.evictions)?;
    out.key("newest")?;
    out.begin_array()?;
    for (key, entry) in newest {
        write_entry(out, key, entry, now)?;
    }
    out.end_array()?;
    out.end_object()
}

// An object, how old it is, and for how many seconds it stays fresh.
fn write_entry(
    out: &mut Writer,
    key: &CacheKey,
    entry: &Entry,
    now: Moment,
) -> Result<(), AllocError> {
    let object = entry.object.get();
    out.begin_object()?;
    out.key("url")?;
    // A key is visible ASCII.
    out.string(str::from_utf8(key.as_slice()).unwrap_or(""))?;
    out.key("status")?;
    out.u64(u64::from(object.status()))?;
    out.key("octets")?;
    out.u64(object.body().len() as u64)?;
    out.key("age")?;
    out.u64(u64::from(object.age()).saturating_add(stay_of(entry, now)))?;
    out.key("fresh_for")?;
    out.u64(u64::from(object.life()).saturating_sub(stay_of(entry, now)))?;
    out.end_object()
}

// For how many seconds an object has been stored.
fn stay_of(entry: &Entry, now: Moment) -> u64 {
    now.millis().saturating_sub(entry.at.millis()) / 1000
}
