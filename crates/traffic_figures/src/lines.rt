//! Lines of the text format of Prometheus, version 0.0.4. All functions append; errors: out of memory.

ghost use Rattle.std.specs.Prelude.{◌≡◌, ◌++◌, OnOk};
ghost use Rattle.traffic_figures.specs.Escapes.{escape, escaped};

use crate::times::{BOUNDS, Times};
use itoa::Buffer;
use std::alloc::{AllocError, Global};

/// A label of a sample: its name and its value.
pub(crate) type Label<'a> = (&'static str, &'a str);

/// What a family of samples is.
#[derive(Clone, Copy)]
pub(crate) enum Kind {
    Counter,
    Gauge,
    Histogram,
}

fn put(out: &mut Vec<u8>, text: &str) -> Result<(), AllocError>
    ensures { OnOk result (out.new.items ≡ out.old.items ++ text.now) }
{
    out.extend_from_slice(text.as_bytes())
}

/// The two lines above the samples of a family. Nothing is escaped here: all callers pass names and helps of the program's own, none
/// of which has a character that would have to be.
pub(crate) fn put_family(
    out: &mut Vec<u8>,
    name: &str,
    kind: Kind,
    help: &str,
) -> Result<(), AllocError> {
    put(out, "# HELP ")?;
    put(out, name)?;
    put(out, " ")?;
    put(out, help)?;
    put(out, "\n# TYPE ")?;
    put(out, name)?;
    put(out, " ")?;
    put(out, kind_name(kind))?;
    put(out, "\n")
}

fn kind_name(kind: Kind) -> &'static str {
    match kind {
        Kind::Counter => "counter",
        Kind::Gauge => "gauge",
        Kind::Histogram => "histogram",
    }
}

/// The value of a label, as it stands between its quotes.
pub(crate) fn put_escaped(out: &mut Vec<u8>, text: &str) -> Result<(), AllocError>
    ensures { OnOk result (out.new.items ≡ out.old.items ++ escaped text.now) }
{
    for octet in text.as_bytes() {
        put_escape(out, *octet)?;
    }
    Ok(())
}

fn put_escape(out: &mut Vec<u8>, octet: u8) -> Result<(), AllocError>
    ensures { OnOk result (out.new.items ≡ out.old.items ++ escape octet) }
{
    match octet {
        b'\\' => out.extend_from_slice(b"\\\\"),
        b'"' => out.extend_from_slice(b"\\\""),
        b'\n' => out.extend_from_slice(b"\\n"),
        _ => out.extend_from_slice(&[octet]),
    }
}

fn put_labels(out: &mut Vec<u8>, labels: &[Label<'_>]) -> Result<(), AllocError> {
    let mut before = "{";
    for (name, value) in labels {
        put(out, before)?;
        put(out, name)?;
        put(out, "=\"")?;
        put_escaped(out, value)?;
        put(out, "\"")?;
        before = ",";
    }
    if labels.is_empty() {
        return Ok(());
    }
    put(out, "}")
}

/// A sample whose value is this text.
pub(crate) fn put_text(
    out: &mut Vec<u8>,
    name: &str,
    labels: &[Label<'_>],
    value: &str,
) -> Result<(), AllocError> {
    put(out, name)?;
    put_labels(out, labels)?;
    put(out, " ")?;
    put(out, value)?;
    put(out, "\n")
}

/// A sample.
pub(crate) fn put_sample(
    out: &mut Vec<u8>,
    name: &str,
    labels: &[Label<'_>],
    value: u64,
) -> Result<(), AllocError> {
    let mut buffer = Buffer::new();
    put_text(out, name, labels, buffer.format(value))
}

/// A family of one sample without labels, or nothing for `None`.
pub(crate) fn put_one(
    out: &mut Vec<u8>,
    name: &str,
    kind: Kind,
    help: &str,
    value: Option<u64>,
) -> Result<(), AllocError> {
    let Some(value) = value else {
        return Ok(());
    };
    put_family(out, name, kind, help)?;
    put_sample(out, name, &[], value)
}

/// Microseconds as seconds with six decimals.
pub(crate) fn seconds_text(alloc: Global, micros: u64) -> Result<String, AllocError> {
    let whole = micros / 1_000_000;
    let millionths = micros % 1_000_000;
    format!(in alloc; "{whole}.{millionths:06}")
}

/// A histogram of seconds.
pub(crate) fn put_histogram(
    out: &mut Vec<u8>,
    alloc: Global,
    name: &str,
    help: &str,
    times: &Times,
) -> Result<(), AllocError> {
    put_family(out, name, Kind::Histogram, help)?;
    for (bucket, bound) in BOUNDS.iter().enumerate() {
        put_bucket(out, name, bound, times.up_to(bucket))?;
    }
    put_sum(out, alloc, name, times.micros)?;
    put(out, name)?;
    put_sample(out, "_count", &[], times.count())
}

// How many times are up to this bound.
fn put_bucket(out: &mut Vec<u8>, name: &str, bound: &str, count: u64) -> Result<(), AllocError> {
    put(out, name)?;
    put_sample(out, "_bucket", &[("le", bound)], count)
}

// The sum of times.
fn put_sum(out: &mut Vec<u8>, alloc: Global, name: &str, micros: u64) -> Result<(), AllocError> {
    put(out, name)?;
    let sum = seconds_text(alloc, micros)?;
    let written = put_text(out, "_sum", &[], sum.as_str());
    drop(sum);
    written
}
