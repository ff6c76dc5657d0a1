//! The date of a line.
ghost use Rattle.std.specs.Prelude.{◌≡◌, ◌+◌, ◌/◌, ◌<◌, ◌≤◌, ◌++◌, length, OnOk, MatchOption};
ghost use Rattle.httpdate.specs.Date.{unix_secs};
ghost use Rattle.access_log.specs.Line.{shown_moment};
ghost use Rattle.access_log.specs.Month.{month_digits};
ghost use Rattle.access_log.specs.Stamp.{Shows, common_time, json_time, three_digits};

use httpdate::HttpDate;
use std::alloc::AllocError;

/// The last millisecond that a date of four digits has: the end of the year 9999.
const LAST_MOMENT: u64 = 253_402_300_799_999;

/// A second as a line shows it, in digits of ASCII.
#[derive(Clone, Copy)]
pub(crate) struct Stamp {
    pub(crate) year: [u8; 4],
    /// The number of the month, from 01.
    pub(crate) month: [u8; 2],
    /// As in `Nov`.
    pub(crate) month_name: [u8; 3],
    pub(crate) day: [u8; 2],
    /// As in `06:14:12`.
    pub(crate) time: [u8; 8],
}

/// The moment that a line shows, in milliseconds since 1970-01-01 UTC: the last of the year 9999 for a later one.
pub(crate) fn shown_moment(millis: u64) -> u64
    ensures { result ≡ shown_moment millis }
{
    millis.min(LAST_MOMENT)
}

/// The date that a line shows for a moment in milliseconds since 1970-01-01 UTC.
pub(crate) fn date_of(millis: u64) -> HttpDate
    ensures { unix_secs result ≡ shown_moment millis / 1000 }
{
    match HttpDate::from_unix_secs(shown_moment(millis) / 1000) {
        Ok(date) => date,
        Err(_) => unreachable!(),
    }
}

// The number of a month by its name.
fn month_digits(name: &[u8; 3]) -> [u8; 2]
    ensures { result ≡ month_digits name.now }
{
    match name {
        b"Jan" => *b"01",
        b"Feb" => *b"02",
        b"Mar" => *b"03",
        b"Apr" => *b"04",
        b"May" => *b"05",
        b"Jun" => *b"06",
        b"Jul" => *b"07",
        b"Aug" => *b"08",
        b"Sep" => *b"09",
        b"Oct" => *b"10",
        b"Nov" => *b"11",
        _ => *b"12",
    }
}

/// A date as a line shows it.
pub(crate) fn stamp_of(date: &HttpDate) -> Stamp
    ensures { Shows date.now result }
{
    // As in `Sun, 06 Nov 1994 08:49:37 GMT`.
    let text = date.to_bytes();
    let month_name = [text[8], text[9], text[10]];
    Stamp {
        year: [text[12], text[13], text[14], text[15]],
        month: month_digits(&month_name),
        month_name,
        day: [text[5], text[6]],
        time: [
            text[17], text[18], text[19], text[20], text[21], text[22], text[23], text[24],
        ],
    }
}

/// Appends a date in the form of NCSA's formats. Errors: out of memory.
#[tactic(auto, unfolding(crate::specs::Stamp::common_time))]
pub(crate) fn push_common_time(line: &mut Vec<u8>, stamp: &Stamp) -> Result<(), AllocError>
    ensures { OnOk result (line.new.items ≡ line.old.items ++ common_time stamp.now) }
{
    line.extend_from_slice(&stamp.day)?;
    line.extend_from_slice(b"/")?;
    line.extend_from_slice(&stamp.month_name)?;
    line.extend_from_slice(b"/")?;
    line.extend_from_slice(&stamp.year)?;
    line.extend_from_slice(b":")?;
    line.extend_from_slice(&stamp.time)?;
    line.extend_from_slice(b" +0000")
}

// The digits of a number below 1,000.
fn three_digits(number: u64) -> [u8; 3]
    requires { number < 1000 }
    ensures { result ≡ three_digits number }
{
    [
        b'0' + (number / 100) as u8,
        b'0' + (number / 10 % 10) as u8,
        b'0' + (number % 10) as u8,
    ]
}

/// Appends a date with milliseconds (RFC 3339). Errors: out of memory.
#[tactic(auto, unfolding(crate::specs::Stamp::json_time))]
pub(crate) fn push_json_time(
    line: &mut Vec<u8>,
    stamp: &Stamp,
    millis: u64,
) -> Result<(), AllocError>
    ensures { OnOk result (line.new.items ≡ line.old.items ++ json_time stamp.now millis) }
{
    line.extend_from_slice(&stamp.year)?;
    line.extend_from_slice(b"-")?;
    line.extend_from_slice(&stamp.month)?;
    line.extend_from_slice(b"-")?;
    line.extend_from_slice(&stamp.day)?;
    line.extend_from_slice(b"T")?;
    line.extend_from_slice(&stamp.time)?;
    line.extend_from_slice(b".")?;
    line.extend_from_slice(&three_digits(millis % 1000))?;
    line.extend_from_slice(b"Z")
}
