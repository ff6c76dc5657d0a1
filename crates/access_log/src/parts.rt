//! What both forms have in common: numbers, addresses, words, and what a client wrote.
ghost use Rattle.std.specs.Prelude.{◌≡◌, ◌++◌, codes, decimal, take, OnOk};
ghost use Rattle.std.specs.Net.Addr.{ipv6_segments};
ghost use Rattle.std.specs.Net.Text.{ipv6_text};
ghost use Rattle.access_log.specs.Escaped.{escaped, escaped_octet, hex_digit, is_plain, mark};
ghost use Rattle.access_log.specs.Line.{address_text, course_text, octets_text, status_text, supplier_text};

use crate::entry::{Course, Form, Supplier};
use std::alloc::{AllocError, Global};
use std::net::{IpAddr, Ipv6Addr};

/// The most octets of a text that a client wrote.
const MOST_OCTETS: usize = 8_192;

/// Appends a number in decimal digits. Errors: out of memory.
pub(crate) fn push_number(line: &mut Vec<u8>, number: u64) -> Result<(), AllocError>
    ensures { OnOk result (line.new.items ≡ line.old.items ++ decimal number) }
{
    let mut buffer = itoa::Buffer::new();
    line.extend_from_slice(buffer.format(number).as_bytes())
}

// Appends the octets of an address of IPv4.
#[tactic(auto, unfolding(crate::specs::Line::octets_text))]
fn push_octets(line: &mut Vec<u8>, octets: [u8; 4]) -> Result<(), AllocError>
    ensures { OnOk result (line.new.items ≡ line.old.items ++ octets_text octets) }
{
    push_number(line, u64::from(octets[0]))?;
    line.extend_from_slice(b".")?;
    push_number(line, u64::from(octets[1]))?;
    line.extend_from_slice(b".")?;
    push_number(line, u64::from(octets[2]))?;
    line.extend_from_slice(b".")?;
    push_number(line, u64::from(octets[3]))
}

// Appends an address of IPv6.
fn push_six(line: &mut Vec<u8>, alloc: Global, address: Ipv6Addr) -> Result<(), AllocError>
    ensures { OnOk result (line.new.items ≡ line.old.items ++ ipv6_text (ipv6_segments address)) }
{
    let text = format!(in alloc; "{address}")?;
    line.extend_from_slice(text.as_bytes())
}

/// Appends an address. Errors: out of memory.
#[tactic(auto, unfolding(crate::specs::Line::address_text))]
pub(crate) fn push_address(
    line: &mut Vec<u8>,
    alloc: Global,
    address: IpAddr,
) -> Result<(), AllocError>
    ensures { OnOk result (line.new.items ≡ line.old.items ++ address_text address) }
{
    match address {
        IpAddr::V4(address) => push_octets(line, address.octets()),
        IpAddr::V6(address) => push_six(line, alloc, address),
    }
}

/// Appends a status. Errors: out of memory.
#[tactic(auto, unfolding(crate::specs::Line::status_text))]
pub(crate) fn push_status(line: &mut Vec<u8>, status: Option<u16>) -> Result<(), AllocError>
    ensures { OnOk result (line.new.items ≡ line.old.items ++ status_text status) }
{
    match status {
        None => line.extend_from_slice(b"499"),
        Some(status) => push_number(line, u64::from(status)),
    }
}

/// Appends how a request was answered. Errors: out of memory.
#[tactic(auto, unfolding(crate::specs::Line::course_text))]
pub(crate) fn push_course(line: &mut Vec<u8>, course: Course) -> Result<(), AllocError>
    ensures { OnOk result (line.new.items ≡ line.old.items ++ course_text course) }
{
    match course {
        Course::Hit => line.extend_from_slice(b"hit"),
        Course::Miss => line.extend_from_slice(b"miss"),
        Course::Collapsed => line.extend_from_slice(b"collapsed"),
        Course::Bypass => line.extend_from_slice(b"bypass"),
        Course::Own => line.extend_from_slice(b"refused"),
    }
}

/// Appends whom an object was fetched from. Errors: out of memory.
#[tactic(auto, unfolding(crate::specs::Line::supplier_text))]
pub(crate) fn push_supplier(
    line: &mut Vec<u8>,
    supplier: Option<Supplier>,
) -> Result<(), AllocError>
    ensures { OnOk result (line.new.items ≡ line.old.items ++ supplier_text supplier) }
{
    match supplier {
        None => line.extend_from_slice(b"-"),
        Some(Supplier::Origin) => line.extend_from_slice(b"origin"),
        Some(Supplier::Neighbour(place)) => {
            line.extend_from_slice(b"neighbour/")?;
            push_number(line, place as u64)
        }
    }
}

// Whether an octet stands for itself: it is printable ASCII, and neither a quote nor a backslash.
fn is_plain(octet: u8) -> bool
    ensures { result ≡ is_plain octet }
{
    32 <= octet && octet <= 126 && octet != b'"' && octet != b'\\'
}

// The last hexadecimal digit of a number.
fn hex_digit(number: u8) -> u8
    ensures { result ≡ hex_digit number }
{
    let digit = number % 16;
    if digit < 10 { 48 + digit } else { 55 + digit }
}

// Appends what stands before the digits of an octet that is escaped.
fn push_mark(line: &mut Vec<u8>, form: Form) -> Result<(), AllocError>
    ensures { OnOk result (line.new.items ≡ line.old.items ++ mark form) }
{
    match form {
        Form::Common => line.extend_from_slice(b"\\x"),
        Form::Json => line.extend_from_slice(b"\\u00"),
    }
}

// Appends an octet, or what stands for it.
fn push_octet(line: &mut Vec<u8>, form: Form, octet: u8) -> Result<(), AllocError>
    ensures { OnOk result (line.new.items ≡ line.old.items ++ escaped_octet form octet) }
{
    if is_plain(octet) {
        return line.extend_from_slice(&[octet]);
    }
    push_mark(line, form)?;
    let digits = [hex_digit(octet / 16), hex_digit(octet)];
    line.extend_from_slice(&digits)
}

// The octets of a text that are shown.
fn front(text: &[u8]) -> &[u8]
    ensures { result.now ≡ take 8192 text.now }
{
    if text.len() <= MOST_OCTETS {
        text
    } else {
        &text[..MOST_OCTETS]
    }
}

/// Appends the first 8,192 octets of a text that a client wrote, escaped. Errors: out of memory.
#[tactic(auto, unfolding(crate::specs::Escaped::escaped))]
pub(crate) fn push_text(line: &mut Vec<u8>, form: Form, text: &[u8]) -> Result<(), AllocError>
    ensures { OnOk result (line.new.items ≡ line.old.items ++ escaped form text.now) }
{
    let shown = front(text);
    for octet in shown {
        push_octet(line, form, *octet)?;
    }
    Ok(())
}
