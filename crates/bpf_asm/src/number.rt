//! Numerals and their values.

ghost use Rattle.std.specs.Prelude.{◌≡◌, ◌^◌, ◌-◌, ◌<◌, ◌≤◌, ◌⊎◌, ℕ, min, length, MatchOption};
ghost use Rattle.std.specs.List.{list_all};
ghost use Rattle.std.specs.Char.{is_ascii_digit, is_ascii_hexdigit};
ghost use Rattle.bpf_asm.specs.Number.{digit_value, value_in_base, Spells, IsAddress, notation, after_two, IsNumber};
ghost use Rattle.bpf_asm.specs.Reading.{is_address, is_numeral};

use std::net::Ipv4Addr;

/// How a word writes a number: in decimal, in hexadecimal after `0x`, or as an IPv4 address in dotted form.
#[derive(Clone, Copy)]
pub(crate) enum Notation {
    Decimal,
    Hexadecimal,
    Address,
}

// The notation of a word.
fn notation_of(word: &[u8]) -> Notation
    ensures { result ≡ notation word.now }
{
    let (front, _) = word.split_at(2.min(word.len()));
    if word.contains(&b'.') {
        Notation::Address
    } else if front == b"0x".as_slice() {
        Notation::Hexadecimal
    } else {
        Notation::Decimal
    }
}

// The octets after the first two, or none if there are fewer.
fn after_two_of(word: &[u8]) -> &[u8]
    ensures { result.now ≡ after_two word.now }
{
    word.split_at(2.min(word.len())).1
}

// The value of a digit.
fn digit_of(c: u8) -> u64
    ensures { result ≡ digit_value c }
{
    let value = if c.is_ascii_digit() {
        c.saturating_sub(b'0')
    } else if c < b'a' {
        c.saturating_sub(b'A' - 10)
    } else {
        c.saturating_sub(b'a' - 10)
    };
    u64::from(value)
}

// The value of the digits, saturated at `u64::MAX`.
fn value_of(base: u64, digits: &[u8]) -> u64
    requires { 0 < base }
    ensures { result ≡ min (value_in_base base 0 digits.now) (2 ^ 64 - 1) }
{
    let mut n: u64 = 0;
    for c in digits {
        n = n.saturating_mul(base).saturating_add(digit_of(*c));
    }
    n
}

// The value of the digits, or `None` if there is no digit or the value does not fit 32 bits.
fn small_of(base: u64, digits: &[u8]) -> Option<u32>
    requires { 0 < base }
    ensures { MatchOption result ((n : ℕ) → n < 2 ^ 32 → Spells base digits.now n → ⊥)
        (λ n. Spells base digits.now n) }
{
    if digits.is_empty() {
        return None;
    }
    u32::try_from(value_of(base, digits)).ok()
}

// The value of an IPv4 address in dotted form, or `None` if the word is none.
fn address_of(word: &[u8]) -> Option<u32>
    ensures { MatchOption result ((n : ℕ) → IsAddress word.now n → ⊥) (λ n. IsAddress word.now n) }
{
    let Ok(address) = Ipv4Addr::parse_ascii(word) else {
        return None;
    };
    Some(address.to_bits())
}

/// The value of a numeral, or `None` if it has no digit or does not fit 32 bits.
#[tactic(auto, unfolding(crate::specs::Number::IsNumber))]
pub(crate) fn number_of(word: &[u8]) -> Option<u32>
    ensures { MatchOption result ((n : ℕ) → IsNumber word.now n → ⊥) (λ n. IsNumber word.now n) }
{
    match notation_of(word) {
        Notation::Decimal => small_of(10, word),
        Notation::Hexadecimal => small_of(16, after_two_of(word)),
        Notation::Address => address_of(word),
    }
}

fn all_digits(text: &[u8]) -> bool
    ensures { result ≡ list_all is_ascii_digit text.now }
{
    text.iter().all(|c| c.is_ascii_digit())
}

fn all_hexdigits(text: &[u8]) -> bool
    ensures { result ≡ list_all is_ascii_hexdigit text.now }
{
    text.iter().all(|c| c.is_ascii_hexdigit())
}

fn is_address_of(word: &[u8]) -> bool
    ensures { result ≡ is_address word.now }
{
    Ipv4Addr::parse_ascii(word).is_ok()
}

/// Whether a word is a numeral; decimal and hexadecimal ones may lack digits.
#[tactic(auto, unfolding(crate::specs::Reading::is_numeral))]
pub(crate) fn is_numeral_of(word: &[u8]) -> bool
    ensures { result ≡ is_numeral word.now }
{
    match notation_of(word) {
        Notation::Decimal => all_digits(word),
        Notation::Hexadecimal => all_hexdigits(after_two_of(word)),
        Notation::Address => is_address_of(word),
    }
}
