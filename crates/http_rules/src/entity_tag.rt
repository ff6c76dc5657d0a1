//! Entity tags (RFC 9110, section 8.8.3), their lists, and the two ways to compare them.
ghost use Rattle.std.specs.Prelude.{◌≡◌, ◌≤◌, ◌∷◌, length, false};
ghost use Rattle.std.specs.List.{list_all};
ghost use Rattle.std.specs.Option.{option_copied};
ghost use Rattle.http_rules.specs.Elements.{octets_left};
ghost use Rattle.http_rules.specs.EntityTags.{quoted_after, tag_element_len, tag_elements, tag_elements_left, is_tag_octet, is_opaque_tag, is_weak, opaque_tag, is_entity_tag, match_strongly, match_weakly, is_list_element, is_tag_list, has_weak_match, lists_weak_match};

use crate::text::trimmed;

/// Whether a text is an entity tag: an opaque tag, with `W/` in front of it if it is weak.
pub(crate) fn is_entity_tag(text: &[u8]) -> bool
    ensures { result ≡ is_entity_tag text.now }
{
    is_opaque_tag(opaque_tag(text))
}

// Whether a text is an opaque tag.
fn is_opaque_tag(text: &[u8]) -> bool
    ensures { result ≡ is_opaque_tag text.now }
{
    let len = text.len();
    2 <= len && text[0] == b'"' && text[len - 1] == b'"' && are_tag_octets(&text[1..len - 1])
}

// Whether all octets may stand in an opaque tag.
fn are_tag_octets(text: &[u8]) -> bool
    ensures { result ≡ list_all is_tag_octet text.now }
{
    text.iter().all(|&octet| is_tag_octet(octet))
}

// Whether an octet may stand in an opaque tag, between the double quotes.
fn is_tag_octet(octet: u8) -> bool
    ensures { result ≡ is_tag_octet octet }
{
    octet == 0x21 || (0x23 <= octet && octet <= 0x7e) || 0x80 <= octet
}

/// Whether a tag is weak.
pub(crate) fn is_weak(tag: &[u8]) -> bool
    ensures { result ≡ is_weak tag.now }
{
    2 <= tag.len() && tag[0] == b'W' && tag[1] == b'/'
}

// A tag without the mark of a weak one.
fn opaque_tag(tag: &[u8]) -> &[u8]
    ensures { result.now ≡ opaque_tag tag.now }
{
    if 2 <= tag.len() && tag[0] == b'W' && tag[1] == b'/' {
        &tag[2..]
    } else {
        tag
    }
}

/// Strong comparison (RFC 9110, section 8.8.3.2): neither tag is weak, and their opaque tags are equal.
pub(crate) fn match_strongly(a: &[u8], b: &[u8]) -> bool
    ensures { result ≡ match_strongly a.now b.now }
{
    !is_weak(a) && !is_weak(b) && opaque_tag(a) == opaque_tag(b)
}

/// Weak comparison (RFC 9110, section 8.8.3.2): the opaque tags are equal.
pub(crate) fn match_weakly(a: &[u8], b: &[u8]) -> bool
    ensures { result ≡ match_weakly a.now b.now }
{
    opaque_tag(a) == opaque_tag(b)
}

/// Whether a value is a list of entity tags of which one matches this tag by weak comparison. A value with an element that is no
/// entity tag is no such list: none of its tags counts.
pub(crate) fn lists_weak_match(tag: &[u8], value: &[u8]) -> bool
    ensures { result ≡ lists_weak_match tag.now value.now }
{
    is_tag_list(value) && has_weak_match(tag, value)
}

// Whether each element of a value is an entity tag, or empty.
fn is_tag_list(value: &[u8]) -> bool
    ensures { result ≡ is_tag_list value.now }
{
    let mut rest = Some(value);
    while let Some(text) = rest {
        let (element, others) = split_tag_element(text);
        if !is_list_element(element) {
            return false;
        }
        rest = others;
    }
    true
}

// Whether an element of a list is an entity tag, or empty.
fn is_list_element(element: &[u8]) -> bool
    ensures { result ≡ is_list_element element.now }
{
    let text = trimmed(element);
    text.is_empty() || is_entity_tag(text)
}

// Whether an element of a value matches this tag by weak comparison.
fn has_weak_match(tag: &[u8], value: &[u8]) -> bool
    ensures { result ≡ has_weak_match tag.now value.now }
{
    let mut rest = Some(value);
    while let Some(text) = rest {
        let (element, others) = split_tag_element(text);
        if match_weakly(tag, trimmed(element)) {
            return true;
        }
        rest = others;
    }
    false
}

// Splits off the first list element; the rest, after the comma, is `None` if there is no comma outside of double quotes.
fn split_tag_element(text: &[u8]) -> (&[u8], Option<&[u8]>)
    ensures value { tag_elements false text.now ≡ result.0.now ∷ tag_elements_left (option_copied result.1) }
    ensures less { octets_left (option_copied result.1) ≤ length text.now }
{
    let end = tag_element_len(text);
    if end < text.len() {
        let (_, others) = text.split_at(end + 1);
        (&text[..end], Some(others))
    } else {
        (text, None)
    }
}

// The length of the first list element of a text.
fn tag_element_len(text: &[u8]) -> usize
    ensures value { result ≡ tag_element_len false text.now }
    ensures bound { result ≤ length text.now }
{
    let mut is_quoted = false;
    for i in 0..text.len() {
        if !is_quoted && text[i] == b',' {
            return i;
        }
        is_quoted = is_quoted_after(is_quoted, text[i]);
    }
    text.len()
}

// Whether the place after this octet is inside double quotes, where no octet is escaped.
fn is_quoted_after(is_quoted: bool, octet: u8) -> bool
    ensures { result ≡ quoted_after is_quoted octet }
{
    if octet == b'"' { !is_quoted } else { is_quoted }
}
