//! Texts that are no JSON by RFC 8259, each with the octet at which that shows, and what its grammar has there.

use serve_config::{Expected, expected_at, offset_of};

const ROWS: [(&str, usize, Expected); 27] = [
    ("", 0, Expected::Value),
    ("  \n", 3, Expected::Value),
    ("// c\n{}", 0, Expected::Value),
    ("{", 1, Expected::NameOrEnd),
    ("{a: 1}", 1, Expected::NameOrEnd),
    (r#"{"a": 1, }"#, 9, Expected::Name),
    (r#"{"a": 1, 'b': 2}"#, 9, Expected::Name),
    (r#"{"a" 1}"#, 5, Expected::Colon),
    (r#"{"a", 1}"#, 4, Expected::Colon),
    (r#"{"a": }"#, 6, Expected::Value),
    (r#"{"a": 'x'}"#, 6, Expected::Value),
    (r#"{"a": 1 "b": 2}"#, 8, Expected::NextMember),
    (r#"{"a": [] "b": 2}"#, 9, Expected::NextMember),
    (r#"{"a": {"b": 2"#, 13, Expected::NextMember),
    (r#"{"a": 1]"#, 7, Expected::NextMember),
    ("[", 1, Expected::ValueOrEnd),
    ("[,", 1, Expected::ValueOrEnd),
    ("[1 2]", 3, Expected::NextItem),
    ("[[1], {}", 8, Expected::NextItem),
    ("[1, ]", 4, Expected::Value),
    (r#"{"a": 1} x"#, 9, Expected::Nothing),
    (r#"{"a": 1}}"#, 8, Expected::Nothing),
    (r#"{"a": tru}"#, 6, Expected::Word),
    (r#"{"a": 01}"#, 6, Expected::Word),
    (r#"{"a": "x\q"}"#, 6, Expected::Text),
    (r#"{"a": "x\"}"#, 11, Expected::RestOfText),
    (r#"{"\\" 1}"#, 6, Expected::Colon),
];

// The first row in which something else is expected.
fn first_other() -> Option<usize> {
    ROWS.iter().position(|(text, at, wanted)| expected_at(text.as_bytes(), *at) != *wanted)
}

#[test]
fn what_the_grammar_has_where_a_text_is_none(rt: HostRuntime) {
    assert_eq!(rt; first_other(), None);
}

// So many lists, each in the one before.
fn is_too_deep(lists: usize) -> bool {
    let text = [b'['; 200];
    expected_at(&text, lists) == Expected::Shallower
}

#[test]
fn only_so_many_are_in_one_another(rt: HostRuntime) {
    assert!(rt; !is_too_deep(126));
    assert!(rt; is_too_deep(127));
}

#[test]
fn a_place_by_line_and_column(rt: HostRuntime) {
    let text = b"{\n \"a\": }\n";
    assert_eq!(rt; offset_of(text, 1, 1), 0);
    assert_eq!(rt; offset_of(text, 2, 7), 8);
    assert_eq!(rt; offset_of(text, 3, 1), text.len());
    assert_eq!(rt; offset_of(text, 1, 9), text.len());
}
