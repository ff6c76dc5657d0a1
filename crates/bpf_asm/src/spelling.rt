//! Matches the tokens of a line with the pieces of an operation.

ghost use Rattle.std.specs.Prelude.{◌≡◌, ◌<◌, ◌≤◌, ◌∷◌, length, map};
ghost use Rattle.std.specs.Option.{option_map};
ghost use Rattle.bpf_asm.specs.Shown.{shown_front, shown_words};
ghost use Rattle.bpf_asm.specs.Spelling.{kind};
ghost use Rattle.bpf_asm.specs.Token.{tokens};
ghost use Rattle.bpf_asm.specs.Reading.{number_front, label_front, left_of, fill, open_places};

use crate::form::{Piece, fixed_of};
use crate::number::is_numeral_of;
use crate::token::{is_label_of, next_token, starts_word_of};

/// The word for a placeholder, and the rest of the line.
#[derive(Clone, Copy)]
pub(crate) struct Front<'a> {
    pub word: &'a [u8],
    pub left: &'a [u8],
}

/// The words for the placeholders of a line, from left to right. No operation has more than three.
#[derive(Clone, Copy)]
pub(crate) enum Words<'a> {
    Empty,
    One(&'a [u8]),
    Two(&'a [u8], &'a [u8]),
    Three(&'a [u8], &'a [u8], &'a [u8]),
}

// The number at the front, the empty word if it is missing, or `None` if another word is there.
fn number_at(text: &[u8]) -> Option<Front<'_>>
    ensures { option_map shown_front result ≡ number_front (tokens text.now) }
{
    let Some((token, left)) = next_token(text) else {
        return Some(Front {
            word: &[],
            left: text,
        });
    };
    if token.is_empty() {
        return None;
    }
    if is_numeral_of(token) {
        return Some(Front { word: token, left });
    }
    if starts_word_of(token) {
        return None;
    }
    Some(Front {
        word: &[],
        left: text,
    })
}

// The label at the front, if there is one.
fn label_at(text: &[u8]) -> Option<Front<'_>>
    ensures { option_map shown_front result ≡ label_front (tokens text.now) }
{
    let (token, left) = next_token(text)?;
    if !is_label_of(token) {
        return None;
    }
    Some(Front { word: token, left })
}

// The rest of the line after the expected token, or `None` if the first token is another one.
fn after_token<'a>(expected: &str, text: &'a [u8]) -> Option<&'a [u8]>
    ensures { option_map (λ x. tokens x.now) result ≡ left_of expected.now (tokens text.now) }
{
    let (token, left) = next_token(text)?;
    if token != expected.as_bytes() {
        return None;
    }
    Some(left)
}

// The words with this one in front. `words` has at most two.
fn put_first<'a>(word: &'a [u8], words: Words<'a>) -> Words<'a>
    requires { length (shown_words words) < 3 }
    ensures { shown_words result ≡ word.now ∷ shown_words words.entry }
{
    match words {
        Words::Empty => Words::One(word),
        Words::One(second) => Words::Two(word, second),
        Words::Two(second, third) => Words::Three(word, second, third),
        Words::Three(_, _, _) => unreachable!(),
    }
}

/// The words for the placeholders of the pieces, or `None` if the text doesn't match them.
pub(crate) fn words_in<'a>(pieces: &[Piece], text: &'a [u8]) -> Option<Words<'a>>
    requires { open_places (map kind pieces.now) ≤ 3 }
    ensures { option_map shown_words result ≡ fill (map kind pieces.now) (tokens text.now) }
{
    let Some((piece, rest)) = pieces.split_first() else {
        return if next_token(text).is_none() {
            Some(Words::Empty)
        } else {
            None
        };
    };
    match *piece {
        Piece::Number => {
            let front = number_at(text)?;
            let words = words_in(rest, front.left)?;
            Some(put_first(front.word, words))
        }
        Piece::Label => {
            let front = label_at(text)?;
            let words = words_in(rest, front.left)?;
            Some(put_first(front.word, words))
        }
        piece => words_in(rest, after_token(fixed_of(piece), text)?),
    }
}
