//! The tokens of a line.

ghost use Rattle.std.specs.Prelude.{◌≡◌, true, MatchOption, [], ◌∷◌};
ghost use Rattle.std.specs.List.{position};
ghost use Rattle.bpf_asm.specs.Token.{is_word_octet, begins_number, goes_on, is_text, tokens, starts_word, is_label};
ghost use Rattle.bpf_asm.specs.Reading.{ends_word};

fn is_word_octet_of(c: u8) -> bool
    ensures { result ≡ is_word_octet c }
{
    c.is_ascii_alphanumeric() || c == b'_'
}

fn begins_number_of(word: &[u8]) -> bool
    ensures { result ≡ begins_number word.now }
{
    match word {
        [c, ..] => c.is_ascii_digit(),
        [] => false,
    }
}

// Whether an octet goes on with a word: a dot does so only in a number.
fn goes_on_of(word: &[u8], c: u8) -> bool
    ensures { result ≡ goes_on word.now c }
{
    is_word_octet_of(c) || (c == b'.' && begins_number_of(word))
}

// The index of the first octet that is not a blank.
fn text_in(line: &[u8]) -> Option<usize>
    ensures { result ≡ position is_text line.now }
{
    line.iter().position(|c| !(*c == b' ' || *c == b'\t'))
}

// The index of the first octet that doesn't go on with the word at the front.
fn word_end_in(text: &[u8]) -> Option<usize>
    ensures { result ≡ position (ends_word text.now) text.now }
{
    text.iter().position(|c| !goes_on_of(text, *c))
}

// The word at the front of a text, and the rest of the text.
fn split_word(text: &[u8]) -> (&[u8], &[u8])
    requires { starts_word text.now ≡ true }
    ensures { tokens text.now ≡ result.0.now ∷ tokens result.1.now }
{
    let Some(end) = word_end_in(text) else {
        return (text, &[]);
    };
    (&text[..end], &text[end..])
}

/// The first token of a line and the rest of the line, or `None` if the line has no token left.
pub(crate) fn next_token(line: &[u8]) -> Option<(&[u8], &[u8])>
    ensures { MatchOption result (tokens line.now ≡ [])
        (λ split. tokens line.now ≡ split.0.now ∷ tokens split.1.now) }
{
    let Some(start) = text_in(line) else {
        return None;
    };
    let text = &line[start..];
    let Some((first, rest)) = text.split_first() else {
        return None;
    };
    if *first == b';' {
        return None;
    }
    if is_word_octet_of(*first) {
        return Some(split_word(text));
    }
    Some((&text[..1], rest))
}

pub(crate) fn starts_word_of(token: &[u8]) -> bool
    ensures { result ≡ starts_word token.now }
{
    match token {
        [c, ..] => is_word_octet_of(*c),
        [] => false,
    }
}

pub(crate) fn is_label_of(token: &[u8]) -> bool
    ensures { result ≡ is_label token.now }
{
    match token {
        [c, ..] => is_word_octet_of(*c) && !c.is_ascii_digit(),
        [] => false,
    }
}
