//! Which argument lists ask for something of this crate, and for what.
ghost use Rattle.std.specs.Prelude.{◌≡◌, IfOk, IfSome, IsSomeAnd, None, Ok, false, drop, is_some, map, option_map, string_bytes, true};
ghost use Rattle.std.specs.List.{list_any};
ghost use Rattle.commands.specs.Asking.{IsAskedBy, IsConfiguration, IsText, IsVersion, asks_for_text, asks_for_version, checked, checked_in, has_check, is_asking_word, is_text_word, is_version_word, version_line};

use crate::program::program;
use clap::error::ErrorKind;
use clap::{ArgMatches, Error};
use std::alloc::{AllocError, Global};

/// What an argument list may ask for.
#[derive(Drop)]
pub enum Question<'a> {
    /// To print this help text or version.
    Text(String),
    /// To check this configuration file.
    Configuration(&'a str),
}

/// What an argument list asks for, which begins with the program's name; `None` if it is no question of these, or not a right one.
/// `version` is what `--version` tells.
///
/// Errors: out of memory.
#[tactic(auto, using(crate::proofs::Words::text_asks, crate::proofs::Words::check_asks, crate::proofs::Words::version_asks, crate::proofs::Words::check_named))]
pub fn asked<'a>(
    alloc: Global,
    version: &'a str,
    words: &'a [String],
) -> Result<Option<Question<'a>>, AllocError>
    ensures none { list_any (λ word. is_asking_word (string_bytes word)) (drop 1 words.entry.now) ≡ false → result ≡ Ok None }
    ensures text { asks_for_text (map string_bytes words.entry.now) ≡ true → IfOk result (λ question. IsSomeAnd question IsText) }
    ensures version { asks_for_version (map string_bytes words.entry.now) ≡ true → IfOk result (λ question. IsSomeAnd question (IsVersion version.entry.now)) }
    ensures check { IfSome (checked (map string_bytes words.entry.now)) (λ file. IfOk result (λ question. IsSomeAnd question (IsConfiguration file))) }
    ensures flag { IfOk result (λ question. IfSome question (IsAskedBy words.entry.now)) }
{
    if !is_asking(words) {
        return Ok(None);
    }
    if let Some(word) = text_word(words) {
        return Ok(Some(told(alloc, version, word)?));
    }
    if let Some(file) = checked_file(words) {
        return Ok(Some(Question::Configuration(file)));
    }
    taken_apart(alloc, version, words)
}

// The word for a text that stands alone behind the program's name.
fn text_word<'a>(words: &'a [String]) -> Option<&'a str>
    ensures text { is_some result ≡ asks_for_text (map string_bytes words.entry.now) }
    ensures version { asks_for_version (map string_bytes words.entry.now) ≡ true → IfSome result (λ word. is_version_word word.now ≡ true) }
{
    match words {
        [_, word] if is_text_word(word.as_str()) => Some(word.as_str()),
        _ => None,
    }
}

// The text that one of the words for a text asks for alone.
fn told<'a>(alloc: Global, version: &str, word: &str) -> Result<Question<'a>, AllocError>
    ensures text { IfOk result IsText }
    ensures version { is_version_word word.now ≡ true → IfOk result (IsVersion version.now) }
{
    if is_version_word(word) {
        return Ok(Question::Text(version_line(alloc, version)?));
    }
    let mut command = program(alloc, version)?;
    let text = command.render_help();
    drop(command);
    Ok(Question::Text(text?))
}

// The program's name and this version, as `clap` writes them, too.
fn version_line(alloc: Global, version: &str) -> Result<String, AllocError>
    ensures { IfOk result (λ text. string_bytes text ≡ version_line version.now) }
{
    let mut text = String::from_str(alloc, "cache_main ")?;
    text.push_str(version)?;
    text.push_str("\n")?;
    Ok(text)
}

// The configuration that `serve --check` is to check, if that is what an argument list asks for.
fn checked_file<'a>(words: &'a [String]) -> Option<&'a str>
    ensures { option_map (λ file. file.now) result ≡ checked (map string_bytes words.entry.now) }
{
    match words {
        [_, command, one, other] => checked_in(command.as_str(), one.as_str(), other.as_str()),
        _ => None,
    }
}

// The same of the words after the program's name. A word that may be an option is left to `clap`.
fn checked_in<'a>(command: &str, one: &'a str, other: &'a str) -> Option<&'a str>
    ensures { option_map (λ file. file.now) result ≡ checked_in command.now one.now other.now }
{
    if command != "serve" {
        None
    } else if one == "--check" && !other.starts_with('-') {
        Some(other)
    } else if other == "--check" && !one.starts_with('-') {
        Some(one)
    } else {
        None
    }
}

// What a command line asks for, as `clap` takes it apart. Errors: out of memory.
fn taken_apart<'a>(
    alloc: Global,
    version: &'a str,
    words: &'a [String],
) -> Result<Option<Question<'a>>, AllocError>
    ensures { IfOk result (λ question. IfSome question (IsAskedBy words.entry.now)) }
{
    let mut command = program(alloc, version)?;
    let found = command.try_get_matches_from_mut(words);
    drop(command);
    question_of(alloc, has_check(words), found)
}

// What a command line asks for that was taken apart so; `has_check` is whether one of its words is `--check`. Errors: out of memory.
fn question_of<'a>(
    alloc: Global,
    has_check: bool,
    found: Result<ArgMatches<'a>, Error>,
) -> Result<Option<Question<'a>>, AllocError>
    ensures { has_check ≡ false → IfOk result (λ question. IfSome question IsText) }
{
    match found {
        Ok(matches) => {
            let configuration = configuration_of(&matches);
            drop(matches);
            if !has_check {
                return Ok(None);
            }
            Ok(configuration.map(Question::Configuration))
        }
        Err(error) => {
            let told = told_by(alloc, &error);
            drop(error);
            told
        }
    }
}

// What a command line asks for that was not taken apart, since it asks for a help text or the version, or is none. Errors: out of memory.
fn told_by<'a>(alloc: Global, error: &Error) -> Result<Option<Question<'a>>, AllocError>
    ensures { IfOk result (λ question. IfSome question IsText) }
{
    if error.kind() == ErrorKind::OutOfMemory {
        return Err(AllocError);
    }
    if error.use_stderr() {
        return Ok(None);
    }
    Ok(Some(Question::Text(format!(in alloc; "{error}")?)))
}

// Whether one of the words after the program's name is one that this crate answers to.
fn is_asking(words: &[String]) -> bool
    ensures { result ≡ list_any (λ word. is_asking_word (string_bytes word)) (drop 1 words.now) }
{
    match words {
        [] => false,
        [_, words @ ..] => has_asking_word(words),
    }
}

// Whether one of these words is one that this crate answers to.
fn has_asking_word(words: &[String]) -> bool
    ensures { result ≡ list_any (λ word. is_asking_word (string_bytes word)) words.now }
{
    words.iter().any(|word| is_asking_word(word.as_str()))
}

// Whether one of these words is `--check`.
fn has_check(words: &[String]) -> bool
    ensures { result ≡ has_check words.now }
{
    words.iter().any(|word| word.as_str() == "--check")
}

// Whether a word is one that this crate answers to.
fn is_asking_word(word: &str) -> bool
    ensures { result ≡ is_asking_word word.now }
{
    is_text_word(word) || word == "--check"
}

// Whether a word alone asks for a text: a help text, or the version.
fn is_text_word(word: &str) -> bool
    ensures { result ≡ is_text_word word.now }
{
    is_version_word(word) || matches!(word, "help" | "--help" | "-h")
}

// Whether a word asks for the version.
fn is_version_word(word: &str) -> bool
    ensures { result ≡ is_version_word word.now }
{
    matches!(word, "--version" | "-V")
}

// The configuration file to check, if the command is `serve --check`.
fn configuration_of<'a>(matches: &ArgMatches<'a>) -> Option<&'a str> {
    let serve = matches.subcommand_matches("serve")?;
    if serve.get_flag("check") {
        serve.get_str("config.json")
    } else {
        None
    }
}
