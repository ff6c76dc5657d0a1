//! The instruction on one line, before its labels are resolved.

ghost use Rattle.std.specs.Prelude.{◌≡◌, ◌∷◌, [], MatchOption, MatchResult};
ghost use Rattle.bpf_asm.specs.Shown.{shown_words};
ghost use Rattle.bpf_asm.specs.Token.{tokens};
ghost use Rattle.bpf_asm.specs.Spelling.{kinds, AreOpen};
ghost use Rattle.bpf_asm.specs.Assembly.{WrongNumber, BodyFault};
ghost use Rattle.bpf_asm.specs.Drafts.{Keeps, IsDraft, shown_draft};

use crate::fault::AsmFault;
use crate::number::number_of;
use crate::rows::{is_mnemonic, row_of};
use crate::spelling::Words;
use crate::token::next_token;
use bpf_check::operation::{Operand, Operation};

/// An instruction with unresolved labels. What the operation doesn't have is 0 or empty.
#[derive(Clone, Copy)]
pub(crate) struct Draft<'a> {
    pub line: usize,
    pub code: u16,
    pub operation: Operation,
    pub k: u32,
    pub first: &'a [u8],
    pub second: &'a [u8],
}

// The draft with the words for an operation's placeholders, or `None` if the number is wrong.
fn keep<'a>(line: usize, code: u16, operation: Operation, words: Words<'a>) -> Option<Draft<'a>>
    requires { AreOpen (kinds operation) (shown_words words) }
    ensures { MatchOption result (WrongNumber (shown_words words.entry) operation)
        (λ d. (d.line ≡ line) × (d.code ≡ code) × (d.operation ≡ operation) × Keeps (shown_draft d) operation (shown_words words.entry)) }
{
    let draft = Draft {
        line,
        code,
        operation,
        k: 0,
        first: &[],
        second: &[],
    };
    match (operation, words) {
        (Operation::Jump, Words::One(first)) => Some(Draft { first, ..draft }),
        (Operation::Branch(_, Operand::Constant), Words::Three(number, first, second)) => {
            Some(Draft {
                k: number_of(number)?,
                first,
                second,
                ..draft
            })
        }
        (Operation::Branch(_, Operand::Index), Words::Two(first, second)) => {
            Some(Draft {
                first,
                second,
                ..draft
            })
        }
        (_, Words::One(number)) => {
            Some(Draft {
                k: number_of(number)?,
                ..draft
            })
        }
        _ => Some(draft),
    }
}

// The draft for a mnemonic and the operands after it.
fn draft_of<'a>(line: usize, word: &'a [u8], operands: &'a [u8]) -> Result<Draft<'a>, AsmFault>
    ensures { MatchResult result
        (λ d. (d.line ≡ line) × IsDraft (word.now ∷ tokens operands.now) (shown_draft d))
        (λ fault. BodyFault (word.now ∷ tokens operands.now) line fault) }
{
    if !is_mnemonic(word) {
        return Err(AsmFault::Mnemonic(line));
    }
    let Some(row) = row_of(word, operands) else {
        return Err(AsmFault::Operand(line));
    };
    match keep(line, row.code, row.operation, row.words) {
        Some(draft) => Ok(draft),
        None => Err(AsmFault::Number(line)),
    }
}

/// The draft for the instruction on a line, or `None` if there is none. `body` is the line after its label.
pub(crate) fn draft_in(line: usize, body: &[u8]) -> Result<Option<Draft<'_>>, AsmFault>
    ensures { MatchResult result
        (λ found. MatchOption found (tokens body.now ≡ [])
        (λ d. (d.line ≡ line) × IsDraft (tokens body.now) (shown_draft d)))
        (λ fault. BodyFault (tokens body.now) line fault) }
{
    let Some((word, operands)) = next_token(body) else {
        return Ok(None);
    };
    Ok(Some(draft_of(line, word, operands)?))
}
