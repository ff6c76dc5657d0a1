//! Lemmas about the assembler's language.

ghost use Rattle.std.specs.Prelude.{◌≡◌, ℕ, List, [], ◌∷◌, ◌++◌, map, true};
ghost use Rattle.std.specs.List.{concat, filter, list_all};
ghost use Rattle.bpf_check.specs.declared.insn.Insn.{Insn};
ghost use Rattle.bpf_check.specs.Accepted.{IsAccepted};
ghost use Rattle.bpf_check.specs.Insn.{AreInRange};
ghost use Rattle.bpf_asm.specs.Text.{program_text};
ghost use Rattle.bpf_asm.specs.Assembly.{token_lines, Assembles};
ghost use Rattle.bpf_asm.specs.Token.{tokens, is_text, begins_no_comment};
ghost use Rattle.bpf_asm.specs.Number.{IsAddress, IsNumber};
ghost use Rattle.bpf_asm.specs.Cleared.{cleared};

/// For [`crate::assemble`], the text that [`crate::to_text`] writes is a text of the program with 0 in the fields that its
/// instructions don't use; so it is a text of the program itself if these fields are 0.
pub fn what_is_written_is_read()
    ensures cleared { (p : List Insn) → IsAccepted p → AreInRange p
        → Assembles (token_lines (program_text p)) (map cleared p) }
    ensures same { (p : List Insn) → IsAccepted p → AreInRange p → map cleared p ≡ p
        → Assembles (token_lines (program_text p)) p }
{}

/// The tokens of a line without a comment, concatenated, are the line without its blanks.
pub fn tokens_keep_the_octets()
    ensures { (line : List ℕ) → list_all begins_no_comment line ≡ true
        → concat (tokens line) ≡ filter is_text line }
{}

/// A comment, from `;` on, has no tokens.
pub fn a_comment_has_no_token()
    ensures { (front rest : List ℕ) → tokens (front ++ 59 ∷ rest) ≡ tokens front }
{}

/// An IPv4 address in dotted form is one token, and a number with the address's value.
pub fn an_address_is_a_number()
    ensures token { (word : List ℕ) (n : ℕ) → IsAddress word n → tokens word ≡ word ∷ [] }
    ensures value { (word : List ℕ) (n : ℕ) → IsAddress word n → IsNumber word n }
{}
