//! What the definitions promise besides.
ghost use Rattle.std.specs.Prelude.{◌≡◌, ◌<◌, List, ℕ, take};
ghost use Rattle.std.specs.List.{All};
ghost use Rattle.access_log.specs.declared.entry.Form.{Form};
ghost use Rattle.access_log.specs.Escaped.{escaped};
ghost use Rattle.access_log.specs.Reading.{Reads};

/// What stands in a line for a text that a client wrote reads as the text's first 8,192 octets, in either form. So no quote and
/// no backslash of the client's ends or begins anything: a quote that stands in a line is the proxy's own, and a reader finds the
/// fields where they are. And nothing is lost but what is cut off: different texts stay different, since what is written reads in
/// one way only (`a_text_reads_one_way`).
pub fn escaped_texts_read_back()
    ensures { (form : Form) (text : List ℕ) → All (λ octet. octet < 256) text → Reads form (escaped form text) (take 8192 text) }
{}

/// What is written in a form reads as one text at most.
pub fn a_text_reads_one_way()
    ensures { (form : Form) (written one other : List ℕ) → Reads form written one → Reads form written other → one ≡ other }
{}
