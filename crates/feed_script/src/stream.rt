//! Running a whole script, from any reader to any writer.
ghost use Rattle.std.specs.Prelude.{◌≡◌, ℕ, ◌+◌, ◌^◌, ◌<◌, ◌≤◌, [], length, take, OnOk, OnErr, IfErr, IfSome, None, Some, Err};
ghost use Rattle.std.specs.Io.KnownBytes.{Appends, IsAtEnd};
ghost use Rattle.feed_script.specs.Script.{text, first_wrong};
ghost use Rattle.feed_script.specs.Written.{NoBreak, WritesPrefix, WritesWhole};
ghost use Rattle.feed_script.specs.Told.{TakesOut, StopsOut, EndsOut, EndsWrong, WritesFront};

use super::engine::{Engine, Stop};
use super::fault::FeedFault;
use super::laws::text_law;
use std::alloc::Global;
use std::io::{ErrorKind, Read, Write};

/// Maximum length of a script in octets.
const SCRIPT_LIMIT: u64 = 1_000_000_000;

/// Size of the read buffer in octets.
const CHUNK: usize = 8192;

// Writes all octets, or a prefix if the writer fails. Interrupted writes are retried.
fn write_out<W: Write>(output: &mut W, bytes: &[u8]) -> Result<(), FeedFault>
    ensures ok { OnOk result (Appends (W.contents output.old) (W.contents output.new) bytes.now) }
    ensures err { OnErr result ((n : ℕ) × Appends (W.contents output.old) (W.contents output.new) (take n bytes.now)) }
    ensures which { IfErr result (λ e. e ≡ FeedFault.Write) }
{
    let mut written = 0;
    for _ in 0..u64::MAX {
        if written == bytes.len() {
            return Ok(());
        }
        match output.write(&bytes[written..]) {
            Ok(0) => return Err(FeedFault::Write),
            Ok(n) => written += n,
            Err(e) => {
                if e.kind() != ErrorKind::Interrupted {
                    return Err(FeedFault::Write);
                }
            }
        }
    }
    Err(FeedFault::Write)
}

// Passes a chunk to the engine and writes its output.
fn take_out<W: Write>(
    engine: &mut Engine,
    alloc: Global,
    piece: &[u8],
    output: &mut W,
) -> Result<(), FeedFault>
    requires few { engine.old.number + length piece.now < 2 ^ 63 }
    requires partial { NoBreak engine.old.line.items }
    ensures ok { OnOk result (TakesOut engine.old piece.now engine.new (W.contents output.old) (W.contents output.new)) }
    ensures number { OnOk result (engine.new.number ≤ engine.old.number + length piece.now) }
    ensures line { (n : ℕ) → result ≡ Err (FeedFault.Line n)
        → StopsOut engine.old piece.now n (W.contents output.old) (W.contents output.new) }
    ensures reads_nothing { result ≡ Err FeedFault.Read → ⊥ }
    ensures front { OnErr result (WritesFront engine.old piece.now (W.contents output.old) (W.contents output.new)) }
{
    let mut printed = Vec::new(alloc);
    let taken = engine.take(alloc, piece, &mut printed);
    write_out(output, printed.as_slice())?;
    match taken {
        Ok(()) => Ok(()),
        Err(Stop::Line(n)) => Err(FeedFault::Line(n)),
        Err(Stop::NoMemory) => Err(FeedFault::NoMemory),
    }
}

// Ends the script: executes an incomplete last line, writes its output and flushes the writer.
fn end_out<W: Write>(engine: &mut Engine, alloc: Global, output: &mut W) -> Result<(), FeedFault>
    requires few { engine.old.number < 2 ^ 63 }
    requires partial { NoBreak engine.old.line.items }
    ensures ok { OnOk result (EndsOut engine.old (W.contents output.old) (W.contents output.new)) }
    ensures line { (n : ℕ) → result ≡ Err (FeedFault.Line n)
        → EndsWrong engine.old n (W.contents output.old) (W.contents output.new) }
    ensures reads_nothing { result ≡ Err FeedFault.Read → ⊥ }
    ensures front { OnErr result (WritesFront engine.old [] (W.contents output.old) (W.contents output.new)) }
{
    let mut printed = Vec::new(alloc);
    let ended = engine.finish(alloc, &mut printed);
    write_out(output, printed.as_slice())?;
    match ended {
        Ok(()) => match output.flush() {
            Ok(()) => Ok(()),
            Err(_) => Err(FeedFault::Write),
        },
        Err(Stop::Line(n)) => Err(FeedFault::Line(n)),
        Err(Stop::NoMemory) => Err(FeedFault::NoMemory),
    }
}

/// Reads a script to its end and writes the output of its lines, and nothing else. The output of all complete lines is written
/// before more input is read. Memory use beyond the node's settings and state does not grow with the script.
///
/// Errors: [`FeedFault`]. After [`FeedFault::Line`] the output of all lines before the wrong one is written; after any other
/// fault, a prefix of the output.
pub fn feed<R: Read, W: Write>(
    alloc: Global,
    input: &mut R,
    output: &mut W,
) -> Result<(), FeedFault>
    // Success: no line is wrong, and exactly the text of the whole input was written.
    ensures right { OnOk result (IfSome (R.remaining input.old) (λ b. first_wrong b ≡ None)) }
    ensures written { OnOk result (IfSome (R.remaining input.old) (λ b.
        Appends (W.contents output.old) (W.contents output.new) (text b))) }
    ensures end { OnOk result (IsAtEnd (R.remaining input.new)) }
    ensures within { OnOk result (IfSome (R.remaining input.old) (λ b. length b ≤ 1000000000)) }

    // A wrong line: it is the first one, and the text of the lines before it was written.
    ensures line { (n : ℕ) → result ≡ Err (FeedFault.Line n) → IfSome (R.remaining input.old) (λ b.
        first_wrong b ≡ Some n) }
    ensures before { (n : ℕ) → result ≡ Err (FeedFault.Line n) → IfSome (R.remaining input.old) (λ b.
        Appends (W.contents output.old) (W.contents output.new) (text b)) }

    // The reader failed or delivered too much: no complete line was wrong, and the text of all complete lines was written.
    ensures whole { result ≡ Err FeedFault.Read → WritesWhole (R.remaining input.old) (R.remaining input.new)
        (W.contents output.old) (W.contents output.new) }

    // Any fault: at most 1,000,000,001 octets were read, and a prefix of their text was written.
    ensures prefix { OnErr result (WritesPrefix (R.remaining input.old) (R.remaining input.new)
        (W.contents output.old) (W.contents output.new)) }
{
    text_law();
    let mut engine = Engine::new(alloc);
    let mut chunk = [0u8; CHUNK];
    let mut total: u64 = 0;
    'turns: for _ in 0..u64::MAX {
        let room = CHUNK.min((SCRIPT_LIMIT + 1 - total) as usize);
        match input.read(&mut chunk[..room]) {
            Ok(0) => return end_out(&mut engine, alloc, output),
            Ok(n) => {
                total += n as u64;
                take_out(&mut engine, alloc, &chunk[..n], output)?;
                if total > SCRIPT_LIMIT {
                    return Err(FeedFault::Read);
                }
            }
            Err(e) => {
                if e.kind() != ErrorKind::Interrupted {
                    return Err(FeedFault::Read);
                }
            }
        }
    }
    Err(FeedFault::Read)
}
