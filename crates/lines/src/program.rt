//! A program that answers its input line by line.
ghost use Rattle.std.specs.Prelude.{◌≡◌, ℕ, List, [], ◌++◌, IfOk, IfSome, OnOk};
ghost use Rattle.std.specs.Io.KnownBytes.{Appends};
ghost use Rattle.lines.specs.declared.summary.Kind.{Kind};
ghost use Rattle.lines.specs.Programs.{AllAnswered, Printed, lines_of, none_done};

use crate::line::next_line;
use crate::summary::{Kind, Summary};
use std::alloc::{AllocError, Global};
use std::io;
use std::io::{Read, Write};

// How much is gathered before it is written.
const FULL: usize = 65536;

/// How a program answers a line.
pub trait Program {
    // The text that answers a line, as it stands in the input, and how the line counts.
    ghost answers: { List ℕ → List ℕ → Kind → Type 0 };

    // What was done, as the line says it that sums up.
    ghost words: { List ℕ };

    /// The words for what was done.
    fn words(&self) -> &[u8]
        ensures { result.now ≡ words };

    /// Appends the answer to a line to `out`. Answers `Err` only where memory fails.
    fn answer_line(&self, heap: Global, line: &[u8], out: &mut Vec<u8>) -> Result<Kind, AllocError>
        ensures { IfOk result (λ kind. (said : List ℕ) × (out.new.items ≡ out.old.items ++ said) × answers line.now said kind) };
}

/// Answers the lines of `input` on `output`, one after another, and then tells how many ended in
/// each way, with the program's words for what was done. Answers `Err` only where memory, reading or writing
/// fails.
pub fn answer_all<P: Program, R: Read, W: Write>(
    program: &P,
    heap: Global,
    input: &mut R,
    output: &mut W,
) -> io::Result<()>
    ensures { OnOk result (IfSome (R.remaining input.old) (λ text. (said : List ℕ) × Appends (W.contents output.old) (W.contents output.new) said × Printed P.answers P.words text said)) }
{
    let mut text = Vec::new(heap);
    input.read_to_end(&mut text)?;
    let mut out = Vec::new(heap);
    let summary = answer_lines(program, heap, text.as_slice(), &mut out, output)?;
    summary.write(program.words(), &mut out)?;
    output.write_all(out.as_slice())
}

// Answers the lines of a text. What is not yet written is left in `out`.
fn answer_lines<P: Program, W: Write>(
    program: &P,
    heap: Global,
    text: &[u8],
    out: &mut Vec<u8>,
    output: &mut W,
) -> io::Result<Summary>
    requires { out.old.items ≡ [] }
    ensures { IfOk result (λ last. (done : List ℕ) × Appends (W.contents output.old) (W.contents output.new) done × AllAnswered P.answers (lines_of text.now) none_done (done ++ out.new.items) last) }
{
    let mut summary = Summary::new();
    let mut rest = text;
    while !rest.is_empty() {
        let (line, more) = next_line(rest);
        let kind = program.answer_line(heap, line, out)?;
        summary = summary.count(kind);
        write_full(out, output)?;
        rest = more;
    }
    Ok(summary)
}

// Writes what is gathered where that is enough.
fn write_full<W: Write>(out: &mut Vec<u8>, output: &mut W) -> io::Result<()>
    ensures { OnOk result ((done : List ℕ) × Appends (W.contents output.old) (W.contents output.new) done × (out.old.items ≡ done ++ out.new.items)) }
{
    if out.len() >= FULL {
        output.write_all(out.as_slice())?;
        out.clear();
    }
    Ok(())
}
