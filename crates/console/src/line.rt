//! The lines that `recode` prints.
ghost use Rattle.std.specs.Prelude.{◌≡◌, ◌++◌, codes, IfOk, OnOk};
ghost use Rattle.console.specs.Lines.{LineAnswered, answer_text, kind_of};

use crate::answer::Recoding;
use crate::request::Request;
use common::refusal::Refusal;
use lines::line::trim;
use lines::summary::Kind;
use lines::written::write_line;
use std::alloc::{AllocError, Global};

/// Answers a line and appends what it says to `out`, with a line feed. Answers `Err` only where
/// memory fails.
pub fn answer_line(heap: Global, line: &[u8], out: &mut Vec<u8>) -> Result<Kind, AllocError>
    ensures { IfOk result (LineAnswered line.now out.old.items out.new.items) }
{
    let Some(request) = Request::read(heap, trim(line))? else {
        out.extend_from_slice(b"unreadable\n")?;
        return Ok(Kind::Unreadable);
    };
    let answer = request.answer(heap)?;
    write_answer(out, &answer)?;
    Ok(kind_of(&answer))
}

// How an answer is counted.
fn kind_of(answer: &Result<Recoding, Refusal>) -> Kind
    ensures { result ≡ kind_of answer.now }
{
    match answer {
        Ok(_) => Kind::Done,
        Err(_) => Kind::Refused,
    }
}

// Appends the line of an answer.
fn write_answer(out: &mut Vec<u8>, answer: &Result<Recoding, Refusal>) -> Result<(), AllocError>
    ensures { OnOk result (out.new.items ≡ out.old.items ++ answer_text answer.now ++ codes "\n") }
{
    match answer {
        Ok(recoding) => write_line(out, recoding),
        Err(refusal) => write_line(out, refusal),
    }
}
