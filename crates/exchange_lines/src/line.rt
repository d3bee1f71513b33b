//! The lines that `agree` prints.
ghost use Rattle.std.specs.Prelude.{◌≡◌, ◌++◌, IfOk, OnOk, Some, codes};
ghost use Rattle.exchange_lines.specs.Lines.{LineAnswered, account_text, answer_text, kind_of, party_text, refused_text, told_text};

use crate::answer::{Account, Told};
use crate::request::Request;
use elements::element::Pair;
use exchange::exchange::{Both, Party, Refused};
use lines::line::trim;
use lines::summary::Kind;
use lines::written::write_line;
use std::alloc::{AllocError, Global};
use std::fmt;

/// Answers a line and appends what it says to `out`, with a line feed. Answers `Err` only where
/// memory fails.
pub fn answer_line(heap: Global, line: &[u8], out: &mut Vec<u8>) -> Result<Kind, AllocError>
    ensures { IfOk result (LineAnswered line.now out.old.items out.new.items) }
{
    let Some(request) = Request::read(heap, trim(line))? else {
        out.extend_from_slice(b"unreadable\n")?;
        return Ok(Kind::Unreadable);
    };
    let answer = request.answer(heap)?;
    write_answer(out, answer)?;
    Ok(kind_of(answer))
}

// How an answer is counted.
fn kind_of(answer: Result<Told<Pair>, Refused>) -> Kind
    ensures { result ≡ kind_of answer }
{
    match answer {
        Ok(_) => Kind::Done,
        Err(_) => Kind::Refused,
    }
}

// Appends the line of an answer.
fn write_answer(out: &mut Vec<u8>, answer: Result<Told<Pair>, Refused>) -> Result<(), AllocError>
    ensures { OnOk result (out.new.items ≡ out.old.items ++ answer_text answer ++ codes "\n") }
{
    match answer {
        Ok(told) => write_line(out, told),
        Err(refused) => write_line(out, Shown(refused)),
    }
}

impl fmt::Display for Told<Pair> {
    ghost output = { λ told. Some (told_text told) };

    /// `agreed`, the element, and both sides.
    fn fmt<W: fmt::Write>(&self, f: &mut fmt::Formatter<W>) -> fmt::Result {
        let Told { agreed, accounts } = *self;
        let Both { first, second } = accounts;
        write!(f, "agreed {agreed} machine {first} chip {second}")
    }
}

impl fmt::Display for Account<Pair> {
    ghost output = { λ account. Some (account_text account) };

    /// What a side handed over, `tally` with its tally and `plain` with the plain one.
    fn fmt<W: fmt::Write>(&self, f: &mut fmt::Formatter<W>) -> fmt::Result {
        let Account {
            handed,
            tally,
            plain,
        } = *self;
        write!(f, "{handed} tally {tally} plain {plain}")
    }
}

// What the exchange knows, in the words of `agree`.
#[derive(Clone, Copy)]
struct Shown<T>(T);

impl fmt::Display for Shown<Refused> {
    ghost output = { λ shown. Some (refused_text shown.0) };

    fn fmt<W: fmt::Write>(&self, f: &mut fmt::Formatter<W>) -> fmt::Result {
        let Refused { party, refusal } = self.0;
        let party = Shown(party);
        write!(f, "{refusal} {party}")
    }
}

impl fmt::Display for Shown<Party> {
    ghost output = { λ shown. Some (party_text shown.0) };

    fn fmt<W: fmt::Write>(&self, f: &mut fmt::Formatter<W>) -> fmt::Result {
        f.write_str(match self.0 {
            Party::First => "machine",
            Party::Second => "chip",
        })
    }
}
