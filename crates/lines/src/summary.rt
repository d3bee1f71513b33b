//! What a program did with its lines, in numbers and in words.
ghost use Rattle.std.specs.Prelude.{◌≡◌, ◌++◌, OnOk};
ghost use Rattle.lines.specs.Summaries.{counted, counts_text};

use std::alloc::AllocError;
use text::write::push_number;

/// What became of a line.
#[derive(Clone, Copy)]
pub enum Kind {
    Done,
    Refused,
    Unreadable,
}

/// How many lines ended in each way. The counts stop at the greatest number that they hold.
#[derive(Clone, Copy, Default)]
pub struct Summary {
    pub done: u64,
    pub refused: u64,
    pub unreadable: u64,
}

impl Summary {
    /// Nothing done yet.
    pub fn new() -> Summary
        ensures done { result.done ≡ 0 }
        ensures refused { result.refused ≡ 0 }
        ensures unreadable { result.unreadable ≡ 0 }
    {
        Summary::default()
    }

    /// One line more.
    pub fn count(self, kind: Kind) -> Summary
        ensures { result ≡ counted self kind }
    {
        match kind {
            Kind::Done => Summary {
                done: self.done.saturating_add(1),
                ..self
            },
            Kind::Refused => Summary {
                refused: self.refused.saturating_add(1),
                ..self
            },
            Kind::Unreadable => Summary {
                unreadable: self.unreadable.saturating_add(1),
                ..self
            },
        }
    }

    /// Appends the summary as a line: the first count with the words for what was done, then the
    /// others. Answers `Err` only where memory fails.
    pub fn write(self, words: &[u8], out: &mut Vec<u8>) -> Result<(), AllocError>
        ensures { OnOk result (out.new.items ≡ out.old.items ++ counts_text words.now self.done self.refused self.unreadable) }
    {
        // Piece by piece, since the words may be any bytes, which no format takes.
        push_number(out, self.done)?;
        out.extend_from_slice(words)?;
        push_number(out, self.refused)?;
        out.extend_from_slice(b" refused, ")?;
        push_number(out, self.unreadable)?;
        out.extend_from_slice(b" unreadable\n")
    }
}
