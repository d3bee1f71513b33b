//! The program `agree`, from its input to its output.
ghost use Rattle.std.specs.Prelude.{[], codes};
ghost use Rattle.exchange_lines.specs.Lines.{LineAnswered};

use crate::line::answer_line;
use lines::program::Program;
use lines::summary::Kind;
use std::alloc::{AllocError, Global};

/// How `agree` answers its lines, and its words for what was done.
#[derive(Clone, Copy)]
pub struct Agree;

impl Program for Agree {
    ghost answers = { λ line said kind. LineAnswered line [] said kind };

    ghost words = { codes " exchanges agreed, " };

    fn words(&self) -> &[u8] {
        b" exchanges agreed, "
    }

    fn answer_line(
        &self,
        heap: Global,
        line: &[u8],
        out: &mut Vec<u8>,
    ) -> Result<Kind, AllocError> {
        answer_line(heap, line, out)
    }
}
