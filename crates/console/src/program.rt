//! The program `recode`, from its input to its output.
ghost use Rattle.std.specs.Prelude.{[], codes};
ghost use Rattle.console.specs.Lines.{LineAnswered};

use crate::line::answer_line;
use lines::program::Program;
use lines::summary::Kind;
use std::alloc::{AllocError, Global};

/// How `recode` answers its lines, and its words for what was done.
#[derive(Clone, Copy)]
pub struct Recode;

impl Program for Recode {
    ghost answers = { λ line said kind. LineAnswered line [] said kind };

    ghost words = { codes " keys recoded and checked, " };

    fn words(&self) -> &[u8] {
        b" keys recoded and checked, "
    }

    fn answer_line(
        &self,
        heap: Global,
        line: &[u8],
        out: &mut Vec<u8>,
    ) -> Result<Kind, AllocError> {
        answer_line(heap, line, out)
    }
}
