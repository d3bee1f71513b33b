//! How a request is answered: drawn, recoded and checked, or refused.
ghost use Rattle.std.specs.Prelude.{◌≡◌, IfOk, Some, None};
ghost use Rattle.console.specs.Answers.{Answered, Sized, Drawn};
ghost use Rattle.console.specs.Lines.{recoding_text};
ghost use Rattle.console.specs.Requests.{view};
ghost use Rattle.inputs.specs.Draws.{draw_refusal};
ghost use Rattle.inputs.specs.Rules.{rule_of};
ghost use Rattle.recoding.specs.Digits.{zeros};

use crate::request::Request;
use common::refusal::Refusal;
use common::stream::Stream;
use inputs::draw::Draw;
use inputs::sizes::Sizes;
use recoding::check::check_coding;
use recoding::recode::recode;
use std::alloc::{AllocError, Global};
use std::fmt;

/// A recoding with the check's verdict on it.
#[derive(Drop)]
pub struct Recoding {
    pub draw: u32,
    pub correction: i32,
    pub words: Vec<i32>,
    pub verdict: bool,
}

/// Writes `ok`, the draw, the correction, the words from word 0 up, and the verdict.
impl fmt::Display for Recoding {
    ghost output = { λ c. Some (recoding_text c) };

    fn fmt<W: fmt::Write>(&self, f: &mut fmt::Formatter<W>) -> fmt::Result {
        write!(f, "ok {} {}", self.draw, self.correction)?;
        for word in &self.words {
            write!(f, " {word}")?;
        }
        f.write_str(if self.verdict { " yes" } else { " no" })
    }
}

impl Request {
    /// Tests the sizes (1, 2, 3), draws (9), recodes (4, 5) and checks what came out. The outer
    /// `Err` comes only where memory fails.
    pub fn answer(&self, heap: Global) -> Result<Result<Recoding, Refusal>, AllocError>
        ensures { IfOk result (Answered (view self.now)) }
    {
        // A refusal is an answer, and memory that fails is none: so no `?` here.
        match Sizes::new(self.window_width, self.draw_width, self.windows) {
            Ok(sizes) => {
                let words = vec![in heap; 0i32; sizes.windows() as usize]?;
                Ok(answer_sized(self, sizes, words))
            }
            Err(refusal) => Ok(Err(refusal)),
        }
    }
}

// The answer once the sizes are known.
fn answer_sized(request: &Request, sizes: Sizes, words: Vec<i32>) -> Result<Recoding, Refusal>
    requires { words.items ≡ zeros sizes.m }
    ensures { Sized sizes (view request.now) result }
{
    let mut stream = Stream::new(request.draws.as_slice());
    let draw = Draw::from_stream(&request.rule, sizes, &mut stream)?;
    answer_drawn(request, sizes, draw, words)
}

// The answer once the draw is taken.
fn answer_drawn(
    request: &Request,
    sizes: Sizes,
    draw: Draw,
    mut words: Vec<i32>,
) -> Result<Recoding, Refusal>
    requires room { words.items ≡ zeros sizes.m }
    requires fit { draw_refusal (rule_of request.now.rule) sizes draw ≡ None }
    ensures { Drawn sizes (view request.now) draw.value result }
{
    let key = request.key.as_slice();
    let coded = recode(&request.rule, sizes, key, draw, words.as_mut_slice()).map_err(|(
        refusal,
        draw,
    )| {
        draw.end();
        refusal
    })?;
    let (draw, correction) = coded.end();
    let verdict = check_coding(
        &request.rule,
        sizes,
        key,
        draw,
        correction,
        words.as_slice(),
    )?;
    Ok(Recoding {
        draw,
        correction,
        words,
        verdict,
    })
}
