//! Elements of the three groups by two numbers.
ghost use Rattle.std.specs.Prelude.{Some};
ghost use Rattle.elements.specs.Elements.{pair_text};

use std::fmt;

/// An element by two numbers: its code, with 0 behind a code of one number.
#[derive(Clone, Copy, PartialEq, Eq, Debug)]
pub struct Pair {
    pub x: u32,
    pub y: u32,
}

impl fmt::Display for Pair {
    ghost output = { λ at. Some (pair_text at) };

    /// Both numbers in decimal, with a space between them.
    fn fmt<W: fmt::Write>(&self, f: &mut fmt::Formatter<W>) -> fmt::Result {
        let Pair { x, y } = *self;
        write!(f, "{x} {y}")
    }
}
