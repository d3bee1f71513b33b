//! The coded state: what a recoding makes of a draw.
ghost use Rattle.std.specs.Prelude.{◌≡◌};

use inputs::draw::Draw;

/// A draw that one recoding has spent, and the correction that it left. The digits stand in the
/// words that the recoding was lent. Like a draw it is neither copied nor let go.
pub struct Coded {
    pub(crate) draw: Draw,
    pub(crate) correction: i32,
}

impl Coded {
    /// The number that was drawn.
    pub fn draw_value(&self) -> u32
        ensures { result ≡ self.now.draw.value }
    {
        self.draw.value()
    }

    /// The correction.
    pub fn correction(&self) -> i32
        ensures { result ≡ self.now.correction }
    {
        self.correction
    }

    /// Ends the coded state, and gives the number that was drawn and the correction.
    pub fn end(self) -> (u32, i32)
        ensures draw { result.0 ≡ self.draw.value }
        ensures correction { result.1 ≡ self.correction }
    {
        let Coded { draw, correction } = self;
        (draw.end(), correction)
    }
}
