//! Why a call can't be taken: a number, the layer that refused, and a place.
ghost use Rattle.std.specs.Prelude.{◌≡◌, Some};
ghost use Rattle.common.specs.Refusals.{number, layer, place_of, refusal_text};

use std::fmt;

/// A refusal. Each has a fixed number and layer, and tells a place: a count, an offset or a bit.
#[derive(Clone, Copy, PartialEq, Eq, Debug)]
pub enum Refusal {
    /// 1: the window width is not from 2 to 6.
    WindowWidth,
    /// 2: the draw width is not from 1 to 30.
    DrawWidth,
    /// 3: the window count is not from 1 to 255, or the bits of a key are more than 512.
    WindowCount,
    /// 4: a key of no words, or of more than 16.
    KeyLength { words: usize },
    /// 5: a key that has more bits than the sizes allow; its highest set bit.
    KeyTooLarge { bit: usize },
    /// 6: fewer digit words than windows.
    TooFewDigits { words: usize },
    /// 7: fewer table cells than the multiplication uses.
    TableTooShort { cells: usize },
    /// 8: the base is no member of the group.
    NotAMember,
    /// 9: no admitted draw is left in the stream; the mark before the call.
    DrawsExhausted { mark: usize },
    /// 10: a draw of another width, or one that the rule does not admit.
    UnfitDraw,
    /// 12: a modulus that the group can't have.
    Modulus,
    /// 21: a record's map has a bit that stands for no field; the map's offset.
    UnknownField { offset: usize },
    /// 22: the input ends inside a record; the input's length.
    RecordCutShort { length: usize },
    /// 23: a field's value is out of its range; its offset.
    FieldOutOfRange { offset: usize },
    /// 24: a field that no record has given yet; the map's offset.
    FieldNeverGiven { offset: usize },
    /// 25: a buffer too short for what is to be written; the length needed.
    BufferTooShort { needed: usize },
    /// 26: an input longer than the limit; the limit.
    InputTooLong { limit: usize },
}

impl Refusal {
    /// The refusal's number.
    pub fn number(self) -> u32
        ensures { result ≡ number self }
    {
        // No discriminants, since variants that tell a place can't have them.
        match self {
            Refusal::WindowWidth => 1,
            Refusal::DrawWidth => 2,
            Refusal::WindowCount => 3,
            Refusal::KeyLength { .. } => 4,
            Refusal::KeyTooLarge { .. } => 5,
            Refusal::TooFewDigits { .. } => 6,
            Refusal::TableTooShort { .. } => 7,
            Refusal::NotAMember => 8,
            Refusal::DrawsExhausted { .. } => 9,
            Refusal::UnfitDraw => 10,
            Refusal::Modulus => 12,
            Refusal::UnknownField { .. } => 21,
            Refusal::RecordCutShort { .. } => 22,
            Refusal::FieldOutOfRange { .. } => 23,
            Refusal::FieldNeverGiven { .. } => 24,
            Refusal::BufferTooShort { .. } => 25,
            Refusal::InputTooLong { .. } => 26,
        }
    }

    /// The layer that refused: 1 job, 2 sizes, 3 key, 4 cells and words, 5 group, 6 draws.
    pub fn layer(self) -> u32
        ensures { result ≡ layer self }
    {
        match self {
            Refusal::UnknownField { .. }
            | Refusal::RecordCutShort { .. }
            | Refusal::FieldOutOfRange { .. }
            | Refusal::FieldNeverGiven { .. }
            | Refusal::BufferTooShort { .. }
            | Refusal::InputTooLong { .. } => 1,
            Refusal::WindowWidth | Refusal::DrawWidth | Refusal::WindowCount => 2,
            Refusal::KeyLength { .. } | Refusal::KeyTooLarge { .. } => 3,
            Refusal::TooFewDigits { .. } | Refusal::TableTooShort { .. } => 4,
            Refusal::NotAMember | Refusal::Modulus => 5,
            Refusal::DrawsExhausted { .. } | Refusal::UnfitDraw => 6,
        }
    }

    /// The place that the refusal tells, 0 where it has none.
    pub fn place(self) -> usize
        ensures { result ≡ place_of self }
    {
        match self {
            Refusal::WindowWidth
            | Refusal::DrawWidth
            | Refusal::WindowCount
            | Refusal::NotAMember
            | Refusal::UnfitDraw
            | Refusal::Modulus => 0,
            Refusal::KeyLength { words } | Refusal::TooFewDigits { words } => words,
            Refusal::KeyTooLarge { bit } => bit,
            Refusal::TableTooShort { cells } => cells,
            Refusal::DrawsExhausted { mark } => mark,
            Refusal::UnknownField { offset }
            | Refusal::FieldOutOfRange { offset }
            | Refusal::FieldNeverGiven { offset } => offset,
            Refusal::RecordCutShort { length } => length,
            Refusal::BufferTooShort { needed } => needed,
            Refusal::InputTooLong { limit } => limit,
        }
    }
}

/// Writes `no`, the refusal's number, its layer and its place.
impl fmt::Display for Refusal {
    ghost output = { λ e. Some (refusal_text e) };

    fn fmt<W: fmt::Write>(&self, f: &mut fmt::Formatter<W>) -> fmt::Result {
        write!(f, "no {} {} {}", self.number(), self.layer(), self.place())
    }
}
