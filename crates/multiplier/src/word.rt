//! The words by which a table is read.
ghost use Rattle.std.specs.Prelude.{◌≡◌};
ghost use Rattle.multiplier.specs.Tables.{itself};
ghost use Rattle.recoding.specs.Digits.{decoded};
ghost use Rattle.recoding.specs.declared.digit.Digit.{Digit};

use recoding::digit::Digit;

/// A word that stands for a digit.
pub(crate) trait Word: Copy {
    ghost digit: { Self → Digit };

    // The digit.
    fn digit(self) -> Digit
        ensures { result ≡ digit self };
}

// A word of a recoding holds its digit.
impl Word for i32 {
    ghost digit = { decoded };

    fn digit(self) -> Digit {
        Digit::decode(self)
    }
}

// A window of a correction is written as a digit.
impl Word for Digit {
    ghost digit = { itself };

    fn digit(self) -> Digit {
        self
    }
}
