//! The numbers modulo 11.
ghost use Rattle.std.specs.Prelude.{◌≡◌, ◌+◌, ◌*◌, ◌%◌, ◌<◌};
ghost use Rattle.groups.specs.Curve.{inverse, over};
ghost use Rattle.groups.specs.Residues.{minus};

use std::ops::{Add, Div, Mul, Sub};

/// A number below 11. What the operators give is taken modulo 11.
#[derive(Clone, Copy)]
pub(super) struct Residue {
    pub(super) value: u32,
    ghost reduced: { value < 11 },
}

impl Residue {
    /// What a division by 11 leaves.
    pub(super) fn of(number: u32) -> Residue
        ensures { result.value ≡ number % 11 }
    {
        Residue { value: number % 11 }
    }

    /// The inverse of what is not 0: its ninth power, since the tenth is 1.
    fn inverse(self) -> Residue
        ensures value { result.value ≡ inverse self.value }
        ensures inverts { 0 < self.value → (self.value * result.value) % 11 ≡ 1 }
    {
        let square = self * self;
        let fourth = square * square;
        fourth * fourth * self
    }
}

impl Add for Residue {
    type Output = Residue;

    ghost add_gives = { λ a b r. r.value ≡ (a.value + b.value) % 11 };

    fn add(self, other: Residue) -> Residue {
        Residue::of(self.value + other.value)
    }
}

impl Sub for Residue {
    type Output = Residue;

    ghost sub_gives = { λ a b r. r.value ≡ minus 11 a.value b.value };

    fn sub(self, other: Residue) -> Residue {
        Residue::of(self.value + (11 - other.value))
    }
}

impl Mul for Residue {
    type Output = Residue;

    ghost mul_gives = { λ a b r. r.value ≡ (a.value * b.value) % 11 };

    fn mul(self, other: Residue) -> Residue {
        Residue::of(self.value * other.value)
    }
}

impl Div for Residue {
    type Output = Residue;

    ghost div_gives = { λ a b r. r.value ≡ over a.value b.value };

    fn div(self, other: Residue) -> Residue {
        self * other.inverse()
    }
}
