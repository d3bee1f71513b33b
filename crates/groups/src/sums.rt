//! Sums modulo a number.
ghost use Rattle.std.specs.Prelude.{refl};
ghost use Rattle.groups.specs.SetUp.{SetUp, in_range};
ghost use Rattle.groups.specs.Sums.{group_of, sums, tally_of};
ghost use Rattle.groups.specs.Modular.{sums_lawful};

use super::counted::{Arithmetic, Counted};
use super::modulus::Modulus;
use common::refusal::Refusal;

/// The arithmetic of the numbers below a modulus, added modulo it.
#[derive(Clone, Copy)]
pub struct SumArithmetic {
    modulus: Modulus,
}

/// The device of the numbers below a modulus from 2 to 2^31, added modulo it.
pub type Sums = Counted<SumArithmetic>;

impl Sums {
    /// A device of sums modulo `modulus` with a zero tally, or `Refusal::Modulus` if that is not
    /// from 2 to 2^31.
    pub fn new(modulus: u32) -> Result<Sums, Refusal>
        ensures { SetUp group_of tally_of (in_range modulus) (sums modulus) result }
    {
        let modulus = Modulus::try_from(modulus)?;
        Ok(Counted::starting(SumArithmetic { modulus }))
    }
}

impl Arithmetic for SumArithmetic {
    type Element = u32;

    ghost group = { λ s. sums s.modulus.value };

    ghost lawful = { λ s. sums_lawful s.modulus.value s.modulus.least };

    ghost doubles = { λ _ _. refl };

    fn neutral(&self) -> u32 {
        0
    }

    fn belongs(&self, a: u32) -> bool {
        a < self.modulus.value
    }

    fn sum(&self, a: u32, b: u32) -> u32 {
        (a + b) % self.modulus.value
    }

    fn negative(&self, a: u32) -> u32 {
        (self.modulus.value - a) % self.modulus.value
    }
}
