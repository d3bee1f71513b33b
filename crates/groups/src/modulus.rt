//! The moduli of sums and of the clock.
ghost use Rattle.std.specs.Prelude.{◌≡◌, ◌%◌, ◌^◌, ◌<◌, ◌≤◌};

use common::refusal::Refusal;

/// A modulus from 2 to 2^31.
#[derive(Clone, Copy)]
pub struct Modulus {
    pub(crate) value: u32,
    ghost least: { 2 ≤ value },
    ghost most: { value ≤ 2 ^ 31 },
}

impl TryFrom<u32> for Modulus {
    ghost use Rattle.groups.specs.Moduli.{Bounds};

    type Error = Refusal;

    ghost try_from_gives = { Bounds };

    /// The modulus, or `Refusal::Modulus` if it is not from 2 to 2^31.
    fn try_from(value: u32) -> Result<Modulus, Refusal> {
        if 2 <= value && value <= 2_147_483_648 {
            Ok(Modulus { value })
        } else {
            Err(Refusal::Modulus)
        }
    }
}

impl Modulus {
    /// What a division by the modulus leaves.
    pub(crate) fn reduce(self, a: u64) -> u32
        ensures { (result ≡ a % self.value) × (result < self.value) }
    {
        (a % self.value as u64) as u32
    }
}
