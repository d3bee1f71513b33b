//! The clock modulo a number: the points of the unit circle, added as angles.
ghost use Rattle.std.specs.Prelude.{◌≡◌, ◌*◌, ◌^◌, ◌≤◌, true, refl};
ghost use Rattle.groups.specs.Clock.{clock, clock_sum, group_of, on_clock, tally_of};
ghost use Rattle.groups.specs.SetUp.{SetUp, in_range};
ghost use Rattle.groups.specs.Clockwork.{clock_lawful};

use super::counted::{Arithmetic, Counted};
use super::modulus::Modulus;
use common::refusal::Refusal;

/// An element of the clock device: a pair of coordinates of any size, on the circle or not.
#[derive(Clone, Copy, PartialEq, Eq, Debug)]
pub struct ClockPoint {
    pub x: u32,
    pub y: u32,
}

/// The arithmetic of the pairs x, y below a modulus with x² + y² ≡ 1 modulo it.
#[derive(Clone, Copy)]
pub struct ClockArithmetic {
    modulus: Modulus,
}

/// The device of the pairs x, y below a modulus from 2 to 2^31 with x² + y² ≡ 1 modulo it.
pub type Clock = Counted<ClockArithmetic>;

impl Clock {
    /// A device of the clock modulo `modulus` with a zero tally, or `Refusal::Modulus` if that is
    /// not from 2 to 2^31.
    pub fn new(modulus: u32) -> Result<Clock, Refusal>
        ensures { SetUp group_of tally_of (in_range modulus) (clock modulus) result }
    {
        // The same two lines as for sums: a function for both would have to be told the arithmetic
        // and its group, and be longer than they are.
        let modulus = Modulus::try_from(modulus)?;
        Ok(Counted::starting(ClockArithmetic { modulus }))
    }
}

impl Arithmetic for ClockArithmetic {
    type Element = ClockPoint;

    ghost group = { λ s. clock s.modulus.value };

    ghost lawful = { λ s. clock_lawful s.modulus.value s.modulus.least };

    ghost doubles = { λ _ _. refl };

    fn neutral(&self) -> ClockPoint {
        ClockPoint { x: 0, y: 1 }
    }

    fn belongs(&self, a: ClockPoint) -> bool {
        let n = self.modulus;
        a.x < n.value && a.y < n.value && n.reduce(product(a.x, a.x) + product(a.y, a.y)) == 1
    }

    fn sum(&self, a: ClockPoint, b: ClockPoint) -> ClockPoint {
        ClockPoint {
            x: self.modulus.reduce(product(a.x, b.y) + product(a.y, b.x)),
            y: height(self.modulus, a, b),
        }
    }

    fn negative(&self, a: ClockPoint) -> ClockPoint {
        ClockPoint {
            x: (self.modulus.value - a.x) % self.modulus.value,
            y: a.y,
        }
    }
}

/// The second coordinate of a sum. The factor n − x₂ stands for −x₂, so that one division does.
fn height(n: Modulus, p: ClockPoint, q: ClockPoint) -> u32
    requires first { on_clock n.value p ≡ true }
    requires second { on_clock n.value q ≡ true }
    ensures { result ≡ (clock_sum n.value p q).y }
{
    n.reduce(product(p.y, q.y) + product(p.x, n.value - q.x))
}

/// The product of two numbers of which each is at most 2^31.
fn product(a: u32, b: u32) -> u64
    requires { (a ≤ 2 ^ 31) × (b ≤ 2 ^ 31) }
    ensures { (result ≡ a * b) × (result ≤ 2 ^ 62) }
{
    a as u64 * b as u64
}
