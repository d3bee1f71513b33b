//! The curve y² = x³ + x + 6 modulo 11.
ghost use Rattle.std.specs.Prelude.{◌==◌, refl};
ghost use Rattle.groups.specs.Curve.{curve, group_of, tally_of};
ghost use Rattle.groups.specs.Groups.{Lists};
ghost use Rattle.groups.specs.SetUp.{SetUp};
ghost use Rattle.groups.specs.Points.{curve_lawful};

use super::counted::{Arithmetic, Counted};
use common::refusal::Refusal;
use points::{all_points, negative, on_curve, sum};

mod points;
mod residue;

/// An element of the curve device, on the curve or not.
#[derive(Clone, Copy, PartialEq, Eq, Debug)]
pub enum CurvePoint {
    /// The point at infinity, which is neutral.
    Infinity,
    /// A pair of coordinates of any size.
    Affine { x: u32, y: u32 },
}

/// The arithmetic of the thirteen points of the curve.
#[derive(Clone, Copy)]
pub struct CurveArithmetic;

/// The device of the thirteen points of the curve.
pub type Curve = Counted<CurveArithmetic>;

impl Curve {
    /// A device of the curve with a zero tally, or `Refusal::Modulus` if `modulus` is not 11.
    pub fn new(modulus: u32) -> Result<Curve, Refusal>
        ensures { SetUp group_of tally_of (modulus == 11) curve result }
    {
        if modulus != 11 {
            return Err(Refusal::Modulus);
        }
        Ok(Counted::starting(CurveArithmetic))
    }

    /// The members, each of them once: there are exactly 13.
    pub fn members() -> [CurvePoint; 13]
        ensures { Lists curve result }
    {
        all_points()
    }
}

impl Arithmetic for CurveArithmetic {
    type Element = CurvePoint;

    ghost group = { λ _. curve };

    ghost lawful = { λ _. curve_lawful };

    ghost doubles = { λ _ _. refl };

    fn neutral(&self) -> CurvePoint {
        CurvePoint::Infinity
    }

    fn belongs(&self, a: CurvePoint) -> bool {
        on_curve(a)
    }

    fn sum(&self, a: CurvePoint, b: CurvePoint) -> CurvePoint {
        sum(a, b)
    }

    fn negative(&self, a: CurvePoint) -> CurvePoint {
        negative(a)
    }
}
