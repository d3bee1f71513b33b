//! Devices whose elements are asked for and told by two numbers.
ghost use Rattle.std.specs.Prelude.{true, ◌≡◌, ◌==◌, ℕ, Bool};
ghost use Rattle.elements.specs.declared.element.Pair.{Pair};
ghost use Rattle.elements.specs.Elements.{Placed, clock_element, coordinates, curve_element, sums_element};
ghost use Rattle.groups.specs.Clock.{clock};
ghost use Rattle.groups.specs.Curve.{curve};
ghost use Rattle.groups.specs.Groups.{Group};
ghost use Rattle.groups.specs.SetUp.{SetUp, in_range};
ghost use Rattle.groups.specs.Sums.{sums};

use crate::element::Pair;
use common::refusal::Refusal;
use groups::clock::{Clock, ClockPoint};
use groups::curve::{Curve, CurvePoint};
use groups::device::GroupDevice;
use groups::sums::Sums;

/// A device that is set up from a modulus, and whose elements have two numbers.
pub trait PairDevice: GroupDevice + Drop {
    ghost fits: { ℕ → Bool };

    ghost group_at: { ℕ → Group Self.Element };

    ghost element_at: { Pair → Self.Element };

    /// A device of the group of `modulus` with a zero tally, or `Refusal::Modulus` if the group
    /// can't have that.
    fn set_up(modulus: u32) -> Result<Self, Refusal>
        ensures { SetUp Self.group Self.tally (fits modulus) (group_at modulus) result };

    /// The element with these two numbers, a member or not.
    fn element_at(at: Pair) -> Self::Element
        ensures is { result ≡ element_at at }
        ensures placed { (n : ℕ) → fits n ≡ true → Placed (group_at n) at result };

    /// The two numbers of an element.
    fn pair_of(a: Self::Element) -> Pair
        ensures { (n : ℕ) → result ≡ coordinates ((group_at n).code a) };
}

impl PairDevice for Sums {
    ghost fits = { in_range };

    ghost group_at = { sums };

    ghost element_at = { sums_element };

    /// A device of sums modulo `modulus`.
    fn set_up(modulus: u32) -> Result<Sums, Refusal> {
        Sums::new(modulus)
    }

    /// The number x for a y of 0. Any other y is that of no sum, and gives a number that is no
    /// member under any modulus.
    fn element_at(at: Pair) -> u32 {
        if at.y == 0 { at.x } else { u32::MAX }
    }

    /// A sum and 0.
    fn pair_of(a: u32) -> Pair {
        Pair { x: a, y: 0 }
    }
}

impl PairDevice for Clock {
    ghost fits = { in_range };

    ghost group_at = { clock };

    ghost element_at = { clock_element };

    /// A device of the clock modulo `modulus`.
    fn set_up(modulus: u32) -> Result<Clock, Refusal> {
        Clock::new(modulus)
    }

    /// The point with these coordinates, on the circle or not, whatever the modulus.
    fn element_at(at: Pair) -> ClockPoint
        ensures is { result ≡ clock_element at }
        ensures placed { (n : ℕ) → Placed (clock n) at result }
    {
        ClockPoint { x: at.x, y: at.y }
    }

    /// The coordinates of a point.
    fn pair_of(a: ClockPoint) -> Pair {
        Pair { x: a.x, y: a.y }
    }
}

impl PairDevice for Curve {
    ghost fits = { λ n. n == 11 };

    ghost group_at = { λ _. curve };

    ghost element_at = { curve_element };

    /// A device of the curve.
    fn set_up(modulus: u32) -> Result<Curve, Refusal> {
        Curve::new(modulus)
    }

    /// The point with these coordinates, on the curve or not; 11 and 11 are infinity.
    fn element_at(at: Pair) -> CurvePoint
        ensures is { result ≡ curve_element at }
        ensures placed { Placed curve at result }
    {
        if at.x == 11 && at.y == 11 {
            CurvePoint::Infinity
        } else {
            CurvePoint::Affine { x: at.x, y: at.y }
        }
    }

    /// The coordinates of a point, 11 and 11 for infinity.
    fn pair_of(a: CurvePoint) -> Pair {
        match a {
            CurvePoint::Infinity => Pair { x: 11, y: 11 },
            CurvePoint::Affine { x, y } => Pair { x, y },
        }
    }
}
