//! The devices of this crate: a group's arithmetic, with a tally.
ghost use Rattle.std.specs.Prelude.{◌≡◌, true};
ghost use Rattle.groups.specs.Groups.{Group, Lawful};
ghost use Rattle.groups.specs.Tally.{zero_tally};

use super::device::GroupDevice;
use super::tally::Tally;

/// The arithmetic of a group, on members alone.
pub trait Arithmetic {
    /// An element, a member of the group or not.
    type Element: Copy;

    ghost group: { Self → Group Self.Element };

    /// The neutral element.
    fn neutral(&self) -> Self::Element
        ensures { result ≡ (group self.now).neutral };

    /// Whether `a` is a member.
    fn belongs(&self, a: Self::Element) -> bool
        ensures { result ≡ (group self.now).member a };

    /// The sum of two members.
    fn sum(&self, a: Self::Element, b: Self::Element) -> Self::Element
        requires first { (group self.now).member a ≡ true }
        requires second { (group self.now).member b ≡ true }
        ensures { result ≡ (group self.now).sum a b };

    /// The negative of a member.
    fn negative(&self, a: Self::Element) -> Self::Element
        requires { (group self.now).member a ≡ true }
        ensures { result ≡ (group self.now).negative a };

    ghost lawful: { (s : Self) → Lawful (group s) };

    ghost doubles: { (s : Self) (a : Self.Element) → (group s).double a ≡ (group s).sum a a };
}

/// A device of the group that `A` computes.
#[derive(Drop)]
pub struct Counted<A> {
    arithmetic: A,
    tally: Tally,
}

impl<A> Counted<A> {
    /// A device with a zero tally.
    pub(crate) fn starting(arithmetic: A) -> Counted<A>
        ensures arithmetic { result.arithmetic ≡ arithmetic }
        ensures tally { result.tally ≡ zero_tally }
    {
        Counted {
            arithmetic,
            tally: Tally::zero(),
        }
    }
}

impl<A: Arithmetic> GroupDevice for Counted<A> {
    type Element = A::Element;

    ghost group = { λ s. A.group s.arithmetic };

    ghost tally = { λ s. s.tally };

    ghost lawful = { λ s. A.lawful s.arithmetic };

    fn neutral(&self) -> A::Element {
        self.arithmetic.neutral()
    }

    fn belongs(&self, a: A::Element) -> bool {
        self.arithmetic.belongs(a)
    }

    fn add(&mut self, a: A::Element, b: A::Element) -> A::Element {
        self.tally.count_addition();
        if self.belongs(a) && self.belongs(b) {
            self.arithmetic.sum(a, b)
        } else {
            self.neutral()
        }
    }

    fn double(&mut self, a: A::Element) -> A::Element {
        self.tally.count_doubling();
        if self.belongs(a) {
            self.arithmetic.sum(a, a)
        } else {
            self.neutral()
        }
    }

    fn negate(&self, a: A::Element) -> A::Element {
        if self.belongs(a) {
            self.arithmetic.negative(a)
        } else {
            self.neutral()
        }
    }

    fn tally(&self) -> Tally {
        self.tally
    }
}
