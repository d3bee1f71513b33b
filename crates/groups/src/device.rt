//! The interface of a group device.
ghost use Rattle.std.specs.Prelude.{◌≡◌};
ghost use Rattle.groups.specs.declared.tally.Tally.{Tally};
ghost use Rattle.groups.specs.Groups.{Group, Lawful, added, doubled, negated};
ghost use Rattle.groups.specs.Tally.{one_addition, one_doubling};

use super::tally::Tally;

/// A group whose additions and doublings are counted.
///
/// What a device means is its `group` and its `tally`. Every device is `lawful`: by codes and for
/// members, its sums are associative, have a neutral element and negatives, and a double is the
/// sum of an element with itself. Equal codes need not mean equal values, and sums need not
/// commute. No call refuses, and none changes any part of the group.
pub trait GroupDevice {
    /// An element, a member of the group or not.
    type Element: Copy;

    ghost group: { Self → Group Self.Element };

    ghost tally: { Self → Tally };

    /// The neutral element.
    fn neutral(&self) -> Self::Element
        ensures { result ≡ (group self.now).neutral };

    /// Whether `a` is a member.
    fn belongs(&self, a: Self::Element) -> bool
        ensures { result ≡ (group self.now).member a };

    /// The sum of two members, or neutral if one is no member. Counts an addition in either case.
    fn add(&mut self, a: Self::Element, b: Self::Element) -> Self::Element
        ensures value { result ≡ added (group self.old) a b }
        ensures same { group self.new ≡ group self.old }
        ensures counted { tally self.new ≡ one_addition (tally self.old) };

    /// The double of a member, or neutral for what is none. Counts a doubling in either case.
    fn double(&mut self, a: Self::Element) -> Self::Element
        ensures value { result ≡ doubled (group self.old) a }
        ensures same { group self.new ≡ group self.old }
        ensures counted { tally self.new ≡ one_doubling (tally self.old) };

    /// The negative of a member, or neutral for what is none.
    fn negate(&self, a: Self::Element) -> Self::Element
        ensures { result ≡ negated (group self.now) a };

    /// What was counted since set-up.
    fn tally(&self) -> Tally
        ensures { result ≡ tally self.now };

    ghost lawful: { (s : Self) → Lawful (group s) };
}
