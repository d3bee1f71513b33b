//! Sign rules.
ghost use Rattle.std.specs.Prelude.{◌≡◌};
ghost use Rattle.inputs.specs.Rules.{Rule, Lawful};

use crate::sign::Choice;
use crate::sizes::Sizes;

/// A sign rule answers a sign and a carry for each window of a recoding, and says which draws it
/// admits and from where to where a digit with its sign goes. What it answers depends on the
/// rule's value and the arguments alone, so asking twice gives the same answer.
pub trait SignRule {
    // What a value of the type stands for.
    ghost rule: { Self → Rule };

    /// The least digit with its sign, carries included.
    fn lo(&self, sizes: Sizes) -> i32
        ensures { result ≡ (rule self.now).lo sizes.k sizes.b };

    /// The greatest digit with its sign, carries included.
    fn hi(&self, sizes: Sizes) -> i32
        ensures { result ≡ (rule self.now).hi sizes.k sizes.b };

    /// Whether the draw `s` may be used.
    fn admits(&self, sizes: Sizes, s: u32) -> bool
        ensures { result ≡ (rule self.now).admits sizes.k sizes.b s };

    /// The sign and the carry for a window's number `h` and the draw `s`, whatever they are.
    fn choose(&self, sizes: Sizes, h: i64, s: u32) -> Choice
        ensures { result ≡ (rule self.now).choose sizes.k sizes.b h s };

    // The limits of the digits, and when nothing is carried.
    ghost lawful: { (x : Self) → Lawful (rule x) };
}
