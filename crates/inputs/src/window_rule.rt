//! The three sign rules of the method.
ghost use Rattle.std.specs.Prelude.{◌≡◌, ◌+◌, ◌-◌, ◌^◌, pos, ◌-ℤ◌};
ghost use Rattle.inputs.specs.Rules.{Numbered, rule_number, table, shift, rule_of};
ghost use Rattle.inputs.specs.Tables;

use crate::rule::SignRule;
use crate::sign::{Carry, Choice, Sign};
use crate::sizes::Sizes;

/// One of the three rules, for callers that choose at run time.
#[derive(Clone, Copy, PartialEq, Eq, Debug)]
pub enum WindowRule {
    /// Rule 1 looks at the window's number less the draw.
    Shifted = 1,
    /// Rule 2 looks at the window's number itself.
    Centered = 2,
    /// Rule 3 is rule 2 for draws above 0, which keeps its digits one closer.
    Nonzero = 3,
}

impl WindowRule {
    /// The rule's number, 1 to 3.
    pub fn number(self) -> u32
        ensures { result ≡ rule_number self }
    {
        self as u32
    }

    // What the rule takes from a window's number before it looks into the table.
    fn shift(self, s: u32) -> u32
        ensures { result ≡ shift self s }
    {
        match self {
            WindowRule::Shifted => s,
            WindowRule::Centered | WindowRule::Nonzero => 0,
        }
    }
}

/// A number that no rule has.
#[derive(Clone, Copy, PartialEq, Eq, Debug)]
pub struct UnknownRule(pub u32);

impl TryFrom<u32> for WindowRule {
    type Error = UnknownRule;

    // The rule of the number, or the number itself where it is not 1 to 3.
    ghost try_from_gives = { Numbered };

    fn try_from(number: u32) -> Result<WindowRule, UnknownRule> {
        match number {
            1 => Ok(WindowRule::Shifted),
            2 => Ok(WindowRule::Centered),
            3 => Ok(WindowRule::Nonzero),
            _ => Err(UnknownRule(number)),
        }
    }
}

impl SignRule for WindowRule {
    ghost rule = { rule_of };

    ghost lawful = { λ x. Tables.lawful x };

    fn lo(&self, _sizes: Sizes) -> i32 {
        match *self {
            WindowRule::Shifted => -2,
            WindowRule::Centered | WindowRule::Nonzero => -1,
        }
    }

    fn hi(&self, sizes: Sizes) -> i32 {
        let middle = 1i32 << (sizes.window_width() - 1);
        match *self {
            WindowRule::Shifted | WindowRule::Centered => middle + 1,
            WindowRule::Nonzero => middle,
        }
    }

    fn admits(&self, _sizes: Sizes, s: u32) -> bool {
        match *self {
            WindowRule::Shifted | WindowRule::Centered => true,
            WindowRule::Nonzero => s > 0,
        }
    }

    fn choose(&self, sizes: Sizes, h: i64, s: u32) -> Choice {
        by_table(sizes, self.shift(s), h)
    }
}

// The table's answer for h less the shift. The bounds are moved in place of h, so that nothing
// overflows whatever h is.
fn by_table(sizes: Sizes, shift: u32, h: i64) -> Choice
    ensures { result ≡ table (2 ^ (sizes.k + sizes.b - 1)) (h -ℤ pos shift) }
{
    let half = sizes.half();
    let middle = shift as i64;
    if h <= middle - half {
        Choice {
            sign: Sign::Plus,
            carry: Carry::Down,
        }
    } else if h < middle {
        Choice {
            sign: Sign::Minus,
            carry: Carry::Zero,
        }
    } else if h < middle + half {
        Choice {
            sign: Sign::Plus,
            carry: Carry::Zero,
        }
    } else {
        Choice {
            sign: Sign::Minus,
            carry: Carry::Up,
        }
    }
}
