//! Where the entries of a table stand.
ghost use Rattle.std.specs.Prelude.{◌≡◌, ◌+◌, ◌-◌, ◌^◌, ◌≤◌, unsigned_abs};
ghost use Rattle.multiplier.specs.Calls.{cells_needed};

use inputs::rule::SignRule;
use inputs::sizes::Sizes;

/// How many entries for digits stand below the entry for 0 and above it, and the greatest multiple
/// of the base that stands behind them. Every layout is as small as the fields below say.
#[derive(Clone, Copy)]
pub(crate) struct Layout {
    pub(crate) down: usize,
    pub(crate) up: usize,
    pub(crate) top: usize,
    ghost down_most: { down ≤ 4 },
    ghost up_most: { up ≤ 64 },
    ghost top_least: { 1 ≤ top },
    ghost top_most: { top ≤ 32 },
}

impl Layout {
    // The layout of the tables of a rule at some sizes.
    pub(crate) fn new<R: SignRule>(rule: &R, sizes: Sizes) -> Layout
        ensures down { result.down ≡ unsigned_abs ((R.SignRule.rule rule.now).lo sizes.k sizes.b) }
        ensures up { result.up ≡ unsigned_abs ((R.SignRule.rule rule.now).hi sizes.k sizes.b) }
        ensures top { result.top ≡ 2 ^ (sizes.k - 1) }
        ensures needed { result.down + result.up + 1 + (result.top + 1) ≡ cells_needed (R.SignRule.rule rule.now) sizes }
    {
        Layout {
            down: rule.lo(sizes).unsigned_abs() as usize,
            up: rule.hi(sizes).unsigned_abs() as usize,
            top: 1usize << (sizes.window_width() - 1),
        }
    }

    // Where 0 times the base stands.
    pub(crate) fn small(self) -> usize
        ensures { result ≡ self.down + self.up + 1 }
    {
        self.down + self.up + 1
    }

    // How many cells there are.
    pub(crate) fn len(self) -> usize
        ensures { result ≡ self.down + self.up + 1 + (self.top + 1) }
    {
        self.small() + self.top + 1
    }
}
