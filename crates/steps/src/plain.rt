//! The plain tally of a multiplication, counted without a device.
ghost use Rattle.std.specs.Prelude.{◌≡◌, ◌-◌, ◌^◌};
ghost use Rattle.steps.specs.Work.{Counts, many_additions, many_doublings, many_rounds, sums_work, table_work, work};

use crate::corrections::correction_count;
use groups::tally::Tally;
use inputs::rule::SignRule;
use inputs::sizes::Sizes;

/// The plain tally after a multiplication by the rule at the sizes, from `tally` on: what a device
/// counts for it, whatever the key, the draw and the base. It depends on the rule's limits and the
/// sizes alone.
pub fn tally_after<R: SignRule>(tally: Tally, rule: &R, sizes: Sizes) -> Tally
    ensures work { result ≡ work ((R.SignRule.rule rule.now).lo sizes.k sizes.b) ((R.SignRule.rule rule.now).hi sizes.k sizes.b) sizes.k sizes.b sizes.m tally }
    ensures counts { Counts ((R.SignRule.rule rule.now).lo sizes.k sizes.b) ((R.SignRule.rule rule.now).hi sizes.k sizes.b) sizes.k sizes.b sizes.m tally result }
{
    let table = count_table(tally, rule.lo(sizes), rule.hi(sizes), sizes);
    count_sums(table, sizes)
}

// The steps that build the table.
fn count_table(tally: Tally, lo: i32, hi: i32, sizes: Sizes) -> Tally
    ensures { result ≡ table_work lo hi sizes.k sizes.b tally }
{
    let unit = count_doublings(tally, sizes.draw_width());
    let climbed = count_rounds(unit, sizes.draw_width(), 1);
    let upward = count_additions(climbed, hi.unsigned_abs());
    let downward = count_additions(upward, lo.unsigned_abs());
    count_additions(downward, more_multiples(sizes))
}

// The steps that evaluate.
fn count_sums(tally: Tally, sizes: Sizes) -> Tally
    ensures { result ≡ sums_work sizes.k sizes.b sizes.m tally }
{
    let width = sizes.window_width();
    let windows = count_rounds(tally, sizes.windows(), width);
    let mut sums = count_rounds(windows, correction_count(sizes), width);
    sums.count_addition();
    sums.count_doubling();
    sums.count_addition();
    sums
}

// How many multiples of the base the table has above the base itself.
fn more_multiples(sizes: Sizes) -> u32
    ensures { result ≡ 2 ^ (sizes.k - 1) - 1 }
{
    (1 << (sizes.window_width() - 1)) - 1
}

// Three loops of a line each, and not one over a closure: a contract over any closure is longer
// than such a loop, and a call of it no shorter.
// So many doublings more.
fn count_doublings(tally: Tally, times: u32) -> Tally
    ensures { result ≡ many_doublings times tally }
{
    let mut counted = tally;
    for _ in 0..times {
        counted.count_doubling();
    }
    counted
}

// So many additions more.
fn count_additions(tally: Tally, times: u32) -> Tally
    ensures { result ≡ many_additions times tally }
{
    let mut counted = tally;
    for _ in 0..times {
        counted.count_addition();
    }
    counted
}

// So many rounds more, each of so many doublings and an addition.
fn count_rounds(tally: Tally, rounds: u32, doublings: u32) -> Tally
    ensures { result ≡ many_rounds rounds doublings tally }
{
    let mut counted = tally;
    for _ in 0..rounds {
        counted = count_doublings(counted, doublings);
        counted.count_addition();
    }
    counted
}
