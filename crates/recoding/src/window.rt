//! One window of a recoding.
ghost use Rattle.std.specs.Prelude.{◌≡◌, ◌^◌, pos, ◌*ℤ◌, neg_ℤ, ◌≤ℤ◌};
ghost use Rattle.inputs.specs.Rules.{remainder, digit, rest, Reached, Admitted};
ghost use Rattle.inputs.specs.Signs.{signed, carry_value};
ghost use Rattle.recoding.specs.Windows.{below};

use crate::digit::{Digit, times_sign};
use crate::power::scaled;
use inputs::rule::SignRule;
use inputs::sign::{Carry, Choice};
use inputs::sizes::Sizes;

// A window's digit, what it adds to the window above, and what it leaves to the one below.
#[derive(Clone, Copy)]
pub(crate) struct Window {
    pub(crate) digit: Digit,
    pub(crate) carry: Carry,
    pub(crate) left: i64,
}

// The window of the number h: the remainder after the signed draw and the carry, parted by the
// unit. The quotient is rounded toward zero.
pub(crate) fn cut<R: SignRule>(rule: &R, sizes: Sizes, h: i64, s: u32) -> Window
    requires reached { Reached sizes.k sizes.b h }
    requires admitted { Admitted (R.SignRule.rule rule.now) sizes.k sizes.b s }
    ensures value { result.digit.value ≡ digit sizes.k sizes.b h s ((R.SignRule.rule rule.now).choose sizes.k sizes.b h s) }
    ensures sign { result.digit.sign ≡ ((R.SignRule.rule rule.now).choose sizes.k sizes.b h s).sign }
    ensures carry { result.carry ≡ ((R.SignRule.rule rule.now).choose sizes.k sizes.b h s).carry }
    ensures left { result.left ≡ rest sizes.k sizes.b h s ((R.SignRule.rule rule.now).choose sizes.k sizes.b h s) }
{
    let choice = rule.choose(sizes, h, s);
    let unit = sizes.unit();
    let r = remain(sizes, h, s, choice);
    let value = r / unit;
    Window {
        digit: Digit {
            value: value as i32,
            sign: choice.sign,
        },
        carry: choice.carry,
        left: r - scaled(unit, value),
    }
}

// What a window writes as unit times digit and rest.
fn remain(sizes: Sizes, h: i64, s: u32, choice: Choice) -> i64
    requires reached { Reached sizes.k sizes.b h }
    ensures is { result ≡ remainder sizes.k sizes.b h s choice }
    ensures least { neg_ℤ (pos (2 ^ 40)) ≤ℤ result }
    ensures most { result ≤ℤ pos (2 ^ 40) }
{
    h - times_sign(s as i64, choice.sign) - times_carry(sizes.span(), choice.carry)
}

// The span as often as the carry says.
fn times_carry(span: i64, carry: Carry) -> i64
    requires { pos 0 ≤ℤ span }
    ensures { result ≡ span *ℤ carry_value carry }
{
    match carry {
        Carry::Down => -span,
        Carry::Zero => 0,
        Carry::Up => span,
    }
}

// The number of the window below one that left `left`, with the next bits of the key.
pub(crate) fn join(sizes: Sizes, left: i64, bits: u32) -> i64
    requires { (neg_ℤ (pos (2 ^ 30)) ≤ℤ left) × (left ≤ℤ pos (2 ^ 30)) }
    ensures { result ≡ below sizes.k bits left }
{
    scaled(sizes.step(), left) + bits as i64
}
