//! The check of a coding, whoever made it.
ghost use Rattle.std.specs.Prelude.{◌≡◌, ◌+◌, ◌*◌, ◌^◌, ◌<◌, ◌≤◌, map, length, pos, ◌+ℤ◌, neg_ℤ, ◌≤ℤ◌, ◌<ℤ◌, Decides};
ghost use Rattle.recoding.specs.Codings.{Checked, check_refusal, Within, total, reached};
ghost use Rattle.recoding.specs.Digits.{decoded};
ghost use Rattle.inputs.specs.Keys.{scalar, half};
ghost use Rattle.recoding.specs.Powers.{Divided, Small};
ghost use Rattle.inputs.specs.Rules.{Admitted};
ghost use Rattle.inputs.specs.Signs.{signed};
ghost use Rattle.inputs.specs.Sizes.{key_bits};
ghost use Rattle.inputs.specs.Tests.{Tested};

use crate::digit::{Digit, times_sign};
use crate::power::{divided, scaled};
use common::refusal::Refusal;
use inputs::key::{check_key, top_bits, window_bits};
use inputs::rule::SignRule;
use inputs::sizes::Sizes;

/// Whether the sizes take the key and so many words for its digits. Refuses a key (4, 5), then too
/// few words (6).
pub fn check_lent(sizes: Sizes, key: &[u32], words: usize) -> Result<(), Refusal>
    ensures { Tested (check_refusal sizes key.now words) result }
{
    check_key(sizes, key)?;
    if words < sizes.windows() as usize {
        return Err(Refusal::TooFewDigits { words });
    }
    Ok(())
}

// Whether each digit with its sign is from lo to hi.
fn within_limits(lo: i32, hi: i32, words: &[i32]) -> bool
    ensures { Decides result (Within lo hi (map decoded words.now)) }
{
    for word in words {
        if !digit_within(lo, hi, *word) {
            return false;
        }
    }
    true
}

// Whether the digit in a word, with its sign, is from lo to hi.
fn digit_within(lo: i32, hi: i32, word: i32) -> bool
    ensures { Decides result ((lo ≤ℤ signed (decoded word).sign (decoded word).value) × (signed (decoded word).sign (decoded word).value ≤ℤ hi)) }
{
    let value = Digit::decode(word).signed();
    lo as i64 <= value && value <= hi as i64
}

// Whether the key's half is the correction and the sum of the digits, from window 0 up. At each
// window the bits of the half are taken off, and what is left has to be a multiple of 2 to the
// window width; so one word is carried, and it stays small whatever the digits are.
fn equation_holds(sizes: Sizes, key: &[u32], s: u32, correction: i32, words: &[i32]) -> bool
    requires count { length words.now ≡ sizes.m }
    requires key { scalar key.now < 2 ^ key_bits sizes }
    ensures { Decides result (pos (half key.now) ≡ correction +ℤ total sizes.k sizes.b s 0 (map decoded words.now)) }
{
    let mut carried = correction as i64;
    for (i, word) in words.iter().enumerate() {
        let bits = window_bits(sizes, key, i as u32);
        let Some(next) = carry_on(sizes, carried, *word, s, bits) else {
            return false;
        };
        carried = next;
    }
    carried == top_bits(sizes, key) as i64
}

// What a window carries into the next one, or `None` where its bits don't fit.
fn carry_on(sizes: Sizes, carried: i64, word: i32, s: u32, bits: u32) -> Option<i64>
    requires small { (neg_ℤ (pos (2 ^ 61)) ≤ℤ carried) × (carried ≤ℤ pos (2 ^ 61)) }
    ensures divided { Divided (pos (2 ^ sizes.k)) (reached sizes.b s bits carried (decoded word)) result }
    ensures small { Small result }
{
    let digit = Digit::decode(word);
    let sum = carried + scaled(sizes.unit(), digit.value as i64);
    divided(
        sizes.step(),
        sum + times_sign(s as i64, digit.sign) - bits as i64,
    )
}

/// Whether the draw `s`, the correction and the digits in the first words are a coding of the key:
/// the draw is of the sizes' bits and admitted, the correction and the digits keep their limits,
/// and the equation holds. Every number and every word is taken, whoever made it. Refuses a key
/// (4, 5) or too few words (6), in this order.
pub fn check_coding<R: SignRule>(
    rule: &R,
    sizes: Sizes,
    key: &[u32],
    s: u32,
    correction: i32,
    words: &[i32],
) -> Result<bool, Refusal>
    ensures { Checked (R.SignRule.rule rule.now) sizes key.now s correction words.now result }
{
    check_lent(sizes, key, words.len())?;
    let digits = &words[0..sizes.windows() as usize];
    let drawn = draw_admitted(rule, sizes, s);
    let small = correction_small(sizes, correction);
    let within = within_limits(rule.lo(sizes), rule.hi(sizes), digits);
    let holds = equation_holds(sizes, key, s, correction, digits);
    Ok(drawn & small & within & holds)
}

// Whether the draw is of the sizes' bits and admitted.
fn draw_admitted<R: SignRule>(rule: &R, sizes: Sizes, s: u32) -> bool
    ensures { Decides result (Admitted (R.SignRule.rule rule.now) sizes.k sizes.b s) }
{
    (s as i64) < sizes.unit() && rule.admits(sizes, s)
}

// Whether the correction is strictly between the negative unit and the unit.
fn correction_small(sizes: Sizes, correction: i32) -> bool
    ensures { Decides result ((neg_ℤ (pos (2 ^ sizes.b)) <ℤ correction) × (correction <ℤ pos (2 ^ sizes.b))) }
{
    let unit = sizes.unit();
    -unit < correction as i64 && (correction as i64) < unit
}
