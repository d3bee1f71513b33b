//! The recoding of a key.
ghost use Rattle.std.specs.Prelude.{◌≡◌, ◌+◌, ◌^◌, ◌<◌, ◌≤◌, ◌∷◌, map, length, drop, pos, neg_ℤ, ◌≤ℤ◌, slice_index_or};
ghost use Rattle.recoding.specs.Codings.{recode_refusal, Recoded};
ghost use Rattle.recoding.specs.Digits.{encoded, raised};
ghost use Rattle.inputs.specs.Keys.{scalar, half};
ghost use Rattle.inputs.specs.Rules.{Admitted};
ghost use Rattle.inputs.specs.Sizes.{key_bits};
ghost use Rattle.inputs.specs.Tests.{Tested};
ghost use Rattle.recoding.specs.Windows.{recoding};

use crate::check::check_lent;
use crate::coded::Coded;
use crate::digit::wipe;
use crate::window::{cut, join};
use common::refusal::Refusal;
use inputs::draw::Draw;
use inputs::key::{top_bits, window_bits};
use inputs::rule::SignRule;
use inputs::sign::Carry;
use inputs::sizes::Sizes;

/// Recodes the key by the draw: fills the first words with the digits of its windows, touches no
/// other, and spends the draw in the coded state. Refuses a key (4, 5) or too few words (6) or a
/// draw of another width or that the rule does not admit (10), in this order; then the draw comes
/// back and all words are zero.
pub fn recode<R: SignRule>(
    rule: &R,
    sizes: Sizes,
    key: &[u32],
    draw: Draw,
    words: &mut [i32],
) -> Result<Coded, (Refusal, Draw)>
    ensures { Recoded (R.SignRule.rule rule.now) sizes key.now draw words.old result words.new }
{
    if let Err(refusal) = check_recoding(rule, sizes, key, words.len(), &draw) {
        wipe(words);
        return Err((refusal, draw));
    }
    let count = sizes.windows() as usize;
    let correction = recode_windows(rule, sizes, key, draw.value(), &mut words[0..count]);
    Ok(Coded { draw, correction })
}

// The tests of a recoding, in their order.
fn check_recoding<R: SignRule>(
    rule: &R,
    sizes: Sizes,
    key: &[u32],
    words: usize,
    draw: &Draw,
) -> Result<(), Refusal>
    ensures { Tested (recode_refusal (R.SignRule.rule rule.now) sizes key.now words draw.now) result }
{
    check_lent(sizes, key, words)?;
    if draw.width() != sizes.draw_width() {
        return Err(Refusal::UnfitDraw);
    }
    if !rule.admits(sizes, draw.value()) {
        return Err(Refusal::UnfitDraw);
    }
    Ok(())
}

// The words of all windows of the key's half, from the top one down, and the correction. The bits
// of the half above all windows stand for what a window above the top one would leave.
fn recode_windows<R: SignRule>(
    rule: &R,
    sizes: Sizes,
    key: &[u32],
    s: u32,
    words: &mut [i32],
) -> i32
    requires count { length words.old ≡ sizes.m }
    requires admitted { Admitted (R.SignRule.rule rule.now) sizes.k sizes.b s }
    requires key { scalar key.now < 2 ^ key_bits sizes }
    ensures words { words.new ≡ map encoded (recoding (R.SignRule.rule rule.now) sizes s (half key.now)).digits }
    ensures correction { result ≡ (recoding (R.SignRule.rule rule.now) sizes s (half key.now)).left }
{
    let mut left = top_bits(sizes, key) as i64;
    // By index, since window i also adds its carry to the word at i + 1.
    for i in (0..sizes.windows()).rev() {
        let bits = window_bits(sizes, key, i);
        let window = cut(rule, sizes, join(sizes, left, bits), s);
        place(words, i as usize, window.digit.encode(), window.carry);
        left = window.left;
    }
    left as i32
}

// Writes a word, and the carry into the word above.
fn place(words: &mut [i32], i: usize, word: i32, carry: Carry)
    requires inside { i < length words.old }
    requires above { (neg_ℤ (pos (2 ^ 22)) ≤ℤ slice_index_or words.old (i + 1) (pos 0)) × (slice_index_or words.old (i + 1) (pos 0) ≤ℤ pos (2 ^ 22)) }
    ensures { drop i words.new ≡ word ∷ raised carry (drop (i + 1) words.old) }
{
    raise(words, i + 1, carry);
    words[i] = word;
}

// Adds a carry to the digit in the word at i, if there is one.
fn raise(words: &mut [i32], i: usize, carry: Carry)
    requires { (neg_ℤ (pos (2 ^ 22)) ≤ℤ slice_index_or words.old i (pos 0)) × (slice_index_or words.old i (pos 0) ≤ℤ pos (2 ^ 22)) }
    ensures { drop i words.new ≡ raised carry (drop i words.old) }
{
    if i < words.len() {
        words[i] += 2 * carry.value();
    }
}
