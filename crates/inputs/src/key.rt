//! Keys: words of 32 bits, lowest first, lent by the caller.
ghost use Rattle.std.specs.Prelude.{◌≡◌, ◌*◌, ◌/◌, ◌%◌, ◌^◌, ◌≤◌, length, slice_index};
ghost use Rattle.inputs.specs.Keys.{scalar, half, bits_at, key_refusal, Highest, TopWord};
ghost use Rattle.inputs.specs.Tests.{Tested};

use crate::sizes::Sizes;
use common::refusal::Refusal;

/// Whether the sizes take the key. Refuses a key of no words or of more than 16 (4, with the word
/// count), then one that has more bits than the sizes allow (5, with its highest set bit).
pub fn check_key(sizes: Sizes, key: &[u32]) -> Result<(), Refusal>
    ensures { Tested (key_refusal sizes key.now) result }
{
    if key.len() < 1 || key.len() > 16 {
        return Err(Refusal::KeyLength { words: key.len() });
    }
    match highest_bit(key) {
        Some(bit) if bit >= sizes.key_bits() as usize => Err(Refusal::KeyTooLarge { bit }),
        _ => Ok(()),
    }
}

/// The bits of the key's half that window `i` brings in. Past the key's last word all bits are 0.
pub fn window_bits(sizes: Sizes, key: &[u32], i: u32) -> u32
    ensures { result ≡ bits_at (half key.now) sizes.k (sizes.k * i) }
{
    let width = sizes.window_width();
    bits_from(key, width as usize * i as usize + 1, width)
}

/// The bits of the key's half above all windows, as many as a draw has.
pub fn top_bits(sizes: Sizes, key: &[u32]) -> u32
    ensures { result ≡ bits_at (half key.now) sizes.b (sizes.k * sizes.m) }
{
    bits_from(
        key,
        (sizes.window_width() * sizes.windows()) as usize + 1,
        sizes.draw_width(),
    )
}

// The place of the highest set bit, or `None` where no bit is set.
fn highest_bit(key: &[u32]) -> Option<usize>
    requires { length key.now ≤ 16 }
    ensures { Highest (scalar key.now) result }
{
    let i = top_word(key)?;
    Some(32 * i + 31 - key[i].leading_zeros() as usize)
}

// The place of the highest word that is not 0.
fn top_word(key: &[u32]) -> Option<usize>
    ensures { TopWord key.now result }
{
    key.iter().rposition(|word| *word != 0)
}

// The word at i, or 0 past the end.
fn word_at(key: &[u32], i: usize) -> u32
    ensures { result ≡ slice_index key.now i }
{
    key.get(i).copied().unwrap_or(0)
}

// The `width` bits of the key from bit `from` up, which stand in at most two words.
fn bits_from(key: &[u32], from: usize, width: u32) -> u32
    requires { width ≤ 32 }
    ensures { result ≡ scalar key.now / 2 ^ from % 2 ^ width }
{
    let low = word_at(key, from / 32) as u64;
    let high = word_at(key, from / 32 + 1) as u64;
    let both = high * 0x1_0000_0000 + low;
    ((both >> (from % 32)) % (1u64 << width)) as u32
}
