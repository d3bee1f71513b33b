//! Reading hexadecimal digits, as bytes and as words of a long number.
ghost use Rattle.std.specs.Prelude.{◌≡◌, ◌^◌, ◌<◌, ◌≤◌, length, IfSome, IfOk, vec_items};
ghost use Rattle.std.specs.Option.{option_map};
ghost use Rattle.text.specs.Hex.{hex_digit, hex_number, bytes_of, words_of, words_number};

use std::alloc::{AllocError, Global};

/// The value of a hexadecimal digit, `0` to `9`, `a` to `f` or `A` to `F`; `None` for any other byte.
pub fn hex_digit(byte: u8) -> Option<u8>
    ensures value { result ≡ hex_digit byte }
{
    match byte {
        b'0'..=b'9' => Some(byte - b'0'),
        b'a'..=b'f' => Some(byte - b'a' + 10),
        b'A'..=b'F' => Some(byte - b'A' + 10),
        _ => None,
    }
}

/// The bytes that pairs of hexadecimal digits spell, in reading order, the high digit of each first.
///
/// `None` where a byte of `text` is no digit, or their number is odd. No digits spell no bytes.
pub fn hex_bytes(heap: Global, text: &[u8]) -> Result<Option<Vec<u8>>, AllocError>
    ensures value { IfOk result (λ o. option_map vec_items o ≡ bytes_of text.now) }
{
    if text.len() % 2 != 0 {
        return Ok(None);
    }
    let mut bytes = Vec::new(heap);
    for pair in text.chunks_exact(2) {
        // Not `?`, which passes up the error of memory alone.
        let Some(byte) = hex_number(pair) else {
            return Ok(None);
        };
        bytes.push(byte as u8)?;
    }
    Ok(Some(bytes))
}

/// The number that hexadecimal digits spell, most significant first, as words of 32 bits, lowest first.
///
/// Each word takes eight digits from the right, and the highest word those that are left; leading zeros count as digits.
/// `None` where a byte of `text` is no digit. No digits spell no words.
pub fn hex_words(heap: Global, text: &[u8]) -> Result<Option<Vec<u32>>, AllocError>
    ensures value { IfOk result (λ o. option_map vec_items o ≡ words_of text.now) }
    ensures number { IfOk result (λ o. option_map (λ v. words_number v.items) o ≡ hex_number text.now) }
{
    let mut words = Vec::new(heap);
    for group in text.rchunks(8) {
        // Not `?`, which passes up the error of memory alone.
        let Some(word) = hex_number(group) else {
            return Ok(None);
        };
        words.push(word)?;
    }
    Ok(Some(words))
}

// The number that at most eight hexadecimal digits spell; `None` where a byte is no digit.
fn hex_number(text: &[u8]) -> Option<u32>
    requires { length text.now ≤ 8 }
    ensures value { result ≡ hex_number text.now }
    ensures bound { IfSome result (λ n. n < 16 ^ length text.now) }
{
    let mut number: u32 = 0;
    for byte in text {
        let digit = hex_digit(*byte)?;
        number = 16 * number + u32::from(digit);
    }
    Some(number)
}
