//! Fields of a line.
ghost use Rattle.std.specs.Prelude.{◌≡◌, IfOk, vec_items};
ghost use Rattle.lines.specs.Fields.{draws_text, key_text, number_then, paired};
ghost use Rattle.std.specs.Option.{option_map};

use std::alloc::{AllocError, Global};
use text::decimal::decimal;
use text::fields::cut;
use text::hex::{hex_bytes, hex_words};

/// A decimal number, a space, and what comes behind it.
pub fn number_then<'a>(text: &'a [u8]) -> Option<(u32, &'a [u8])>
    ensures { option_map paired result ≡ number_then text.now }
{
    let (front, rest) = cut(text, b' ');
    // The space first: without it the number need not be read.
    let rest = rest?;
    Some((decimal(front)?, rest))
}

/// The words of a key: one or more hexadecimal digits. Answers `Err` only where memory fails.
pub fn key_text(heap: Global, text: &[u8]) -> Result<Option<Vec<u32>>, AllocError>
    ensures { IfOk result (λ o. option_map vec_items o ≡ key_text text.now) }
{
    if text.is_empty() {
        return Ok(None);
    }
    hex_words(heap, text)
}

/// Random bytes: pairs of hexadecimal digits, or `-` for none. Answers `Err` only where memory
/// fails.
pub fn draws_text(heap: Global, text: &[u8]) -> Result<Option<Vec<u8>>, AllocError>
    ensures { IfOk result (λ o. option_map vec_items o ≡ draws_text text.now) }
{
    match text {
        [] => Ok(None),
        [b'-'] => Ok(Some(Vec::new(heap))),
        _ => hex_bytes(heap, text),
    }
}
