//! Writing numbers in decimal.
ghost use Rattle.std.specs.Prelude.{◌≡◌, ◌++◌, is_ok, if◌then◌else◌, decimal};
ghost use Rattle.std.specs.Fmt.{signed_decimal};

use itoa::{Buffer, Integer};
use std::alloc::AllocError;

/// Appends `n` in decimal to `out`, with no leading zeros.
///
/// Where memory fails, `out` is left as it was.
pub fn push_number(out: &mut Vec<u8>, n: u64) -> Result<(), AllocError>
    ensures items { out.new.items ≡ (if is_ok result then out.old.items ++ decimal n else out.old.items) }
{
    push(out, n)
}

/// Appends `z` in decimal to `out`, with a `-` before a negative number and no leading zeros.
///
/// Where memory fails, `out` is left as it was.
pub fn push_signed(out: &mut Vec<u8>, z: i64) -> Result<(), AllocError>
    ensures items { out.new.items ≡ (if is_ok result then out.old.items ++ signed_decimal z else out.old.items) }
{
    push(out, z)
}

// Appends an integer's decimal text.
fn push<I: Integer>(out: &mut Vec<u8>, n: I) -> Result<(), AllocError>
    ensures { out.new.items ≡ (if is_ok result then out.old.items ++ I.text n else out.old.items) }
{
    out.extend_from_slice(Buffer::new().format(n).as_bytes())
}
