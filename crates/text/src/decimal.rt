//! Reading decimal numbers.
ghost use Rattle.std.specs.Prelude.{◌≡◌};
ghost use Rattle.text.specs.Decimal.{decimal_digit, decimal_of};

/// The number that `text` spells in decimal.
///
/// `None` where `text` is empty, has a byte other than `0` to `9`, or spells 2^32 or more. Leading zeros are allowed.
pub fn decimal(text: &[u8]) -> Option<u32>
    ensures value { result ≡ decimal_of text.now }
{
    if text.is_empty() {
        return None;
    }
    // Not `parse`, which takes a `+` too.
    let mut number: u32 = 0;
    for byte in text {
        let digit = decimal_digit(*byte)?;
        number = number.checked_mul(10)?.checked_add(u32::from(digit))?;
    }
    Some(number)
}

// The value of a decimal digit.
fn decimal_digit(byte: u8) -> Option<u8>
    ensures value { result ≡ decimal_digit byte }
{
    match byte {
        b'0'..=b'9' => Some(byte - b'0'),
        _ => None,
    }
}
