//! The windows of a correction.
ghost use Rattle.std.specs.Prelude.{◌≡◌, ◌^◌, ◌≤◌, map, length, pos, neg_ℤ, ◌≤ℤ◌, unsigned_abs};
ghost use Rattle.multiplier.specs.Tables.{turned_by, window_digit};
ghost use Rattle.steps.specs.Corrections.{gain, lessened, low_windows};

use inputs::sign::Sign;
use inputs::sizes::Sizes;
use recoding::digit::Digit;

// Writes windows of the correction as digits, lowest first, as many as there is room for.
pub(crate) fn code_correction(sizes: Sizes, correction: i32, digits: &mut [Digit])
    ensures { digits.new ≡ map (λ w. window_digit (turned_by correction w)) (low_windows sizes.k (length digits.old) (unsigned_abs correction) 0) }
{
    let mut rest = correction.unsigned_abs();
    let mut gained = 0u32;
    for digit in digits.iter_mut() {
        let (window, gain) = lessen(sizes, rest % step(sizes) + gained);
        *digit = window_digit(turn(correction, window));
        gained = gain;
        rest /= step(sizes);
    }
}

// A window above the half loses 2 to the width, and then the next window gains 1.
fn lessen(sizes: Sizes, window: u32) -> (i32, u32)
    requires { window ≤ 64 }
    ensures window { result.0 ≡ lessened sizes.k window }
    ensures gain { result.1 ≡ gain sizes.k window }
    ensures small { (neg_ℤ (pos 64) ≤ℤ result.0) × ((result.0 ≤ℤ pos 64) × (result.1 ≤ 1)) }
{
    if window > step(sizes) / 2 {
        (window as i32 - step(sizes) as i32, 1)
    } else {
        (window as i32, 0)
    }
}

// A window of a negative correction changes its sign.
fn turn(correction: i32, window: i32) -> i32
    requires { (neg_ℤ (pos 64) ≤ℤ window) × (window ≤ℤ pos 64) }
    ensures { result ≡ turned_by correction window }
{
    if correction < 0 { -window } else { window }
}

// A window as a digit: itself, with its sign.
fn window_digit(window: i32) -> Digit
    ensures { result ≡ window_digit window }
{
    let sign = if window < 0 { Sign::Minus } else { Sign::Plus };
    Digit {
        value: window,
        sign,
    }
}

// 2 to the window width.
fn step(sizes: Sizes) -> u32
    ensures value { result ≡ 2 ^ sizes.k }
    ensures small { (1 ≤ result) × (result ≤ 64) }
{
    sizes.step() as u32
}
