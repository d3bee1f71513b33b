//! Digits, the words that hold them, and the guard that clears these.
ghost use Rattle.std.specs.Prelude.{◌≡◌, ◌^◌, length, pos, neg_ℤ, ◌≤ℤ◌};
ghost use Rattle.recoding.specs.Digits.{encoded, decoded, zeros};
ghost use Rattle.inputs.specs.Signs.{signed};

use inputs::sign::Sign;

/// The digit of a window, and its sign.
#[derive(Clone, Copy)]
pub struct Digit {
    pub value: i32,
    pub sign: Sign,
}

impl Digit {
    /// The digit that a word holds: half of it, rounded down, with a minus where it is odd.
    pub fn decode(word: i32) -> Digit
        ensures { result ≡ decoded word }
    {
        let sign = if word.rem_euclid(2) > 0 {
            Sign::Minus
        } else {
            Sign::Plus
        };
        Digit {
            value: word.div_euclid(2),
            sign,
        }
    }

    /// The digit times its sign.
    pub fn signed(self) -> i64
        ensures { result ≡ signed self.sign self.value }
    {
        times_sign(self.value as i64, self.sign)
    }

    // The word that holds the digit.
    pub(crate) fn encode(self) -> i32
        requires { (neg_ℤ (pos (2 ^ 20)) ≤ℤ self.value) × (self.value ≤ℤ pos (2 ^ 20)) }
        ensures { result ≡ encoded self }
    {
        match self.sign {
            Sign::Plus => 2 * self.value,
            Sign::Minus => 2 * self.value + 1,
        }
    }
}

// A number with a sign.
pub(crate) fn times_sign(z: i64, sign: Sign) -> i64
    requires { (neg_ℤ (pos (2 ^ 32)) ≤ℤ z) × (z ≤ℤ pos (2 ^ 32)) }
    ensures { result ≡ signed sign z }
{
    match sign {
        Sign::Plus => z,
        Sign::Minus => -z,
    }
}

/// Zeroes all words.
pub fn wipe(words: &mut [i32])
    ensures { words.new ≡ zeros (length words.old) }
{
    words.fill(0);
}

/// Holds the words of digits that must not outlive the work; at its end all of them are zero.
pub struct DigitGuard<'a> {
    pub words: &'a mut [i32],
}

impl Drop for DigitGuard<'_> {
    fn drop(self)
        ensures { self.exit.0.now ≡ zeros (length self.entry.words.now) }
    {
        let DigitGuard { words } = self;
        wipe(words);
    }
}

impl<'a> DigitGuard<'a> {
    /// Guards the words, as they are.
    pub fn new(words: &'a mut [i32]) -> DigitGuard<'a>
        ensures holds { result.words.now ≡ words.old }
        ensures lender { result.words.ghost_name ≡ words.entry.ghost_name }
    {
        DigitGuard { words }
    }
}
