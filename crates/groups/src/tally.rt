//! What a device has counted.
ghost use Rattle.std.specs.Prelude.{◌≡◌, Some};
ghost use Rattle.groups.specs.Tally.{one_addition, one_doubling, tally_text, zero_tally};

use std::fmt;

/// The operations that a device has done since its set-up. The other calls are not counted.
#[derive(Clone, Copy, PartialEq, Eq, Debug, Default)]
pub struct Tally {
    /// How many doublings, modulo 2^64.
    pub doublings: u64,
    /// How many additions, modulo 2^64.
    pub additions: u64,
    /// The last 64 operations, the latest in the lowest bit: 1 for an addition, 0 for a doubling.
    pub trace: u64,
}

impl Tally {
    /// The tally of a device that has done nothing yet.
    pub fn zero() -> Tally
        ensures { result ≡ zero_tally }
    {
        Tally::default()
    }

    /// Counts one addition: raises `additions` and shifts a 1 into `trace`.
    pub fn count_addition(&mut self)
        ensures { self.new ≡ one_addition self.old }
    {
        self.additions = self.additions.wrapping_add(1);
        self.trace = (self.trace << 1) + 1;
    }

    /// Counts one doubling: raises `doublings` and shifts a 0 into `trace`.
    pub fn count_doubling(&mut self)
        ensures { self.new ≡ one_doubling self.old }
    {
        self.doublings = self.doublings.wrapping_add(1);
        self.trace <<= 1;
    }
}

impl fmt::Display for Tally {
    ghost output = { λ tally. Some (tally_text tally) };

    /// Doublings, additions and trace in decimal, with single spaces between them.
    fn fmt<W: fmt::Write>(&self, f: &mut fmt::Formatter<W>) -> fmt::Result {
        let Tally {
            doublings,
            additions,
            trace,
        } = *self;
        write!(f, "{doublings} {additions} {trace}")
    }
}
