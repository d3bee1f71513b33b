//! Worked runs of the recoding, proved from its definitions.
ghost use Rattle.std.specs.Prelude.{◌≡◌};
ghost use Rattle.recoding.specs.Worked.{WorkedRuns};

/// The worked runs hold, and it answers how many there are.
pub fn worked_runs() -> u32
    ensures hold { WorkedRuns }
    ensures count { result ≡ 5 }
{
    runs()
}

// How many runs there are.
fn runs() -> u32
    ensures { result ≡ 5 }
{
    5
}
