//! A table of worked multiplications, proved from the definitions.
ghost use Rattle.std.specs.Prelude.{◌≡◌};
ghost use Rattle.runs.specs.Worked.{WorkedMultiplications, written};

use groups::clock::ClockPoint;
use groups::curve::CurvePoint;

/// Multiplications with windows of 3 bits, draws of 6 bits, 3 windows, the third rule and the draw
/// 38.
#[derive(Clone, Copy)]
pub struct WorkedAnswers {
    /// The windows of the correction 30.
    pub windows: [i32; 3],
    /// The cells that a table has.
    pub cells: usize,
    /// The key 25725 on 1 in sums modulo 1000.
    pub sums: u32,
    /// The key 25725 on (2, 2) of the clock modulo 7.
    pub clock: ClockPoint,
    /// The key 25725 on (2, 7) of the curve.
    pub curve: CurvePoint,
    /// The keys 3 and 5 on (2, 7) of the curve.
    pub halfway: [CurvePoint; 2],
    /// Each of the two keys on the other's answer.
    pub agreed: CurvePoint,
}

/// The table of worked multiplications, which its contract states from the definitions.
pub fn worked_multiplications() -> WorkedAnswers
    ensures { WorkedMultiplications result }
{
    table()
}

// The answers as the table has them.
fn table() -> WorkedAnswers
    ensures { result ≡ written }
{
    WorkedAnswers {
        windows: [-2, 4, 0],
        cells: 11,
        sums: 725,
        clock: ClockPoint { x: 5, y: 5 },
        curve: CurvePoint::Affine { x: 5, y: 9 },
        halfway: [
            CurvePoint::Affine { x: 8, y: 3 },
            CurvePoint::Affine { x: 3, y: 6 },
        ],
        agreed: CurvePoint::Affine { x: 5, y: 2 },
    }
}
