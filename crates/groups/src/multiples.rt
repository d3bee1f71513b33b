//! The laws of multiples as a theorem, and a table of worked multiples.
ghost use Rattle.std.specs.Prelude.{◌≡◌};
ghost use Rattle.groups.specs.Multiples.{MultipleLaws};
ghost use Rattle.groups.specs.Worked.{Worked, written};

use super::clock::ClockPoint;
use super::curve::CurvePoint;
use super::device::GroupDevice;

/// Multiples on the curve, on the clock modulo 7 and in sums modulo 1000.
#[derive(Clone, Copy)]
pub struct WorkedMultiples {
    /// 3, 5 and 25725 times (2, 7) on the curve.
    pub curve: [CurvePoint; 3],
    /// 25725 times (2, 2) on the clock modulo 7.
    pub clock: ClockPoint,
    /// 25725 times 1 in sums modulo 1000.
    pub sums: u32,
}

/// Says by its contract that the laws of multiples hold in the group of every device.
pub fn multiples_keep_laws<D: GroupDevice>(device: &D)
    ensures { MultipleLaws (D.GroupDevice.group device.now) }
{}

/// The table of worked multiples, which its contract states from the definitions.
pub fn worked_multiples() -> WorkedMultiples
    ensures { Worked result }
{
    table()
}

/// The multiples as the table has them.
// A function of its own: as one function the search for its proof broke off, since each multiple is
// computed anew wherever it looks at a clause.
fn table() -> WorkedMultiples
    ensures { result ≡ written }
{
    WorkedMultiples {
        curve: [
            CurvePoint::Affine { x: 8, y: 3 },
            CurvePoint::Affine { x: 3, y: 6 },
            CurvePoint::Affine { x: 5, y: 9 },
        ],
        clock: ClockPoint { x: 5, y: 5 },
        sums: 725,
    }
}
