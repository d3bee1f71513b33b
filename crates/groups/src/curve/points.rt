//! Arithmetic of points on the curve, modulo 11.
ghost use Rattle.std.specs.Prelude.{◌≡◌, true};
ghost use Rattle.groups.specs.Curve.{affine_sum, chord, curve_negative, curve_points, on_curve, tangent, third};

use super::CurvePoint;
use super::residue::Residue;

/// Whether a point is on the curve.
pub(super) fn on_curve(p: CurvePoint) -> bool
    ensures { result ≡ on_curve p }
{
    match p {
        CurvePoint::Infinity => true,
        CurvePoint::Affine { x, y } => {
            x < 11 && y < 11 && y * y % 11 == (x * x * x + x + 6) % 11
        }
    }
}

/// The sum of two members.
pub(super) fn sum(p: CurvePoint, q: CurvePoint) -> CurvePoint
    requires { (on_curve p ≡ true) × (on_curve q ≡ true) }
    ensures { result ≡ affine_sum p q }
{
    match (p, q) {
        (CurvePoint::Infinity, other) | (other, CurvePoint::Infinity) => other,
        (CurvePoint::Affine { x: x1, y: y1 }, CurvePoint::Affine { x: x2, y: y2 }) => {
            if x1 != x2 {
                by_chord(
                    Residue::of(x1),
                    Residue::of(y1),
                    Residue::of(x2),
                    Residue::of(y2),
                )
            } else if (y1 + y2) % 11 == 0 {
                CurvePoint::Infinity
            } else {
                by_tangent(Residue::of(x1), Residue::of(y1))
            }
        }
    }
}

/// The negative of a member.
pub(super) fn negative(p: CurvePoint) -> CurvePoint
    requires { on_curve p ≡ true }
    ensures { result ≡ curve_negative p }
{
    match p {
        CurvePoint::Infinity => CurvePoint::Infinity,
        CurvePoint::Affine { x, y } => CurvePoint::Affine {
            x,
            y: (11 - y) % 11,
        },
    }
}

/// The points on the curve.
pub(super) fn all_points() -> [CurvePoint; 13]
    ensures { result ≡ curve_points }
{
    [
        CurvePoint::Infinity,
        CurvePoint::Affine { x: 2, y: 4 },
        CurvePoint::Affine { x: 2, y: 7 },
        CurvePoint::Affine { x: 3, y: 5 },
        CurvePoint::Affine { x: 3, y: 6 },
        CurvePoint::Affine { x: 5, y: 2 },
        CurvePoint::Affine { x: 5, y: 9 },
        CurvePoint::Affine { x: 7, y: 2 },
        CurvePoint::Affine { x: 7, y: 9 },
        CurvePoint::Affine { x: 8, y: 3 },
        CurvePoint::Affine { x: 8, y: 8 },
        CurvePoint::Affine { x: 10, y: 2 },
        CurvePoint::Affine { x: 10, y: 9 },
    ]
}

/// The sum of two points with different x.
fn by_chord(x1: Residue, y1: Residue, x2: Residue, y2: Residue) -> CurvePoint
    ensures { result ≡ chord x1.value y1.value x2.value y2.value }
{
    third_point((y2 - y1) / (x2 - x1), x1, y1, x2)
}

/// The sum of a point with itself.
fn by_tangent(x: Residue, y: Residue) -> CurvePoint
    ensures { result ≡ tangent x.value y.value }
{
    let rise = Residue::of(3) * x * x + Residue::of(1);
    third_point(rise / (y + y), x, y, x)
}

/// The negative of the third point on the line with that slope through two points.
fn third_point(slope: Residue, x1: Residue, y1: Residue, x2: Residue) -> CurvePoint
    ensures { result ≡ third slope.value x1.value y1.value x2.value }
{
    let x = slope * slope - (x1 + x2);
    let y = slope * (x1 - x) - y1;
    CurvePoint::Affine {
        x: x.value,
        y: y.value,
    }
}
