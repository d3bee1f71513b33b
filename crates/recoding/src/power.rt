//! Numbers times or by a power of two, without overflow.
ghost use Rattle.std.specs.Prelude.{◌≡◌, ◌^◌, pos, ◌*ℤ◌, neg_ℤ, ◌≤ℤ◌};
ghost use Rattle.recoding.specs.Powers.{Divided, Small};

// z as often as the factor says.
pub(crate) fn scaled(factor: i64, z: i64) -> i64
    requires factor { (pos 0 ≤ℤ factor) × (factor ≤ℤ pos (2 ^ 30)) }
    requires small { (neg_ℤ (pos (2 ^ 31)) ≤ℤ z) × (z ≤ℤ pos (2 ^ 31)) }
    ensures is { result ≡ factor *ℤ z }
    ensures least { neg_ℤ (pos (2 ^ 61)) ≤ℤ result }
    ensures most { result ≤ℤ pos (2 ^ 61) }
{
    factor * z
}

// x by the divisor, where that leaves nothing.
pub(crate) fn divided(divisor: i64, x: i64) -> Option<i64>
    requires { pos 4 ≤ℤ divisor }
    ensures divided { Divided divisor x result }
    ensures small { Small result }
{
    if x % divisor == 0 {
        Some(x / divisor)
    } else {
        None
    }
}
