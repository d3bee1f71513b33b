//! The sizes of a recoding.
ghost use Rattle.std.specs.Prelude.{◌+◌, ◌*◌, ◌≤◌};

mod make;

/// The sizes of a recoding: windows of `k` bits, draws of `b` bits, `m` windows. A key has at
/// most `m * k + b` bits. Every value keeps the limits that stand here.
#[derive(Clone, Copy)]
pub struct Sizes {
    k: u32,
    b: u32,
    m: u32,
    ghost k_least: { 2 ≤ k },
    ghost k_most: { k ≤ 6 },
    ghost b_least: { 1 ≤ b },
    ghost b_most: { b ≤ 30 },
    ghost m_least: { 1 ≤ m },
    ghost m_most: { m ≤ 255 },
    ghost bits_most: { m * k + b ≤ 512 },
}
