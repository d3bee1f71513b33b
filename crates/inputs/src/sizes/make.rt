//! How sizes are made and read.
ghost use Rattle.std.specs.Prelude.{◌≡◌, ◌+◌, ◌-◌, ◌*◌, ◌^◌, ◌≤◌, pos};
ghost use Rattle.inputs.specs.Sizes.{Made};

use crate::sizes::Sizes;
use common::refusal::Refusal;

impl Sizes {
    /// The sizes of `windows` windows of `window_width` bits with draws of `draw_width` bits.
    /// Refuses a window width outside 2 to 6 (1), then a draw width outside 1 to 30 (2), then a
    /// window count outside 1 to 255, or keys of more than 512 bits (3).
    pub fn new(window_width: u32, draw_width: u32, windows: u32) -> Result<Sizes, Refusal>
        ensures { Made window_width draw_width windows result }
    {
        if window_width < 2 || window_width > 6 {
            return Err(Refusal::WindowWidth);
        }
        if draw_width < 1 || draw_width > 30 {
            return Err(Refusal::DrawWidth);
        }
        if windows < 1 || windows > 255 {
            return Err(Refusal::WindowCount);
        }
        if windows * window_width + draw_width > 512 {
            return Err(Refusal::WindowCount);
        }
        Ok(Sizes {
            k: window_width,
            b: draw_width,
            m: windows,
        })
    }

    /// The bits of a window.
    pub fn window_width(self) -> u32
        ensures { result ≡ self.k }
    {
        self.k
    }

    /// The bits of a draw.
    pub fn draw_width(self) -> u32
        ensures { result ≡ self.b }
    {
        self.b
    }

    /// How many windows there are.
    pub fn windows(self) -> u32
        ensures { result ≡ self.m }
    {
        self.m
    }

    /// The bits that a key may have.
    pub fn key_bits(self) -> u32
        ensures { result ≡ self.m * self.k + self.b }
    {
        self.m * self.k + self.b
    }

    /// 2 to the window width, by which a window counts more than the one below it.
    pub fn step(self) -> i64
        ensures { result ≡ pos (2 ^ self.k) }
    {
        power(self.k)
    }

    /// 2 to the draw width, by which a digit counts.
    pub fn unit(self) -> i64
        ensures { result ≡ pos (2 ^ self.b) }
    {
        power(self.b)
    }

    /// 2 to the window and draw widths, by which a carry counts.
    pub fn span(self) -> i64
        ensures { result ≡ pos (2 ^ (self.k + self.b)) }
    {
        power(self.k + self.b)
    }

    /// Half of the span, at which the sign rules turn.
    pub fn half(self) -> i64
        ensures { result ≡ pos (2 ^ (self.k + self.b - 1)) }
    {
        power(self.k + self.b - 1)
    }
}

// 2 to the n.
fn power(n: u32) -> i64
    requires { n ≤ 40 }
    ensures { result ≡ pos (2 ^ n) }
{
    (1u64 << n) as i64
}
