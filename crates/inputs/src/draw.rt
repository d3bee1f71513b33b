//! Draws: random numbers that are spent by one recoding.
ghost use Rattle.std.specs.Prelude.{◌^◌, ◌<◌};

mod take;

/// A random number of `width` bits, which shifts every window of one recoding. It is neither
/// copied nor cloned nor let go: a recoding spends it, or `end` does.
pub struct Draw {
    value: u32,
    width: u32,
    ghost below: { value < 2 ^ width },
}
