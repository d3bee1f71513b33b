//! The windows of a correction, counted.
ghost use Rattle.std.specs.Prelude.{◌≡◌};
ghost use Rattle.steps.specs.Corrections.{correction_count};

use inputs::sizes::Sizes;

/// How many windows a correction has at the sizes.
pub fn correction_count(sizes: Sizes) -> u32
    ensures { result ≡ correction_count sizes.k sizes.b }
{
    sizes.draw_width() / sizes.window_width() + 1
}
