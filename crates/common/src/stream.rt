//! A reader of lent bytes with a mark of how far they are read.
ghost use Rattle.std.specs.Prelude.{◌≤◌, length};

mod reads;

/// The caller's bytes, and the mark: how many of them are read. Draws are read through it, and
/// so is any other format in bytes.
#[derive(Drop)]
pub struct Stream<'a> {
    bytes: &'a [u8],
    mark: usize,
    ghost within: { mark ≤ length bytes.now },
}
