//! Lines of a text, and the text of a refusal.
ghost use Rattle.std.specs.Prelude.{◌≡◌, ◌<◌, ◌++◌, length, OnOk};
ghost use Rattle.lines.specs.Lines.{or_none, refusal_text, trimmed};
ghost use Rattle.text.specs.Fields.{before, behind};

use common::refusal::Refusal;
use std::alloc::AllocError;
use text::fields::cut;

/// The first line of a text, without its line feed, and what comes behind it.
pub fn next_line<'a>(text: &'a [u8]) -> (&'a [u8], &'a [u8])
    ensures line { result.0.now ≡ before 10 text.now }
    ensures rest { result.1.now ≡ or_none (behind 10 text.now) }
    ensures shorter { 0 < length text.now → length result.1.now < length text.now }
{
    let (line, rest) = cut(text, b'\n');
    (line, rest.unwrap_or(&[]))
}

/// A line without the carriage return before its line feed.
pub fn trim<'a>(line: &'a [u8]) -> &'a [u8]
    ensures { result.now ≡ trimmed line.now }
{
    match line {
        [front @ .., b'\r'] => front,
        _ => line,
    }
}

/// Appends `no`, the refusal's number, its layer and its place. Answers `Err` only where memory
/// fails.
pub fn write_refusal(out: &mut Vec<u8>, refusal: Refusal) -> Result<(), AllocError>
    ensures { OnOk result (out.new.items ≡ out.old.items ++ refusal_text refusal) }
{
    let text = format!(in *out.allocator(); "{refusal}")?;
    out.extend_from_slice(text.as_bytes())
}
