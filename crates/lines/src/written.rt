//! Lines of values that print, written behind what a vector holds.
ghost use Rattle.std.specs.Prelude.{◌≡◌, ◌++◌, IfSome, OnOk, codes};

use std::alloc::AllocError;
use std::fmt::Write;
use std::{fmt, mem};

/// Appends the text of a value and a line feed, without a text of its own between. Answers `Err`
/// only where memory or the value's own printing fails.
pub fn write_line<D: fmt::Display + Drop>(out: &mut Vec<u8>, value: D) -> Result<(), AllocError>
    ensures { OnOk result (IfSome (D.output value) (λ text. out.new.items ≡ out.old.items ++ text ++ codes "\n")) }
{
    let empty = Vec::new(*out.allocator());
    let mut page = Page {
        bytes: mem::replace(out, empty),
    };
    let result = page.writeln(value);
    *out = page.bytes;
    result.map_err(|_| AllocError)
}

// Bytes that text is written behind.
#[derive(Drop)]
struct Page {
    bytes: Vec<u8>,
}

impl fmt::Write for Page {
    ghost write_str_gives = { λ before text after. after.bytes.items ≡ before.bytes.items ++ text };

    fn write_str(&mut self, text: &str) -> fmt::Result {
        self.bytes
            .extend_from_slice(text.as_bytes())
            .map_err(|_| fmt::Error)
    }
}
