//! What a stream offers.
ghost use Rattle.std.specs.Prelude.{◌≡◌, ◌-◌, min, length};
ghost use Rattle.common.specs.Streams.{Next, NextMany};

use crate::stream::Stream;

impl<'a> Stream<'a> {
    /// A stream over `bytes`, of which none is read.
    pub fn new(bytes: &'a [u8]) -> Stream<'a>
        ensures source { result.bytes.now ≡ bytes.now }
        ensures mark { result.mark ≡ 0 }
    {
        Stream { bytes, mark: 0 }
    }

    /// A stream over `bytes`, of which the first `mark` are read, or all where they are fewer.
    pub fn resume(bytes: &'a [u8], mark: usize) -> Stream<'a>
        ensures source { result.bytes.now ≡ bytes.now }
        ensures mark { result.mark ≡ min mark (length bytes.now) }
    {
        Stream {
            bytes,
            mark: mark.min(bytes.len()),
        }
    }

    /// How many bytes are read.
    pub fn mark(&self) -> usize
        ensures { result ≡ self.now.mark }
    {
        self.mark
    }

    /// How many bytes are left.
    pub fn remaining(&self) -> usize
        ensures { result ≡ length self.now.bytes.now - self.now.mark }
    {
        self.bytes.len() - self.mark
    }

    /// The next byte, or `None` at the end, which changes nothing.
    pub fn next_byte(&mut self) -> Option<u8>
        ensures source { self.new.bytes.now ≡ self.old.bytes.now }
        ensures byte { Next self.old.bytes.now self.old.mark result self.new.mark }
    {
        let byte = *self.bytes.get(self.mark)?;
        self.mark += 1;
        Some(byte)
    }

    /// The next `count` bytes, or `None` where fewer are left, which changes nothing.
    pub fn next_bytes(&mut self, count: usize) -> Option<&'a [u8]>
        ensures source { self.new.bytes.now ≡ self.old.bytes.now }
        ensures taken { NextMany self.old.bytes.now self.old.mark count result self.new.mark }
    {
        let rest = &self.bytes[self.mark..];
        let (part, _) = rest.split_at_checked(count)?;
        self.mark += count;
        Some(part)
    }

    /// Goes back to an earlier mark; a later one changes nothing.
    pub fn rewind(&mut self, mark: usize)
        ensures source { self.new.bytes.now ≡ self.old.bytes.now }
        ensures mark { self.new.mark ≡ min mark self.old.mark }
    {
        self.mark = self.mark.min(mark);
    }
}
