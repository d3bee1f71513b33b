//! How a draw is taken from a stream, read and ended.
ghost use Rattle.std.specs.Prelude.{◌≡◌, ◌≤◌, length};
ghost use Rattle.inputs.specs.Draws.{lowest_first, Drawn, FirstAdmitted};

use crate::draw::Draw;
use crate::rule::SignRule;
use crate::sizes::Sizes;
use common::refusal::Refusal;
use common::stream::Stream;

impl Draw {
    /// The first draw of the stream that the rule admits; those before it are skipped. Refuses where
    /// no admitted one is left (9, with the mark before the call), and then the mark stays.
    pub fn from_stream<R: SignRule>(
        rule: &R,
        sizes: Sizes,
        stream: &mut Stream,
    ) -> Result<Draw, Refusal>
        ensures source { stream.new.bytes.now ≡ stream.old.bytes.now }
        ensures first { FirstAdmitted ((R.SignRule.rule rule.now).admits sizes.k sizes.b) stream.old.bytes.now sizes.b stream.old.mark result stream.new.mark }
        ensures drawn { Drawn (R.SignRule.rule rule.now) sizes stream.old.bytes.now stream.old.mark result stream.new.mark }
    {
        let width = sizes.draw_width();
        let size = (width as usize + 7) / 8;
        let start = stream.mark();
        while let Some(bytes) = stream.next_bytes(size) {
            let value = lowest_first(bytes) % (1u32 << width);
            if rule.admits(sizes, value) {
                return Ok(Draw { value, width });
            }
        }
        stream.rewind(start);
        Err(Refusal::DrawsExhausted { mark: start })
    }

    /// The number that was drawn.
    pub fn value(&self) -> u32
        ensures { result ≡ self.now.value }
    {
        self.value
    }

    /// The bits that it was drawn with.
    pub fn width(&self) -> u32
        ensures { result ≡ self.now.width }
    {
        self.width
    }

    /// Ends a draw that no recoding spends, and gives its number.
    pub fn end(self) -> u32
        ensures { result ≡ self.value }
    {
        let Draw { value, width: _ } = self;
        value
    }
}

// The number in at most four bytes.
fn lowest_first(bytes: &[u8]) -> u32
    requires { length bytes.now ≤ 4 }
    ensures { result ≡ lowest_first bytes.now }
{
    // By length: a copy whose length is known only at run time costs more than all the rest.
    let word = match *bytes {
        [a] => [a, 0, 0, 0],
        [a, b] => [a, b, 0, 0],
        [a, b, c] => [a, b, c, 0],
        [a, b, c, d] => [a, b, c, d],
        _ => [0; 4],
    };
    u32::from_le_bytes(word)
}
