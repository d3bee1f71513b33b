//! How a table is evaluated: the last three steps.
ghost use Rattle.std.specs.Prelude.{◌≡◌, ◌+◌, ◌-◌, ◌^◌, ◌<◌, ◌≤◌, map, length, pos, ◌+ℤ◌, neg_ℤ, ◌≤ℤ◌, unsigned_abs};
ghost use Rattle.std.specs.List.{All};
ghost use Rattle.inputs.specs.Signs.{signed};
ghost use Rattle.groups.specs.Groups.{added, doubled};
ghost use Rattle.groups.specs.Tally.{one_addition, one_doubling};
ghost use Rattle.multiplier.specs.Tables.{Reaches, evaluated, read_digit, window_digit};
ghost use Rattle.recoding.specs.Digits.{decoded};
ghost use Rattle.steps.specs.Corrections.{correction_count, correction_windows};
ghost use Rattle.steps.specs.Operations.{chosen, gathered};
ghost use Rattle.steps.specs.Steps.{turned};
ghost use Rattle.steps.specs.Work.{many_rounds, sums_work};

use crate::correction::code_correction;
use crate::layout::Layout;
use crate::operations::{choose, round};
use crate::table::Table;
use crate::word::Word;
use groups::device::GroupDevice;
use inputs::sign::Sign;
use inputs::sizes::Sizes;
use recoding::coded::Coded;
use recoding::digit::Digit;
use steps::corrections::correction_count;

// The value of a coding from a table: the sum by the digits of the windows and the sum by the
// windows of the correction, together, doubled, and the base or neutral by the key's lowest bit.
// Takes the coded state alone: a draw has to be recoded first.
pub(crate) fn evaluate<D: GroupDevice>(
    device: &mut D,
    sizes: Sizes,
    layout: Layout,
    table: &Table<D::Element>,
    coded: Coded,
    words: &[i32],
    base: D::Element,
    bit: u32,
) -> D::Element
    requires digits { All (Reaches (length table.now.cells.now) layout.down) (map decoded words.now) }
    requires windows { layout.down + layout.up + 1 + 2 ^ (sizes.k - 1) < length table.now.cells.now }
    ensures value { result ≡ evaluated (D.GroupDevice.group device.old) table.now.cells.now layout.down (layout.down + layout.up + 1) sizes.k sizes.b base words.now coded.correction bit }
    ensures same { D.GroupDevice.group device.new ≡ D.GroupDevice.group device.old }
    ensures counted { D.GroupDevice.tally device.new ≡ sums_work sizes.k sizes.b (length words.now) (D.GroupDevice.tally device.old) }
{
    let (_, correction) = coded.end();
    let middle = layout.down as u32;
    let whole = table.gather(device, middle, sizes.window_width(), words);
    let part = table.gather_correction(device, sizes, layout.small() as u32, correction);
    finish(device, whole, part, base, bit)
}

// Both sums, doubled, and the base or neutral; the last addition is always made.
fn finish<D: GroupDevice>(
    device: &mut D,
    whole: D::Element,
    part: D::Element,
    base: D::Element,
    bit: u32,
) -> D::Element
    ensures value { result ≡ added (D.GroupDevice.group device.old) (doubled (D.GroupDevice.group device.old) (added (D.GroupDevice.group device.old) whole part)) (chosen (D.GroupDevice.group device.old) base bit) }
    ensures same { D.GroupDevice.group device.new ≡ D.GroupDevice.group device.old }
    ensures counted { D.GroupDevice.tally device.new ≡ one_addition (one_doubling (one_addition (D.GroupDevice.tally device.old))) }
{
    let sum = device.add(whole, part);
    let addend = choose(device, base, bit);
    round(device, sum, 1, addend)
}

impl<'a, E: Copy> Table<'a, E> {
    // The sum by the windows of the correction.
    fn gather_correction<D: GroupDevice<Element = E>>(
        &self,
        device: &mut D,
        sizes: Sizes,
        small: u32,
        correction: i32,
    ) -> E
        requires { small + 2 ^ (sizes.k - 1) < length self.now.cells.now }
        ensures value { result ≡ gathered (D.GroupDevice.group device.old) sizes.k (read_digit (D.GroupDevice.group device.old) self.now.cells.now small) (map window_digit (correction_windows sizes.k sizes.b correction)) }
        ensures same { D.GroupDevice.group device.new ≡ D.GroupDevice.group device.old }
        ensures counted { D.GroupDevice.tally device.new ≡ many_rounds (correction_count sizes.k sizes.b) sizes.k (D.GroupDevice.tally device.old) }
    {
        let zero = Digit {
            value: 0,
            sign: Sign::Plus,
        };
        // A fixed array, since the multiplication uses no heap.
        let mut windows = [zero; 16];
        let windows = &mut windows[0..correction_count(sizes) as usize];
        code_correction(sizes, correction, windows);
        self.gather(device, small, sizes.window_width(), windows)
    }

    // From neutral, a round for each word, from the last down: the doublings of a window, then the
    // addition of what the word's digit stands for in the part of the table whose 0 is at `origin`.
    fn gather<D: GroupDevice<Element = E>, W: Word>(
        &self,
        device: &mut D,
        origin: u32,
        width: u32,
        words: &[W],
    ) -> E
        requires { All (Reaches (length self.now.cells.now) origin) (map W.Word.digit words.now) }
        ensures value { result ≡ gathered (D.GroupDevice.group device.old) width (read_digit (D.GroupDevice.group device.old) self.now.cells.now origin) (map W.Word.digit words.now) }
        ensures same { D.GroupDevice.group device.new ≡ D.GroupDevice.group device.old }
        ensures counted { D.GroupDevice.tally device.new ≡ many_rounds (length words.now) width (D.GroupDevice.tally device.old) }
    {
        let mut result = device.neutral();
        for word in words.iter().rev() {
            let addend = self.read(device, origin, word.digit());
            result = round(device, result, width, addend);
        }
        result
    }

    // The entry of a digit with its sign, or its negative where the sign is minus.
    fn read<D: GroupDevice<Element = E>>(&self, device: &D, origin: u32, digit: Digit) -> E
        requires { Reaches (length self.now.cells.now) origin digit }
        ensures { result ≡ read_digit (D.GroupDevice.group device.now) self.now.cells.now origin digit }
    {
        let entry = self.get(place(origin, digit.signed()));
        turn(device, digit.sign, entry)
    }
}

// The element for a plus, its negative for a minus.
fn turn<D: GroupDevice>(device: &D, sign: Sign, a: D::Element) -> D::Element
    ensures { result ≡ turned (D.GroupDevice.group device.now) sign a }
{
    match sign {
        Sign::Plus => a,
        Sign::Minus => device.negate(a),
    }
}

// Where the entry for `h` stands.
fn place(origin: u32, h: i64) -> usize
    requires { (neg_ℤ (pos (2 ^ 32)) ≤ℤ h) × (h ≤ℤ pos (2 ^ 32)) }
    ensures { result ≡ unsigned_abs (pos origin +ℤ h) }
{
    (origin as i64 + h).unsigned_abs() as usize
}
