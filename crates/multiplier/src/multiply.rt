//! The multiplication.
ghost use Rattle.std.specs.Prelude.{◌≡◌, ◌+◌, ◌-◌, ◌%◌, ◌^◌, ◌<◌, ◌≤◌, [], ◌∷◌, map, length, replicate, None, Ok};
ghost use Rattle.std.specs.List.{All};
ghost use Rattle.inputs.specs.Keys.{scalar};
ghost use Rattle.inputs.specs.Tests.{Tested, or_else};
ghost use Rattle.multiplier.specs.Calls.{Made, asked, base_refusal, cells_after, cells_needed, keyed, table_refusal};
ghost use Rattle.multiplier.specs.Runs.{GoesOn};
ghost use Rattle.multiplier.specs.Tables.{Reaches, evaluated};
ghost use Rattle.recoding.specs.Codings.{Within, check_refusal, recode_refusal};
ghost use Rattle.recoding.specs.Digits.{decoded, zeros};
ghost use Rattle.steps.specs.Steps.{multiplied};
ghost use Rattle.steps.specs.Work.{sums_work, work};

use crate::evaluate::evaluate;
use crate::layout::Layout;
use crate::table::Table;
use common::refusal::Refusal;
use common::stream::Stream;
use groups::device::GroupDevice;
use inputs::draw::Draw;
use inputs::rule::SignRule;
use inputs::sizes::Sizes;
use recoding::check::check_lent;
use recoding::coded::Coded;
use recoding::digit::DigitGuard;
use recoding::recode::recode;

/// The key times the base, on the device: takes the first admitted draw, recodes the key by it,
/// builds the table in the cells and evaluates it. Refuses a key (4, 5), too few digit words (6),
/// a table too short (7), a base that does not belong (8) and draws without an admitted one (9), in
/// this order; then the cells, the draws and the device are as they were. After an accepted call the
/// used cells are neutral, the others untouched, and the mark is behind the draw. The digit words
/// are zero on every way out.
pub fn multiply<D: GroupDevice, R: SignRule>(
    device: &mut D,
    rule: &R,
    sizes: Sizes,
    key: &[u32],
    base: D::Element,
    draws: &mut Stream,
    cells: &mut [D::Element],
    words: &mut [i32],
) -> Result<D::Element, Refusal>
    ensures source { draws.new.bytes.now ≡ draws.old.bytes.now }
    ensures made { Made D.GroupDevice.group D.GroupDevice.tally device.old (asked (R.SignRule.rule rule.now) sizes key.now base draws.old.bytes.now draws.old.mark (length cells.old) (length words.old) result draws.new.mark) device.new }
    ensures goes_on { GoesOn (D.GroupDevice.group device.old) (D.GroupDevice.tally device.old) ((asked (R.SignRule.rule rule.now) sizes key.now base draws.old.bytes.now draws.old.mark (length cells.old) (length words.old) result draws.new.mark) ∷ []) (D.GroupDevice.tally device.new) }
    ensures cells { cells.new ≡ cells_after (D.GroupDevice.group device.old) (asked (R.SignRule.rule rule.now) sizes key.now base draws.old.bytes.now draws.old.mark (length cells.old) (length words.old) result draws.new.mark) cells.old }
    ensures words { words.new ≡ zeros (length words.old) }
{
    let guard = DigitGuard::new(words);
    attempt(device, rule, sizes, key, base, draws, cells, guard.words)
}

/// How many cells a multiplication by the rule at the sizes uses.
pub fn cells_needed<R: SignRule>(rule: &R, sizes: Sizes) -> usize
    ensures { result ≡ cells_needed (R.SignRule.rule rule.now) sizes }
{
    Layout::new(rule, sizes).len()
}

// The multiplication, which leaves its digits in the words.
fn attempt<D: GroupDevice, R: SignRule>(
    device: &mut D,
    rule: &R,
    sizes: Sizes,
    key: &[u32],
    base: D::Element,
    draws: &mut Stream,
    cells: &mut [D::Element],
    words: &mut [i32],
) -> Result<D::Element, Refusal>
    ensures source { draws.new.bytes.now ≡ draws.old.bytes.now }
    ensures made { Made D.GroupDevice.group D.GroupDevice.tally device.old (asked (R.SignRule.rule rule.now) sizes key.now base draws.old.bytes.now draws.old.mark (length cells.old) (length words.old) result draws.new.mark) device.new }
    ensures cells { cells.new ≡ cells_after (D.GroupDevice.group device.old) (asked (R.SignRule.rule rule.now) sizes key.now base draws.old.bytes.now draws.old.mark (length cells.old) (length words.old) result draws.new.mark) cells.old }
{
    check_call(device, rule, sizes, key, base, cells.len(), words.len())?;
    let draw = Draw::from_stream(rule, sizes, draws)?;
    let used = cells_needed(rule, sizes);
    multiply_drawn(
        device,
        rule,
        sizes,
        key,
        base,
        draw,
        &mut cells[0..used],
        words,
    )
}

// The multiplication by a draw that can be recoded, in exactly the cells that the table needs.
fn multiply_drawn<D: GroupDevice, R: SignRule>(
    device: &mut D,
    rule: &R,
    sizes: Sizes,
    key: &[u32],
    base: D::Element,
    draw: Draw,
    cells: &mut [D::Element],
    words: &mut [i32],
) -> Result<D::Element, Refusal>
    requires untested { recode_refusal (R.SignRule.rule rule.now) sizes key.now (length words.old) draw ≡ None }
    requires cells { length cells.old ≡ cells_needed (R.SignRule.rule rule.now) sizes }
    ensures value { result ≡ Ok (keyed (D.GroupDevice.group device.old) (R.SignRule.rule rule.now) sizes key.now base draw.value) }
    ensures cells { cells.new ≡ replicate (length cells.old) (D.GroupDevice.group device.old).neutral }
    ensures same { D.GroupDevice.group device.new ≡ D.GroupDevice.group device.old }
    ensures counted { D.GroupDevice.tally device.new ≡ work ((R.SignRule.rule rule.now).lo sizes.k sizes.b) ((R.SignRule.rule rule.now).hi sizes.k sizes.b) sizes.k sizes.b sizes.m (D.GroupDevice.tally device.old) }
{
    let coded = recode(rule, sizes, key, draw, words).map_err(|(refusal, draw)| {
        draw.end();
        refusal
    })?;
    let bit = lowest_bit(key);
    let digits = &words[0..sizes.windows() as usize];
    Ok(multiply_coded(device, rule, sizes, base, bit, coded, cells, digits))
}

// From the coded state: builds the table, evaluates it, and leaves all its cells neutral.
fn multiply_coded<D: GroupDevice, R: SignRule>(
    device: &mut D,
    rule: &R,
    sizes: Sizes,
    base: D::Element,
    bit: u32,
    coded: Coded,
    cells: &mut [D::Element],
    words: &[i32],
) -> D::Element
    requires cells { length cells.old ≡ cells_needed (R.SignRule.rule rule.now) sizes }
    requires count { length words.now ≡ sizes.m }
    requires digits { Within ((R.SignRule.rule rule.now).lo sizes.k sizes.b) ((R.SignRule.rule rule.now).hi sizes.k sizes.b) (map decoded words.now) }
    ensures value { result ≡ multiplied (D.GroupDevice.group device.old) sizes.k sizes.b base coded.draw.value (map decoded words.now) coded.correction bit }
    ensures cells { cells.new ≡ replicate (length cells.old) (D.GroupDevice.group device.old).neutral }
    ensures same { D.GroupDevice.group device.new ≡ D.GroupDevice.group device.old }
    ensures counted { D.GroupDevice.tally device.new ≡ work ((R.SignRule.rule rule.now).lo sizes.k sizes.b) ((R.SignRule.rule rule.now).hi sizes.k sizes.b) sizes.k sizes.b sizes.m (D.GroupDevice.tally device.old) }
{
    let layout = Layout::new(rule, sizes);
    let s = coded.draw_value();
    let mut table = Table::new(cells);
    table.build(device, layout, base, s, sizes.draw_width());
    let value = evaluate(device, sizes, layout, &table, coded, words, base, bit);
    table.wipe(device.neutral());
    value
}

// The tests before a draw is taken, in their order: the key, the words, the table, the base.
fn check_call<D: GroupDevice, R: SignRule>(
    device: &D,
    rule: &R,
    sizes: Sizes,
    key: &[u32],
    base: D::Element,
    cells: usize,
    words: usize,
) -> Result<(), Refusal>
    ensures { Tested (or_else (check_refusal sizes key.now words) (or_else (table_refusal (R.SignRule.rule rule.now) sizes cells) (base_refusal ((D.GroupDevice.group device.now).member base)))) result }
{
    check_lent(sizes, key, words)?;
    check_table(rule, sizes, cells)?;
    if !device.belongs(base) {
        return Err(Refusal::NotAMember);
    }
    Ok(())
}

// Whether there are cells enough.
fn check_table<R: SignRule>(rule: &R, sizes: Sizes, cells: usize) -> Result<(), Refusal>
    ensures { Tested (table_refusal (R.SignRule.rule rule.now) sizes cells) result }
{
    if cells < cells_needed(rule, sizes) {
        return Err(Refusal::TableTooShort { cells });
    }
    Ok(())
}

// The lowest bit of a key that has words.
fn lowest_bit(key: &[u32]) -> u32
    requires { 1 ≤ length key.now }
    ensures { result ≡ scalar key.now % 2 }
{
    key[0] % 2
}
