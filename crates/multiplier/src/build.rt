//! How a table is built: the first four steps.
ghost use Rattle.std.specs.Prelude.{◌≡◌, ◌+◌, ◌-◌, ◌<◌, ◌≤◌, ◌++◌, length, reverse, take};
ghost use Rattle.groups.specs.Groups.{negated};
ghost use Rattle.multiplier.specs.Tables.{risen, small_cells, table_cells, window_cells};
ghost use Rattle.steps.specs.Operations.{climbed, doublings};
ghost use Rattle.steps.specs.Work.{many_additions, many_doublings, many_rounds};

use crate::layout::Layout;
use crate::operations::{climb, double_times};
use crate::table::{Table, fill_up};
use groups::device::GroupDevice;

impl<'a, E: Copy> Table<'a, E> {
    // Fills the cells with the entries for the digits and with the multiples of the base.
    pub(crate) fn build<D: GroupDevice<Element = E>>(
        &mut self,
        device: &mut D,
        layout: Layout,
        base: E,
        s: u32,
        bits: u32,
    )
        requires bits { bits ≤ 32 }
        requires room { length self.old.cells.now ≡ layout.down + layout.up + 1 + (layout.top + 1) }
        ensures cells { self.new.cells.now ≡ table_cells (D.GroupDevice.group device.old) layout.down layout.up layout.top (doublings (D.GroupDevice.group device.old) bits base) (climbed (D.GroupDevice.group device.old) base bits s) base }
        ensures long { length self.new.cells.now ≡ length self.old.cells.now }
        ensures lender { self.new.cells.ghost_name ≡ self.old.cells.ghost_name }
        ensures same { D.GroupDevice.group device.new ≡ D.GroupDevice.group device.old }
        ensures counted { D.GroupDevice.tally device.new ≡ many_additions (layout.top - 1) (many_additions layout.down (many_additions layout.up (many_rounds bits 1 (many_doublings bits (D.GroupDevice.tally device.old))))) }
    {
        let unit_a = double_times(device, base, bits);
        let s_a = climb(device, base, s, bits);
        let small = layout.small();
        fill_windows(device, &mut self.cells[0..small], layout.down, unit_a, s_a);
        fill_small(device, self.cells, small, base);
    }
}

// The entries for the digits: the middle one, those above it, those below it.
fn fill_windows<D: GroupDevice>(
    device: &mut D,
    cells: &mut [D::Element],
    down: usize,
    unit_a: D::Element,
    s_a: D::Element,
)
    requires { down < length cells.old }
    ensures cells { cells.new ≡ window_cells (D.GroupDevice.group device.old) down (length cells.old - down - 1) unit_a s_a }
    ensures same { D.GroupDevice.group device.new ≡ D.GroupDevice.group device.old }
    ensures counted { D.GroupDevice.tally device.new ≡ many_additions down (many_additions (length cells.old - down - 1) (D.GroupDevice.tally device.old)) }
{
    cells[down] = s_a;
    fill_up(device, &mut cells[down + 1..], s_a, unit_a);
    fill_below(device, &mut cells[0..down], unit_a, s_a);
}

// The entries below the middle one, downward by the negative of the unit's.
fn fill_below<D: GroupDevice>(
    device: &mut D,
    cells: &mut [D::Element],
    unit_a: D::Element,
    s_a: D::Element,
)
    ensures cells { cells.new ≡ reverse (risen (D.GroupDevice.group device.old) (length cells.old) (negated (D.GroupDevice.group device.old) unit_a) s_a) }
    ensures same { D.GroupDevice.group device.new ≡ D.GroupDevice.group device.old }
    ensures counted { D.GroupDevice.tally device.new ≡ many_additions (length cells.old) (D.GroupDevice.tally device.old) }
{
    let minus = device.negate(unit_a);
    fill_up(device, cells, s_a, minus);
    cells.reverse();
}

// The multiples of the base from `small` on: neutral, the base, and as many more as there is room
// for.
fn fill_small<D: GroupDevice>(
    device: &mut D,
    cells: &mut [D::Element],
    small: usize,
    base: D::Element,
)
    requires { small + 2 ≤ length cells.old }
    ensures cells { cells.new ≡ take small cells.old ++ small_cells (D.GroupDevice.group device.old) (length cells.old - (small + 2)) base }
    ensures same { D.GroupDevice.group device.new ≡ D.GroupDevice.group device.old }
    ensures counted { D.GroupDevice.tally device.new ≡ many_additions (length cells.old - (small + 2)) (D.GroupDevice.tally device.old) }
{
    cells[small] = device.neutral();
    cells[small + 1] = base;
    fill_up(device, &mut cells[small + 2..], base, base);
}
