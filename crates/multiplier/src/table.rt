//! The table of a multiplication, over cells that the caller lends.
ghost use Rattle.std.specs.Prelude.{◌≡◌, ◌<◌, length, replicate, slice_index_or};
ghost use Rattle.multiplier.specs.Tables.{risen};
ghost use Rattle.steps.specs.Work.{many_additions};

use groups::device::GroupDevice;

/// Cells that hold multiples of a base, of whatever kind its elements are.
#[derive(Drop)]
pub(crate) struct Table<'a, E> {
    pub(crate) cells: &'a mut [E],
}

impl<'a, E: Copy> Table<'a, E> {
    // The table over the cells, as they are.
    pub(crate) fn new(cells: &'a mut [E]) -> Table<'a, E>
        ensures holds { result.cells.now ≡ cells.old }
        ensures lender { result.cells.ghost_name ≡ cells.entry.ghost_name }
    {
        Table { cells }
    }

    // The element in the cell at `i`.
    pub(crate) fn get(&self, i: usize) -> E
        requires { i < length self.now.cells.now }
        ensures { (d : E) → result ≡ slice_index_or self.now.cells.now i d }
    {
        self.cells[i]
    }

    // Writes an element into all cells.
    pub(crate) fn wipe(&mut self, e: E)
        ensures after { self.new.cells.now ≡ replicate (length self.old.cells.now) e }
        ensures lender { self.new.cells.ghost_name ≡ self.old.cells.ghost_name }
    {
        wipe_cells(self.cells, e);
    }
}

// The library's `fill` asks that a clone of `e` can't fail, which is not known of every element
// that is copied.
fn wipe_cells<E: Copy>(cells: &mut [E], e: E)
    ensures { cells.new ≡ replicate (length cells.old) e }
{
    for cell in cells.iter_mut() {
        *cell = e;
    }
}

// Each cell is the one before it and the step, and the first the step after `value`.
pub(crate) fn fill_up<D: GroupDevice>(
    device: &mut D,
    cells: &mut [D::Element],
    value: D::Element,
    step: D::Element,
)
    ensures cells { cells.new ≡ risen (D.GroupDevice.group device.old) (length cells.old) step value }
    ensures same { D.GroupDevice.group device.new ≡ D.GroupDevice.group device.old }
    ensures counted { D.GroupDevice.tally device.new ≡ many_additions (length cells.old) (D.GroupDevice.tally device.old) }
{
    let mut sum = value;
    for cell in cells.iter_mut() {
        sum = device.add(sum, step);
        *cell = sum;
    }
}
