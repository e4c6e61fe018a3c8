ghost use Rattle.std.specs.Prelude.{◌≡◌, ◌<◌, length, slice_set};

use crate::cell::Cell;
use kts_base::List;

/// What is known of each cell of a schedule, in order.
#[derive(Drop)]
pub struct Space<const W: usize> {
    cells: List<Cell<W>>,
}

impl<const W: usize> Space<W> {
    pub fn new(cells: List<Cell<W>>) -> Space<W>
        ensures { result.cells ≡ cells.entry }
    {
        Space { cells }
    }

    pub fn cells(&self) -> &List<Cell<W>>
        ensures { result.now ≡ self.now.cells }
    {
        &self.cells
    }

    /// Replaces one cell.
    pub fn set(&mut self, at: usize, cell: Cell<W>)
        requires { at < length self.old.cells }
        ensures { self.new ≡ record self.old { cells = slice_set self.old.cells at cell.entry } }
    {
        self.cells.set(at, cell);
    }
}
