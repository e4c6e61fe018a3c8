ghost use Rattle.std.specs.Prelude.{◌≡◌, ◌<◌, length, map, slice_set};
ghost use Rattle.kts_abs.specs.Cells.{value_of};
ghost use Rattle.kts_abs.specs.Spaces.{split_cell as split_cell_lem, least_in};
ghost use Rattle.kts_machine.specs.CellParts.{IsPartAt};

use crate::cells::{is_wide, least};
use kts_abs::{Cell, Space};
use kts_rows::Row;

/// Raises a cell to a part of it.
pub fn raise<const W: usize>(row: &mut Row<Cell<W>>, k: usize, part: &Cell<W>)
    requires within { k < length row.old.cells }
    requires part { IsPartAt row.old.cells k part.now }
    ensures { row.new ≡ record row.old { cells = slice_set row.old.cells k part.now } }
{
    row.rise(k, part);
}

/// The first cell with two values or more.
pub fn split_cell<const W: usize>(row: &Row<Cell<W>>) -> Option<usize>
    ensures { result ≡ split_cell_lem (map value_of row.now.cells) }
{
    for k in 0..row.len() {
        if is_wide(&row.get(k)) {
            return Some(k);
        }
    }
    None
}

/// Makes the values the least ones of the cells.
pub fn copy_least<const W: usize>(values: &mut Vec<i64>, row: &Row<Cell<W>>)
    requires { length values.old.items ≡ length row.now.cells }
    ensures { values.new.items ≡ map least_in (map value_of row.now.cells) }
{
    for k in 0..row.len() {
        values[k] = least(&row.get(k));
    }
}

/// Makes the space that of the cells.
pub fn copy_cells<const W: usize>(space: &mut Space<W>, row: &Row<Cell<W>>)
    requires { length space.old.cells ≡ length row.now.cells }
    ensures { space.new.cells ≡ row.now.cells }
{
    for k in 0..row.len() {
        space.set(k, row.get(k));
    }
}
