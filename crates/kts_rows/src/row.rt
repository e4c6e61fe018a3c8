ghost use Rattle.std.specs.Prelude.{◌≡◌, ◌≢◌, ◌↔◌, ℕ, ◌+◌, ◌*◌, ◌<◌, ◌≤◌, ◌∷◌, length, IfOk, IfSome, IsTrue, None, Some, slice_get, slice_set};
ghost use Rattle.kts_rows.specs.Rows.{RowOf, IsRow, opened_row, marked, reset_row, risen};
ghost use Rattle.kts_rows.specs.Rises.{ups, spare, RisesAreFew};

use crate::trail::{Entry, Slot, enter, refill, replace, room, slots_of, undo};
use kts_base::{List, NoMemory};
use kts_semi::{Rise, Semi};
use std::alloc::Global;
use std::marker::Model;

/// Cells that rise, with marks to go back to. Only `open` takes memory.
#[derive(Drop)]
pub struct Row<L> {
    opened: List<L>,
    slots: Vec<Slot<L>>,
    /// What the slots were at the marks, at most one entry a place and mark.
    trail: Vec<Entry<L>>,
    /// How long the trail was at each mark, the latest last.
    starts: Vec<usize>,
    depth: usize,
}

impl<L> Model for Row<L> {
    ghost use Rattle.std.specs.Prelude.{map, reverse, vec_capacity};
    ghost use Rattle.kts_rows.specs.Rows.{RowOf, row_code};
    ghost use Rattle.kts_rows.specs.Trails.{cells_of, cells_at, AreParts};

    ghost Value = { RowOf L };

    ghost coded = { row_code L.code };

    ghost view = { λ r. record {
      opened = r.opened;
      cells = cells_of r.slots.items;
      marks = map (cells_at r.trail.items r.slots.items) (reverse r.starts.items);
      depth = r.depth;
    } };

    ghost invariant = { λ r.
        AreParts r.opened r.slots.items r.trail.items r.starts.items r.depth (vec_capacity r.starts) (vec_capacity r.trail) };
}

impl<L: Semi> Row<L> {
    /// A row with these cells and room for `depth` marks.
    pub fn open(alloc: Global, cells: List<L>, depth: usize) -> Result<Row<L>, NoMemory>
        requires { length cells * depth ≤ 1048576 }
        ensures { IfOk result (λ row. row ≡ opened_row cells depth) }
    {
        let slots = slots_of(alloc, cells.as_slice())?;
        let trail = room(alloc, slots.len() * depth)?;
        let starts = room(alloc, depth)?;
        Ok(Row {
            opened: cells,
            slots,
            trail,
            starts,
            depth,
        })
    }

    pub fn get(&self, at: usize) -> L
        requires { at < length self.now.cells }
        ensures { slice_get self.now.cells at ≡ Some result }
    {
        self.slots[at].value
    }

    /// How many cells there are.
    pub fn len(&self) -> usize
        ensures len { result ≡ length self.now.cells }
        ensures valid { IsRow self.now }
    {
        self.slots.len()
    }

    /// How many marks there are to go back to.
    pub fn marks(&self) -> usize
        ensures { result ≡ length self.now.marks }
    {
        self.starts.len()
    }

    pub fn mark(&mut self)
        requires { length self.old.marks < self.old.depth }
        ensures { self.new ≡ marked self.old }
    {
        let start = self.trail.len();
        match self.starts.push(start) {
            Ok(()) => {}
            Err(_) => unreachable!(),
        }
    }

    /// Goes back to the cells of the latest mark, which is gone then.
    pub fn back(&mut self)
        requires { 0 < length self.old.marks }
        ensures latest { self.old.marks ≡ self.new.cells ∷ self.new.marks }
        ensures opened { self.new.opened ≡ self.old.opened }
        ensures depth { self.new.depth ≡ self.old.depth }
        ensures len { length self.new.cells ≡ length self.old.cells }
    {
        match self.starts.pop() {
            Some(start) => undo(&mut self.slots, &mut self.trail, start),
            None => {}
        }
    }

    pub fn reset(&mut self)
        ensures opened { self.new ≡ reset_row self.old }
        ensures len { length self.new.cells ≡ length self.old.cells }
    {
        self.trail.clear();
        self.starts.clear();
        refill(&mut self.slots, self.opened.as_slice());
    }

    /// Makes the row one that was opened with other cells, as many as before. It takes no memory.
    pub fn reopen(&mut self, cells: &[L])
        requires { length cells.now ≡ length self.old.cells }
        ensures { self.new ≡ opened_row cells.now self.old.depth }
    {
        self.trail.clear();
        self.starts.clear();
        replace(&mut self.opened, cells);
        refill(&mut self.slots, cells);
    }

    /// Raises a cell to its join with a bound.
    pub fn rise(&mut self, at: usize, bound: &L) -> Rise
        requires { at < length self.old.cells }
        ensures result { result ≡ (risen L.le L.joined at bound.now self.old).0 }
        ensures row { self.new ≡ (risen L.le L.joined at bound.now self.old).1 }

        // When each answer comes.
        ensures same { IfSome (slice_get self.old.cells at) (λ cell.
            (result ≡ Rise.Same) ↔ IsTrue (L.le bound.now cell)) }
        ensures empty { IfSome (slice_get self.old.cells at) (λ cell.
            (result ≡ Rise.Empty) ↔ (L.joined cell bound.now ≡ None)) }

        // What stays.
        ensures unchanged { result ≢ Rise.Up → self.new ≡ self.old }
        ensures rest { self.new ≡ record self.old { cells = self.new.cells } }
        ensures len { length self.new.cells ≡ length self.old.cells }

        // A rise is paid for by the sizes of the cells.
        ensures spare { spare L.extent self.new.cells + ups result ≤ spare L.extent self.old.cells }
    {
        let cell = self.get(at);
        if bound.leq(&cell) {
            return Rise::Same;
        }
        match cell.join(bound) {
            Some(join) => {
                self.write(at, join);
                Rise::Up
            }
            None => Rise::Empty,
        }
    }

    /// Puts a value into a cell, for the way back to undo.
    fn write(&mut self, at: usize, value: L)
        requires { at < length self.old.cells }
        ensures { self.new ≡ record self.old { cells = slice_set self.old.cells at value } }
    {
        let level = self.starts.len();
        let before = self.slots[at];
        enter(&mut self.trail, at, before, level);
        self.slots[at] = Slot { value, level };
    }
}

/// Of calls of `rise` and `mark` alone, at most as many are answered `Up` as the sum of the sizes of
/// the cells before them, each less one.
pub fn rises_are_few<L: Semi>(_like: &L)
    ensures { RisesAreFew L.Valid L.le L.joined L.extent }
{}
