ghost use Rattle.std.specs.Prelude.{◌≡◌, ℕ, ◌<◌, ◌≤◌, [], length, take, drop, map, All, IfOk, vec_len, vec_capacity};
ghost use Rattle.kts_rows.specs.Trails.{undone, bottom_slot, bottoms, entered, IsIn};

use kts_base::{List, NoMemory};
use std::alloc::Global;

/// A cell, and how many marks there were when it was last written.
#[derive(Clone, Copy, Drop)]
pub struct Slot<L> {
    pub value: L,
    pub level: usize,
}

/// What a place had before it was written.
#[derive(Clone, Copy, Drop)]
pub struct Entry<L> {
    pub at: usize,
    pub before: Slot<L>,
}

/// A slot for each cell, written when there was no mark.
pub fn slots_of<L: Copy>(alloc: Global, cells: &[L]) -> Result<Vec<Slot<L>>, NoMemory>
    ensures { IfOk result (λ slots. slots.items ≡ bottoms cells.now) }
{
    let mut slots = Vec::new(alloc);
    for cell in cells {
        match slots.push(bottom(*cell)) {
            Ok(()) => {}
            Err(_) => return Err(NoMemory),
        }
    }
    Ok(slots)
}

/// Makes the slots those that `slots_of` gives.
pub fn refill<L: Copy>(slots: &mut Vec<Slot<L>>, cells: &[L])
    requires { length slots.old.items ≡ length cells.now }
    ensures { slots.new.items ≡ bottoms cells.now }
{
    for (at, cell) in cells.iter().enumerate() {
        slots[at] = bottom(*cell);
    }
}

/// Makes the cells those.
pub fn replace<L: Copy>(cells: &mut List<L>, by: &[L])
    requires { length cells.old ≡ length by.now }
    ensures { cells.new ≡ by.now }
{
    for (at, cell) in by.iter().enumerate() {
        cells.set(at, *cell);
    }
}

fn bottom<L: Copy>(value: L) -> Slot<L>
    ensures { result ≡ bottom_slot value }
{
    Slot { value, level: 0 }
}

/// An empty `Vec` with room for so many.
pub fn room<T: Drop>(alloc: Global, count: usize) -> Result<Vec<T>, NoMemory>
    ensures items { IfOk result (λ items. items.items ≡ []) }
    ensures room { IfOk result (λ items. count ≤ vec_capacity items) }
{
    match Vec::with_capacity(alloc, count) {
        Ok(items) => Ok(items),
        Err(_) => Err(NoMemory),
    }
}

/// Enters a slot that was written at a lower level than this one.
pub fn enter<L: Copy>(trail: &mut Vec<Entry<L>>, at: usize, before: Slot<L>, level: usize)
    requires { before.level < level → vec_len trail.old < vec_capacity trail.old }
    ensures entry { trail.new.items ≡ entered level at before trail.old.items }
    ensures room { vec_capacity trail.old ≤ vec_capacity trail.new }
{
    if before.level < level {
        match trail.push(Entry { at, before }) {
            Ok(()) => {}
            Err(_) => unreachable!(),
        }
    }
}

/// Undoes the entries from a place in the trail on, the latest first.
pub fn undo<L: Copy>(slots: &mut Vec<Slot<L>>, trail: &mut Vec<Entry<L>>, start: usize)
    requires { All (IsIn (length slots.old.items)) (drop start trail.old.items) }
    ensures slots { slots.new.items ≡ undone (drop start trail.old.items) slots.old.items }
    ensures trail { trail.new.items ≡ take start trail.old.items }
    ensures room { vec_capacity trail.new ≡ vec_capacity trail.old }
{
    while trail.len() > start {
        let last = trail.len() - 1;
        let entry = trail[last];
        slots[entry.at] = entry.before;
        trail.truncate(last);
    }
}
