ghost use Rattle.std.specs.Prelude.{◌≡◌, ◌*◌, ◌≤◌, ◌++◌, List as List_, IfNone, IfOk, IfSome, OnOk, ℕ, false, true, length, map, replicate, slice_index};
ghost use Rattle.std.specs.List.{range_with_len};
ghost use Rattle.kts_semi.specs.Ends.{InEnds};
ghost use Rattle.kts_sets.specs.Choices.{unless_empty};
ghost use Rattle.kts_abs.specs.Cells.{IsValid, value_of};
ghost use Rattle.kts_abs.specs.Spaces.{type_value, types};
ghost use Rattle.kts_abs.specs.Values.{Abs, is_cell};
ghost use Rattle.kts_base.specs.Limits.{most_members};
ghost use Rattle.kts_machine.specs.TypeCells.{IsOpening};
ghost use Rattle.kts_mean.specs.Bounds.{members_of};
ghost use Rattle.kts_spec.specs.Data.{is_valid};
ghost use Rattle.kts_spec.specs.Schemas.{is_type};
ghost use Rattle.kts_spec.specs.Worlds.{world_of};

use crate::offsets::{count_tuples, size};
use kts_abs::Cell;
use kts_base::{List, NoMemory};
use kts_semi::Window;
use kts_sets::{Choice, MemberSet};
use kts_spec::{Instance, Schema, ValueType};
use std::alloc::Global;

/// The cells with which a row is opened, and whether the type of each of them has a value.
#[derive(Drop)]
pub struct Opening<const W: usize> {
    pub cells: List<Cell<W>>,
    pub is_whole: bool,
}

/// The types of the cells. For one that has no value a zero stands.
pub fn opening_of<const W: usize>(
    alloc: Global,
    schema: &Schema,
    inst: &Instance,
) -> Result<Opening<W>, NoMemory>
    requires one_word { 1 ≤ W }
    requires few_words { W ≤ 1024 }
    requires valid { is_valid schema.now inst.now ≡ true }
    ensures { IfOk result (λ opening. IsOpening (types (world_of schema.now inst.now)) opening.cells opening.is_whole) }
{
    let mut opening = Opening {
        cells: List::new(alloc),
        is_whole: true,
    };
    for family in schema.choices().as_slice() {
        let count = count_tuples(inst, family.args().as_slice());
        push_type(&mut opening, inst, family.kind(), count)?;
    }
    Ok(opening)
}

// Pushes so many cells of a type.
fn push_type<const W: usize>(
    opening: &mut Opening<W>,
    inst: &Instance,
    kind: ValueType,
    count: usize,
) -> Result<(), NoMemory>
    requires one_word { 1 ≤ W }
    requires few_words { W ≤ 1024 }
    requires kind { is_type (length inst.now.members) kind ≡ true }
    requires sizes { (i : ℕ) → slice_index (map length inst.now.members) i ≤ most_members }
    ensures { OnOk result ((kinds : List_ Abs) → IsOpening kinds opening.old.cells opening.old.is_whole
        → IsOpening (kinds ++ replicate count (type_value (members_of inst.now) kind)) opening.new.cells opening.new.is_whole) }
{
    match type_cell(inst, kind) {
        Some(cell) => push_copies(&mut opening.cells, &cell, count),
        None => {
            let is_empty = count == 0;
            opening.is_whole &= is_empty;
            push_copies(&mut opening.cells, &zero(), count)
        }
    }
}

// The values of a type, where it has some.
fn type_cell<const W: usize>(inst: &Instance, kind: ValueType) -> Option<Cell<W>>
    requires one_word { 1 ≤ W }
    requires few_words { W ≤ 1024 }
    requires kind { is_type (length inst.now.members) kind ≡ true }
    requires sizes { (i : ℕ) → slice_index (map length inst.now.members) i ≤ most_members }
    ensures some { IfSome result (λ cell. value_of cell ≡ type_value (members_of inst.now) kind) }
    ensures valid { IfSome result (λ cell. IsValid cell) }
    ensures none { IfNone result (is_cell (type_value (members_of inst.now) kind) ≡ false) }
{
    match kind {
        ValueType::Int { lo, hi } => Some(Cell::Win(between(lo, hi))),
        ValueType::Member(index) => match all_members(size(inst, index)) {
            Some(choice) => {
                // A set tells that it is valid.
                choice.set();
                Some(Cell::Mem(choice))
            }
            None => None,
        },
    }
}

fn between(lo: i64, hi: i64) -> Window
    requires { InEnds (lo, hi) }
    ensures { result ≡ (lo, hi) }
{
    match Window::new(lo, hi) {
        Some(window) => window,
        None => unreachable!(),
    }
}

// All members of an index of this size, where it has some.
fn all_members<const W: usize>(count: usize) -> Option<Choice<W>>
    requires few_words { W ≤ 1024 }
    requires fits { count ≤ 64 * W }
    ensures { result ≡ unless_empty (range_with_len 0 count) }
{
    match MemberSet::below(count) {
        Some(set) => Choice::new(set),
        None => unreachable!(),
    }
}

fn zero<const W: usize>() -> Cell<W> {
    Cell::Win(between(0, 0))
}

fn push_copies<const W: usize>(
    cells: &mut List<Cell<W>>,
    cell: &Cell<W>,
    count: usize,
) -> Result<(), NoMemory>
    ensures { OnOk result (cells.new ≡ cells.old ++ replicate count cell.now) }
{
    for _ in 0..count {
        cells.push(*cell)?;
    }
    Ok(())
}
