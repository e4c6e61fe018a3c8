ghost use Rattle.std.specs.Prelude.{◌≡◌, ◌<◌, ◌≤◌, ◌+◌, ◌*◌, [], ◌∷◌, ◌++◌, length, map, true, Some, slice_get, slice_index_or, pos};
ghost use Rattle.kts_abs.specs.Cells.{value_of};
ghost use Rattle.kts_abs.specs.InSpace.{any_of, only_of, rising};
ghost use Rattle.kts_code.specs.Operands.{read_at};
ghost use Rattle.kts_code.specs.States.{operand_of};
ghost use Rattle.kts_mean.specs.Bounds.{AreOffsets};
ghost use Rattle.kts_spec.specs.Data.{is_valid};
ghost use Rattle.kts_spec.specs.Places.{cell, entry};
ghost use Rattle.kts_spec.specs.Schedules.{all};
ghost use Rattle.kts_spec.specs.Schemas.{family_at};
ghost use Rattle.kts_spec.specs.Typing.{kind_of_type};
ghost use Rattle.kts_spec.specs.Worlds.{world_of, choice_of, given_of, table_of};
ghost use Rattle.kts_machine.specs.Items.{items_of, positions_of, sets_of, tuple_of as tuple_of_lem};
ghost use Rattle.kts_machine.specs.Joins.{both_of};
ghost use Rattle.kts_machine.specs.OfKind.{IsOf, IsNumberOf, HasKinds};
ghost use Rattle.kts_machine.specs.OperandViews.{shown};
ghost use Rattle.kts_machine.specs.Reading.{IsAccess, HasKindAt, item_in, value_at};

use crate::offsets::{Offsets, place};
use crate::operand::Operand;
use crate::up_to_two::UpToTwo;
use kts_abs::{Cell, hull, union};
use kts_rows::Row;
use kts_semi::{Semi, Window};
use kts_sets::{Choice, MemberSet};
use kts_spec::{Instance, Schema, ValueType};

/// The values of a family: of a choice its cells, from a place on; of a given its numbers.
#[derive(Clone, Copy)]
pub enum Values<'a, const W: usize> {
    Cells(&'a Row<Cell<W>>, usize),
    Numbers(&'a [i64]),
}

/// A family on data: the indexes of its arguments, its type and its values.
#[derive(Clone, Copy)]
pub struct Access<'a, const W: usize> {
    pub inst: &'a Instance,
    pub indexes: &'a [u32],
    pub kind: ValueType,
    pub values: Values<'a, W>,
}

/// The number alone, as a value of the type.
fn number<const W: usize>(kind: ValueType, n: i64) -> Cell<W>
    requires one_word { 1 ≤ W }
    requires few_words { W ≤ 1024 }
    requires fits { IsNumberOf kind n }
    ensures { value_of result ≡ any_of kind (only_of n ∷ []) }
{
    match kind {
        ValueType::Int { .. } => Cell::Win(Window::new(n, n).unwrap()),
        ValueType::Member(_) => {
            Cell::Mem(Choice::new(MemberSet::single(n as usize).unwrap()).unwrap())
        }
    }
}

fn number_at(numbers: &[i64], at: usize) -> i64
    ensures { result ≡ slice_index_or numbers.now at (pos 0) }
{
    if at < numbers.len() { numbers[at] } else { 0 }
}

/// The members of either set.
fn either<const W: usize>(ms: &Choice<W>, ns: &Choice<W>) -> Choice<W>
    ensures { map pos result ≡ rising (map pos ms.now ++ map pos ns.now) }
{
    // What a set is tells that it is valid.
    let _sets = (ms.set(), ns.set());
    union(ms, ns)
}

/// What either allows.
fn joined<const W: usize>(a: &Cell<W>, b: &Cell<W>) -> Cell<W>
    ensures { value_of result ≡ both_of (value_of a.now) (value_of b.now) }
{
    match (a, b) {
        (Cell::Win(v), Cell::Win(w)) => Cell::Win(hull(v, w)),
        (Cell::Mem(ms), Cell::Mem(ns)) => Cell::Mem(either(ms, ns)),
        _ => *a,
    }
}

fn least<const W: usize>(members: &Choice<W>) -> usize
    ensures first { slice_get members.now 0 ≡ Some result }
    ensures below { result < 64 * W }
    ensures few_words { W ≤ 1024 }
{
    match members.set().first() {
        Some(member) => member,
        None => unreachable!(),
    }
}

fn tuple_of(first: Option<usize>, last: usize) -> UpToTwo<usize>
    ensures { result ≡ tuple_of_lem first last }
{
    match first {
        Some(member) => UpToTwo::Two(member, last),
        None => UpToTwo::One(last),
    }
}

impl<'a, const W: usize> Access<'a, W> {
    /// The value at a place.
    fn value(&self, at: usize) -> Cell<W>
        requires one_word { 1 ≤ W }
        requires few_words { W ≤ 1024 }
        requires kind { HasKindAt self.now.kind at self.now.values }
        ensures { value_of result ≡ any_of self.now.kind (item_in self.now.values (Some at) ∷ []) }
    {
        match self.values {
            Values::Cells(row, first) => {
                if first + at < row.len() {
                    let cell = row.get(first + at);
                    // A size tells that its cell is valid.
                    let _size = cell.size();
                    cell
                } else {
                    number(self.kind, 0)
                }
            }
            Values::Numbers(numbers) => number(self.kind, number_at(numbers, at)),
        }
    }

    /// The value at a tuple.
    fn at(&self, tuple: UpToTwo<usize>) -> Cell<W>
        requires access { IsAccess self.now }
        requires long { length self.now.indexes.now ≡ length (items_of tuple) }
        ensures { value_of result ≡ any_of self.now.kind (value_at self.now (positions_of tuple) ∷ []) }
    {
        match place(self.inst, self.indexes, tuple) {
            Some(at) => self.value(at),
            None => number(self.kind, 0),
        }
    }

    /// What the values at the members of a set may be, after a first member where there is one.
    fn line(&self, first: Option<usize>, last: &Choice<W>) -> Cell<W>
        requires access { IsAccess self.now }
        requires long { length self.now.indexes.now ≡ length (items_of (tuple_of_lem first 0)) }
        ensures { value_of result ≡ any_of self.now.kind (map (λ m. value_at self.now (positions_of (tuple_of_lem first m))) last.now) }
    {
        let members = last.set();
        let least = least(last);
        let mut cell = self.at(tuple_of(first, least));
        let mut from = least + 1;
        while let Some(member) = members.from(from) {
            cell = joined(&cell, &self.at(tuple_of(first, member)));
            from = member + 1;
        }
        cell
    }

    /// What the values at the members of two sets may be.
    fn grid(&self, first: &Choice<W>, last: &Choice<W>) -> Cell<W>
        requires access { IsAccess self.now }
        requires long { length self.now.indexes.now ≡ 2 }
        ensures { value_of result ≡ any_of self.now.kind (map (value_at self.now) (all (map pos first.now ∷ map pos last.now ∷ []))) }
    {
        let members = first.set();
        // What a set is tells that it has a member.
        let _columns = last.set();
        let least = least(first);
        let mut cell = self.line(Some(least), last);
        let mut from = least + 1;
        while let Some(member) = members.from(from) {
            cell = joined(&cell, &self.line(Some(member), last));
            from = member + 1;
        }
        cell
    }

    /// What the values at all tuples of these sets may be.
    fn read(&self, sets: &UpToTwo<Choice<W>>) -> Cell<W>
        requires access { IsAccess self.now }
        requires long { length self.now.indexes.now ≡ length (items_of sets.now) }
        ensures { value_of result ≡ any_of self.now.kind (map (value_at self.now) (all (sets_of sets.now))) }
    {
        match sets {
            UpToTwo::Zero => self.at(UpToTwo::Zero),
            UpToTwo::One(last) => self.line(None, last),
            UpToTwo::Two(first, last) => self.grid(first, last),
        }
    }
}

/// A value of a type as an operand.
fn operand<const W: usize>(kind: ValueType, cell: &Cell<W>) -> Operand<W>
    requires { IsOf kind (value_of cell.now) }
    ensures { shown result ≡ operand_of (kind_of_type kind) (value_of cell.now) }
{
    match kind {
        ValueType::Int { .. } => match cell {
            Cell::Win(w) => Operand::Win(*w),
            Cell::Mem(_) => unreachable!(),
        },
        ValueType::Member(index) => match cell {
            Cell::Mem(members) => Operand::Set(index, *members),
            Cell::Win(_) => unreachable!(),
        },
    }
}

/// The indexes of the arguments of a given.
pub fn given_args(schema: &Schema, f: usize) -> &[u32]
    requires { f < length schema.now.givens }
    ensures { result.now ≡ (family_at schema.now.givens f).args }
{
    schema.givens().as_slice()[f].args().as_slice()
}

/// The indexes of the arguments of a choice.
pub fn choice_args(schema: &Schema, x: usize) -> &[u32]
    requires { x < length schema.now.choices }
    ensures { result.now ≡ (family_at schema.now.choices x).args }
{
    schema.choices().as_slice()[x].args().as_slice()
}

/// What a choice may be at all tuples of these sets.
pub fn read_choice<const W: usize>(
    schema: &Schema,
    inst: &Instance,
    offsets: &Offsets,
    row: &Row<Cell<W>>,
    x: usize,
    sets: &UpToTwo<Choice<W>>,
) -> Operand<W>
    requires one_word { 1 ≤ W }
    requires few_words { W ≤ 1024 }
    requires valid { is_valid schema.now inst.now ≡ true }
    requires offsets { AreOffsets (world_of schema.now inst.now) offsets.now }
    requires declared { x < length schema.now.choices }
    requires kinds { HasKinds (world_of schema.now inst.now) (map value_of row.now.cells) }
    requires long { length (choice_of (world_of schema.now inst.now) x).args ≡ length (items_of sets.now) }
    ensures { let w = world_of schema.now inst.now in
        shown result ≡ read_at (choice_of w x) (cell w x) (map value_of row.now.cells) (sets_of sets.now) }
{
    let family = &schema.choices().as_slice()[x];
    let access = Access {
        inst,
        indexes: family.args().as_slice(),
        kind: family.kind(),
        values: Values::Cells(row, offsets.first(x)),
    };
    let cell = access.read(sets);
    operand(access.kind, &cell)
}

/// What a given may be at all tuples of these sets.
pub fn read_given<const W: usize>(
    schema: &Schema,
    inst: &Instance,
    f: usize,
    sets: &UpToTwo<Choice<W>>,
) -> Operand<W>
    requires one_word { 1 ≤ W }
    requires few_words { W ≤ 1024 }
    requires valid { is_valid schema.now inst.now ≡ true }
    requires declared { f < length schema.now.givens }
    requires long { length (given_of (world_of schema.now inst.now) f).args ≡ length (items_of sets.now) }
    ensures { let w = world_of schema.now inst.now in
        shown result ≡ read_at (given_of w f) (entry w f) (map only_of (table_of w f)) (sets_of sets.now) }
{
    let family = &schema.givens().as_slice()[f];
    let access = Access {
        inst,
        indexes: family.args().as_slice(),
        kind: family.kind(),
        values: Values::Numbers(inst.values().as_slice()[f].as_slice()),
    };
    let cell = access.read(sets);
    operand(access.kind, &cell)
}
