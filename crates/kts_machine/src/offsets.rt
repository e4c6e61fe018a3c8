ghost use Rattle.std.specs.Prelude.{◌≡◌, ◌<◌, ◌≤◌, ◌+◌, ℕ, length, map, true, Some, slice_get, slice_index};
ghost use Rattle.kts_base.specs.Limits.{most_arguments, most_choices, most_members};
ghost use Rattle.kts_mean.specs.Bounds.{AllIn, AreOffsets};
ghost use Rattle.kts_spec.specs.Data.{is_valid};
ghost use Rattle.kts_spec.specs.Places.{count_of, cell, cell_count, place as place_of};
ghost use Rattle.kts_spec.specs.Schedules.{cells};
ghost use Rattle.kts_spec.specs.Worlds.{world_of, choice_of};
ghost use Rattle.kts_machine.specs.Items.{items_of, positions_of};

use crate::up_to_two::UpToTwo;
use kts_base::MAX_CHOICES;
use kts_spec::{Instance, Schema};
use std::marker::Model;

/// The number of members of an index.
pub fn size(inst: &Instance, index: u32) -> usize
    requires { index < length inst.now.members }
    ensures { result ≡ slice_index (map length inst.now.members) index }
{
    inst.members().as_slice()[index as usize].len()
}

/// The same, and 0 where there is no such index.
pub fn size_or_none(inst: &Instance, index: u32) -> usize
    ensures { result ≡ slice_index (map length inst.now.members) index }
{
    if (index as usize) < inst.members().len() {
        size(inst, index)
    } else {
        0
    }
}

/// How many tuples of members of these indexes there are.
pub fn count_tuples(inst: &Instance, indexes: &[u32]) -> usize
    requires declared { AllIn (length inst.now.members) indexes.now }
    requires few { length indexes.now ≤ most_arguments }
    requires sizes { (i : ℕ) → slice_index (map length inst.now.members) i ≤ most_members }
    ensures { result ≡ count_of (map (slice_index (map length inst.now.members)) indexes.now) }
{
    if indexes.is_empty() {
        return 1;
    }
    let first = size(inst, indexes[0]);
    if indexes.len() == 1 {
        return first;
    }
    first * size(inst, indexes[1])
}

/// The place of a tuple among all tuples of members of these indexes, where it is one.
pub fn place(inst: &Instance, indexes: &[u32], tuple: UpToTwo<usize>) -> Option<usize>
    requires declared { AllIn (length inst.now.members) indexes.now }
    requires sizes { (i : ℕ) → slice_index (map length inst.now.members) i ≤ most_members }
    requires long { length indexes.now ≡ length (items_of tuple) }
    ensures { result ≡ place_of (map (slice_index (map length inst.now.members)) indexes.now) (positions_of tuple) }
{
    match tuple {
        UpToTwo::Zero => Some(0),
        UpToTwo::One(member) => if member < size(inst, indexes[0]) {
            Some(member)
        } else {
            None
        },
        UpToTwo::Two(first, second) => {
            let count = size(inst, indexes[1]);
            if first < size(inst, indexes[0]) && second < count {
                Some(first * count + second)
            } else {
                None
            }
        }
    }
}

/// The tuple at a place.
pub fn tuple_at(inst: &Instance, indexes: &[u32], at: usize) -> UpToTwo<usize>
    requires declared { AllIn (length inst.now.members) indexes.now }
    requires few { length indexes.now ≤ most_arguments }
    requires within { at < count_of (map (slice_index (map length inst.now.members)) indexes.now) }
    ensures { place_of (map (slice_index (map length inst.now.members)) indexes.now) (positions_of result) ≡ Some at }
{
    if indexes.is_empty() {
        return UpToTwo::Zero;
    }
    if indexes.len() == 1 {
        return UpToTwo::One(at);
    }
    let count = size(inst, indexes[1]);
    UpToTwo::Two(at / count, at % count)
}

/// The number of the first cell of each choice.
#[derive(Drop)]
pub struct Offsets {
    first: [usize; MAX_CHOICES],
}

impl Model for Offsets {
    ghost use Rattle.std.specs.Prelude.{ℕ, List};

    ghost Value = { List ℕ };

    ghost view = { λ o. o.first };
}

impl Offsets {
    pub fn of(schema: &Schema, inst: &Instance) -> Offsets
        requires { is_valid schema.now inst.now ≡ true }
        ensures { AreOffsets (world_of schema.now inst.now) result }
    {
        let mut first = [0; MAX_CHOICES];
        let families = schema.choices().as_slice();
        let mut next = 0;
        for (x, family) in families.iter().enumerate() {
            first[x] = next;
            next += count_tuples(inst, family.args().as_slice());
        }
        Offsets { first }
    }

    /// The first cell of a choice.
    pub fn first(&self, x: usize) -> usize
        requires { x < most_choices }
        ensures { result ≡ slice_index self.now x }
    {
        let first = &self.first;
        first[x]
    }

    /// The cell of a choice at these members.
    pub fn cell(
        &self,
        schema: &Schema,
        inst: &Instance,
        x: usize,
        tuple: UpToTwo<usize>,
    ) -> Option<usize>
        requires offsets { AreOffsets (world_of schema.now inst.now) self.now }
        requires valid { is_valid schema.now inst.now ≡ true }
        requires declared { x < length schema.now.choices }
        requires long { length (choice_of (world_of schema.now inst.now) x).args ≡ length (items_of tuple) }
        ensures { result ≡ cell (world_of schema.now inst.now) x (positions_of tuple) }
    {
        let indexes = schema.choices().as_slice()[x].args().as_slice();
        match place(inst, indexes, tuple) {
            Some(at) => Some(self.first(x) + at),
            None => None,
        }
    }

    /// The choice of a cell, and the members at which it is.
    pub fn owner(&self, schema: &Schema, inst: &Instance, k: usize) -> (usize, UpToTwo<usize>)
        requires offsets { AreOffsets (world_of schema.now inst.now) self.now }
        requires valid { is_valid schema.now inst.now ≡ true }
        requires within { k < cell_count (world_of schema.now inst.now) schema.now.choices }
        ensures { slice_get (cells (world_of schema.now inst.now)) k
            ≡ Some (record { choice = result.0; args = items_of result.1; kind = (choice_of (world_of schema.now inst.now) result.0).kind }) }
    {
        let choices = schema.choices().as_slice();
        let mut x = choices.len() - 1;
        while k < self.first(x) {
            x -= 1;
        }
        let indexes = choices[x].args().as_slice();
        (x, tuple_at(inst, indexes, k - self.first(x)))
    }
}
