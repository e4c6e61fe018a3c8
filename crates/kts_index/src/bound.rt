ghost use Rattle.std.specs.Prelude.{◌≡◌, ◌+◌, ◌*◌, ◌<◌, ◌≤◌, true, length, take, sum_by, unsigned_abs, ◌-ℤ◌};
ghost use Rattle.kts_base.specs.Limits.{most_arguments, most_cells, most_tasks, most_type_end};
ghost use Rattle.kts_index.specs.Pairs.{pairs};
ghost use Rattle.kts_index.specs.TaskBound.{rises_of as rises_of_lem, cell_bound, bound as bound_lem};
ghost use Rattle.kts_index.specs.TupleNumbers.{sizes_in, AreIndexes, tuple_at};
ghost use Rattle.kts_spec.specs.Data.{is_valid, task_count};
ghost use Rattle.kts_spec.specs.Places.{count_of};
ghost use Rattle.kts_spec.specs.Schedules.{cells_of};
ghost use Rattle.kts_spec.specs.Schemas.{is_type, family_at};
ghost use Rattle.kts_spec.specs.Worlds.{world_of};

use crate::index::Index;
use crate::sizes::{choice_at, count, size};
use crate::tasks::Tasks;
use crate::tuples::Tuples;
use kts_base::MAX_ARGUMENTS;
use kts_spec::{Instance, Schema, ValueType};

fn count_tasks(tasks: Tasks) -> u64
    requires { length tasks ≤ most_tasks }
    ensures { result ≡ length tasks.entry }
{
    let mut count = 0;
    for _task in tasks {
        count += 1;
    }
    count
}

fn distance(lo: i64, hi: i64) -> u64
    ensures { result ≡ unsigned_abs (hi -ℤ lo) }
{
    hi.abs_diff(lo)
}

/// How often a cell of this type can rise.
fn rises_of(schema: &Schema, inst: &Instance, kind: ValueType) -> u64
    requires kind { is_type (length inst.now.members) kind ≡ true }
    requires valid { is_valid schema.now inst.now ≡ true }
    ensures value { result ≡ rises_of_lem (world_of schema.now inst.now) kind }
    ensures few { result ≤ 2 * most_type_end }
{
    match kind {
        ValueType::Int { lo, hi } => distance(lo, hi),
        ValueType::Member(index) => (size(inst, index) as u64).saturating_sub(1),
    }
}

/// The tuple of members that has this number, in the first places.
fn tuple_of(inst: &Instance, indexes: &[u32], number: usize) -> [usize; MAX_ARGUMENTS]
    requires indexes { AreIndexes inst.now indexes.now }
    requires few { length indexes.now ≤ most_arguments }
    requires number { number < count_of (sizes_in inst.now indexes.now) }
    ensures { take (length indexes.now) result ≡ tuple_at (sizes_in inst.now indexes.now) number }
{
    let mut tuple = [0; MAX_ARGUMENTS];
    for k in 0..indexes.len() {
        tuple[k] = number / count(inst, &indexes[k + 1..]) % size(inst, indexes[k]);
    }
    tuple
}

/// How many tasks are paired with the cell of a choice at the tuple that has this number.
fn paired_count(
    index: &Index,
    schema: &Schema,
    inst: &Instance,
    choice: u32,
    args: &[u32],
    number: usize,
) -> u64
    requires valid { is_valid schema.now inst.now ≡ true }
    requires indexes { AreIndexes inst.now args.now }
    requires few { length args.now ≤ most_arguments }
    requires number { number < count_of (sizes_in inst.now args.now) }
    ensures value { result ≡ length (pairs index.now schema.now inst.now choice (tuple_at (sizes_in inst.now args.now) number)) }
    ensures few { result ≤ most_tasks }
{
    let tuple = tuple_of(inst, args, number);
    let members = &tuple[..args.len()];
    count_tasks(index.tasks_of(schema, inst, choice, members))
}

/// The tasks that are paired with each cell of a choice, each as often as the cell can rise.
fn choice_bound(index: &Index, schema: &Schema, inst: &Instance, choice: usize) -> u64
    requires valid { is_valid schema.now inst.now ≡ true }
    requires declared { choice < length schema.now.choices }
    ensures value { result ≡ sum_by (cell_bound index.now schema.now inst.now) (cells_of (world_of schema.now inst.now) (choice, family_at schema.now.choices choice)) }
    ensures few { result ≤ most_cells * (most_tasks * (2 * most_type_end)) }
{
    let family = choice_at(schema, choice);
    let args = family.args().as_slice();
    let rises = rises_of(schema, inst, family.kind());
    let mut bound = 0;
    for number in 0..count(inst, args) {
        bound += paired_count(index, schema, inst, choice as u32, args, number) * rises;
    }
    bound
}

/// The number of all tasks.
fn task_total(schema: &Schema, inst: &Instance) -> u64
    requires { is_valid schema.now inst.now ≡ true }
    ensures value { result ≡ task_count (world_of schema.now inst.now) schema.now.tasks }
    ensures few { result ≤ most_tasks }
{
    let mut total = 0;
    for definite in 0..schema.tasks().len() {
        total += Tuples::of_constraint(schema, inst, definite).count() as u64;
    }
    total
}

/// Each task once, and again at each rise of a cell that it is paired with.
pub fn bound(index: &Index, schema: &Schema, inst: &Instance) -> u64
    requires { is_valid schema.now inst.now ≡ true }
    ensures { result ≡ bound_lem index.now schema.now inst.now }
{
    let mut bound = task_total(schema, inst);
    for choice in 0..schema.choices().len() {
        bound += choice_bound(index, schema, inst, choice);
    }
    bound
}
