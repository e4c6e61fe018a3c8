ghost use Rattle.std.specs.Prelude.{◌≡◌, ◌+◌, ◌<◌, ◌≤◌, [], length, take, slice_index_or, true};
ghost use Rattle.kts_base.specs.Limits.{most_prefix, most_tasks};
ghost use Rattle.kts_index.specs.TaskOrder.{task_at, tasks_before};
ghost use Rattle.kts_index.specs.TupleNumbers.{sizes_in, AreIndexes, tuple_at};
ghost use Rattle.kts_spec.specs.Data.{is_valid, task_count as task_count_lem};
ghost use Rattle.kts_spec.specs.Places.{count_of};
ghost use Rattle.kts_spec.specs.Worlds.{world_of};

use crate::sizes::{count, prefix_of, size};
use crate::tuples::Tuples;
use kts_base::MAX_PREFIX;
use kts_spec::{Instance, Schema};
use std::marker::Model;

/// A constraint with a tuple of members for the variables of its prefix.
#[derive(Drop)]
pub struct Task {
    definite: usize,
    /// The members, in the first places.
    members: [usize; MAX_PREFIX],
    count: usize,
}

impl Model for Task {
    ghost use Rattle.std.specs.Prelude.{◌≤◌, take};
    ghost use Rattle.kts_base.specs.Limits.{most_prefix};
    ghost use Rattle.kts_index.specs.TaskOrder.{Task as Task_};

    ghost Value = { Task_ };

    ghost view = { λ t. record { definite = t.definite; tuple = take t.count t.members } };

    ghost invariant = { λ t. t.count ≤ most_prefix };
}

impl Task {
    /// The task of this number.
    pub fn at(schema: &Schema, inst: &Instance, number: usize) -> Task
        requires valid { is_valid schema.now inst.now ≡ true }
        requires within { number < task_count_lem (world_of schema.now inst.now) schema.now.tasks }
        ensures { result ≡ task_at (world_of schema.now inst.now) schema.now.tasks number }
    {
        let (definite, at) = place_of(schema, inst, number);
        let prefix = prefix_of(schema, definite);
        Task {
            definite,
            members: members_of(inst, prefix, at),
            count: prefix.len(),
        }
    }

    /// The number of the constraint.
    pub fn definite(&self) -> usize
        ensures { result ≡ self.now.definite }
    {
        self.definite
    }

    /// The members of the variables.
    pub fn tuple(&self) -> &[usize]
        ensures { result.now ≡ self.now.tuple }
    {
        &self.members[..self.count]
    }
}

/// The number of all tasks.
pub fn task_count(schema: &Schema, inst: &Instance) -> usize
    requires { is_valid schema.now inst.now ≡ true }
    ensures value { result ≡ task_count_lem (world_of schema.now inst.now) schema.now.tasks }
    ensures few { result ≤ most_tasks }
{
    let mut total = 0;
    for definite in 0..schema.tasks().len() {
        total += Tuples::of_constraint(schema, inst, definite).count();
    }
    total
}

// The constraint of a task, and the number of its tuple.
fn place_of(schema: &Schema, inst: &Instance, number: usize) -> (usize, usize)
    requires valid { is_valid schema.now inst.now ≡ true }
    requires within { number < task_count_lem (world_of schema.now inst.now) schema.now.tasks }
    ensures declared { result.0 < length schema.now.tasks }
    ensures at { result.1 < count_of (sizes_in inst.now (slice_index_or schema.now.tasks result.0 [])) }
    ensures number { tasks_before (world_of schema.now inst.now) schema.now.tasks result.0 + result.1 ≡ number }
{
    let mut start = 0;
    for definite in 0..schema.tasks().len() {
        let count = Tuples::of_constraint(schema, inst, definite).count();
        if number < start + count {
            return (definite, number - start);
        }
        start += count;
    }
    unreachable!()
}

// The tuple that has this number, in the first places.
fn members_of(inst: &Instance, prefix: &[u32], number: usize) -> [usize; MAX_PREFIX]
    requires indexes { AreIndexes inst.now prefix.now }
    requires number { number < count_of (sizes_in inst.now prefix.now) }
    ensures { take (length prefix.now) result ≡ tuple_at (sizes_in inst.now prefix.now) number }
{
    let mut members = [0; MAX_PREFIX];
    for k in 0..prefix.len() {
        members[k] = number / count(inst, &prefix[k + 1..]) % size(inst, prefix[k]);
    }
    members
}
