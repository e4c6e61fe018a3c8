ghost use Rattle.std.specs.Prelude.{◌≡◌, ◌<◌, ◌≤◌, ◌+◌, ◌*◌, ℕ, [], length, map, true, slice_index};
ghost use Rattle.std.specs.List.{Contains};
ghost use Rattle.kts_base.specs.Limits.{most_members, most_arguments, most_choices};
ghost use Rattle.kts_spec.specs.Data.{is_valid};
ghost use Rattle.kts_spec.specs.Places.{count_of};
ghost use Rattle.kts_spec.specs.Schedules.{schedules};
ghost use Rattle.kts_spec.specs.Worlds.{world_of};
ghost use Rattle.kts_mean.specs.Bounds.{AllIn, AreOffsets};

use kts_base::MAX_CHOICES;
use kts_spec::{Instance, Schema};

/// What a meaning depends on, beside the variables in scope: declarations, data, a schedule, and
/// the number of the first cell of each choice.
#[derive(Drop)]
pub struct Evaluator<'a> {
    pub schema: &'a Schema,
    pub inst: &'a Instance,
    pub schedule: &'a [i64],
    pub offsets: [usize; MAX_CHOICES],
    ghost valid: { is_valid schema.now inst.now ≡ true },
    ghost stands: { ∥ Contains (schedules (world_of schema.now inst.now)) schedule.now ∥₁ },
    ghost placed: { AreOffsets (world_of schema.now inst.now) offsets },
}

/// The number of members of an index.
pub fn size(inst: &Instance, index: u32) -> usize
    requires { index < length inst.now.members }
    ensures { result ≡ slice_index (map length inst.now.members) index }
{
    inst.members().as_slice()[index as usize].len()
}

/// How many tuples of members the arguments of a family have.
pub fn count_tuples(inst: &Instance, indexes: &[u32]) -> usize
    requires declared { AllIn (length inst.now.members) indexes.now }
    requires few { length indexes.now ≤ most_arguments }
    requires sizes { (i : ℕ) → slice_index (map length inst.now.members) i ≤ most_members }
    ensures { result ≡ count_of (map (slice_index (map length inst.now.members)) indexes.now) }
{
    if indexes.is_empty() {
        return 1;
    }
    let first = size(inst, indexes[0]);
    if indexes.len() == 1 {
        return first;
    }
    first * size(inst, indexes[1])
}

fn offsets_of(schema: &Schema, inst: &Instance) -> [usize; MAX_CHOICES]
    requires { is_valid schema.now inst.now ≡ true }
    ensures { AreOffsets (world_of schema.now inst.now) result }
{
    let mut offsets = [0; MAX_CHOICES];
    let families = schema.choices().as_slice();
    let mut next = 0;
    for (at, family) in families.iter().enumerate() {
        offsets[at] = next;
        next += count_tuples(inst, family.args().as_slice());
    }
    offsets
}

impl<'a> Evaluator<'a> {
    pub fn new(schema: &'a Schema, inst: &'a Instance, schedule: &'a [i64]) -> Evaluator<'a>
        requires valid { is_valid schema.now inst.now ≡ true }
        requires stands { Contains (schedules (world_of schema.now inst.now)) schedule.now }
        ensures schema { result.schema.now ≡ schema.now }
        ensures inst { result.inst.now ≡ inst.now }
        ensures schedule { result.schedule.now ≡ schedule.now }
    {
        let offsets = offsets_of(schema, inst);
        Evaluator {
            schema,
            inst,
            schedule,
            offsets,
        }
    }
}
