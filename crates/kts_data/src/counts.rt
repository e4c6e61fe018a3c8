ghost use Rattle.std.specs.Prelude.{◌≡◌, ◌≤◌, ◌^◌, length, map, slice_index};
ghost use Rattle.kts_base.specs.Limits.{most_members, most_prefix};
ghost use Rattle.kts_data.specs.Drafts.{AreFew, tuples_in};
ghost use Rattle.kts_data.specs.Instances.{cells_in, tasks_in};

use kts_spec::{Instance, Schema, schemas_keep};

/// How many members an index has; none where it isn't there.
fn member_count(inst: &Instance, index: u32) -> u64
    requires { AreFew inst.now.members }
    ensures count { result ≡ slice_index (map length inst.now.members) index }
    ensures few { result ≤ most_members }
{
    match inst.members().as_slice().get(index as usize) {
        Some(names) => names.len() as u64,
        None => 0,
    }
}

/// How many tuples of members these indexes have. Indexes have few members, so the product fits.
fn tuple_count(inst: &Instance, indexes: &[u32]) -> u64
    requires few { AreFew inst.now.members }
    requires short { length indexes.now ≤ most_prefix }
    ensures count { result ≡ tuples_in inst.now indexes.now }
    ensures few { result ≤ most_members ^ length indexes.now }
{
    let mut count = 1;
    for index in indexes {
        count *= member_count(inst, *index);
    }
    count
}

/// How many cells there are. Choices are few, so the sum fits.
pub fn cell_count(schema: &Schema, inst: &Instance) -> u64
    requires { AreFew inst.now.members }
    ensures { result ≡ cells_in schema.now inst.now }
{
    schemas_keep();
    let mut count = 0;
    for family in schema.choices().as_slice() {
        count += tuple_count(inst, family.args().as_slice());
    }
    count
}

/// How many tasks there are. A constraint has few variables, so the sum fits.
pub fn task_count(schema: &Schema, inst: &Instance) -> u64
    requires { AreFew inst.now.members }
    ensures { result ≡ tasks_in schema.now inst.now }
{
    schemas_keep();
    let mut count = 0;
    for prefix in schema.tasks().as_slice() {
        count += tuple_count(inst, prefix.as_slice());
    }
    count
}
