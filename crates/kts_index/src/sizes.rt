ghost use Rattle.std.specs.Prelude.{◌≡◌, ◌<◌, [], map, length, slice_index, slice_index_or};
ghost use Rattle.kts_index.specs.TupleNumbers.{sizes_in, AreIndexes};
ghost use Rattle.kts_spec.specs.Places.{count_of};
ghost use Rattle.kts_spec.specs.Schemas.{family_at};

use kts_spec::{Family, Instance, Schema};

/// The number of members of an index.
pub fn size(inst: &Instance, index: u32) -> usize
    requires { index < length inst.now.members }
    ensures { result ≡ slice_index (map length inst.now.members) index }
{
    inst.members().as_slice()[index as usize].len()
}

/// The number of tuples of members of these indexes.
pub fn count(inst: &Instance, indexes: &[u32]) -> usize
    requires { AreIndexes inst.now indexes.now }
    ensures { result ≡ count_of (sizes_in inst.now indexes.now) }
{
    let mut count = 1;
    for index in indexes {
        count *= size(inst, *index);
    }
    count
}

/// The indexes of the variables of a constraint.
pub fn prefix_of(schema: &Schema, definite: usize) -> &[u32]
    requires { definite < length schema.now.tasks }
    ensures { result.now ≡ slice_index_or schema.now.tasks definite [] }
{
    schema.tasks().as_slice()[definite].as_slice()
}

/// The choice of this number.
pub fn choice_at(schema: &Schema, choice: usize) -> &Family
    requires { choice < length schema.now.choices }
    ensures { result.now ≡ family_at schema.now.choices choice }
{
    &schema.choices().as_slice()[choice]
}
