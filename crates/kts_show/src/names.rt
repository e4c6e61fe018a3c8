ghost use Rattle.std.specs.Prelude.{◌≡◌, ◌<◌, [], length, true, slice_index_or};
ghost use Rattle.kts_spec.specs.Schemas.{is_type};
ghost use Rattle.kts_abs.specs.NodeTexts.{value_names as value_names_lem};

use kts_base::Name;
use kts_spec::{Instance, ValueType};

/// The names of the members of an index.
pub fn members(inst: &Instance, index: u32) -> &[Name]
    requires { index < length inst.now.members }
    ensures { result.now ≡ slice_index_or inst.now.members index [] }
{
    inst.members().as_slice()[index as usize].as_slice()
}

/// The names of the values of a type; whole numbers have none.
pub fn value_names(inst: &Instance, kind: ValueType) -> &[Name]
    requires { is_type (length inst.now.members) kind ≡ true }
    ensures { result.now ≡ value_names_lem inst.now kind }
{
    match kind {
        ValueType::Int { .. } => &[],
        ValueType::Member(index) => members(inst, index),
    }
}

/// The name at a place; past the last one nothing.
pub fn name_at(names: &[Name], at: usize) -> &[u8]
    ensures { result.now ≡ slice_index_or names.now at [] }
{
    match names.get(at) {
        Some(name) => name.bytes(),
        None => &[],
    }
}
