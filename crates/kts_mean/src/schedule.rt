ghost use Rattle.std.specs.Prelude.{◌≡◌, ◌↔◌, length, true, IsTrue};
ghost use Rattle.std.specs.List.{Contains, list_all};
ghost use Rattle.kts_mean.specs.Bounds.{members_of};
ghost use Rattle.kts_spec.specs.Data.{is_valid, is_value as is_value_lem};
ghost use Rattle.kts_spec.specs.Schedules.{schedules};
ghost use Rattle.kts_spec.specs.Schemas.{is_type};
ghost use Rattle.kts_spec.specs.Worlds.{world_of};

use crate::evaluator::{count_tuples, size};
use kts_spec::{Instance, Spec, ValueType};

fn is_value(inst: &Instance, kind: ValueType, value: i64) -> bool
    requires { is_type (length inst.now.members) kind ≡ true }
    ensures { result ≡ is_value_lem (members_of inst.now) kind value }
{
    match kind {
        ValueType::Int { lo, hi } => lo <= value && value <= hi,
        ValueType::Member(index) => 0 <= value && (value as usize) < size(inst, index),
    }
}

fn are_values(inst: &Instance, kind: ValueType, values: &[i64]) -> bool
    requires { is_type (length inst.now.members) kind ≡ true }
    ensures { result ≡ list_all (is_value_lem (members_of inst.now) kind) values.now }
{
    for value in values {
        if !is_value(inst, kind, *value) {
            return false;
        }
    }
    true
}

/// Whether these values are a schedule: one value of its type for each cell, and no more.
pub fn is_schedule(spec: &Spec, inst: &Instance, schedule: &[i64]) -> bool
    requires { is_valid spec.now.schema inst.now ≡ true }
    ensures { IsTrue result ↔ Contains (schedules (world_of spec.now.schema inst.now)) schedule.now }
{
    let mut rest = schedule;
    for family in spec.schema().choices().as_slice() {
        let count = count_tuples(inst, family.args().as_slice());
        if rest.len() < count {
            return false;
        }
        if !are_values(inst, family.kind(), &rest[..count]) {
            return false;
        }
        rest = &rest[count..];
    }
    rest.is_empty()
}
