ghost use Rattle.std.specs.Prelude.{◌≡◌, ◌++◌, [], true, Ok, IfOk, OnOk};
ghost use Rattle.std.specs.List.{Contains, list_all};
ghost use Rattle.serde_json.specs.View.{view};
ghost use Rattle.kts_base.specs.Reads.{Gives, and_then};
ghost use Rattle.kts_data.specs.Faults.{IsNoMemory, fold_read};
ghost use Rattle.kts_data.specs.Instances.{table_of};
ghost use Rattle.kts_data.specs.Json.{value_under};
ghost use Rattle.kts_data.specs.Plans.{plan_of, value_plans, with_choice};
ghost use Rattle.kts_spec.specs.Data.{is_valid};
ghost use Rattle.kts_spec.specs.Names.{is_distinct};
ghost use Rattle.kts_spec.specs.Schedules.{schedules};
ghost use Rattle.kts_spec.specs.Worlds.{world_of};

use crate::fault::{DataFault, Reason, fail_whole};
use crate::json::read_json;
use crate::keys::unknown_key;
use crate::lookup::find;
use crate::roster::Roster;
use crate::values::table_of;
use kts_base::{List, Name, NoMemory};
use kts_spec::{Family, Instance, Schema, instances_keep};
use serde_json::Value;
use std::alloc::Global;

/// The schedule that the bytes of a plan file say on this instance, one value for each cell, or the first thing that is wrong.
#[tactic(auto, unfolding(crate::specs::Plans::plan_of))]
pub fn read_plan(
    alloc: Global,
    schema: &Schema,
    inst: &Instance,
    bytes: &[u8],
) -> Result<List<i64>, DataFault>
    requires { is_valid schema.now inst.now ≡ true }
    ensures says { Gives IsNoMemory (λ plan. plan) result (plan_of schema.now inst.now bytes.now) }
    ensures schedule { IfOk result (λ plan. Contains (schedules (world_of schema.now inst.now)) plan) }
{
    let value = read_json(alloc, bytes)?;
    read_value(alloc, schema, inst, &value)
}

#[tactic(auto, unfolding(crate::specs::Plans::value_plans))]
fn read_value(
    alloc: Global,
    schema: &Schema,
    inst: &Instance,
    value: &Value,
) -> Result<List<i64>, DataFault>
    requires { is_valid schema.now inst.now ≡ true }
    ensures { Gives IsNoMemory (λ plan. plan) result (value_plans schema.now inst.now (view value.now)) }
{
    let object = match value.as_object() {
        Some(object) => object,
        None => return fail_whole(0, Reason::NotObject),
    };
    let plan = read_choices(alloc, schema, inst, value)?;
    match unknown_key(&[], schema.choices().as_slice(), object) {
        Some(k) => fail_whole(k, Reason::UnknownName),
        None => Ok(plan),
    }
}

/// The values of each choice, one choice after another.
fn read_choices(
    alloc: Global,
    schema: &Schema,
    inst: &Instance,
    value: &Value,
) -> Result<List<i64>, DataFault>
    requires { is_valid schema.now inst.now ≡ true }
    ensures { Gives IsNoMemory (λ plan. plan) result (fold_read (with_choice inst.now (view value.now)) [] schema.now.choices) }
{
    instances_keep();
    let rosters = rosters_of(alloc, inst.members().as_slice())?;
    let mut plan = List::new(alloc);
    for family in schema.choices().as_slice() {
        take_choice(alloc, rosters.as_slice(), family, value, &mut plan)?;
    }
    Ok(plan)
}

// The members of each index, with their positions.
fn rosters_of(alloc: Global, members: &[List<Name>]) -> Result<List<Roster>, NoMemory>
    requires { list_all is_distinct members.now ≡ true }
    ensures { IfOk result (λ rosters. rosters ≡ members.now) }
{
    let mut rosters = List::new(alloc);
    for names in members {
        rosters.push(Roster::from_names(alloc, names.as_slice())?)?;
    }
    Ok(rosters)
}

/// Takes the values that an object has for one choice more.
fn take_choice(
    alloc: Global,
    members: &[Roster],
    family: &Family,
    value: &Value,
    plan: &mut List<i64>,
) -> Result<(), DataFault>
    ensures { Gives IsNoMemory (λ _. plan.new) result
        (and_then (and_then (value_under family.now.name (view value.now)) (table_of members.now family.now)) (λ values. Ok (plan.old ++ values))) }
{
    let found = find(value, &family.name())?;
    let table = table_of(alloc, members, family, found)?;
    append(plan, table.as_slice())?;
    Ok(())
}

fn append(plan: &mut List<i64>, values: &[i64]) -> Result<(), NoMemory>
    ensures { OnOk result (plan.new ≡ plan.old ++ values.now) }
{
    for value in values {
        plan.push(*value)?;
    }
    Ok(())
}
