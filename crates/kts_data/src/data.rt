ghost use Rattle.std.specs.Prelude.{◌≡◌, true, IfOk};
ghost use Rattle.serde_json.specs.View.{view};
ghost use Rattle.kts_base.specs.Reads.{Gives};
ghost use Rattle.kts_data.specs.Drafts.{AreFew};
ghost use Rattle.kts_data.specs.Faults.{IsNoMemory, fold_read};
ghost use Rattle.kts_data.specs.Instances.{data_of, empty_instance, value_says, with_declaration, within_limits};
ghost use Rattle.kts_spec.specs.Data.{is_valid};

use crate::counts::{cell_count, task_count};
use crate::draft::Draft;
use crate::fault::{DataFault, Reason, fail_whole};
use crate::json::read_json;
use crate::keys::unknown_key;
use kts_base::{MAX_CELLS, MAX_TASKS};
use kts_spec::{Instance, Schema};
use serde_json::Value;
use std::alloc::Global;

/// The instance that the bytes of a data file say for these declarations, or the first thing that is wrong.
#[tactic(auto, unfolding(crate::specs::Instances::data_of))]
pub fn read_data(alloc: Global, schema: &Schema, bytes: &[u8]) -> Result<Instance, DataFault>
    ensures says { Gives IsNoMemory (λ inst. inst) result (data_of schema.now bytes.now) }
    ensures valid { IfOk result (λ inst. is_valid schema.now inst ≡ true) }
{
    let value = read_json(alloc, bytes)?;
    read_value(alloc, schema, &value)
}

#[tactic(auto, unfolding(crate::specs::Instances::value_says))]
fn read_value(alloc: Global, schema: &Schema, value: &Value) -> Result<Instance, DataFault>
    ensures { Gives IsNoMemory (λ inst. inst) result (value_says schema.now (view value.now)) }
{
    let object = match value.as_object() {
        Some(object) => object,
        None => return fail_whole(0, Reason::NotObject),
    };
    let inst = read_declarations(alloc, schema, value)?;
    match unknown_key(
        schema.indexes().as_slice(),
        schema.givens().as_slice(),
        object,
    ) {
        Some(k) => fail_whole(k, Reason::UnknownName),
        None => within_limits(schema, inst),
    }
}

/// What an object says of each declaration, in order.
fn read_declarations(alloc: Global, schema: &Schema, value: &Value) -> Result<Instance, DataFault>
    ensures says { Gives IsNoMemory (λ inst. inst) result (fold_read (with_declaration schema.now (view value.now)) empty_instance schema.now.decls) }
    ensures few { IfOk result (λ inst. AreFew inst.members) }
{
    let mut draft = Draft::new(alloc);
    for decl in schema.decls().as_slice() {
        draft.take(alloc, schema, value, *decl)?;
    }
    Ok(draft.instance(alloc)?)
}

/// An instance with few enough cells, and then with few enough tasks.
#[tactic(auto, unfolding(crate::specs::Instances::within_limits))]
fn within_limits(schema: &Schema, inst: Instance) -> Result<Instance, DataFault>
    requires { AreFew inst.members }
    ensures { result ≡ within_limits schema.now inst }
{
    let cells = cell_count(schema, &inst);
    if cells > MAX_CELLS as u64 {
        return fail_whole(0, Reason::TooManyCells(cells));
    }
    let tasks = task_count(schema, &inst);
    if tasks > MAX_TASKS as u64 {
        return fail_whole(0, Reason::TooManyTasks(tasks));
    }
    Ok(inst)
}
