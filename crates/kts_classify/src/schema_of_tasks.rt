ghost use Rattle.std.specs.Prelude.{◌≡◌, ◌<◌, length, map, IfOk};
ghost use Rattle.kts_classify.specs.TaskSchemas.{IsTaskSchema, prefix_in};
ghost use Rattle.kts_plan.specs.Plans.{IsPlanOf};

use kts_base::{List, NoMemory};
use kts_plan::{Definite, Plan};
use kts_spec::{Schema, Spec, copy_families};
use std::alloc::Global;

/// The specification's schema with the prefixes of its constraints, in order, as the tasks.
pub fn task_schema(alloc: Global, spec: &Spec, plan: &Plan) -> Result<Schema, NoMemory>
    requires { IsPlanOf spec.now plan.now }
    ensures { IfOk result (λ schema. IsTaskSchema spec.now schema) }
{
    let schema = spec.schema();
    let decls = List::from_slice(alloc, schema.decls().as_slice())?;
    let indexes = List::from_slice(alloc, schema.indexes().as_slice())?;
    let givens = copy_families(alloc, schema.givens().as_slice())?;
    let choices = copy_families(alloc, schema.choices().as_slice())?;
    let tasks = prefixes(alloc, plan)?;
    Ok(Schema::new(schema.name(), decls, indexes, givens, choices, tasks))
}

// The prefixes of all constraints, in order.
fn prefixes(alloc: Global, plan: &Plan) -> Result<List<List<u32>>, NoMemory>
    ensures { IfOk result (λ prefixes. prefixes ≡ map (prefix_in plan.now.clauses) plan.now.definites) }
{
    let mut prefixes = List::new(alloc);
    for definite in plan.definites().as_slice() {
        prefixes.push(prefix(alloc, plan, definite)?)?;
    }
    Ok(prefixes)
}

fn prefix(alloc: Global, plan: &Plan, definite: &Definite) -> Result<List<u32>, NoMemory>
    requires { definite.now.clause < length plan.now.clauses }
    ensures { IfOk result (λ prefix. prefix ≡ prefix_in plan.now.clauses definite.now) }
{
    let clauses = plan.clauses().as_slice();
    let clause = &clauses[definite.clause() as usize];
    List::from_slice(alloc, clause.prefix().as_slice())
}
