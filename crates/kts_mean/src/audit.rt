ghost use Rattle.std.specs.Prelude.{◌≡◌, true};
ghost use Rattle.std.specs.List.{Contains};
ghost use Rattle.kts_mean.specs.Broken.{first_broken as first_broken_lem};
ghost use Rattle.kts_mean.specs.Parts.{IsFormulaOf, IsTermOf};
ghost use Rattle.kts_spec.specs.Data.{is_valid};
ghost use Rattle.kts_spec.specs.Meaning.{value_on, truth_on};
ghost use Rattle.kts_spec.specs.Schedules.{schedules};
ghost use Rattle.kts_spec.specs.Worlds.{world_of};

use crate::evaluator::Evaluator;
use crate::scope::Scope;
use kts_spec::{Formula, Instance, Spec, Term};

/// The value of a term on a schedule, at these members as the variables in scope.
pub fn value(spec: &Spec, inst: &Instance, schedule: &[i64], term: &Term, vars: &[usize]) -> i64
    requires valid { is_valid spec.now.schema inst.now ≡ true }
    requires schedule { Contains (schedules (world_of spec.now.schema inst.now)) schedule.now }
    requires term { IsTermOf spec.now.schema inst.now vars.now term.now }
    ensures { result ≡ value_on (world_of spec.now.schema inst.now) schedule.now term.now vars.now }
{
    let evaluator = Evaluator::new(spec.schema(), inst, schedule);
    evaluator.value(term, &Scope::of(vars))
}

/// The truth of a formula there.
pub fn truth(
    spec: &Spec,
    inst: &Instance,
    schedule: &[i64],
    formula: &Formula,
    vars: &[usize],
) -> bool
    requires valid { is_valid spec.now.schema inst.now ≡ true }
    requires schedule { Contains (schedules (world_of spec.now.schema inst.now)) schedule.now }
    requires formula { IsFormulaOf spec.now.schema inst.now vars.now formula.now }
    ensures { result ≡ truth_on (world_of spec.now.schema inst.now) schedule.now formula.now vars.now }
{
    let evaluator = Evaluator::new(spec.schema(), inst, schedule);
    evaluator.truth(formula, &Scope::of(vars))
}

/// The number of the first formula that is false on a schedule; None exactly where all are true.
pub fn first_broken(spec: &Spec, inst: &Instance, schedule: &[i64]) -> Option<usize>
    requires valid { is_valid spec.now.schema inst.now ≡ true }
    requires schedule { Contains (schedules (world_of spec.now.schema inst.now)) schedule.now }
    ensures { result ≡ first_broken_lem spec.now inst.now schedule.now }
{
    let evaluator = Evaluator::new(spec.schema(), inst, schedule);
    let no_variables = Scope::of(&[]);
    for (number, formula) in spec.formulas().as_slice().iter().enumerate() {
        if !evaluator.truth(&formula.1, &no_variables) {
            return Some(number);
        }
    }
    None
}
