ghost use Rattle.kts_plan.specs.WorkedPlans.{PlanExamples};

/// The definite constraints and the residual clauses of some formulas.
pub fn plan_examples()
    ensures { PlanExamples }
{}
