ghost use Rattle.kts_classify.specs.PatternLaws.{PatternsPair};
ghost use Rattle.kts_index.specs.TaskOrder.{Task};
ghost use Rattle.kts_plan.specs.declared.plan.Plan.{Plan};
ghost use Rattle.kts_spec.specs.Schedules.{Cell};

/// The patterns of a plan pair a task with exactly the cells that it reads.
pub fn patterns_law()
    ensures { (plan : Plan) (task : Task) (cell : Cell) → PatternsPair plan task cell }
{}
