ghost use Rattle.kts_plan.specs.ClausesInSpaces.{ClausesHoldInSpaces};
ghost use Rattle.kts_plan.specs.SolutionLaws.{FitsDeclarations, LeastIsUnique, NoneIsLost, ResidualsAreNumbered, SingleIsRight, WalkIsUnique, WalksAnswer};
ghost use Rattle.kts_plan.specs.TaskLaws.{AsksAreMonotone, AsksAreOfCells, UnreadCellsDoNotCount};
ghost use Rattle.kts_spec.specs.Worlds.{world_of};
ghost use Rattle.kts_spec.specs.declared.instance.Instance.{Instance};
ghost use Rattle.kts_spec.specs.declared.spec.Spec.{Spec};

/// A formula is as true as its clauses, in every space.
pub fn clauses_hold_in_spaces()
    ensures { ClausesHoldInSpaces }
{}

/// What tasks ask of spaces: no less where more is known, of cells that they name, and whatever
/// the cells become that they do not read.
pub fn task_laws()
    ensures monotone { AsksAreMonotone }
    ensures unread { UnreadCellsDoNotCount }
    ensures cells { AsksAreOfCells }
{}

/// Least solutions lose no schedule of the answer; a single one is a schedule of it where no
/// residual clause is false; so a walk has the schedules of the answer, in order.
pub fn solution_laws()
    ensures lost { (spec : Spec) (inst : Instance) → NoneIsLost (world_of spec.schema inst) spec }
    ensures single { (spec : Spec) (inst : Instance) → FitsDeclarations spec inst → SingleIsRight (world_of spec.schema inst) spec }
    ensures unique { LeastIsUnique }
    ensures one_walk { WalkIsUnique }
    ensures residuals { ResidualsAreNumbered }
    ensures walks { (spec : Spec) (inst : Instance) → FitsDeclarations spec inst → WalksAnswer (world_of spec.schema inst) spec }
{}
