ghost use Rattle.kts_emit.specs.Lengths.{CodeHasLength, CodeIsShort};
ghost use Rattle.kts_emit.specs.WellFormedCode.{CodeIsWellFormed};
ghost use Rattle.kts_emit.specs.Pushes.{CodePushesValues, CodePushesAbove};
ghost use Rattle.kts_emit.specs.Worked.{CodeIsAsWorked};
ghost use Rattle.kts_emit.specs.BodyRuns.{BodiesDoWhatTasksAsk, TakenTasksDoWhatTheyAsk};
ghost use Rattle.kts_emit.specs.BodyWeights.{BodiesHaveLength};
ghost use Rattle.kts_emit.specs.TaskSteps.{TaskStepsKeepTheSearch};
ghost use Rattle.kts_emit.specs.ClauseCode.{ClausesHaveLength, ClausesAreWellFormed, ClausesPushTruth};
ghost use Rattle.kts_emit.specs.WellFormedBodies.{BodiesAreWellFormed};
ghost use Rattle.kts_emit.specs.WorkedBodies.{BodiesAreAsWorked};

/// The code of each well typed term and formula pushes its abstract value, in as many steps as it weighs at most, with few
/// places on the stack; all else is as before, but for registers of variables that are not in scope.
pub fn code_pushes_values()
    ensures ranged { CodePushesValues }
    ensures above { CodePushesAbove }
{}

/// The length of code is the same wherever it stands, and no more than the trees of what is well typed allow.
pub fn code_has_length()
    ensures length { CodeHasLength }
    ensures short { CodeIsShort }
{}

/// Each instruction of the code of what is well typed is well formed.
pub fn code_is_well_formed()
    ensures { CodeIsWellFormed }
{}

/// The code of two formulas, instruction by instruction.
pub fn code_is_as_worked()
    ensures { CodeIsAsWorked }
{}

/// The body of each constraint of a specification does what its task asks of a space, in as many steps as it weighs at most:
/// wherever it stands, and from its entry where the bodies of all constraints stand one after the other and a task was taken.
pub fn bodies_do_what_tasks_ask()
    ensures alone { BodiesDoWhatTasksAsk }
    ensures taken { TakenTasksDoWhatTheyAsk }
{}

/// The steps of terms, formulas, heads and jumps take no task, and leave the choices, the path count and the items as they are.
pub fn task_steps_keep_the_search()
    ensures { TaskStepsKeepTheSearch }
{}

/// The length of a body is the same wherever it stands, and whatever its labels are.
pub fn bodies_have_length()
    ensures { BodiesHaveLength }
{}

/// Each instruction of the bodies of the constraints of a specification is well formed.
pub fn bodies_are_well_formed()
    ensures { BodiesAreWellFormed }
{}

/// The bodies of the constraints of two formulas, instruction by instruction.
pub fn bodies_are_as_worked()
    ensures { BodiesAreAsWorked }
{}

/// The code of each well typed clause pushes its truth in a space, in as many steps as it weighs at most; its length is the
/// same wherever it stands, and each of its instructions is well formed.
pub fn clauses_push_truth()
    ensures truth { ClausesPushTruth }
    ensures length { ClausesHaveLength }
    ensures formed { ClausesAreWellFormed }
{}
