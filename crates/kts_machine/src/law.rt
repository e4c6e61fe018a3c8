ghost use Rattle.kts_machine.specs.ProgressLaws.{WholeRunsAreRuns, StoppedRunsAreRuns, RunsKeepTheirBudget, RunsStopForCause};

/// How far a run goes is told by the run of the definitions: its state, its steps and its longest path. It stops for a cause, and not before.
pub fn progress_law()
    ensures whole { WholeRunsAreRuns }
    ensures stopped { StoppedRunsAreRuns }
    ensures budget { RunsKeepTheirBudget }
    ensures cause { RunsStopForCause }
{}
