use kts_code::TrapKind;

/// How a run ended, with the number of schedules that it printed: it halted, it printed the schedule
/// that was asked for, it had no steps left, a step trapped at a place of the code, or a write failed.
#[derive(Clone, Copy, Debug, PartialEq, Eq)]
pub enum Outcome {
    Ended(u64),
    Stopped(u64),
    Spent(u64),
    Trap(TrapKind, u32),
    WriteFault,
}
