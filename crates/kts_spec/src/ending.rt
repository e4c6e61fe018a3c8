/// How a run ended, with the number of schedules printed: it found all of them, it printed as many
/// as were asked for, or it had no steps left.
#[derive(Clone, Copy, Debug, PartialEq, Eq)]
pub enum Ending {
    End(u64),
    First(u64),
    Budget(u64),
}
