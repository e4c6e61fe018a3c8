//! The code that the machine runs: its instructions, which of it is well formed, and the definition of a run.
//!
//! `instructions` are what `code` is made of, `modes` are whether a run of it goes on, and `laws` say what holds of each run.
#![tactic(auto)]

mod code;
mod instructions;
mod laws;
mod modes;

pub use code::Code;
pub use instructions::Instr;
pub use laws::{run_laws, worked_run};
pub use modes::{Mode, TrapKind};
