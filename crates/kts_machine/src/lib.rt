//! The machine: it runs code on data, and writes the text of what the run has found.
//!
//! - `operand`, `stack`, `tops`: what the operand stack holds (`specs/OperandViews`, `specs/Parts`).
//! - `registers`, `offsets`, `up_to_two`: registers, the numbers of cells, and tuples of at most two (`specs/Items`).
//! - `ops`: what the machine does at each place of the code (`specs/Ops`).
//! - `known`, `bodies`, `plans`: what a task does from its taking to its demand, where that is known before any run (`specs/Plans`).
//! - `readers`, `waking`: the tasks that a cell wakes (`specs/KeptReaders`).
//! - `reads`: what a choice or a given may be at sets of members (`specs/Reading`).
//! - `targets`: the cell of a demand, and its bound, as operands tell them (`specs/Targets`).
//! - `demands`: whether a cell meets a demand, and its greatest part that does.
//! - `queue`: the tasks that wait (`specs/TaskQueues`).
//! - `cells`: the parts of a cell that a search splits it into.
//! - `choices`: the choices that can be undone (`specs/Splits`).
//! - `machine`: a step of each instruction. Steps that are done at once, as one operation: `machine/at_once`, `machine/sums` (`specs/Sums`),
//!   `machine/needs` (`specs/Moves`), `machine/members` (`specs/Members`), `machine/addends`, a loop over members (`specs/Addends`),
//!   `machine/planned`, a task up to its demand (`specs/Due`).
//! - `outcome`: how a run ended (`specs/Outcomes`), by how far it went (`specs/Progress`).
//! - `law`: how far a run goes, by the run of the definitions (`specs/ProgressLaws`).
#![tactic(auto)]

mod bodies;
mod cells;
mod choices;
mod demands;
mod known;
mod law;
mod machine;
mod offsets;
mod operand;
mod ops;
mod outcome;
mod plans;
mod queue;
mod raising;
mod readers;
mod reads;
mod registers;
mod stack;
mod targets;
mod tops;
mod types;
mod up_to_two;
mod waking;

pub use law::progress_law;
pub use machine::Machine;
pub use outcome::Outcome;
