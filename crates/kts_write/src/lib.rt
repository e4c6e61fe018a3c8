//! Writes the text of code. The instructions stand in one table, with the word and the operands of each.
#![tactic(auto)]

mod constraints;
mod declarations;
mod instructions;
mod numbers;
mod table;
mod write;

pub use table::{OperandKind, kinds_of, samples, values_of, with_values, word_of};
pub use write::write_code;
