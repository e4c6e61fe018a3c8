//! Reads the text of code, or tells the first line at fault.
//!
//! - `lines` takes a file in lines and a line in words; `names` and `numbers` say what a word is.
//! - `declarations`, `constraints`, `sizes`, `operands`: what the lines of each kind say.
//! - `draft`: what all lines so far say, each read after those before it; `read` goes through the lines.
//! - `laws`: bytes are the text of code or have one first fault.
#![tactic(auto)]

mod constraints;
mod declarations;
mod draft;
mod fault;
mod laws;
mod lines;
mod names;
mod numbers;
mod operands;
mod read;
mod sizes;

pub use fault::{CodeFault, CodeKind};
pub use laws::{code_files_law, fault_law};
pub use read::read_code;
