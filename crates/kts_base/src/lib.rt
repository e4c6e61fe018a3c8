//! What every other crate stands on: lists, boxes and names that contracts see as plain values, numbers in decimal, faults of
//! texts, the limits, and the outside world as two traits, each with a count of its faults.
//!
//! `limits` has each limit once. `list`, `boxed` and `name` are values; `numeral` reads numbers and `put` writes them; `fault`
//! is what texts are refused with. `files` and `sink` are the outside world, `mem_files` and `mem_sink` both in memory, `count_sink`
//! a sink that counts alone, and `status` how a command ends.
#![tactic(auto)]

mod boxed;
mod count_sink;
mod fault;
mod files;
mod limits;
mod list;
mod mem_files;
mod mem_sink;
mod name;
mod numeral;
mod put;
mod sink;
mod status;
#[cfg(test)]
mod tests;

pub use boxed::Boxed;
pub use count_sink::CountSink;
pub use fault::{Fault, FaultKind, fail};
pub use files::{Files, LoadFault};
pub use limits::{
    DEFAULT_BUDGET, GENERATED_STACK, MAX_ADDENDS, MAX_ARGUMENTS, MAX_ATOM_BYTES, MAX_BUDGET,
    MAX_CELLS, MAX_CHOICES, MAX_DEPTH, MAX_FILE_BYTES, MAX_FIRST, MAX_FORMULAS, MAX_GIVENS,
    MAX_INDEXES, MAX_INSTRUCTIONS, MAX_MEMBERS, MAX_NAME_BYTES, MAX_NESTING, MAX_NUMBER, MAX_PARTS,
    MAX_PREFIX, MAX_SAMPLE, MAX_STACK, MAX_TASKS, MAX_TREES, MAX_TYPE_END, MAX_VARIABLES,
    MAX_WINDOW_END, MAX_WRITTEN_TREES, limits_law,
};
pub use list::{List, NoMemory};
pub use mem_files::MemFiles;
pub use mem_sink::MemSink;
pub use name::Name;
pub use numeral::{is_digit, numeral_law, read_numeral};
pub use put::{put_number, put_pieces};
pub use sink::{Sink, SinkFault};
pub use status::Status;
