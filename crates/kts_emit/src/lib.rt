//! The code of terms and formulas, which pushes their values, and of the bodies of definite constraints, which do what tasks ask.
//!
//! `buffer` holds instructions, as many as code may have. `emit` appends the code of a term or formula to one, and `lengths`
//! counts its instructions. What that code is, and how it weighs, is defined in `specs/Codes` and `specs/Weights`; `laws` say
//! what running it does. `body` appends the code of the body of a constraint, and `body_lengths` counts it: `specs/Bodies`,
//! `specs/BodyWeights`. `clause` appends the code of a clause, which pushes its truth: `specs/ClauseCode`. What becomes of a space by a task is in `specs/Effects`, and what running bodies does in `specs/BodyRuns`.
#![tactic(auto)]

mod appends;
mod body;
mod body_lengths;
mod buffer;
mod clause;
mod draft;
mod draft_body;
mod draft_clause;
mod emit;
mod laws;
mod lengths;

pub use body::emit_body;
pub use body_lengths::length_body;
pub use buffer::{Buffer, EmitFault};
pub use clause::{emit_clause, length_clause};
pub use emit::{emit_formula, emit_term};
pub use laws::{
    bodies_are_as_worked, bodies_are_well_formed, bodies_do_what_tasks_ask, bodies_have_length,
    clauses_push_truth, code_has_length, code_is_as_worked, code_is_well_formed,
    code_pushes_values, task_steps_keep_the_search,
};
pub use lengths::{length_formula, length_term};
