//! The definite constraints of clauses: what propagation asks of cells, and what a search goes through.
//!
//! A literal that compares an access with other terms has heads: each bounds the access's cell by the
//! rest. A definite constraint is a head with the other literals of its clause, and a task is one with
//! members for the variables of the clause.
//!
//! - `bound`, `head`, `definite`, `plan`: a plan, whose numbers name its clauses (`specs/PlanNumbers`).
//! - `specs/Assertions`, `specs/BareAccesses`, `specs/Heads`: which heads a literal has.
//!   `specs/Plans` is the plan of a specification.
//! - `specs/Constraints`, `specs/Asks`, `specs/TaskReads`: the tasks of a plan, what one asks of a space,
//!   what it reads, and which cells it is paired with.
//! - `specs/Solutions`, `specs/Walks`: the least space that meets all tasks, and the nodes and schedules
//!   that a search goes through.
//! - `laws`: what clauses in spaces (`specs/ClausesInSpaces`), tasks (`specs/TaskLaws`) and least
//!   solutions (`specs/SolutionLaws`) keep.
//! - `examples`: the plans of some formulas (`specs/WorkedPlans`).
#![tactic(auto)]

mod bound;
mod definite;
mod examples;
mod head;
mod laws;
mod plan;

pub use bound::Bound;
pub use definite::Definite;
pub use examples::plan_examples;
pub use head::Head;
pub use kts_abs::Op;
pub use laws::{clauses_hold_in_spaces, solution_laws, task_laws};
pub use plan::Plan;
