//! The plan of a specification, the schema of its tasks, and the patterns that pair tasks with the cells that they read.
//!
//! - `classification`: the clauses, the constraints and the residual clauses, by the definitions of kts_plan.
//! - `literal_heads`, `comparison_heads`, `sum_heads`: the constraints of a literal (`specs/HeadPlaces`), at its `place`. `addends`
//!   flattens a sum (`specs/SignedTerms`), and `bare` finds accesses whose arguments read no choice.
//! - `schema_of_tasks`: the specification's schema with its tasks (`specs/TaskSchemas`).
//! - `pattern_list`, `accesses`, `arguments`: the patterns of a plan (`specs/PlanPatterns`).
//! - `law`: what these patterns pair (`specs/PatternLaws`).
#![tactic(auto)]

mod accesses;
mod addends;
mod arguments;
mod bare;
mod classification;
mod comparison_heads;
mod law;
mod literal_heads;
mod pattern_list;
mod place;
mod schema_of_tasks;
mod sum_heads;

pub use classification::classify;
pub use law::patterns_law;
pub use pattern_list::patterns;
pub use schema_of_tasks::task_schema;
