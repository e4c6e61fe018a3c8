//! Which tasks read which cells, so that a cell that rises wakes these tasks and no others.
//!
//! A task is a constraint of the schema with a tuple of members for its prefix (`specs/TaskOrder`).
//! Patterns pair tasks with the cells that they read (`specs/Pairs`).
//!
//! - `pattern`, `index`: a pattern, and the patterns of all constraints.
//! - `groups`: where the patterns of one constraint stand (`specs/PatternOrder`).
//! - `sizes`: what the schema and the data say of a constraint and of a choice.
//! - `digit`, `tuples`: the first tuple of a constraint that agrees with a pattern, found from the
//!   digits of its number and not by going over tuples (`specs/TupleNumbers`, `specs/FirstNumbers`).
//! - `first_paired`: the same for several patterns (`specs/ConstraintTuples`).
//! - `tasks`: the tasks that are paired with a cell, constraint by constraint (`specs/Cursor`).
//! - `bound`: the tasks, and those that rises of cells wake, counted (`specs/TaskBound`).
//! - `task`: a task by its number, and how many there are.
//! - `law`: which task has which number, and which tasks are given (`specs/TaskFacts`).
//! - `examples`: what some patterns pair (`specs/WorkedPairs`).
#![tactic(auto)]

mod bound;
mod digit;
mod examples;
mod first_paired;
mod groups;
mod index;
mod law;
mod pattern;
mod sizes;
mod task;
mod tasks;
mod tuples;

pub use examples::index_examples;
pub use index::Index;
pub use law::tasks_law;
pub use pattern::Pattern;
pub use task::{Task, task_count};
pub use tasks::Tasks;
