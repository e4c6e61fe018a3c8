//! Which values are a schedule, what terms and formulas mean on one, and which formula it breaks
//! first. No call takes memory.
//!
//! - `schedule`: whether values are a schedule, choice by choice.
//! - `audit`: the value of a term, the truth of a formula, and the first broken one, for a whole
//!   specification (`specs/Parts`, `specs/Broken`).
//! - `evaluator`, `accesses`: declarations on data with a schedule, and the reads of both.
//! - `meaning`: the recursion over terms and formulas (`specs/Evaluation`). It asks only that they
//!   are well typed at the variables in `scope`; that no sum leaves the machine's range follows.
//! - `numbers`: the machine's arithmetic on values (`specs/Bounds`).
//! - `law`: which schedules break no formula.
#![tactic(auto)]

mod accesses;
mod audit;
mod evaluator;
mod law;
mod meaning;
mod numbers;
mod schedule;
mod scope;

pub use audit::{first_broken, truth, value};
pub use law::kept_law;
pub use schedule::is_schedule;
