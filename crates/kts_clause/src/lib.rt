//! The clauses of a formula: literals of which one is true, whatever members the variables of a prefix are.
//!
//! - `literal`, `clause`: a formula with its sign, and a clause.
//! - `literals`, `conjunction`: those of a formula (`specs/Clauses`); `prefix` is a list that grows and shrinks.
//! - `law`: that a formula is as true as its clauses (`specs/ClauseTruth`), and what the clauses of a
//!   specification keep (`specs/ClauseFacts`).
//! - `examples`: the clauses of some formulas (`specs/WorkedClauses`).
#![tactic(auto)]

mod clause;
mod conjunction;
mod examples;
mod law;
mod literal;
mod literals;
mod prefix;

pub use clause::Clause;
pub use conjunction::{append_clauses, clauses};
pub use examples::clause_examples;
pub use law::clauses_law;
pub use literal::Literal;
