//! Semilattices: values that rise, each of them only so often, and bounds on whole numbers.
//!
//! - `semi`: what a semilattice is, by the laws of `specs/Semilattice`, and what raising a value did.
//! - `ends`: a bound from below and a bound from above. `window`: the numbers between two ends.
//!   `specs/Ends` defines their order, join and size, and `specs/EndLaws` proves the laws.
#![tactic(auto)]

mod ends;
mod semi;
#[cfg(test)]
mod tests;
mod window;

pub use ends::{Earliest, Latest, MAX_WINDOW_END};
pub use semi::{Rise, Semi};
pub use window::{Window, leq_by_ends};
