//! Rows of cells that rise, with marks to go back to.
//!
//! - `row`: a row, and what each call does to it (`specs/Rows`); its cells rise only so often
//!   (`specs/Rises`).
//! - `trail`: what the cells were before they rose, at most one entry a cell and mark
//!   (`specs/Trails`).
#![tactic(auto)]

mod row;
#[cfg(test)]
mod tests;
mod trail;

pub use row::{Row, rises_are_few};
