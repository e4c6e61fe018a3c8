//! Sets of numbers as the bits of words, and sets with a member, which rise while they shrink.
//!
//! - `words`: the bits of words, defined in `specs/Bits`.
//! - `set`: the words as a set, which contracts see as the rising list of its members (`specs/Sets`).
//! - `choice`: a set with a member, as a semilattice (`specs/Choices`).
//! - `widening`: each call gives on wider sets what it gives on narrower ones.
//!
//! The laws stand in `specs/BitLaws`, `specs/SetLaws` and `specs/ChoiceLaws`.
#![tactic(auto)]

mod choice;
mod set;
#[cfg(test)]
mod tests;
pub mod widening;
mod words;

pub use choice::Choice;
pub use set::MemberSet;
