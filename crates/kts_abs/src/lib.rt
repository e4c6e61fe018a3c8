//! Abstract values: windows of whole numbers, sets of members and three truth values.
//!
//! - `operand`: what an abstract value is, by the laws of `specs/Abstraction`; windows and sets are
//!   operands by `specs/WindowLaws` and `specs/MemberLaws`.
//! - `truth`, `arithmetic`, `compare`: operations on them, defined in `specs/Truth`,
//!   `specs/Windows` and `specs/Members`.
//! - `cell`: what is known of a cell, as a semilattice (`specs/Cells`). `space`: a cell for each cell
//!   of a schedule.
//! - `specs/Values`, `specs/Spaces`, `specs/InSpace`, `specs/Soundness`: abstract values of any width,
//!   the spaces that a search splits, and what terms and formulas mean in a space.
//! - `specs/Ranged`: the abstract values of well typed terms lie in their static ranges.
//! - `demand`: what a definite constraint demands of a cell, and the part that meets it (`specs/Demands`).
//! - `laws`: what all this keeps.
#![tactic(auto)]

mod arithmetic;
mod cell;
mod compare;
mod demand;
mod laws;
mod operand;
mod space;
#[cfg(test)]
mod tests;
mod truth;

pub use arithmetic::{add, gate, hull, max, min, mul, sub, union};
pub use cell::Cell;
pub use compare::{eq, le, same};
pub use demand::Op;
pub use laws::{
    cell_laws, demand_laws, member_laws, range_laws, space_laws, split_laws, truth_laws,
    values_have_ranges, window_ends_law, window_laws,
};
pub use operand::Operand;
pub use space::Space;
pub use truth::{Tri, and, not, or};
