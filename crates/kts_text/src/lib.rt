//! Trees: a text of atoms and of lists in parentheses, read in one pass.
//!
//! `class` sorts the bytes, and `scan` goes over them: it makes each `node`, keeps the lists that are open in `opened`, and stops
//! at the first `fault`. `reader` gives the nodes of a whole text as `trees`, and `cursor` goes over those, tree by tree.
#![tactic(auto)]

mod class;
mod cursor;
mod fault;
mod node;
mod opened;
mod reader;
mod scan;
mod trees;

pub use cursor::{Front, Siblings};
pub use fault::{TreeFault, TreeKind};
pub use node::Node;
pub use reader::{grammar_law, read_trees};
pub use trees::Trees;
