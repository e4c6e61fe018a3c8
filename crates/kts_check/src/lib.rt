//! The types of a specification: which forms are well typed, and the specification that they say.
//!
//! `checker` goes over the forms in the order of the file; `forms` reads one, to a `declaration` that the `symbol_table` takes
//! in, where each name has its `entry`. `names` are those of declarations and types. `trees` reads an expression: by `contexts`
//! the variables of its binders come into `scope`, and a name is a `reference`; its parts are each a `phrase`; `combine` makes a
//! term or a formula of them, with a `kind` in the ends of `measures`. `fault` is what is wrong, and `laws` tie the definitions
//! to the rules of typing and of faults.
#![tactic(auto)]

mod binding;
mod checker;
mod combine;
mod contexts;
mod declaration;
mod entry;
mod fault;
mod forms;
mod kind;
mod laws;
mod measures;
mod names;
mod phrase;
mod reference;
mod scope;
mod symbol_table;
mod trees;

pub use checker::check;
pub use fault::{SpecFault, SpecKind};
pub use laws::{specifications_law, type_fault_law, typing_law};
