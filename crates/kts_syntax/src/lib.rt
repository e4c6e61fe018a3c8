//! Forms: what the trees of a specification say, each tree in the role that its parent gives it.
//!
//! On the way from trees to forms a datum passes through these files:
//!
//! - `reader`: `read_forms`, from a file of trees to `Forms` or to the fault of the tree at fault that ends first.
//! - `tops`: the forms of a file, each by its first word; `counts` counts them against the limits.
//! - `exprs`: terms, formulas and binders, in the roles of `layout`; `parts` keeps them while there is room for their trees.
//! - `operations`: the word that a list begins with, as a `head`.
//! - `atoms`, `names`, `numbers`: trees side by side, and atoms as names and numbers.
//!
//! What is read is a `word`, an `expr`, a `form` or `forms`; what is wrong is a `fault`. `printer` writes forms as text, and
//! `laws` has the theorems on both ways, and examples of the rules.
#![tactic(auto)]

mod atoms;
mod counts;
mod expr;
mod exprs;
mod fault;
mod form;
mod forms;
mod head;
mod laws;
mod layout;
mod names;
mod numbers;
mod operations;
mod parts;
mod printer;
mod reader;
mod tops;
mod word;

pub use expr::Expr;
pub use fault::{FormFault, FormKind};
pub use form::{Form, Shape};
pub use forms::Forms;
pub use head::Head;
pub use laws::{form_examples, form_fault_law, forms_law, reading_law, round_trip_law};
pub use printer::print;
pub use reader::read_forms;
pub use word::Word;
