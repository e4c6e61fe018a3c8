//! What a specification is, what it means on data, and the text of its answer.
//!
//! - `declarations`, `schema`: what a specification declares (`specs/Names`, `specs/Schemas`).
//! - `tree`, `spec`: its terms and formulas, and which of them are well typed and within the limits
//!   (`specs/Ranges`, `specs/Typing`, `specs/Sizes`, `specs/Specifications`).
//! - `instance`: data for it, and which are valid (`specs/Worlds`, `specs/Places`, `specs/Data`).
//! - `specs/Schedules` lists all schedules, in the order that `specs/CellOrder` states;
//!   `specs/Domain` and `specs/Meaning` say what terms and formulas mean on one, and
//!   `specs/Answers` which schedules are the answer.
//! - `ending`: how a run ended; `specs/Texts` is the text of schedules and of a whole run.
//! - `specs/Reads`, `specs/Comparisons`, `specs/Addends`, `specs/Sums`: what a formula reads and
//!   compares, and its comparisons as sums. `specs/Related` compares two meanings.
//! - `laws`: what all these definitions keep (`specs/Facts`, `specs/MeaningEquations`,
//!   `specs/TypedValues`). `examples`: what they compute.
//! - `copies`, `list_copies`: equal copies of all of these.
#![tactic(auto)]

mod copies;
mod declarations;
mod ending;
mod examples;
mod instance;
mod laws;
mod list_copies;
mod schema;
mod spec;
mod tree;

pub use copies::copy_terms;
pub use declarations::{Decl, Family, ValueType};
pub use ending::Ending;
pub use examples::{
    data_examples, ending_examples, limit_examples, refused_examples, summed_examples,
    worked_examples,
};
pub use instance::Instance;
pub use laws::{
    formulas_mean, instances_keep, part_sums_fit, partial_sums_fit, places_law,
    ranges_keep_the_limit, schemas_keep, specs_keep, sums_decide, terms_mean, values_keep_kinds,
};
pub use list_copies::copy_families;
pub use schema::Schema;
pub use spec::Spec;
pub use tree::{Comparison, Formula, Term};
