//! Generates the code of the search for the schedules of a specification.
//!
//! `generator` counts the instructions of the filters and of the bodies of tasks, from which the labels follow, and emits the
//! loop of the search with its filters, and the bodies behind it. `law` says what running this code prints, and which
//! specifications have code. `propagation` says it of any code that has the parts of a search with tasks.
#![tactic(auto)]

mod generator;
mod law;
mod propagation;

pub use generator::{GenFault, generate};
pub use law::{search_is_as_worked, whole_code_is_there, whole_code_searches, whole_text_is_right};
pub use propagation::{search_in_any_order, specifications_search};
