//! Data and plans: the instance that a data file says, and the schedule that a plan file says, or the first thing that is wrong.
//!
//! A datum passes the files in this order. `json` reads bytes as a JSON value. `lookup` finds the value under a name, and the
//! elements of a list. `roster` has members with their positions; `members` reads those of an index, and `values` the values
//! of a given or a choice. `draft` is an instance as far as it is read. `keys` finds a key that nothing declares, and `counts`
//! counts cells and tasks. `data` and `plan` put them together. `fault` is what they are refused with. `law` says what is read apart from any order.
#![tactic(auto)]

mod counts;
mod data;
mod draft;
mod fault;
mod json;
mod keys;
mod law;
mod lookup;
mod members;
mod plan;
mod roster;
mod values;

pub use data::read_data;
pub use fault::{DataFault, Reason};
pub use law::{data_law, plan_law};
pub use plan::read_plan;
