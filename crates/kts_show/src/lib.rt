//! Every printed text of a run: schedules with their manifests, what is known at a node of the
//! search, and the last lines. No call takes memory.
//!
//! - `schedule`: a schedule with its number, choice by choice; `manifest`: which members have which
//!   value (`kts_spec/specs/Texts`, cell by cell in `specs/OwnTexts`).
//! - `node`: what is known of each cell; `known`: of one cell (`specs/NodeTexts`).
//! - `ending`: how a run ended, and the line of its longest path (`specs/PathTexts`).
//! - `key`: the tuples that a choice is over, and their names (`specs/Keys`). `names`: the names of
//!   members.
//! - `examples`: what the definitions of this crate compute.
#![tactic(auto)]

mod ending;
mod examples;
mod key;
mod known;
mod manifest;
mod names;
mod node;
mod schedule;

pub use ending::{put_end, put_path};
pub use examples::show_examples;
pub use manifest::put_manifests;
pub use node::put_node;
pub use schedule::put_schedule;
