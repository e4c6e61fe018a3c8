ghost use Rattle.std.specs.Prelude.{◌≡◌, []};

use kts_base::List;
use std::alloc::Global;

/// The indexes of the variables that a tree binds, and how many variables are bound on the way from the body of a formula to
/// its parts through `forall` and `and` alone; none off that way.
#[derive(Debug, Drop)]
pub struct Binding {
    pub indexes: List<u32>,
    pub way: Option<usize>,
}

impl Binding {
    pub fn new(alloc: Global, way: Option<usize>) -> Binding
        ensures { result ≡ record { indexes = []; way = way } }
    {
        Binding {
            indexes: List::new(alloc),
            way,
        }
    }
}
