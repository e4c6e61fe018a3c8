ghost use Rattle.std.specs.Prelude.{◌≡◌, IfOk};

use crate::list_copies::copy_lists;
use kts_base::{List, Name, NoMemory};
use std::alloc::Global;

/// Data: the members of each index, and the values of each given, one for each tuple of arguments
/// in lexicographic order. A member is written as its position in its index.
#[derive(Debug, Drop)]
pub struct Instance {
    members: List<List<Name>>,
    values: List<List<i64>>,
}

impl Instance {
    pub fn new(members: List<List<Name>>, values: List<List<i64>>) -> Instance
        ensures members { result.members ≡ members }
        ensures values { result.values ≡ values }
    {
        Instance { members, values }
    }

    pub fn members(&self) -> &List<List<Name>>
        ensures { result.now ≡ self.now.members }
    {
        &self.members
    }

    pub fn values(&self) -> &List<List<i64>>
        ensures { result.now ≡ self.now.values }
    {
        &self.values
    }

    /// An equal instance.
    pub fn copy(&self, alloc: Global) -> Result<Instance, NoMemory>
        ensures { IfOk result (λ copy. copy ≡ self.now) }
    {
        let members = copy_lists(alloc, self.members.as_slice())?;
        let values = copy_lists(alloc, self.values.as_slice())?;
        Ok(Instance { members, values })
    }
}
