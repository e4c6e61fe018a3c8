ghost use Rattle.std.specs.Prelude.{◌≡◌, ◌⊎◌, ◌↔◌, ◌≤◌, ◌<◌, ℕ, List, length, Option, Some, None, IfOk, IsErrOf};
ghost use Rattle.kts_base.specs.Counts.{Rose, told_next};
ghost use Rattle.kts_base.specs.Stores.{Store};

use std::alloc::Global;

/// Why a load gave nothing.
#[derive(Clone, Copy, Debug, PartialEq, Eq)]
pub enum LoadFault {
    /// The file couldn't be read.
    Failed,
    /// It has more bytes than the limit.
    TooLong,
    /// Memory was refused.
    NoMemory,
}

/// Files by their paths.
pub trait Files {
    /// What they tell: of what is held, and of loads.
    ghost store: { Self → Store };

    /// The bytes held under the path, at most `limit` of them.
    fn load(&mut self, alloc: Global, path: &str, limit: usize) -> Result<Vec<u8>, LoadFault>
        ensures within { IfOk result (λ v. length v.items ≤ limit) }
        ensures bytes { IfOk result (λ v. (b : List ℕ) → (store self.old).held path.now ≡ Some (Some b) → v.items ≡ b) }
        ensures failed { IsErrOf result LoadFault.Failed → Rose (store self.old).faults (store self.new).faults ⊎ ((store self.old).held path.now ≡ Some None) }
        ensures later { (store self.old).faults ≤ (store self.new).faults }
        ensures calm { IsErrOf result LoadFault.Failed ⊎ ((store self.new).faults ≡ (store self.old).faults) }
        ensures absent { (store self.old).held path.now ≡ Some None → IsErrOf result LoadFault.Failed }
        ensures long { IsErrOf result LoadFault.TooLong → limit < (store self.new).taken }
        ensures told_long { (b : List ℕ) → (store self.old).held path.now ≡ Some (Some b) → IsErrOf result LoadFault.Failed ⊎ (IsErrOf result LoadFault.TooLong ↔ (limit < length b)) }
        ensures loads { (store self.new).loads ≡ told_next (store self.old).loads }
        ensures same { (store self.new).held ≡ (store self.old).held };
}
