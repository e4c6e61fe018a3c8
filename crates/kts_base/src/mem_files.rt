ghost use Rattle.std.specs.Prelude.{◌≡◌, ◌⊎◌, ◌↔◌, ◌≤◌, ◌<◌, ℕ, List, length, Option, Some, None, IfOk, IsErrOf, Contains};
ghost use Rattle.std.specs.Option.{option_copied};
ghost use Rattle.kts_base.specs.Counts.{Rose, told_next};
ghost use Rattle.kts_base.specs.Memory.{Shelf, held_in, store_of, FailsToLoad, after_fault, after_load};

use crate::files::{Files, LoadFault};
use crate::list::List;
use crate::name::Name;
use std::alloc::Global;
use std::marker::Model;

/// Files in memory. The loads whose numbers are listed fail, counted from 0.
///
/// It tells all that it holds.
#[derive(Drop)]
pub struct MemFiles {
    entries: List<(Name, List<u8>)>,
    failing: List<u64>,
    loads: u64,
    faults: u64,
    taken: u64,
}

impl Model for MemFiles {
    ghost use Rattle.kts_base.specs.Memory.{Shelf};

    ghost Value = { Shelf };

    ghost view = { λ files. record { entries = files.entries; failing = files.failing; loads = files.loads; faults = files.faults; taken = files.taken } };
}

impl MemFiles {
    /// Files of which no load has been made. Of two entries with one name the first counts.
    pub fn new(entries: List<(Name, List<u8>)>, failing: List<u64>) -> MemFiles
        ensures { result ≡ record { entries = entries; failing = failing; loads = 0; faults = 0; taken = 0 } }
    {
        MemFiles {
            entries,
            failing,
            loads: 0,
            faults: 0,
            taken: 0,
        }
    }
}

fn find<'a>(entries: &'a [(Name, List<u8>)], path: &[u8]) -> Option<&'a [u8]>
    ensures { option_copied result ≡ held_in entries.now path.now }
{
    for entry in entries {
        if entry.0.bytes() == path {
            return Some(entry.1.as_slice());
        }
    }
    None
}

impl Files for MemFiles {
    ghost store = { store_of };

    fn load(&mut self, alloc: Global, path: &str, limit: usize) -> Result<Vec<u8>, LoadFault>
        ensures within { IfOk result (λ v. length v.items ≤ limit) }
        ensures bytes { IfOk result (λ v. (b : List ℕ) → (store_of self.old).held path.now ≡ Some (Some b) → v.items ≡ b) }
        ensures failed { IsErrOf result LoadFault.Failed → Rose self.old.faults self.new.faults ⊎ ((store_of self.old).held path.now ≡ Some None) }
        ensures later { self.old.faults ≤ self.new.faults }
        ensures calm { IsErrOf result LoadFault.Failed ⊎ (self.new.faults ≡ self.old.faults) }
        ensures absent { (store_of self.old).held path.now ≡ Some None → IsErrOf result LoadFault.Failed }
        ensures long { IsErrOf result LoadFault.TooLong → limit < self.new.taken }
        ensures told_long { (b : List ℕ) → (store_of self.old).held path.now ≡ Some (Some b) → IsErrOf result LoadFault.Failed ⊎ (IsErrOf result LoadFault.TooLong ↔ (limit < length b)) }
        ensures loads { (store_of self.new).loads ≡ told_next (store_of self.old).loads }
        ensures same { (store_of self.new).held ≡ (store_of self.old).held }

        // Exactly a load that is listed, or of a path under which nothing is held, fails.
        ensures fails { IsErrOf result LoadFault.Failed ↔ FailsToLoad self.old path.now }
        ensures listed { Contains self.old.failing self.old.loads → self.new ≡ after_fault self.old }
        ensures unlisted { (Contains self.old.failing self.old.loads → ⊥) → self.new ≡ after_load self.old path.now }
    {
        let number = self.loads;
        self.loads = number.saturating_add(1);
        self.taken = 0;
        if self.failing.as_slice().contains(&number) {
            self.faults = self.faults.saturating_add(1);
            return Err(LoadFault::Failed);
        }
        match find(self.entries.as_slice(), path.as_bytes()) {
            None => Err(LoadFault::Failed),
            Some(bytes) => {
                self.taken = bytes.len() as u64;
                if bytes.len() > limit {
                    return Err(LoadFault::TooLong);
                }
                match Vec::from_slice(alloc, bytes) {
                    Ok(copy) => Ok(copy),
                    Err(_) => Err(LoadFault::NoMemory),
                }
            }
        }
    }
}
