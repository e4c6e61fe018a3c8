ghost use Rattle.std.specs.Prelude.{◌≡◌, IfOk};

use crate::declarations::Family;
use kts_base::{List, NoMemory};
use std::alloc::Global;

/// Lists equal to these.
pub fn copy_lists<T: Copy + Drop>(
    alloc: Global,
    lists: &[List<T>],
) -> Result<List<List<T>>, NoMemory>
    ensures { IfOk result (λ copies. copies ≡ lists.now) }
{
    let mut copies = List::with_capacity(alloc, lists.len())?;
    for list in lists {
        copies.push(List::from_slice(alloc, list.as_slice())?)?;
    }
    Ok(copies)
}

/// Families equal to these.
pub fn copy_families(alloc: Global, families: &[Family]) -> Result<List<Family>, NoMemory>
    ensures { IfOk result (λ copies. copies ≡ families.now) }
{
    let mut copies = List::with_capacity(alloc, families.len())?;
    for family in families {
        copies.push(copy_family(alloc, family)?)?;
    }
    Ok(copies)
}

fn copy_family(alloc: Global, family: &Family) -> Result<Family, NoMemory>
    ensures { IfOk result (λ copy. copy ≡ family.now) }
{
    let args = List::from_slice(alloc, family.args().as_slice())?;
    Ok(Family::new(family.name(), args, family.kind()))
}
