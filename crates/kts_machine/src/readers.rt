ghost use Rattle.std.specs.Prelude.{◌≡◌, ◌<◌, true, IfOk};
ghost use Rattle.kts_code.specs.Queues.{readers};
ghost use Rattle.kts_code.specs.Setups.{setup_of};
ghost use Rattle.kts_index.specs.Pairs.{pairs};
ghost use Rattle.kts_machine.specs.KeptReaders.{AreReaders};
ghost use Rattle.kts_mean.specs.Bounds.{AreOffsets};
ghost use Rattle.kts_spec.specs.Data.{is_valid};
ghost use Rattle.kts_spec.specs.Places.{cell_count};
ghost use Rattle.kts_spec.specs.Worlds.{world_of};

use crate::offsets::Offsets;
use crate::up_to_two::UpToTwo;
use kts_base::{List, NoMemory};
use kts_code::Code;
use kts_spec::Instance;
use std::alloc::Global;

/// The most tasks of which a machine keeps what cells wake, and what they do.
pub const MAX_KEPT_TASKS: usize = 16_384;

/// The most tasks in the lists that a machine keeps.
const MAX_READERS: usize = 65_536;

/// The tasks that each cell wakes, of so many, up to the cell with which the lists get too long.
pub fn kept_readers(
    alloc: Global,
    code: &Code,
    inst: &Instance,
    offsets: &Offsets,
    cells: usize,
    tasks: usize,
) -> Result<List<List<u32>>, NoMemory>
    requires valid { is_valid code.now.schema inst.now ≡ true }
    requires offsets { AreOffsets (world_of code.now.schema inst.now) offsets.now }
    requires cells { cells ≡ cell_count (world_of code.now.schema inst.now) code.now.schema.choices }
    ensures { IfOk result (λ lists. AreReaders code.now inst.now lists) }
{
    let mut lists = List::new(alloc);
    if tasks > MAX_KEPT_TASKS {
        return Ok(lists);
    }
    let mut total = 0;
    for k in 0..cells {
        let list = readers_of(alloc, code, inst, offsets, k)?;
        total += list.len();
        if total > MAX_READERS {
            return Ok(lists);
        }
        lists.push(list)?;
    }
    Ok(lists)
}

/// The tasks that a cell wakes.
fn readers_of(
    alloc: Global,
    code: &Code,
    inst: &Instance,
    offsets: &Offsets,
    k: usize,
) -> Result<List<u32>, NoMemory>
    requires valid { is_valid code.now.schema inst.now ≡ true }
    requires offsets { AreOffsets (world_of code.now.schema inst.now) offsets.now }
    requires within { k < cell_count (world_of code.now.schema inst.now) code.now.schema.choices }
    ensures { IfOk result (λ list. list ≡ readers (setup_of code.now inst.now) k) }
{
    let (x, tuple) = offsets.owner(code.schema(), inst, k);
    let choice = x as u32;
    match tuple {
        UpToTwo::Zero => readers_at(alloc, code, inst, choice, &[]),
        UpToTwo::One(member) => readers_at(alloc, code, inst, choice, &[member]),
        UpToTwo::Two(first, last) => readers_at(alloc, code, inst, choice, &[first, last]),
    }
}

/// The tasks that the cell of a choice at these members wakes.
fn readers_at(
    alloc: Global,
    code: &Code,
    inst: &Instance,
    choice: u32,
    tuple: &[usize],
) -> Result<List<u32>, NoMemory>
    requires { is_valid code.now.schema inst.now ≡ true }
    ensures { IfOk result (λ list. list ≡ pairs code.now.index code.now.schema inst.now choice tuple.now) }
{
    let mut list = List::new(alloc);
    for task in code.index().tasks_of(code.schema(), inst, choice, tuple) {
        list.push(task)?;
    }
    Ok(list)
}
