ghost use Rattle.std.specs.Prelude.{◌≡◌, ◌<◌, true};
ghost use Rattle.kts_code.specs.Queues.{woken, queued};
ghost use Rattle.kts_code.specs.Setups.{setup_of};
ghost use Rattle.kts_index.specs.Pairs.{pairs};
ghost use Rattle.kts_machine.specs.KeptReaders.{AreReaders};
ghost use Rattle.kts_mean.specs.Bounds.{AreOffsets};
ghost use Rattle.kts_spec.specs.Data.{is_valid, task_count};
ghost use Rattle.kts_spec.specs.Places.{cell_count};
ghost use Rattle.kts_spec.specs.Worlds.{world_of};

use crate::offsets::Offsets;
use crate::queue::Queue;
use crate::up_to_two::UpToTwo;
use kts_base::List;
use kts_code::Code;
use kts_spec::Instance;

/// Wakes the tasks that read a cell.
#[inline(always)]
pub fn wake(
    queue: &mut Queue,
    readers: &List<List<u32>>,
    code: &Code,
    inst: &Instance,
    offsets: &Offsets,
    k: usize,
)
    requires readers { AreReaders code.now inst.now readers.now }
    requires valid { is_valid code.now.schema inst.now ≡ true }
    requires offsets { AreOffsets (world_of code.now.schema inst.now) offsets.now }
    requires within { k < cell_count (world_of code.now.schema inst.now) code.now.schema.choices }
    requires tasks { queue.old.count ≡ task_count (world_of code.now.schema inst.now) code.now.schema.tasks }
    ensures { queue.new ≡ record queue.old { waiting = woken (setup_of code.now inst.now) k queue.old.waiting } }
{
    if code.index().patterns().as_slice().is_empty() {
        return;
    }
    let lists = readers.as_slice();
    if k < lists.len() {
        queue.wake_all(lists[k].as_slice());
        return;
    }
    wake_tasks(queue, code, inst, offsets, k);
}

#[inline(never)]
fn wake_tasks(queue: &mut Queue, code: &Code, inst: &Instance, offsets: &Offsets, k: usize)
    requires valid { is_valid code.now.schema inst.now ≡ true }
    requires offsets { AreOffsets (world_of code.now.schema inst.now) offsets.now }
    requires within { k < cell_count (world_of code.now.schema inst.now) code.now.schema.choices }
    requires tasks { queue.old.count ≡ task_count (world_of code.now.schema inst.now) code.now.schema.tasks }
    ensures { queue.new ≡ record queue.old { waiting = woken (setup_of code.now inst.now) k queue.old.waiting } }
{
    let (x, tuple) = offsets.owner(code.schema(), inst, k);
    let choice = x as u32;
    match tuple {
        UpToTwo::Zero => wake_readers(queue, code, inst, choice, &[]),
        UpToTwo::One(member) => wake_readers(queue, code, inst, choice, &[member]),
        UpToTwo::Two(first, last) => wake_readers(queue, code, inst, choice, &[first, last]),
    }
}

fn wake_readers(queue: &mut Queue, code: &Code, inst: &Instance, choice: u32, tuple: &[usize])
    requires valid { is_valid code.now.schema inst.now ≡ true }
    requires tasks { queue.old.count ≡ task_count (world_of code.now.schema inst.now) code.now.schema.tasks }
    ensures { queue.new ≡ record queue.old { waiting = queued (pairs code.now.index code.now.schema inst.now choice tuple.now) queue.old.waiting } }
{
    queue.wake(code.index().tasks_of(code.schema(), inst, choice, tuple));
}
