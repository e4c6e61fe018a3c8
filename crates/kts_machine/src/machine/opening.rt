ghost use Rattle.std.specs.Prelude.{◌≡◌, ◌≤◌, Some, true, length, IfOk};
ghost use Rattle.kts_abs.specs.Cells.{space_of};
ghost use Rattle.kts_abs.specs.Spaces.{types, IsAbove};
ghost use Rattle.kts_code.specs.Setups.{setup_of, world_in};
ghost use Rattle.kts_machine.specs.MachineStates.{opened};
ghost use Rattle.kts_machine.specs.View.{space_if, HasKindsIf};
ghost use Rattle.kts_spec.specs.Data.{is_valid};
ghost use Rattle.kts_spec.specs.Places.{cell_count};
ghost use Rattle.kts_spec.specs.Worlds.{world_of};

use crate::choices::Choices;
use crate::machine::Machine;
use crate::offsets::Offsets;
use crate::ops::decoded;
use crate::plans::kept_plans;
use crate::queue::Queue;
use crate::readers::kept_readers;
use crate::registers::Registers;
use crate::stack::Stack;
use crate::types::opening_of;
use kts_abs::{Cell, Space};
use kts_base::{List, NoMemory};
use kts_code::{Code, Mode};
use kts_index::task_count;
use kts_rows::Row;
use kts_spec::Instance;
use std::alloc::Global;

impl<const W: usize> Machine<W> {
    /// A machine for this code and these data, whose runs begin with the space of all schedules. What
    /// comes after has no answer for want of memory.
    pub fn open(alloc: Global, code: &Code, inst: &Instance) -> Result<Machine<W>, NoMemory>
        requires one_word { 1 ≤ W }
        requires few_words { W ≤ 1024 }
        requires valid { is_valid code.now.schema inst.now ≡ true }
        ensures { IfOk result (λ m. m ≡ opened (setup_of code.now inst.now)) }
    {
        let opening = opening_of(alloc, code.schema(), inst)?;
        Machine::with_cells(alloc, code, inst, opening.cells, opening.is_whole)
    }

    /// The same whose runs begin with this space.
    pub fn open_in(
        alloc: Global,
        code: &Code,
        inst: &Instance,
        origin: &Space<W>,
    ) -> Result<Machine<W>, NoMemory>
        requires one_word { 1 ≤ W }
        requires few_words { W ≤ 1024 }
        requires valid { is_valid code.now.schema inst.now ≡ true }
        requires origin { IsAbove (types (world_of code.now.schema inst.now)) (space_of origin.now) }
        ensures { IfOk result (λ m. m ≡ opened (record (setup_of code.now inst.now) { origin = Some (space_of origin.now) })) }
    {
        let cells = List::from_slice(alloc, origin.cells().as_slice())?;
        Machine::with_cells(alloc, code, inst, cells, true)
    }

    #[inline(never)]
    fn with_cells(
        alloc: Global,
        code: &Code,
        inst: &Instance,
        cells: List<Cell<W>>,
        has_origin: bool,
    ) -> Result<Machine<W>, NoMemory>
        requires one_word { 1 ≤ W }
        requires few_words { W ≤ 1024 }
        requires valid { is_valid code.now.schema inst.now ≡ true }
        requires cells { length cells ≡ cell_count (world_of code.now.schema inst.now) code.now.schema.choices }
        requires origin { HasKindsIf (world_of code.now.schema inst.now) (space_if has_origin cells) }
        ensures { IfOk result (λ m. m ≡ opened (record (setup_of code.now inst.now) { origin = space_if has_origin cells.entry })) }
    {
        let count = cells.len();
        let offsets = Offsets::of(code.schema(), inst);
        let ops = decoded(alloc, code, inst, &offsets, count)?;
        let tasks = task_count(code.schema(), inst);
        let readers = kept_readers(alloc, code, inst, &offsets, count, tasks)?;
        let plans = kept_plans(alloc, code, inst, &offsets, tasks)?;
        let queue = Queue::open(alloc, tasks)?;
        let stack = Stack::new(alloc, code.stack() as usize)?;
        let choices = Choices::open(alloc, count)?;
        let values = zeros(alloc, count)?;
        let shown = Space::new(List::from_slice(alloc, cells.as_slice())?);
        let row = Row::open(alloc, cells, count)?;
        Ok(Machine {
            offsets,
            ops,
            readers,
            plans,
            code: code.copy(alloc)?,
            inst: inst.copy(alloc)?,
            row,
            has_origin,
            live: false,
            choices,
            queue,
            stack,
            registers: Registers::new(),
            pc: 0,
            path: 0,
            mode: Mode::Going,
            values,
            shown,
            printed: 0,
            steps: 0,
            longest: 0,
        })
    }

    /// From now on as a machine that `open_in` made with this space. It takes no memory.
    #[inline(never)]
    pub fn set_origin(&mut self, origin: &Space<W>)
        requires { IsAbove (types (world_in self.old.setup)) (space_of origin.now) }
        ensures { self.new ≡ opened (record self.old.setup { origin = Some (space_of origin.now) }) }
    {
        self.reset();
        self.row.reopen(origin.cells().as_slice());
        self.has_origin = true;
    }

    /// Forgets the last run.
    #[inline(never)]
    pub(super) fn reset(&mut self)
        ensures { self.new ≡ opened self.old.setup }
    {
        self.row.reset();
        self.choices.clear();
        self.queue.clear();
        self.stack.clear();
        self.registers.clear();
        self.live = false;
        self.pc = 0;
        self.path = 0;
        self.mode = Mode::Going;
        self.printed = 0;
        self.steps = 0;
        self.longest = 0;
    }
}

fn zeros(alloc: Global, count: usize) -> Result<Vec<i64>, NoMemory>
    ensures { IfOk result (λ values. length values.items ≡ count) }
{
    let mut values = Vec::new(alloc);
    for _ in 0..count {
        match values.push(0) {
            Ok(()) => {}
            Err(_) => return Err(NoMemory),
        }
    }
    Ok(values)
}
