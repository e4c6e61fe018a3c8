ghost use Rattle.std.specs.Prelude.{◌≡◌};

mod accesses;
mod addends;
mod at_once;
mod flow;
mod heads;
mod loops;
mod members;
mod needs;
mod opening;
pub(crate) mod operands;
mod planned;
mod runs;
mod searching;
mod steps;
mod sums;

use crate::choices::Choices;
use crate::offsets::Offsets;
use crate::ops::Op;
use crate::plans::Plan;
use crate::queue::Queue;
use crate::registers::Registers;
use crate::stack::Stack;
use kts_abs::{Cell, Space};
use kts_base::List;
use kts_code::{Code, Mode};
use kts_rows::Row;
use kts_spec::Instance;
use std::marker::Model;

/// A machine with code and data. Only opening it takes memory.
#[derive(Drop)]
pub struct Machine<const W: usize> {
    code: Code,
    inst: Instance,
    offsets: Offsets,
    ops: Vec<Op>,
    /// The tasks that each cell wakes, and what each task does; both are kept where they aren't too many.
    readers: List<List<u32>>,
    plans: List<Option<Plan>>,
    /// The cells, which are those of the space where there is one. They were opened with the origin,
    /// where there is one; their marks are the spaces of the choices.
    row: Row<Cell<W>>,
    has_origin: bool,
    live: bool,
    choices: Choices,
    queue: Queue,
    stack: Stack<W>,
    registers: Registers,
    pc: usize,
    path: u64,
    mode: Mode,
    /// What `emit` and `node` write: a schedule, and a space.
    values: Vec<i64>,
    shown: Space<W>,
    printed: u64,
    steps: u64,
    longest: u64,
}

impl<const W: usize> Model for Machine<W> {
    ghost use Rattle.kts_machine.specs.MachineStates.{MachineState};

    ghost Value = { MachineState };

    ghost use Rattle.kts_machine.specs.View.{view_of, MachineInvariant};

    ghost view = { view_of };

    ghost invariant = { MachineInvariant };
}

impl<const W: usize> Machine<W> {
    /// The number of steps that the last run did, 0 before the first.
    pub fn steps(&self) -> u64
        ensures { result ≡ self.now.steps }
    {
        self.steps
    }

    /// The greatest path count in the last run, 0 before the first.
    pub fn longest(&self) -> u64
        ensures { result ≡ self.now.longest }
    {
        self.longest
    }
}
