ghost use Rattle.std.specs.Prelude.{◌≡◌, true, IfOk};
ghost use Rattle.kts_code.specs.WellFormed.{is_code};
ghost use Rattle.kts_index.specs.TaskBound.{bound};
ghost use Rattle.kts_spec.specs.Data.{is_valid};

use crate::instructions::Instr;
use kts_base::{List, NoMemory};
use kts_index::Index;
use kts_spec::{Instance, Schema};
use std::alloc::Global;

/// Code for the machine: the schema that it was made for, whose tasks are those of its constraints; where the body of each
/// constraint begins; which tasks a cell wakes; the places of its operand stack; and its instructions.
#[derive(Debug, Drop)]
pub struct Code {
    schema: Schema,
    entries: List<u32>,
    index: Index,
    stack: u32,
    instrs: List<Instr>,
    ghost is_code: { is_code schema entries index stack instrs ≡ true },
}

impl Code {
    pub fn new(
        schema: Schema,
        entries: List<u32>,
        index: Index,
        stack: u32,
        instrs: List<Instr>,
    ) -> Code
        requires { is_code schema entries index stack instrs ≡ true }
        ensures schema { result.schema ≡ schema }
        ensures entries { result.entries ≡ entries }
        ensures index { result.index ≡ index }
        ensures stack { result.stack ≡ stack }
        ensures instrs { result.instrs ≡ instrs }
    {
        Code {
            schema,
            entries,
            index,
            stack,
            instrs,
        }
    }

    pub fn schema(&self) -> &Schema
        ensures { result.now ≡ self.now.schema }
    {
        &self.schema
    }

    /// The place at which the body of each constraint begins.
    pub fn entries(&self) -> &List<u32>
        ensures { result.now ≡ self.now.entries }
    {
        &self.entries
    }

    /// The tasks that a cell wakes where it rises.
    pub fn index(&self) -> &Index
        ensures { result.now ≡ self.now.index }
    {
        &self.index
    }

    pub fn stack(&self) -> u32
        ensures { result ≡ self.now.stack }
    {
        self.stack
    }

    pub fn instrs(&self) -> &List<Instr>
        ensures { result.now ≡ self.now.instrs }
    {
        &self.instrs
    }

    /// The number of the tasks, and for each cell the number of those that it wakes, as often as it can rise.
    pub fn bound(&self, inst: &Instance) -> u64
        requires { is_valid self.now.schema inst.now ≡ true }
        ensures { result ≡ bound self.now.index self.now.schema inst.now }
    {
        self.index.bound(&self.schema, inst)
    }

    /// Equal code.
    pub fn copy(&self, alloc: Global) -> Result<Code, NoMemory>
        ensures { IfOk result (λ copy. copy ≡ self.now) }
    {
        let schema = self.schema.copy(alloc)?;
        let entries = List::from_slice(alloc, self.entries.as_slice())?;
        let index = self.index.copy(alloc)?;
        let instrs = List::from_slice(alloc, self.instrs.as_slice())?;
        Ok(Code {
            schema,
            entries,
            index,
            stack: self.stack,
            instrs,
        })
    }
}
