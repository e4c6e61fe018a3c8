ghost use Rattle.std.specs.Prelude.{◌≡◌, ◌+◌, ◌<◌, ◌≤◌, ℕ, OnErr, OnOk, Some};
ghost use Rattle.kts_base.specs.Limits.{most_budget, most_instructions};
ghost use Rattle.kts_base.specs.Writes.{Wrote};
ghost use Rattle.kts_machine.specs.Steps.{acted, counted, text_of};

use crate::cells::{least_alone, least_dropped};
use crate::choices::Split;
use crate::machine::Machine;
use crate::raising::{copy_cells, copy_least, raise, split_cell};
use crate::waking::wake;
use kts_base::{Sink, SinkFault};
use kts_code::{Instr, Mode, TrapKind};
use kts_index::Task;
use kts_show::{put_node, put_schedule};

impl<const W: usize> Machine<W> {
    #[inline(never)]
    pub(super) fn start(&mut self, to: u32)
        requires { self.old.core.pc < most_instructions }
        ensures { self.new ≡ acted (Instr.Start to) self.old }
    {
        self.choices.clear();
        self.row.reset();
        self.queue.clear();
        self.path = 0;
        self.live = self.has_origin;
        if self.has_origin {
            self.queue.fill();
            self.pc += 1;
        } else {
            self.pc = to as usize;
        }
    }

    #[inline(never)]
    pub(super) fn take(&mut self, to: u32)
        requires { self.old.longest < most_budget }
        ensures done { self.new ≡ counted (Some (Instr.Take to)) self.old }
        ensures few { self.new.longest ≤ self.old.longest + 1 }
    {
        if !self.live {
            self.mode = Mode::Trapped(TrapKind::NoSpace);
            return;
        }
        match self.queue.pop() {
            None => self.pc = to as usize,
            Some(number) => {
                let schema = self.code.schema();
                let task = Task::at(schema, &self.inst, number);
                let definite = task.definite();
                let prefix = schema.tasks().as_slice()[definite].as_slice();
                self.registers.fill(prefix, task.tuple());
                self.stack.clear();
                self.path += 1;
                self.longest = self.longest.max(self.path);
                self.pc = self.code.entries().as_slice()[definite] as usize;
            }
        }
    }

    #[inline(never)]
    pub(super) fn pick(&mut self, to: u32)
        requires { self.old.core.pc < most_instructions }
        ensures { self.new ≡ acted (Instr.Pick to) self.old }
    {
        if !self.live {
            self.mode = Mode::Trapped(TrapKind::NoSpace);
            return;
        }
        match split_cell(&self.row) {
            None => self.pc = to as usize,
            Some(k) => {
                let cell = self.row.get(k);
                self.choices.push(Split {
                    cell: k,
                    path: self.path,
                });
                self.row.mark();
                raise(&mut self.row, k, &least_alone(&cell));
                wake(
                    &mut self.queue,
                    &self.readers,
                    &self.code,
                    &self.inst,
                    &self.offsets,
                    k,
                );
                self.pc += 1;
            }
        }
    }

    #[inline(never)]
    pub(super) fn back(&mut self, to: u32)
        requires { self.old.core.pc < most_instructions }
        ensures { self.new ≡ acted (Instr.Back to) self.old }
    {
        match self.choices.pop() {
            None => self.pc = to as usize,
            Some(split) => {
                self.row.back();
                let cell = self.row.get(split.cell);
                raise(&mut self.row, split.cell, &least_dropped(&cell));
                self.queue.clear();
                wake(
                    &mut self.queue,
                    &self.readers,
                    &self.code,
                    &self.inst,
                    &self.offsets,
                    split.cell,
                );
                self.path = split.path;
                self.live = true;
                self.pc += 1;
            }
        }
    }

    #[inline(always)]
    pub(super) fn node<S: Sink>(&mut self, traced: bool, out: &mut S) -> Result<(), SinkFault>
        requires { self.old.core.pc < most_instructions }
        ensures done { OnOk result (self.new ≡ acted Instr.Node self.old) }
        ensures wrote { (before : ℕ) → Wrote result (S.log out.old) (S.log out.new) (text_of before traced (Some Instr.Node) self.old) }
        ensures fault { OnErr result (self.new ≡ self.old) }
    {
        if !self.live {
            self.mode = Mode::Trapped(TrapKind::NoSpace);
            return Ok(());
        }
        if traced {
            copy_cells(&mut self.shown, &self.row);
            put_node(self.code.schema(), &self.inst, &self.shown, out)?;
        }
        self.pc += 1;
        Ok(())
    }

    #[inline(never)]
    pub(super) fn emit<S: Sink>(
        &mut self,
        before: u64,
        traced: bool,
        out: &mut S,
    ) -> Result<(), SinkFault>
        requires place { self.old.core.pc < most_instructions }
        requires before { before ≤ most_budget }
        requires counted { self.old.printed < most_budget }
        ensures done { OnOk result (self.new ≡ acted Instr.Emit self.old) }
        ensures wrote { Wrote result (S.log out.old) (S.log out.new) (text_of before traced (Some Instr.Emit) self.old) }
        ensures fault { OnErr result (self.new ≡ self.old) }
    {
        let _ = traced;
        if !self.live {
            self.mode = Mode::Trapped(TrapKind::NoSpace);
            return Ok(());
        }
        copy_least(&mut self.values, &self.row);
        put_schedule(
            self.code.schema(),
            &self.inst,
            before + self.printed + 1,
            &self.values,
            out,
        )?;
        self.printed += 1;
        self.pc += 1;
        Ok(())
    }
}
