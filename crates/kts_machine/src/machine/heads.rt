ghost use Rattle.std.specs.Prelude.{◌≡◌, ◌<◌, List, length, Some};
ghost use Rattle.kts_abs.specs.Cells.{value_of};
ghost use Rattle.kts_abs.specs.Demands.{Suits};
ghost use Rattle.kts_abs.specs.Values.{Abs};
ghost use Rattle.kts_base.specs.Limits.{most_instructions};
ghost use Rattle.kts_code.specs.HeadSteps.{on_head, on_demand};
ghost use Rattle.kts_code.specs.Operands.{with_space};
ghost use Rattle.kts_machine.specs.Steps.{acted, with_core};
ghost use Rattle.kts_machine.specs.Targets.{IsTarget};

use crate::demands::{meets, raised};
use crate::machine::Machine;
use crate::raising::raise;
use crate::targets::{Target, top_target};
use crate::waking::wake;
use kts_abs::Op;
use kts_code::{Instr, TrapKind};

impl<const W: usize> Machine<W> {
    pub(super) fn at_least(&mut self, x: u32, to: u32)
        requires place { self.old.core.pc < most_instructions }
        requires declared { x < length self.old.setup.code.schema.choices }
        ensures { self.new ≡ acted (Instr.AtLeast x to) self.old }
    {
        self.head(Op::AtLeast, x, to);
    }

    pub(super) fn at_most(&mut self, x: u32, to: u32)
        requires place { self.old.core.pc < most_instructions }
        requires declared { x < length self.old.setup.code.schema.choices }
        ensures { self.new ≡ acted (Instr.AtMost x to) self.old }
    {
        self.head(Op::AtMost, x, to);
    }

    pub(super) fn within(&mut self, x: u32, to: u32)
        requires place { self.old.core.pc < most_instructions }
        requires declared { x < length self.old.setup.code.schema.choices }
        ensures { self.new ≡ acted (Instr.Within x to) self.old }
    {
        self.head(Op::Within, x, to);
    }

    pub(super) fn without(&mut self, x: u32, to: u32)
        requires place { self.old.core.pc < most_instructions }
        requires declared { x < length self.old.setup.code.schema.choices }
        ensures { self.new ≡ acted (Instr.Without x to) self.old }
    {
        self.head(Op::Without, x, to);
    }

    #[inline(never)]
    fn head(&mut self, op: Op, x: u32, to: u32)
        requires place { self.old.core.pc < most_instructions }
        requires declared { x < length self.old.setup.code.schema.choices }
        ensures { self.new ≡ with_core self.old (with_space self.old.core.space self.old.core (on_head self.old.setup self.old.core op x to)) }
    {
        if !self.live {
            self.trap(TrapKind::NoSpace);
            return;
        }
        match top_target(&self.code, &self.inst, &self.offsets, &self.stack, op, x) {
            Ok(target) => {
                self.stack.drop_top(target.operands);
                self.demand(op, &target, to);
            }
            Err(kind) => self.trap(kind),
        }
    }

    /// Demands that a cell of the space meets a bound.
    #[inline(always)]
    pub(super) fn demand(&mut self, op: Op, target: &Target<W>, to: u32)
        requires place { self.old.core.pc < most_instructions }
        requires bound { Suits op (value_of target.now.bound) }
        requires cell { IsTarget op self.old.core.space target.now.cell }
        ensures { (space : List Abs) → self.old.core.space ≡ Some space
            → self.new ≡ with_core self.old (on_demand self.old.setup self.old.core space to self.old.core.stack (op, value_of target.now.bound) target.now.cell) }
    {
        let cell = self.row.get(target.cell);
        if meets(op, &target.bound, &cell) {
            self.pc += 1;
            return;
        }
        match raised(op, &target.bound, &cell) {
            Some(part) => {
                raise(&mut self.row, target.cell, &part);
                wake(
                    &mut self.queue,
                    &self.readers,
                    &self.code,
                    &self.inst,
                    &self.offsets,
                    target.cell,
                );
                self.pc += 1;
            }
            None => self.pc = to as usize,
        }
    }
}
