ghost use Rattle.std.specs.Prelude.{◌≡◌, ◌+◌, ◌<◌, if◌then◌else◌};
ghost use Rattle.kts_base.specs.Limits.{most_instructions};
ghost use Rattle.kts_code.specs.Operands.{trap};
ghost use Rattle.kts_machine.specs.Steps.{acted, with_core};

use crate::machine::Machine;
use kts_abs::Tri;
use kts_code::{Instr, Mode, TrapKind};

impl<const W: usize> Machine<W> {
    #[inline(always)]
    pub(super) fn trap(&mut self, kind: TrapKind)
        ensures { self.new ≡ with_core self.old (trap kind self.old.core) }
    {
        self.mode = Mode::Trapped(kind);
    }

    #[inline(always)]
    pub(super) fn halt(&mut self)
        ensures { self.new ≡ acted Instr.Halt self.old }
    {
        self.mode = Mode::Halted;
    }

    #[inline(always)]
    pub(super) fn jump(&mut self, to: u32)
        ensures { self.new ≡ acted (Instr.Jump to) self.old }
    {
        self.pc = to as usize;
    }

    #[inline(always)]
    pub(super) fn test(&mut self, to: u32)
        requires { self.old.core.pc < most_instructions }
        ensures { self.new ≡ acted (Instr.Test to) self.old }
    {
        match self.stack.one_truth() {
            Ok(truth) => {
                self.stack.drop_top(1);
                self.branch(truth == Tri::F, to);
            }
            Err(kind) => self.trap(kind),
        }
    }

    #[inline(always)]
    pub(super) fn need(&mut self, to: u32)
        requires { self.old.core.pc < most_instructions }
        ensures { self.new ≡ acted (Instr.Need to) self.old }
    {
        match self.stack.one_truth() {
            Ok(truth) => {
                self.stack.drop_top(1);
                self.branch(truth != Tri::F, to);
            }
            Err(kind) => self.trap(kind),
        }
    }

    /// To the label where the test holds, else to the next place.
    #[inline(always)]
    fn branch(&mut self, leaves: bool, to: u32)
        requires { self.old.core.pc < most_instructions }
        ensures { self.new ≡ with_core self.old (record self.old.core { pc = if leaves then to else self.old.core.pc + 1 }) }
    {
        if leaves {
            self.pc = to as usize;
        } else {
            self.pc += 1;
        }
    }
}
