ghost use Rattle.std.specs.Prelude.{◌≡◌, ◌<◌, length};
ghost use Rattle.kts_base.specs.Limits.{most_instructions, most_variables};
ghost use Rattle.kts_machine.specs.Steps.{acted};

use crate::machine::Machine;
use crate::offsets::size_or_none;
use kts_code::{Instr, TrapKind};

impl<const W: usize> Machine<W> {
    #[inline(always)]
    pub(super) fn first(&mut self, r: u8, index: u32, to: u32)
        requires place { self.old.core.pc < most_instructions }
        requires register { r < most_variables }
        ensures { self.new ≡ acted (Instr.First r index to) self.old }
    {
        if size_or_none(&self.inst, index) == 0 {
            self.pc = to as usize;
        } else {
            self.registers.set(r as usize, index, 0);
            self.pc += 1;
        }
    }

    #[inline(always)]
    pub(super) fn next(&mut self, r: u8, to: u32)
        requires place { self.old.core.pc < most_instructions }
        requires register { r < most_variables }
        ensures { self.new ≡ acted (Instr.Next r to) self.old }
    {
        match self.registers.get(r as usize) {
            Some((index, member)) => {
                if member + 1 < size_or_none(&self.inst, index) {
                    self.registers.set(r as usize, index, member + 1);
                    self.pc = to as usize;
                } else {
                    self.registers.unset(r as usize);
                    self.pc += 1;
                }
            }
            None => self.trap(TrapKind::Register),
        }
    }
}
