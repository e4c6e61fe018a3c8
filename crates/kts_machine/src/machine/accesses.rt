ghost use Rattle.std.specs.Prelude.{◌≡◌, ◌<◌, length};
ghost use Rattle.kts_base.specs.Limits.{most_instructions};
ghost use Rattle.kts_machine.specs.Steps.{acted};

use crate::machine::Machine;
use crate::reads::{choice_args, given_args, read_choice, read_given};
use kts_code::{Instr, TrapKind};

impl<const W: usize> Machine<W> {
    #[inline(never)]
    pub(super) fn given(&mut self, f: u32)
        requires place { self.old.core.pc < most_instructions }
        requires declared { f < length self.old.setup.code.schema.givens }
        ensures { self.new ≡ acted (Instr.Given f) self.old }
    {
        let schema = self.code.schema();
        let indexes = given_args(schema, f as usize);
        let count = indexes.len();
        match self.stack.arguments(indexes) {
            Ok(sets) => {
                let x = read_given(schema, &self.inst, f as usize, &sets);
                self.push_operand(count, x);
            }
            Err(kind) => self.trap(kind),
        }
    }

    #[inline(never)]
    pub(super) fn choice(&mut self, x: u32)
        requires place { self.old.core.pc < most_instructions }
        requires declared { x < length self.old.setup.code.schema.choices }
        ensures { self.new ≡ acted (Instr.Choice x) self.old }
    {
        if !self.live {
            self.trap(TrapKind::NoSpace);
            return;
        }
        let schema = self.code.schema();
        let indexes = choice_args(schema, x as usize);
        let count = indexes.len();
        match self.stack.arguments(indexes) {
            Ok(sets) => {
                let x = read_choice(
                    schema,
                    &self.inst,
                    &self.offsets,
                    &self.row,
                    x as usize,
                    &sets,
                );
                self.push_operand(count, x);
            }
            Err(kind) => self.trap(kind),
        }
    }
}
