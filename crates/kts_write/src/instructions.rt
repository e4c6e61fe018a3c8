ghost use Rattle.std.specs.Prelude.{map, flat_map};
ghost use Rattle.std.specs.Fmt.{signed_decimal};
ghost use Rattle.kts_base.specs.Writes.{Wrote};
ghost use Rattle.kts_code.specs.CodeTexts.{values_of, instr_words, line_text};
ghost use Rattle.kts_write.specs.Spaced.{spaced};

use crate::numbers::put_values;
use crate::table::{kinds_of, values_of, word_of};
use kts_base::{Sink, SinkFault};
use kts_code::Instr;

/// The operands of an instruction, each after a space.
fn put_operands<S: Sink>(instr: &Instr, out: &mut S) -> Result<(), SinkFault>
    ensures { Wrote result (S.log out.old) (S.log out.new) (spaced (map signed_decimal (values_of instr.now))) }
{
    let values = values_of(instr);
    put_values(&values[..kinds_of(instr).len()], out)
}

/// The line of an instruction.
fn put_instr<S: Sink>(instr: &Instr, out: &mut S) -> Result<(), SinkFault>
    ensures { Wrote result (S.log out.old) (S.log out.new) (line_text (instr_words instr.now)) }
{
    out.put(word_of(instr))?;
    put_operands(instr, out)?;
    out.put(b"\n")
}

/// The lines of instructions.
pub fn put_instrs<S: Sink>(instrs: &[Instr], out: &mut S) -> Result<(), SinkFault>
    ensures { Wrote result (S.log out.old) (S.log out.new) (flat_map line_text (map instr_words instrs.now)) }
{
    for instr in instrs {
        put_instr(instr, out)?;
    }
    Ok(())
}
