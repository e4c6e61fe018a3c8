ghost use Rattle.std.specs.Prelude.{◌∷◌, ◌++◌, [], length, map, flat_map, zip};
ghost use Rattle.kts_base.specs.Writes.{Wrote};
ghost use Rattle.kts_code.specs.CodeTexts.{stack_words, size_words, task_words, wake_words, instr_words, end_words, line_text, code_text};

use crate::constraints::{put_tasks, put_wakes};
use crate::declarations::put_schema;
use crate::instructions::put_instrs;
use itoa::Buffer;
use kts_base::{Sink, SinkFault, put_pieces};
use kts_code::Code;

/// The lines of the constraints and of the patterns.
fn put_constraints<S: Sink>(code: &Code, out: &mut S) -> Result<(), SinkFault>
    ensures { Wrote result (S.log out.old) (S.log out.new)
        (flat_map line_text (map task_words (zip code.now.entries code.now.schema.tasks)) ++ flat_map line_text (map wake_words code.now.index)) }
{
    put_tasks(
        code.entries().as_slice(),
        code.schema().tasks().as_slice(),
        out,
    )?;
    put_wakes(code.index().patterns().as_slice(), out)
}

/// The lines of the two sizes.
fn put_sizes<S: Sink>(stack: u32, size: usize, out: &mut S) -> Result<(), SinkFault>
    ensures { Wrote result (S.log out.old) (S.log out.new) (flat_map line_text (stack_words stack ∷ size_words size ∷ [])) }
{
    let (mut first, mut second) = (Buffer::new(), Buffer::new());
    put_pieces(
        out,
        &[
            b"stack ",
            first.format(stack).as_bytes(),
            b"\ncode ",
            second.format(size).as_bytes(),
            b"\n",
        ],
    )
}

/// The lines of the sizes and of the instructions, and the last line.
fn put_body<S: Sink>(code: &Code, out: &mut S) -> Result<(), SinkFault>
    ensures { Wrote result (S.log out.old) (S.log out.new)
        (flat_map line_text (stack_words code.now.stack ∷ size_words (length code.now.instrs) ∷ (map instr_words code.now.instrs ++ end_words ∷ []))) }
{
    put_sizes(code.stack(), code.instrs().len(), out)?;
    put_instrs(code.instrs().as_slice(), out)?;
    out.put(b"end\n")
}

/// Writes the text of code. Takes no memory.
pub fn write_code<S: Sink>(code: &Code, out: &mut S) -> Result<(), SinkFault>
    ensures { Wrote result (S.log out.old) (S.log out.new) (code_text code.now) }
{
    put_schema(code.schema(), out)?;
    put_constraints(code, out)?;
    put_body(code, out)
}
