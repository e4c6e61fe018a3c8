ghost use Rattle.std.specs.Prelude.{map, flat_map, zip};
ghost use Rattle.kts_base.specs.Writes.{Wrote};
ghost use Rattle.kts_code.specs.CodeTexts.{task_words, wake_words, line_text};

use crate::numbers::{put_indexes, put_places};
use itoa::Buffer;
use kts_base::{List, Sink, SinkFault, put_pieces};
use kts_index::Pattern;

/// The line of a constraint: the place of its body, and the indexes of its variables.
fn put_task<S: Sink>(entry: u32, prefix: &[u32], out: &mut S) -> Result<(), SinkFault>
    ensures { Wrote result (S.log out.old) (S.log out.new) (line_text (task_words (entry, prefix.now))) }
{
    let mut buffer = Buffer::new();
    put_pieces(out, &[b"task ", buffer.format(entry).as_bytes()])?;
    put_indexes(prefix, out)?;
    out.put(b"\n")
}

/// The lines of the constraints.
pub fn put_tasks<S: Sink>(
    entries: &[u32],
    prefixes: &[List<u32>],
    out: &mut S,
) -> Result<(), SinkFault>
    ensures { Wrote result (S.log out.old) (S.log out.new) (flat_map line_text (map task_words (zip entries.now prefixes.now))) }
{
    for k in 0..entries.len().min(prefixes.len()) {
        put_task(entries[k], prefixes[k].as_slice(), out)?;
    }
    Ok(())
}

/// The line of a pattern.
fn put_wake<S: Sink>(pattern: &Pattern, out: &mut S) -> Result<(), SinkFault>
    ensures { Wrote result (S.log out.old) (S.log out.new) (line_text (wake_words pattern.now)) }
{
    let (mut constraint, mut choice) = (Buffer::new(), Buffer::new());
    put_pieces(
        out,
        &[
            b"wake ",
            constraint.format(pattern.definite()).as_bytes(),
            b" ",
            choice.format(pattern.choice()).as_bytes(),
        ],
    )?;
    put_places(pattern.args().as_slice(), out)?;
    out.put(b"\n")
}

/// The lines of the patterns.
pub fn put_wakes<S: Sink>(patterns: &[Pattern], out: &mut S) -> Result<(), SinkFault>
    ensures { Wrote result (S.log out.old) (S.log out.new) (flat_map line_text (map wake_words patterns.now)) }
{
    for pattern in patterns {
        put_wake(pattern, out)?;
    }
    Ok(())
}
