ghost use Rattle.std.specs.Prelude.{◌++◌, decimal};
ghost use Rattle.kts_base.specs.Writes.{Wrote};
ghost use Rattle.kts_spec.specs.Texts.{newline, ending_text};
ghost use Rattle.kts_show.specs.PathTexts.{path_text};

use itoa::Buffer;
use kts_base::{Sink, SinkFault, put_pieces};
use kts_spec::Ending;

// Puts a word, a number and the end of the line.
pub fn put_numbered<S: Sink>(word: &[u8], number: u64, out: &mut S) -> Result<(), SinkFault>
    ensures { Wrote result (S.log out.old) (S.log out.new) (word.now ++ (decimal number ++ newline)) }
{
    let mut buffer = Buffer::new();
    put_pieces(out, &[word, buffer.format(number).as_bytes(), b"\n"])
}

/// Puts the last line of a run.
pub fn put_end<S: Sink>(ending: Ending, out: &mut S) -> Result<(), SinkFault>
    ensures { Wrote result (S.log out.old) (S.log out.new) (ending_text ending) }
{
    match ending {
        Ending::End(0) => out.put(b"none\n"),
        Ending::End(n) => put_numbered(b"end ", n, out),
        Ending::First(n) => put_numbered(b"first ", n, out),
        Ending::Budget(n) => put_numbered(b"budget ", n, out),
    }
}

/// Puts the longest path of a run and its bound.
pub fn put_path<S: Sink>(path: u64, bound: u64, out: &mut S) -> Result<(), SinkFault>
    ensures { Wrote result (S.log out.old) (S.log out.new) (path_text path bound) }
{
    let (mut steps, mut most) = (Buffer::new(), Buffer::new());
    put_pieces(
        out,
        &[
            b"path ",
            steps.format(path).as_bytes(),
            b" bound ",
            most.format(bound).as_bytes(),
            b"\n",
        ],
    )
}
