ghost use Rattle.std.specs.Prelude.{◌≡◌, ◌⊎◌, ◌≤◌, ◌+◌, ◌++◌, [], length, take, IsOk, OnOk, OnErr};
ghost use Rattle.std.specs.Bool.{OnTrue, OnFalse};
ghost use Rattle.std.specs.Io.KnownBytes.{Appends};
ghost use Rattle.kts_base.specs.Bytes.{untold};
ghost use Rattle.kts_base.specs.Counts.{Rose};
ghost use Rattle.kts_base.specs.Writes.{Wrote};
ghost use Rattle.kts.specs.Output.{WritesFront, Sent, EndsLine};
ghost use Rattle.kts.specs.declared.std_sink.TheConstants.{HELD_BYTES};

use kts_base::{Sink, SinkFault};
use std::io::Write;

/// How many bytes are held back at most.
const HELD_BYTES: usize = 4_096;

/// Standard output. It tells nothing of what was written.
///
/// Bytes are held back until a line ends, so that a line costs one write.
#[derive(Drop)]
pub struct StdSink<W: Write + Drop> {
    writer: W,
    held: [u8; HELD_BYTES],
    count: usize,
    faults: u64,
    ghost within: { count ≤ HELD_BYTES },
}

impl<W: Write + Drop> StdSink<W> {
    pub fn new(writer: W) -> StdSink<W>
        ensures calm { result.faults ≡ 0 }
        ensures writer { result.writer ≡ writer }
        ensures empty { result.count ≡ 0 }
    {
        StdSink {
            writer,
            held: [0; HELD_BYTES],
            count: 0,
            faults: 0,
        }
    }

    // Writes what is held back. Nothing is held back then, whether or not it could be written.
    fn release(&mut self) -> Result<(), SinkFault>
        ensures calm { OnOk result (self.new.faults ≡ self.old.faults) }
        ensures rose { OnErr result (Rose self.old.faults self.new.faults) }
        ensures empty { self.new.count ≡ 0 }
        ensures sent { Sent result (W.contents self.old.writer) (take self.old.count self.old.held) (W.contents self.new.writer) (take self.new.count self.new.held) [] }
    {
        let count = self.count;
        self.count = 0;
        if write_whole(&mut self.writer, &self.held[..count]) {
            return Ok(());
        }
        self.faults = self.faults.saturating_add(1);
        Err(SinkFault)
    }

    // Writes what is held back where so many bytes more have no room beside it.
    fn make_room(&mut self, count: usize) -> Result<(), SinkFault>
        ensures calm { OnOk result (self.new.faults ≡ self.old.faults) }
        ensures rose { OnErr result (Rose self.old.faults self.new.faults) }
        ensures room { OnOk result ((self.new.count + count ≤ HELD_BYTES) ⊎ (self.new.count ≡ 0)) }
        ensures none { count ≡ 0 → IsOk result }
        ensures sent { Sent result (W.contents self.old.writer) (take self.old.count self.old.held) (W.contents self.new.writer) (take self.new.count self.new.held) [] }
    {
        if count > HELD_BYTES - self.count {
            return self.release();
        }
        Ok(())
    }

    // Writes a piece that is too long to be held back.
    fn pass(&mut self, piece: &[u8]) -> Result<(), SinkFault>
        requires { self.old.count ≡ 0 }
        ensures calm { OnOk result (self.new.faults ≡ self.old.faults) }
        ensures rose { OnErr result (Rose self.old.faults self.new.faults) }
        ensures empty { self.new.count ≡ 0 }
        ensures sent { Sent result (W.contents self.old.writer) (take self.old.count self.old.held) (W.contents self.new.writer) (take self.new.count self.new.held) piece.now }
    {
        if write_whole(&mut self.writer, piece) {
            return Ok(());
        }
        self.faults = self.faults.saturating_add(1);
        Err(SinkFault)
    }

    // Holds the piece back.
    fn hold(&mut self, piece: &[u8])
        requires { self.old.count + length piece.now ≤ HELD_BYTES }
        ensures calm { self.new.faults ≡ self.old.faults }
        ensures writer { self.new.writer ≡ self.old.writer }
        ensures held { take self.new.count self.new.held ≡ take self.old.count self.old.held ++ piece.now }
    {
        let end = self.count + piece.len();
        self.held[self.count..end].copy_from_slice(piece);
        self.count = end;
    }

    // Writes what is held back where the piece that was held back last ends a line.
    fn end_line(&mut self, piece: &[u8]) -> Result<(), SinkFault>
        ensures calm { OnOk result (self.new.faults ≡ self.old.faults) }
        ensures rose { OnErr result (Rose self.old.faults self.new.faults) }
        ensures line { EndsLine piece.now → self.new.count ≡ 0 }
        ensures none { piece.now ≡ [] → IsOk result }
        ensures sent { Sent result (W.contents self.old.writer) (take self.old.count self.old.held) (W.contents self.new.writer) (take self.new.count self.new.held) [] }
    {
        if piece.last() == Some(&b'\n') {
            return self.release();
        }
        Ok(())
    }
}

// Writes until all is written, or a write fails or takes nothing; whether all was written.
fn write_whole<W: Write>(writer: &mut W, bytes: &[u8]) -> bool
    ensures whole { OnTrue result (Appends (W.contents writer.old) (W.contents writer.new) bytes.now) }
    ensures cut { OnFalse result (WritesFront (W.contents writer.old) (W.contents writer.new) bytes.now) }
{
    let mut at = 0;
    while at < bytes.len() {
        match writer.write(&bytes[at..]) {
            Ok(count) if count > 0 => at += count,
            _ => return false,
        }
    }
    true
}

impl<W: Write + Drop> Sink for StdSink<W> {
    ghost log = { λ sink. record { written = untold; faults = sink.faults } };

    fn put(&mut self, piece: &[u8]) -> Result<(), SinkFault>
        ensures wrote { Wrote result (record { written = untold; faults = self.old.faults }) (record { written = untold; faults = self.new.faults }) piece.now }
        ensures empty { piece.now ≡ [] → IsOk result }

        // Where the writer tells what it holds; and at the end of a line nothing is held back.
        ensures sent { Sent result (W.contents self.old.writer) (take self.old.count self.old.held) (W.contents self.new.writer) (take self.new.count self.new.held) piece.now }
        ensures line { OnOk result (EndsLine piece.now → self.new.count ≡ 0) }
    {
        self.make_room(piece.len())?;
        if piece.len() > HELD_BYTES {
            return self.pass(piece);
        }
        self.hold(piece);
        self.end_line(piece)
    }
}
