ghost use Rattle.std.specs.Prelude.{◌≡◌, ◌≤◌, [], length, IsOk};
ghost use Rattle.kts_base.specs.Bytes.{untold};
ghost use Rattle.kts_base.specs.Writes.{Wrote};

use kts_base::{MemSink, Sink, SinkFault};

/// A sink in memory of which one put more may fail: the first that goes past a place, once it has written what comes before the place.
///
/// The puts after it are served again. It tells nothing of what was written.
#[derive(Drop)]
pub struct CutSink {
    sink: MemSink,
    /// The place, until a put has gone past it.
    cut: Option<usize>,
    faults: u64,
}

impl CutSink {
    pub fn new(sink: MemSink, cut: Option<usize>) -> CutSink {
        CutSink {
            sink,
            cut,
            faults: 0,
        }
    }

    pub fn written(&self) -> &[u8] {
        self.sink.written()
    }

    // How many bytes of a piece of this length come before the place.
    fn count_before(&self, length: usize) -> usize
        ensures { result ≤ length }
    {
        match self.cut {
            Some(at) => at.saturating_sub(self.written().len()).min(length),
            None => length,
        }
    }
}

impl Sink for CutSink {
    ghost log = { λ sink. record { written = untold; faults = sink.faults } };

    fn put(&mut self, piece: &[u8]) -> Result<(), SinkFault>
        ensures wrote { Wrote result (record { written = untold; faults = self.old.faults }) (record { written = untold; faults = self.new.faults }) piece.now }
        ensures empty { piece.now ≡ [] → IsOk result }
    {
        let count = self.count_before(piece.len());
        let written = self.sink.put(&piece[..count]);
        if count < piece.len() {
            self.cut = None;
        } else if written.is_ok() {
            return Ok(());
        }
        self.faults = self.faults.saturating_add(1);
        Err(SinkFault)
    }
}
