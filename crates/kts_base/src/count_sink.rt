ghost use Rattle.std.specs.Prelude.{◌≡◌, ◌≤◌, ◌+◌, ◌^◌, [], length, IsErr, IsOk, OnErr};
ghost use Rattle.kts_base.specs.Counts.{next_count};
ghost use Rattle.kts_base.specs.Memory.{Tally, tally_log};
ghost use Rattle.kts_base.specs.Writes.{Wrote};

use crate::sink::{Sink, SinkFault};
use std::marker::Model;

/// A sink that counts the bytes that are put, and keeps none of them.
#[derive(Debug, Drop)]
pub struct CountSink {
    count: u64,
    faults: u64,
}

impl Model for CountSink {
    ghost use Rattle.kts_base.specs.Memory.{Tally};

    ghost Value = { Tally };

    ghost view = { λ sink. record { count = sink.count; faults = sink.faults } };
}

impl CountSink {
    /// A sink to which nothing has been put.
    pub fn new() -> CountSink
        ensures { result ≡ record { count = 0; faults = 0 } }
    {
        CountSink {
            count: 0,
            faults: 0,
        }
    }

    /// How many bytes were put.
    pub fn count(&self) -> u64
        ensures { result ≡ self.now.count }
    {
        self.count
    }
}

impl Sink for CountSink {
    ghost log = { tally_log };

    /// Takes no memory. A piece that would take the count past 64 bits isn't counted.
    fn put(&mut self, piece: &[u8]) -> Result<(), SinkFault>
        ensures wrote { Wrote result (tally_log self.old) (tally_log self.new) piece.now }
        ensures empty { piece.now ≡ [] → IsOk result }

        // Only the end of 64 bits fails a put.
        ensures fails { IsErr result → 2 ^ 64 ≤ self.old.count + length piece.now }
        ensures cut { OnErr result (self.new ≡ record self.old { faults = next_count self.old.faults }) }
    {
        match self.count.checked_add(piece.len() as u64) {
            Some(count) => {
                self.count = count;
                Ok(())
            }
            None => {
                self.faults = self.faults.saturating_add(1);
                Err(SinkFault)
            }
        }
    }
}
