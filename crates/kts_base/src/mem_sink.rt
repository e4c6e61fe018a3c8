ghost use Rattle.std.specs.Prelude.{◌≡◌, ◌+◌, ◌-◌, ◌≤◌, ◌<◌, ◌↔◌, ◌++◌, [], length, take, min, Some, None, IfOk, IsErr, IsOk, OnOk, OnErr, vec_len, vec_capacity};
ghost use Rattle.kts_base.specs.Memory.{Page, log_of, stop_of, most_of, FailsToPut, after_put, after_cut};
ghost use Rattle.kts_base.specs.Writes.{Wrote};

use crate::list::{List, NoMemory};
use crate::sink::{Sink, SinkFault};
use std::alloc::Global;
use std::marker::Model;

/// A sink in memory with so much room, whose listed puts fail after so many bytes, counted from 0. Empty pieces aren't counted.
///
/// It tells what was written.
#[derive(Drop)]
pub struct MemSink {
    bytes: Vec<u8>,
    room: usize,
    failing: List<(u64, usize)>,
    puts: u64,
    faults: u64,
}

impl Model for MemSink {
    ghost use Rattle.std.specs.Prelude.{◌≤◌, vec_len, vec_capacity};
    ghost use Rattle.kts_base.specs.Memory.{Page};

    ghost Value = { Page };

    ghost view = { λ sink. record { bytes = sink.bytes.items; room = sink.room; failing = sink.failing; puts = sink.puts; faults = sink.faults } };

    ghost invariant = { λ sink. (vec_len sink.bytes ≤ sink.room) × (sink.room ≤ vec_capacity sink.bytes) };
}

/// After how many bytes the put of this number fails.
fn stop_of(failing: &[(u64, usize)], number: u64) -> Option<usize>
    ensures { result ≡ stop_of failing.now number }
{
    for entry in failing {
        if entry.0 == number {
            return Some(entry.1);
        }
    }
    None
}

fn most_of(stop: Option<usize>, free: usize) -> usize
    ensures { result ≡ most_of stop free }
{
    match stop {
        Some(count) => count.min(free),
        None => free,
    }
}

// The bytes at the end of a vector that has room for them.
fn append(bytes: &mut Vec<u8>, piece: &[u8])
    requires { vec_len bytes.old + length piece.now ≤ vec_capacity bytes.old }
    ensures items { bytes.new.items ≡ bytes.old.items ++ piece.now }
    ensures room { vec_capacity bytes.old ≤ vec_capacity bytes.new }
{
    bytes.extend_from_slice(piece).unwrap();
}

impl MemSink {
    /// A sink to which nothing has been written. Of two entries for one put the first counts.
    pub fn new(alloc: Global, room: usize, failing: List<(u64, usize)>) -> Result<MemSink, NoMemory>
        ensures { IfOk result (λ sink. sink ≡ record { bytes = []; room = room; failing = failing; puts = 0; faults = 0 }) }
    {
        match Vec::with_capacity(alloc, room) {
            Ok(bytes) => Ok(MemSink {
                bytes,
                room,
                failing,
                puts: 0,
                faults: 0,
            }),
            Err(_) => Err(NoMemory),
        }
    }

    pub fn written(&self) -> &[u8]
        ensures { result.now ≡ self.now.bytes }
    {
        self.bytes.as_slice()
    }
}

impl Sink for MemSink {
    ghost log = { log_of };

    /// Takes no memory.
    fn put(&mut self, piece: &[u8]) -> Result<(), SinkFault>
        ensures wrote { Wrote result (log_of self.old) (log_of self.new) piece.now }
        ensures empty { piece.now ≡ [] → IsOk result }

        // Exactly a put that is listed, or that goes past the room, fails; an empty piece never does.
        ensures fails { IsErr result ↔ FailsToPut self.old piece.now }
        ensures whole { OnOk result (self.new ≡ after_put self.old piece.now) }
        ensures front { OnErr result (self.new ≡ after_cut self.old piece.now) }
    {
        if piece.is_empty() {
            return Ok(());
        }
        let stop = stop_of(self.failing.as_slice(), self.puts);
        self.puts = self.puts.saturating_add(1);
        let free = self.room - self.bytes.len();
        if stop.is_none() && piece.len() <= free {
            append(&mut self.bytes, piece);
            return Ok(());
        }
        let count = most_of(stop, free).min(piece.len());
        append(&mut self.bytes, &piece[..count]);
        self.faults = self.faults.saturating_add(1);
        Err(SinkFault)
    }
}
