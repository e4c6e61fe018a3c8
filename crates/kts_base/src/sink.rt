ghost use Rattle.std.specs.Prelude.{◌≡◌, [], IsOk};
ghost use Rattle.kts_base.specs.Writes.{Log, Wrote};

/// A write that failed.
#[derive(Clone, Copy, Debug, PartialEq, Eq)]
pub struct SinkFault;

/// Where text goes.
pub trait Sink {
    /// What it tells: the bytes written, or how many they are, or neither; and how often it has failed.
    ghost log: { Self → Log };

    /// Writes the piece: all of it, or a front of it and a fault that is counted. An empty piece changes nothing.
    fn put(&mut self, piece: &[u8]) -> Result<(), SinkFault>
        ensures wrote { Wrote result (log self.old) (log self.new) piece.now }
        ensures empty { piece.now ≡ [] → IsOk result };
}
