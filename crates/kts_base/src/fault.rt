ghost use Rattle.std.specs.Prelude.{◌≡◌, ◌↔◌, ℕ, List, Err, IsTrue};
ghost use Rattle.kts_base.specs.Writes.{Wrote};

use crate::list::NoMemory;
use crate::sink::{Sink, SinkFault};

/// What may be wrong with a text: one of the kinds says that memory was refused, and each is printed by a text.
pub trait FaultKind: Copy + Drop {
    /// The kind of want of memory.
    ghost no_memory: { Self };

    /// The text by which a kind is printed.
    ghost text: { Self → List ℕ };

    fn no_memory() -> Self
        ensures { result ≡ no_memory };

    fn is_no_memory(&self) -> bool
        ensures { IsTrue result ↔ (self.now ≡ no_memory) };

    /// Puts the text of the kind.
    fn put<S: Sink>(&self, out: &mut S) -> Result<(), SinkFault>
        ensures { Wrote result (S.log out.old) (S.log out.new) (text self.now) };
}

/// What is wrong with a text, and where.
#[derive(Clone, Copy, Debug, PartialEq, Eq)]
pub struct Fault<K> {
    kind: K,
    at: usize,
}

impl<K: FaultKind> Fault<K> {
    pub fn new(kind: K, at: usize) -> Fault<K>
        ensures { result ≡ record { kind = kind; at = at } }
    {
        Fault { kind, at }
    }

    pub fn kind(&self) -> K
        ensures { result ≡ self.now.kind }
    {
        self.kind
    }

    /// The place of what is at fault: how many bytes stand before it. It is 0 where memory was refused.
    pub fn at(&self) -> usize
        ensures { result ≡ self.now.at }
    {
        self.at
    }
}

impl<K: FaultKind> From<NoMemory> for Fault<K> {
    ghost from_gives = { λ _ fault. fault ≡ record { kind = K.no_memory; at = 0 } };

    fn from(_refused: NoMemory) -> Fault<K> {
        Fault {
            kind: K::no_memory(),
            at: 0,
        }
    }
}

/// A text at fault.
pub fn fail<T, K: FaultKind>(kind: K, at: usize) -> Result<T, Fault<K>>
    ensures { result ≡ Err (record { kind = kind; at = at }) }
{
    Err(Fault::new(kind, at))
}
