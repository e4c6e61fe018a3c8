ghost use Rattle.std.specs.Prelude.{◌≡◌};
ghost use Rattle.kts_text.specs.Faults.{kind_text};

use kts_base::{Fault, FaultKind, Sink, SinkFault};

#[derive(Clone, Copy, Debug, PartialEq, Eq)]
pub enum TreeKind {
    /// Outside a comment stands a byte that is no white space, and no byte from `!` to `~`.
    BadByte,
    /// An atom has a byte more than the most.
    LongAtom,
    /// A list would stand in more lists than the most.
    Deep,
    /// A `)` closes no list.
    Extra,
    /// The text ends inside a list.
    Unclosed,
    /// The text ends, and there was no tree.
    Empty,
    NoMemory,
}

/// What is wrong with a text of trees: at the place of the byte at fault, or at the text's length where its end is at fault.
pub type TreeFault = Fault<TreeKind>;

impl FaultKind for TreeKind {
    ghost use Rattle.kts_text.specs.declared.fault.TreeKind.TheVariants.{NoMemory};

    ghost no_memory = { NoMemory };

    ghost text = { kind_text };

    fn no_memory() -> TreeKind {
        TreeKind::NoMemory
    }

    fn is_no_memory(&self) -> bool {
        matches!(self, TreeKind::NoMemory)
    }

    fn put<S: Sink>(&self, out: &mut S) -> Result<(), SinkFault> {
        match self {
            TreeKind::BadByte => out.put(b"BadByte"),
            TreeKind::LongAtom => out.put(b"LongAtom"),
            TreeKind::Deep => out.put(b"Deep"),
            TreeKind::Extra => out.put(b"Extra"),
            TreeKind::Unclosed => out.put(b"Unclosed"),
            TreeKind::Empty => out.put(b"Empty"),
            TreeKind::NoMemory => out.put(b"NoMemory"),
        }
    }
}
