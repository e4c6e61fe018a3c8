ghost use Rattle.std.specs.Prelude.{◌≡◌};
ghost use Rattle.kts_read.specs.Faults.{kind_text, told_at};
ghost use Rattle.kts_read.specs.declared.fault.CodeKind.TheVariants.{NoMemory};

use kts_base::{FaultKind, Sink, SinkFault};

/// What is wrong with a line. Of several faults the first in the order of the places of a line is told.
#[derive(Clone, Copy, Debug, PartialEq, Eq)]
pub enum CodeKind {
    /// The first line isn't `kts 1`.
    BadHeader,
    /// The line isn't ended, has another byte or an empty word, or may not stand here.
    BadLine,
    /// The first word is no instruction, or a type is neither `int` nor `mem`.
    BadWord,
    /// The number of words is wrong.
    WrongCount,
    /// A word is no name, or one that is taken.
    BadName,
    /// A word is no number, or a number that may not stand here.
    BadNumber,
    /// A label is no place of the code.
    BadLabel,
    /// One line more than there may be of its kind, or more instructions.
    TooLong,
    /// Memory was refused, which no text is at fault for.
    NoMemory,
}

impl FaultKind for CodeKind {
    ghost no_memory = { NoMemory };

    ghost text = { kind_text };

    fn no_memory() -> CodeKind {
        CodeKind::NoMemory
    }

    fn is_no_memory(&self) -> bool {
        *self == CodeKind::NoMemory
    }

    fn put<S: Sink>(&self, out: &mut S) -> Result<(), SinkFault> {
        out.put(match self {
            CodeKind::BadHeader => b"BadHeader",
            CodeKind::BadLine => b"BadLine",
            CodeKind::BadWord => b"BadWord",
            CodeKind::WrongCount => b"WrongCount",
            CodeKind::BadName => b"BadName",
            CodeKind::BadNumber => b"BadNumber",
            CodeKind::BadLabel => b"BadLabel",
            CodeKind::TooLong => b"TooLong",
            CodeKind::NoMemory => b"NoMemory",
        })
    }
}

/// What is wrong with code, and the line, counted from 1; the line is 0 where memory was refused.
#[derive(Clone, Copy, Debug, PartialEq, Eq)]
pub struct CodeFault {
    pub(crate) kind: CodeKind,
    pub(crate) line: usize,
}

impl CodeFault {
    /// The fault of a line.
    pub(crate) fn told(line: usize, kind: CodeKind) -> CodeFault
        ensures { result ≡ told_at line kind }
    {
        match kind {
            CodeKind::NoMemory => CodeFault { kind, line: 0 },
            _ => CodeFault { kind, line },
        }
    }

    pub fn kind(&self) -> CodeKind
        ensures { result ≡ self.now.kind }
    {
        self.kind
    }

    pub fn line(&self) -> usize
        ensures { result ≡ self.now.line }
    {
        self.line
    }
}
