ghost use Rattle.kts_syntax.specs.Faults.{kind_text};
ghost use Rattle.kts_syntax.specs.declared.fault.FormKind.TheVariants.{NoMemory};

use kts_base::{Fault, FaultKind, Sink, SinkFault};

#[derive(Clone, Copy, Debug, PartialEq, Eq)]
pub enum FormKind {
    /// An atom stands where a list is needed, or the other way round; a list has no head of its role; an atom is no
    /// name; the first tree is no `spec` form, or a later one is.
    NotAForm,
    /// A list has a wrong number of parts.
    WrongCount,
    /// An atom in a number's place is no number.
    BadNumber,
    /// There are too many forms of a kind, or a formula has too many trees.
    TooMany,
    NoMemory,
}

impl FaultKind for FormKind {
    ghost no_memory = { NoMemory };

    ghost text = { kind_text };

    fn no_memory() -> FormKind {
        FormKind::NoMemory
    }

    fn is_no_memory(&self) -> bool {
        *self == FormKind::NoMemory
    }

    fn put<S: Sink>(&self, out: &mut S) -> Result<(), SinkFault> {
        out.put(match self {
            FormKind::NotAForm => b"NotAForm",
            FormKind::WrongCount => b"WrongCount",
            FormKind::BadNumber => b"BadNumber",
            FormKind::TooMany => b"TooMany",
            FormKind::NoMemory => b"NoMemory",
        })
    }
}

/// What is wrong with a tree, and the place of its first byte.
pub type FormFault = Fault<FormKind>;
