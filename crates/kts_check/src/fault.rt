ghost use Rattle.kts_base.specs.Writes.{Wrote};
ghost use Rattle.kts_check.specs.Faults.{kind_text};

use kts_base::{Fault, FaultKind, Sink, SinkFault, put_number};

#[derive(Clone, Copy, Debug, PartialEq, Eq)]
pub enum SpecKind {
    /// A name is neither declared nor in scope.
    UnknownName,
    /// A name is declared or in scope already, or is the form's own; there is a manifest of the choice already.
    NameTaken,
    /// A name stands for something else than its place wants, or a part of a tree is of another type.
    WrongKind,
    /// A given or a choice has another number of arguments.
    WrongCount,
    /// The lower end of a type is above the upper one, or an end is more than a million away from 0.
    BadRange,
    /// The least and the greatest value of a term, of which one is more than 10^15 away from 0.
    Unbounded(i128, i128),
    /// There are too many variables in scope, or before the body of a constraint.
    TooMany,
    NoMemory,
}

impl FaultKind for SpecKind {
    ghost use Rattle.kts_check.specs.declared.fault.SpecKind.TheVariants.{NoMemory};

    ghost no_memory = { NoMemory };

    ghost text = { kind_text };

    fn no_memory() -> SpecKind {
        SpecKind::NoMemory
    }

    fn is_no_memory(&self) -> bool {
        matches!(self, SpecKind::NoMemory)
    }

    fn put<S: Sink>(&self, out: &mut S) -> Result<(), SinkFault> {
        match self {
            SpecKind::UnknownName => out.put(b"UnknownName"),
            SpecKind::NameTaken => out.put(b"NameTaken"),
            SpecKind::WrongKind => out.put(b"WrongKind"),
            SpecKind::WrongCount => out.put(b"WrongCount"),
            SpecKind::BadRange => out.put(b"BadRange"),
            SpecKind::Unbounded(low, high) => put_unbounded(out, *low, *high),
            SpecKind::TooMany => out.put(b"TooMany"),
            SpecKind::NoMemory => out.put(b"NoMemory"),
        }
    }
}

fn put_unbounded<S: Sink>(out: &mut S, low: i128, high: i128) -> Result<(), SinkFault>
    ensures { Wrote result (S.log out.old) (S.log out.new) (kind_text (SpecKind.Unbounded low high)) }
{
    out.put(b"Unbounded ")?;
    put_number(out, low)?;
    out.put(b" ")?;
    put_number(out, high)
}

/// What is wrong with a tree or a name, and where it begins.
pub type SpecFault = Fault<SpecKind>;
