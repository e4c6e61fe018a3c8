ghost use Rattle.std.specs.Prelude.{◌≡◌};
ghost use Rattle.kts_abs.specs.Truth.{and_of, not_of, or_of};

use crate::operand::Operand;

/// A truth value: false, unknown or true.
#[derive(Clone, Copy, Debug, PartialEq, Eq)]
pub enum Tri {
    F,
    U,
    T,
}

impl Operand for Tri {
    ghost use Rattle.std.specs.Prelude.{⊤};
    ghost use Rattle.kts_abs.specs.Truth.{may_be, surer, known};
    ghost use Rattle.kts_abs.specs.TruthLaws.{truth_values};

    type Value = bool;

    ghost Valid = { λ _. ⊤ };

    ghost allows = { may_be };

    ghost leq = { surer };

    ghost single = { known };

    ghost laws = { truth_values };

    fn allows(&self, v: &bool) -> bool {
        match self {
            Tri::F => !*v,
            Tri::U => true,
            Tri::T => *v,
        }
    }

    fn leq(&self, o: &Tri) -> bool {
        *self == Tri::U || *self == *o
    }

    fn single(&self) -> Option<bool> {
        match self {
            Tri::F => Some(false),
            Tri::U => None,
            Tri::T => Some(true),
        }
    }
}

/// Strong Kleene conjunction.
pub fn and(a: Tri, b: Tri) -> Tri
    ensures { result ≡ and_of a b }
{
    match (a, b) {
        (Tri::F, _) | (_, Tri::F) => Tri::F,
        (Tri::T, Tri::T) => Tri::T,
        _ => Tri::U,
    }
}

/// Strong Kleene disjunction.
pub fn or(a: Tri, b: Tri) -> Tri
    ensures { result ≡ or_of a b }
{
    match (a, b) {
        (Tri::T, _) | (_, Tri::T) => Tri::T,
        (Tri::F, Tri::F) => Tri::F,
        _ => Tri::U,
    }
}

/// Strong Kleene negation.
pub fn not(a: Tri) -> Tri
    ensures { result ≡ not_of a }
{
    match a {
        Tri::F => Tri::T,
        Tri::U => Tri::U,
        Tri::T => Tri::F,
    }
}
