ghost use Rattle.std.specs.Prelude.{◌≡◌, ◌↔◌, ◌≢◌, [], IsSome};
ghost use Rattle.kts_sets.specs.Choices.{IsChoice, unless_empty};

use crate::set::MemberSet;
use kts_semi::Semi;
use std::marker::Model;

/// A set with a member: it rises as it shrinks.
#[derive(Clone, Copy, Debug)]
pub struct Choice<const W: usize> {
    set: MemberSet<W>,
}

impl<const W: usize> Model for Choice<W> {
    ghost use Rattle.std.specs.Prelude.{List, ℕ};
    ghost use Rattle.kts_sets.specs.Choices.{IsChoice};

    ghost Value = { List ℕ };

    ghost view = { λ c. c.set };

    ghost invariant = { λ c. IsChoice c.set };

    ghost inverse = { λ members. record { set = members } };
}

impl<const W: usize> Choice<W> {
    pub fn new(set: MemberSet<W>) -> Option<Choice<W>>
        ensures choice { result ≡ unless_empty set.entry }
        ensures some { IsSome result ↔ (set.entry ≢ []) }
    {
        if set.len() == 0 {
            return None;
        }
        Some(Choice { set })
    }

    pub fn set(&self) -> MemberSet<W>
        ensures members { result ≡ self.now }
        ensures valid { IsChoice self.now }
    {
        self.set
    }
}

impl<const W: usize> Semi for Choice<W> {
    ghost use Rattle.std.specs.Prelude.{length};
    ghost use Rattle.kts_sets.specs.Choices.{IsChoice, within, common};
    ghost use Rattle.kts_sets.specs.ChoiceLaws.{choice_laws};

    ghost Valid = { IsChoice };

    ghost le = { within };

    ghost joined = { common };

    ghost extent = { length };

    ghost laws = { choice_laws };

    fn leq(&self, other: &Self) -> bool {
        let both = other.set.meet(&self.set);
        both.len() == other.set.len()
    }

    fn join(&self, other: &Self) -> Option<Self> {
        Choice::new(self.set.meet(&other.set))
    }

    fn size(&self) -> u64 {
        self.set.len() as u64
    }
}
