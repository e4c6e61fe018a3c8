ghost use Rattle.std.specs.Prelude.{◌≡◌, Bool, Option};
ghost use Rattle.kts_abs.specs.Abstraction.{IsOperand};

use kts_semi::{Semi, Window};
use kts_sets::Choice;

/// An abstract value, which stands for the values that it allows.
pub trait Operand: Copy {
    type Value;

    ghost Valid: { Self → Type 0 };

    ghost allows: { Self → Self.Value → Bool };

    ghost leq: { Self → Self → Bool };

    ghost single: { Self → Option Self.Value };

    /// Whether the value is one of those that are stood for.
    fn allows(&self, v: &Self::Value) -> bool
        ensures value { result ≡ allows self.now v.now }
        ensures valid { Valid self.now };

    /// Whether `o` allows no value that this one does not allow.
    fn leq(&self, o: &Self) -> bool
        ensures value { result ≡ leq self.now o.now }
        ensures valid { Valid self.now }
        ensures other_valid { Valid o.now };

    /// The one allowed value.
    fn single(&self) -> Option<Self::Value>
        ensures value { result ≡ single self.now }
        ensures valid { Valid self.now };

    ghost laws: { IsOperand Valid allows leq single };
}

impl Operand for Window {
    ghost use Rattle.kts_semi.specs.Ends.{InEnds, inside};
    ghost use Rattle.kts_abs.specs.Windows.{in_window, single_of};
    ghost use Rattle.kts_abs.specs.WindowLaws.{windows};

    type Value = i64;

    ghost Valid = { InEnds };

    ghost allows = { in_window };

    ghost leq = { inside };

    ghost single = { single_of };

    ghost laws = { windows };

    fn allows(&self, v: &i64) -> bool {
        self.lo() <= *v && *v <= self.hi()
    }

    fn leq(&self, o: &Window) -> bool {
        Semi::leq(self, o)
    }

    fn single(&self) -> Option<i64> {
        if self.lo() == self.hi() {
            Some(self.lo())
        } else {
            None
        }
    }
}

impl<const W: usize> Operand for Choice<W> {
    ghost use Rattle.kts_sets.specs.Choices.{IsChoice, within};
    ghost use Rattle.kts_abs.specs.Members.{has_member, single_member};
    ghost use Rattle.kts_abs.specs.MemberLaws.{choices};

    type Value = usize;

    ghost Valid = { IsChoice };

    ghost allows = { has_member };

    ghost leq = { within };

    ghost single = { single_member };

    ghost laws = { choices };

    fn allows(&self, v: &usize) -> bool {
        self.set().contains(*v)
    }

    fn leq(&self, o: &Choice<W>) -> bool {
        Semi::leq(self, o)
    }

    fn single(&self) -> Option<usize> {
        let members = self.set();
        if members.len() == 1 {
            members.first()
        } else {
            None
        }
    }
}
