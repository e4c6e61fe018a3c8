ghost use Rattle.std.specs.Prelude.{◌≡◌};

use crate::bound::Bound;
use kts_abs::Op;
use kts_base::List;
use kts_spec::Term;

/// A cell, as an access to a choice whose arguments read no choice, and what is asked of it.
#[derive(Debug, Drop)]
pub struct Head {
    choice: u32,
    args: List<Term>,
    op: Op,
    bound: Bound,
}

impl Head {
    pub fn new(choice: u32, args: List<Term>, op: Op, bound: Bound) -> Head
        ensures choice { result.choice ≡ choice }
        ensures args { result.args ≡ args }
        ensures op { result.op ≡ op }
        ensures bound { result.bound ≡ bound }
    {
        Head {
            choice,
            args,
            op,
            bound,
        }
    }

    /// The number of the choice.
    pub fn choice(&self) -> u32
        ensures { result ≡ self.now.choice }
    {
        self.choice
    }

    pub fn args(&self) -> &List<Term>
        ensures { result.now ≡ self.now.args }
    {
        &self.args
    }

    pub fn op(&self) -> Op
        ensures { result ≡ self.now.op }
    {
        self.op
    }

    pub fn bound(&self) -> &Bound
        ensures { result.now ≡ self.now.bound }
    {
        &self.bound
    }
}
