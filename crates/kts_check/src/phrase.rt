ghost use Rattle.std.specs.Prelude.{◌≡◌, OnOk, IfErr};
ghost use Rattle.kts_check.specs.Faults.{IsNoMemory};
ghost use Rattle.kts_check.specs.Trees.{no_phrases, with_last};

use crate::fault::SpecFault;
use crate::kind::Kind;
use kts_base::List;
use kts_spec::{Formula, Term};
use std::alloc::Global;

/// What a tree says: a term with what it is, or a formula.
#[derive(Debug, Drop)]
pub enum Phrase {
    Value(Term, Kind),
    Truth(Formula),
}

/// What the parts of a tree say, the terms and the formulas apart.
#[derive(Debug, Drop)]
pub struct Phrases {
    pub terms: List<Term>,
    pub kinds: List<Kind>,
    pub formulas: List<Formula>,
}

impl Phrases {
    pub fn new(alloc: Global) -> Phrases
        ensures { result ≡ no_phrases }
    {
        Phrases {
            terms: List::new(alloc),
            kinds: List::new(alloc),
            formulas: List::new(alloc),
        }
    }

    /// Takes what one part more says.
    pub fn push(&mut self, phrase: Phrase) -> Result<(), SpecFault>
        ensures ok { OnOk result (self.new ≡ with_last self.old phrase) }
        ensures err { IfErr result IsNoMemory }
    {
        match phrase {
            Phrase::Value(term, kind) => {
                self.terms.push(term)?;
                self.kinds.push(kind)?;
            }
            Phrase::Truth(formula) => self.formulas.push(formula)?,
        }
        Ok(())
    }
}
