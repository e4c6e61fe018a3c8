ghost use Rattle.std.specs.Prelude.{◌≡◌};

use crate::literal::Literal;
use kts_base::List;

/// Literals of which one is true, whatever members of the prefix's indexes the variables are.
#[derive(Debug, Drop)]
pub struct Clause {
    formula: u32,
    clause: u32,
    prefix: List<u32>,
    literals: List<Literal>,
}

impl Clause {
    pub fn new(formula: u32, clause: u32, prefix: List<u32>, literals: List<Literal>) -> Clause
        ensures formula { result.formula ≡ formula }
        ensures clause { result.clause ≡ clause }
        ensures prefix { result.prefix ≡ prefix }
        ensures literals { result.literals ≡ literals }
    {
        Clause {
            formula,
            clause,
            prefix,
            literals,
        }
    }

    /// The number of the formula, in its specification.
    pub fn formula(&self) -> u32
        ensures { result ≡ self.now.formula }
    {
        self.formula
    }

    /// The number of the clause, in its formula.
    pub fn clause(&self) -> u32
        ensures { result ≡ self.now.clause }
    {
        self.clause
    }

    /// The index of each variable.
    pub fn prefix(&self) -> &List<u32>
        ensures { result.now ≡ self.now.prefix }
    {
        &self.prefix
    }

    pub fn literals(&self) -> &List<Literal>
        ensures { result.now ≡ self.now.literals }
    {
        &self.literals
    }
}
