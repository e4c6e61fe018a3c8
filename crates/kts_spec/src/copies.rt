ghost use Rattle.std.specs.Prelude.{◌≡◌, IfOk};

use crate::tree::{Formula, Term};
use kts_base::{Boxed, List, NoMemory};
use std::alloc::Global;

impl Term {
    /// An equal term.
    #[cycle(copies)]
    pub fn copy(&self, alloc: Global) -> Result<Term, NoMemory>
        ensures { IfOk result (λ t. t ≡ self.now) }
    {
        match self {
            Term::Number(n) => Ok(Term::Number(*n)),
            Term::Var(k) => Ok(Term::Var(*k)),
            Term::Given(f, args) => Ok(Term::Given(*f, copy_terms(alloc, args.as_slice())?)),
            Term::Choice(x, args) => Ok(Term::Choice(*x, copy_terms(alloc, args.as_slice())?)),
            Term::Add(parts) => Ok(Term::Add(copy_terms(alloc, parts.as_slice())?)),
            Term::Sub(parts) => Ok(Term::Sub(copy_terms(alloc, parts.as_slice())?)),
            Term::Mul(parts) => Ok(Term::Mul(copy_terms(alloc, parts.as_slice())?)),
            Term::Min(parts) => Ok(Term::Min(copy_terms(alloc, parts.as_slice())?)),
            Term::Max(parts) => Ok(Term::Max(copy_terms(alloc, parts.as_slice())?)),
            Term::Sum(index, p, a) => {
                let p = Boxed::new(alloc, p.get().copy(alloc)?)?;
                let a = Boxed::new(alloc, a.get().copy(alloc)?)?;
                Ok(Term::Sum(*index, p, a))
            }
        }
    }
}

impl Formula {
    /// An equal formula.
    #[cycle(copies)]
    pub fn copy(&self, alloc: Global) -> Result<Formula, NoMemory>
        ensures { IfOk result (λ p. p ≡ self.now) }
    {
        match self {
            Formula::Compare(c, a, b) => {
                let a = a.copy(alloc)?;
                let b = b.copy(alloc)?;
                Ok(Formula::Compare(*c, a, b))
            }
            Formula::And(parts) => Ok(Formula::And(copy_formulas(alloc, parts.as_slice())?)),
            Formula::Or(parts) => Ok(Formula::Or(copy_formulas(alloc, parts.as_slice())?)),
            Formula::Not(p) => {
                let p = Boxed::new(alloc, p.get().copy(alloc)?)?;
                Ok(Formula::Not(p))
            }
            Formula::Implies(p, q) => {
                let p = Boxed::new(alloc, p.get().copy(alloc)?)?;
                let q = Boxed::new(alloc, q.get().copy(alloc)?)?;
                Ok(Formula::Implies(p, q))
            }
            Formula::Forall(indexes, p) => {
                let indexes = List::from_slice(alloc, indexes.as_slice())?;
                let p = Boxed::new(alloc, p.get().copy(alloc)?)?;
                Ok(Formula::Forall(indexes, p))
            }
            Formula::Exists(indexes, p) => {
                let indexes = List::from_slice(alloc, indexes.as_slice())?;
                let p = Boxed::new(alloc, p.get().copy(alloc)?)?;
                Ok(Formula::Exists(indexes, p))
            }
        }
    }
}

/// Terms equal to these.
#[cycle(copies)]
pub fn copy_terms(alloc: Global, terms: &[Term]) -> Result<List<Term>, NoMemory>
    ensures { IfOk result (λ copies. copies ≡ terms.now) }
{
    let mut copies = List::with_capacity(alloc, terms.len())?;
    for term in terms {
        copies.push(term.copy(alloc)?)?;
    }
    Ok(copies)
}

#[cycle(copies)]
fn copy_formulas(alloc: Global, formulas: &[Formula]) -> Result<List<Formula>, NoMemory>
    ensures { IfOk result (λ copies. copies ≡ formulas.now) }
{
    let mut copies = List::with_capacity(alloc, formulas.len())?;
    for formula in formulas {
        copies.push(formula.copy(alloc)?)?;
    }
    Ok(copies)
}
