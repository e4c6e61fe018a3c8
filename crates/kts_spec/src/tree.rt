use kts_base::{Boxed, List};

/// How two terms are compared: the first six are for whole numbers, `Same` and `Other` for
/// members of one index.
#[derive(Clone, Copy, Debug, PartialEq, Eq)]
pub enum Comparison {
    Le,
    Lt,
    Ge,
    Gt,
    Eq,
    Ne,
    Same,
    Other,
}

/// A term. `Var` counts the variables in scope from the outermost, which is 0; `Given`, `Choice`
/// and `Sum` name declarations of their kind by number.
#[cycle(tree)]
#[derive(Debug, Drop)]
pub enum Term {
    Number(i64),
    Var(u8),
    Given(u32, List<Term>),
    Choice(u32, List<Term>),
    Add(List<Term>),
    Sub(List<Term>),
    Mul(List<Term>),
    Min(List<Term>),
    Max(List<Term>),
    /// The sum of the term over the members of the index that meet the formula.
    Sum(u32, Boxed<Formula>, Boxed<Term>),
}

/// A formula. `Forall` and `Exists` bring one variable into scope for each index.
#[cycle(tree)]
#[derive(Debug, Drop)]
pub enum Formula {
    Compare(Comparison, Term, Term),
    And(List<Formula>),
    Or(List<Formula>),
    Not(Boxed<Formula>),
    Implies(Boxed<Formula>, Boxed<Formula>),
    Forall(List<u32>, Boxed<Formula>),
    Exists(List<u32>, Boxed<Formula>),
}
