ghost use Rattle.std.specs.Prelude.{◌≡◌, ◌-◌, ◌^◌, map, min};
ghost use Rattle.kts_emit.specs.Weights.{once, length_of_term, length_of_formula, sequence_weight, chain_weight, nested_weight, test_weight};

use kts_spec::{Comparison, Formula, Term};

/// How many instructions the code of a term has; a count past the type's end stops there.
#[cycle(lengths)]
#[tactic(auto, using(crate::proofs::LengthEquations::length_forms))]
pub fn length_term(term: &Term) -> u64
    ensures { result ≡ min (length_of_term term.now) (2 ^ 64 - 1) }
{
    match term {
        Term::Number(_) => 1,
        Term::Var(_) => 1,
        Term::Given(_, args) => sequence_length(args.as_slice()).saturating_add(1),
        Term::Choice(_, args) => sequence_length(args.as_slice()).saturating_add(1),
        Term::Add(parts) => sum_length(parts.as_slice()),
        Term::Sub(parts) => sequence_length(parts.as_slice()).saturating_add(1),
        Term::Mul(parts) => sequence_length(parts.as_slice()).saturating_add(1),
        Term::Min(parts) => sequence_length(parts.as_slice()).saturating_add(1),
        Term::Max(parts) => sequence_length(parts.as_slice()).saturating_add(1),
        Term::Sum(_, p, a) => length_formula(p.get())
            .saturating_add(length_term(a.get()))
            .saturating_add(5),
    }
}

/// How many instructions the code of a formula has; a count past the type's end stops there.
#[cycle(lengths)]
#[tactic(auto, using(crate::proofs::LengthEquations::length_forms))]
pub fn length_formula(formula: &Formula) -> u64
    ensures { result ≡ min (length_of_formula formula.now) (2 ^ 64 - 1) }
{
    match formula {
        Formula::Compare(comparison, a, b) => length_term(a)
            .saturating_add(length_term(b))
            .saturating_add(test_length(*comparison)),
        Formula::And(parts) => chain_length(parts.as_slice()),
        Formula::Or(parts) => chain_length(parts.as_slice()),
        Formula::Not(p) => length_formula(p.get()).saturating_add(1),
        Formula::Implies(p, q) => length_formula(p.get())
            .saturating_add(length_formula(q.get()))
            .saturating_add(2),
        Formula::Forall(indexes, p) => nested_length(indexes.as_slice(), length_formula(p.get())),
        Formula::Exists(indexes, p) => nested_length(indexes.as_slice(), length_formula(p.get())),
    }
}

/// How many instructions test the sides of a comparison.
fn test_length(comparison: Comparison) -> u64
    ensures { result ≡ test_weight comparison }
{
    match comparison {
        Comparison::Le | Comparison::Ge | Comparison::Eq | Comparison::Same => 1,
        Comparison::Lt | Comparison::Gt | Comparison::Ne | Comparison::Other => 2,
    }
}

/// The same of loops over these indexes, round a body with so many instructions: four more for each loop.
#[tactic(auto, using(crate::proofs::CountedCode::nested_count))]
pub fn nested_length(indexes: &[u32], body: u64) -> u64
    ensures { result ≡ min (nested_weight once indexes.now body) (2 ^ 64 - 1) }
{
    (indexes.len() as u64)
        .saturating_mul(4)
        .saturating_add(body)
}

/// The same of several terms, one after the other.
#[cycle(lengths)]
pub(crate) fn sequence_length(parts: &[Term]) -> u64
    ensures { result ≡ min (sequence_weight (map length_of_term parts.now)) (2 ^ 64 - 1) }
{
    let mut count: u64 = 0;
    for part in parts {
        count = count.saturating_add(length_term(part));
    }
    count
}

/// The same of a sum of several terms.
#[cycle(lengths)]
fn sum_length(parts: &[Term]) -> u64
    ensures { result ≡ min (chain_weight (map length_of_term parts.now)) (2 ^ 64 - 1) }
{
    let mut count: u64 = 0;
    let mut first = true;
    for part in parts {
        count = count.saturating_add(length_term(part));
        if !first {
            count = count.saturating_add(1);
        }
        first = false;
    }
    count
}

/// The same of several formulas that an instruction joins.
#[cycle(lengths)]
fn chain_length(parts: &[Formula]) -> u64
    ensures { result ≡ min (chain_weight (map length_of_formula parts.now)) (2 ^ 64 - 1) }
{
    let mut count: u64 = 0;
    let mut first = true;
    for part in parts {
        count = count.saturating_add(length_formula(part));
        if !first {
            count = count.saturating_add(1);
        }
        first = false;
    }
    count
}
