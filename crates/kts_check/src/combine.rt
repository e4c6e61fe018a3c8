ghost use Rattle.std.specs.Prelude.{◌≡◌, None, IfSome, IfNone};
ghost use Rattle.kts_base.specs.Reads.{Gives};
ghost use Rattle.kts_check.specs.Faults.{IsNoMemory};
ghost use Rattle.kts_check.specs.Forms.{declarations_in};
ghost use Rattle.kts_check.specs.Trees.{access_phrase, of_wholes, of_members, comparison_of, comparison_phrase, sum_phrase, negation_phrase, implication_phrase, binder_body, only, both, reference_phrase, operator_phrase, addition_phrase, connective_phrase};

use crate::fault::{SpecFault, SpecKind};
use crate::kind::Kind;
use crate::measures::{
    are_members, difference, greatest, kind_of, least, limited_term, number, product, range_of_sum,
    total,
};
use crate::phrase::{Phrase, Phrases};
use crate::reference::Reference;
use crate::symbol_table::SymbolTable;
use kts_base::{Boxed, List, MAX_PARTS, fail};
use kts_spec::{Comparison, Family, Formula, Term};
use kts_syntax::Head;
use std::alloc::Global;

fn only<T: Drop>(at: usize, list: List<T>) -> Result<T, SpecFault>
    ensures { result ≡ only at list }
{
    let mut items = list;
    if items.len() != 1 {
        return fail(SpecKind::WrongCount, at);
    }
    match items.pop() {
        Some(item) => Ok(item),
        None => unreachable!(),
    }
}

fn both<T: Drop>(at: usize, list: List<T>) -> Result<(T, T), SpecFault>
    ensures { result ≡ both at list }
{
    let mut items = list;
    if items.len() != 2 {
        return fail(SpecKind::WrongCount, at);
    }
    match items.pop() {
        Some(second) => match items.pop() {
            Some(first) => Ok((first, second)),
            None => unreachable!(),
        },
        None => unreachable!(),
    }
}

/// An access with these arguments.
#[tactic(auto, unfolding(crate::specs::Trees::access_phrase))]
fn access_phrase(
    at: usize,
    term: Term,
    family: Option<&Family>,
    kinds: &[Kind],
) -> Result<Phrase, SpecFault>
    ensures missing { IfNone family.entry (result ≡ access_phrase at term None kinds.now) }
    ensures found { IfSome family.entry (λ f. result ≡ access_phrase at term (Some f.now) kinds.now) }
{
    match family {
        None => fail(SpecKind::UnknownName, at),
        Some(family) => {
            let args = family.args().as_slice();
            if kinds.len() != args.len() {
                return fail(SpecKind::WrongCount, at);
            }
            if are_members(args, kinds) {
                return Ok(Phrase::Value(term, kind_of(family.kind())));
            }
            fail(SpecKind::WrongKind, at)
        }
    }
}

#[tactic(auto, unfolding(crate::specs::Trees::of_wholes))]
fn of_wholes(head: Head) -> Option<Comparison>
    ensures { result ≡ of_wholes head }
{
    match head {
        Head::Le => Some(Comparison::Le),
        Head::Lt => Some(Comparison::Lt),
        Head::Ge => Some(Comparison::Ge),
        Head::Gt => Some(Comparison::Gt),
        Head::Eq => Some(Comparison::Eq),
        Head::Ne => Some(Comparison::Ne),
        _ => None,
    }
}

#[tactic(auto, unfolding(crate::specs::Trees::of_members))]
fn of_members(head: Head) -> Option<Comparison>
    ensures { result ≡ of_members head }
{
    match head {
        Head::Eq => Some(Comparison::Same),
        Head::Ne => Some(Comparison::Other),
        _ => None,
    }
}

#[tactic(auto, unfolding(crate::specs::Trees::comparison_of))]
fn comparison_of(head: Head, k: &Kind, l: &Kind) -> Option<Comparison>
    ensures { result ≡ comparison_of head k.now l.now }
{
    match k {
        Kind::Whole(_, _) => match l {
            Kind::Whole(_, _) => of_wholes(head),
            Kind::Member(_) => None,
        },
        Kind::Member(i) => match l {
            Kind::Whole(_, _) => None,
            Kind::Member(j) => {
                if *i == *j {
                    return of_members(head);
                }
                None
            }
        },
    }
}

#[tactic(auto, unfolding(crate::specs::Trees::comparison_phrase))]
fn comparison_phrase(at: usize, head: Head, phrases: Phrases) -> Result<Phrase, SpecFault>
    ensures { result ≡ comparison_phrase at head phrases.terms phrases.kinds }
{
    let (k, l) = both(at, phrases.kinds)?;
    let (a, b) = both(at, phrases.terms)?;
    match comparison_of(head, &k, &l) {
        Some(comparison) => Ok(Phrase::Truth(Formula::Compare(comparison, a, b))),
        None => fail(SpecKind::WrongKind, at),
    }
}

/// A sum over an index.
#[tactic(auto, unfolding(crate::specs::Trees::sum_phrase))]
fn sum_phrase(
    alloc: Global,
    at: usize,
    indexes: List<u32>,
    phrases: Phrases,
) -> Result<Phrase, SpecFault>
    ensures { Gives IsNoMemory (λ p. p) result (sum_phrase at indexes phrases.formulas phrases.terms phrases.kinds) }
{
    let i = only(at, indexes)?;
    let p = only(at, phrases.formulas)?;
    let t = only(at, phrases.terms)?;
    let k = only(at, phrases.kinds)?;
    let p = Boxed::new(alloc, p)?;
    let t = Boxed::new(alloc, t)?;
    limited_term(at, Term::Sum(i, p, t), range_of_sum(k))
}

#[tactic(auto, unfolding(crate::specs::Trees::negation_phrase))]
fn negation_phrase(alloc: Global, at: usize, formulas: List<Formula>) -> Result<Phrase, SpecFault>
    ensures { Gives IsNoMemory (λ p. p) result (negation_phrase at formulas) }
{
    let p = only(at, formulas)?;
    Ok(Phrase::Truth(Formula::Not(Boxed::new(alloc, p)?)))
}

#[tactic(auto, unfolding(crate::specs::Trees::implication_phrase))]
fn implication_phrase(
    alloc: Global,
    at: usize,
    formulas: List<Formula>,
) -> Result<Phrase, SpecFault>
    ensures { Gives IsNoMemory (λ p. p) result (implication_phrase at formulas) }
{
    let (p, q) = both(at, formulas)?;
    let p = Boxed::new(alloc, p)?;
    Ok(Phrase::Truth(Formula::Implies(p, Boxed::new(alloc, q)?)))
}

/// What binders stand before.
fn binder_body(
    alloc: Global,
    at: usize,
    indexes: &[u32],
    formulas: List<Formula>,
) -> Result<Boxed<Formula>, SpecFault>
    ensures { Gives IsNoMemory (λ p. p) result (binder_body at indexes.now formulas) }
{
    if indexes.is_empty() {
        return fail(SpecKind::WrongCount, at);
    }
    let p = only(at, formulas)?;
    Ok(Boxed::new(alloc, p)?)
}

/// A name before these arguments.
#[tactic(auto, unfolding(crate::specs::Trees::reference_phrase))]
pub fn reference_phrase(
    table: &SymbolTable,
    at: usize,
    reference: Reference,
    phrases: Phrases,
) -> Result<Phrase, SpecFault>
    ensures { result ≡ reference_phrase (declarations_in table.now) at reference phrases.terms phrases.kinds }
{
    match reference {
        Reference::Variable(k, i) => Ok(Phrase::Value(Term::Var(k), Kind::Member(i))),
        Reference::Given(f) => {
            let family = table.givens.as_slice().get(f as usize);
            let term = Term::Given(f, phrases.terms);
            access_phrase(at, term, family, phrases.kinds.as_slice())
        }
        Reference::Choice(x) => {
            let family = table.choices.as_slice().get(x as usize);
            let term = Term::Choice(x, phrases.terms);
            access_phrase(at, term, family, phrases.kinds.as_slice())
        }
    }
}

#[tactic(auto, unfolding(crate::specs::Trees::addition_phrase))]
fn addition_phrase(at: usize, phrases: Phrases) -> Result<Phrase, SpecFault>
    ensures { result ≡ addition_phrase at phrases.terms phrases.kinds }
{
    let n = phrases.terms.len();
    if 2 <= n && n <= MAX_PARTS {
        let range = total(phrases.kinds.as_slice());
        return limited_term(at, Term::Add(phrases.terms), range);
    }
    fail(SpecKind::WrongCount, at)
}

#[tactic(auto, unfolding(crate::specs::Trees::connective_phrase))]
fn connective_phrase(at: usize, both: bool, formulas: List<Formula>) -> Result<Phrase, SpecFault>
    ensures { result ≡ connective_phrase at both formulas }
{
    if formulas.len() < 2 {
        return fail(SpecKind::WrongCount, at);
    }
    if both {
        return Ok(Phrase::Truth(Formula::And(formulas)));
    }
    Ok(Phrase::Truth(Formula::Or(formulas)))
}

/// A tree that is no name, by its head, the indexes of the variables that it binds, and what its parts say.
#[tactic(auto, unfolding(crate::specs::Trees::operator_phrase))]
pub fn operator_phrase(
    alloc: Global,
    at: usize,
    head: Head,
    indexes: List<u32>,
    phrases: Phrases,
) -> Result<Phrase, SpecFault>
    ensures { Gives IsNoMemory (λ p. p) result (operator_phrase at head indexes phrases) }
{
    match head {
        Head::Number(n) => limited_term(at, Term::Number(n), number(n)),
        Head::Add => addition_phrase(at, phrases),
        Head::Sub => {
            let range = difference(phrases.kinds.as_slice());
            limited_term(at, Term::Sub(phrases.terms), range)
        }
        Head::Mul => {
            let range = product(phrases.kinds.as_slice());
            limited_term(at, Term::Mul(phrases.terms), range)
        }
        Head::Min => {
            let range = least(phrases.kinds.as_slice());
            limited_term(at, Term::Min(phrases.terms), range)
        }
        Head::Max => {
            let range = greatest(phrases.kinds.as_slice());
            limited_term(at, Term::Max(phrases.terms), range)
        }
        Head::Sum => sum_phrase(alloc, at, indexes, phrases),
        Head::And => connective_phrase(at, true, phrases.formulas),
        Head::Or => connective_phrase(at, false, phrases.formulas),
        Head::Not => negation_phrase(alloc, at, phrases.formulas),
        Head::Implies => implication_phrase(alloc, at, phrases.formulas),
        Head::Forall => {
            let p = binder_body(alloc, at, indexes.as_slice(), phrases.formulas)?;
            Ok(Phrase::Truth(Formula::Forall(indexes, p)))
        }
        Head::Exists => {
            let p = binder_body(alloc, at, indexes.as_slice(), phrases.formulas)?;
            Ok(Phrase::Truth(Formula::Exists(indexes, p)))
        }
        _ => comparison_phrase(at, head, phrases),
    }
}
