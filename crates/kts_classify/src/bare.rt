ghost use Rattle.std.specs.Prelude.{◌≡◌, option_map};
ghost use Rattle.std.specs.List.{list_all};
ghost use Rattle.kts_plan.specs.BareAccesses.{bare as bare_lem, is_none, reads_nothing};
ghost use Rattle.kts_spec.specs.Reads.{reads_in};

use kts_spec::{Formula, Term};

/// The choice and the arguments of an access whose arguments read no choice.
pub fn bare(term: &Term) -> Option<(u32, &[Term])>
    ensures { option_map (λ access. (access.0, access.1.now)) result ≡ bare_lem term.now }
{
    match term {
        Term::Choice(x, args) => {
            let args = args.as_slice();
            if read_nothing(args) {
                return Some((*x, args));
            }
            None
        }
        _ => None,
    }
}

#[cycle(reads)]
#[tactic(auto, using(crate::proofs::ReadNothing::nothing))]
fn reads_nothing(term: &Term) -> bool
    ensures { result ≡ reads_nothing term.now }
{
    match term {
        Term::Number(_) | Term::Var(_) => true,
        Term::Choice(_, _) => false,
        Term::Given(_, args) => read_nothing(args.as_slice()),
        Term::Add(parts) => read_nothing(parts.as_slice()),
        Term::Sub(parts) => read_nothing(parts.as_slice()),
        Term::Mul(parts) => read_nothing(parts.as_slice()),
        Term::Min(parts) => read_nothing(parts.as_slice()),
        Term::Max(parts) => read_nothing(parts.as_slice()),
        Term::Sum(_, p, a) => formula_reads_nothing(p.get()) && reads_nothing(a.get()),
    }
}

#[cycle(reads)]
#[tactic(auto, using(crate::proofs::ReadNothing::nothing))]
fn read_nothing(terms: &[Term]) -> bool
    ensures { result ≡ list_all reads_nothing terms.now }
{
    for term in terms {
        if !reads_nothing(term) {
            return false;
        }
    }
    true
}

#[cycle(reads)]
#[tactic(auto, using(crate::proofs::ReadNothing::nothing))]
fn formula_reads_nothing(p: &Formula) -> bool
    ensures { result ≡ is_none (reads_in p.now) }
{
    match p {
        Formula::Compare(_, a, b) => reads_nothing(a) && reads_nothing(b),
        Formula::And(parts) => formulas_read_nothing(parts.as_slice()),
        Formula::Or(parts) => formulas_read_nothing(parts.as_slice()),
        Formula::Not(p) => formula_reads_nothing(p.get()),
        Formula::Implies(p, q) => {
            formula_reads_nothing(p.get()) && formula_reads_nothing(q.get())
        }
        Formula::Forall(_, p) => formula_reads_nothing(p.get()),
        Formula::Exists(_, p) => formula_reads_nothing(p.get()),
    }
}

#[cycle(reads)]
#[tactic(auto, using(crate::proofs::ReadNothing::nothing))]
fn formulas_read_nothing(ps: &[Formula]) -> bool
    ensures { result ≡ list_all (λ p. is_none (reads_in p)) ps.now }
{
    for p in ps {
        if !formula_reads_nothing(p) {
            return false;
        }
    }
    true
}
