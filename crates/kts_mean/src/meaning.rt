ghost use Rattle.std.specs.Prelude.{◌≡◌, ◌<◌, ◌≤◌, [], ◌∷◌, ◌++◌, ℕ, length, map, drop, Some, pos, if◌then◌else◌};
ghost use Rattle.std.specs.List.{list_all, list_any};
ghost use Rattle.kts_base.specs.Limits.{most_arguments, most_parts};
ghost use Rattle.kts_spec.specs.CellOrder.{AreMembers};
ghost use Rattle.kts_spec.specs.MeaningEquations.{for_all, for_some, total};
ghost use Rattle.kts_spec.specs.Places.{place};
ghost use Rattle.kts_spec.specs.Related.{AllOf};
ghost use Rattle.kts_spec.specs.Worlds.{size_of};
ghost use Rattle.kts_spec.specs.declared.tree.Term.TheVariants as term_;
ghost use Rattle.kts_mean.specs.Bounds.{AllIn};
ghost use Rattle.kts_mean.specs.Evaluation.{world_in, value_in, values_in, truth_in, TermIn, FormulaIn, BodyIn};

use crate::evaluator::Evaluator;
use crate::numbers::{
    as_member, as_number, compare, greatest, least, minus, place_of_pair, plus, times,
};
use crate::scope::Scope;
use kts_spec::{Formula, Term};

impl<'a> Evaluator<'a> {
    #[tactic(auto, using(kts_spec::proofs::Meanings::on_schedules))]
    #[cycle(meaning)]
    pub fn value(&self, term: &Term, scope: &Scope) -> i64
        requires { TermIn self.now scope.now term.now }
        ensures { result ≡ value_in self.now term.now scope.now }
    {
        match term {
            Term::Number(n) => *n,
            Term::Var(k) => as_number(scope.get(*k as usize)),
            Term::Given(f, args) => {
                let indexes = self.given_args(*f as usize);
                let at = self.place_of(indexes, args.as_slice(), scope);
                self.given(*f as usize, at)
            }
            Term::Choice(x, args) => {
                let indexes = self.choice_args(*x as usize);
                let at = self.place_of(indexes, args.as_slice(), scope);
                self.choice(*x as usize, at)
            }
            Term::Add(parts) => self.sum_of(parts.as_slice(), scope),
            Term::Sub(parts) => {
                let (a, b) = self.two_values(parts.as_slice(), scope);
                minus(a, b)
            }
            Term::Mul(parts) => {
                let (a, b) = self.two_values(parts.as_slice(), scope);
                times(a, b)
            }
            Term::Min(parts) => {
                let (a, b) = self.two_values(parts.as_slice(), scope);
                least(a, b)
            }
            Term::Max(parts) => {
                let (a, b) = self.two_values(parts.as_slice(), scope);
                greatest(a, b)
            }
            Term::Sum(index, p, a) => self.sum_over(*index, p.get(), a.get(), scope),
        }
    }

    #[tactic(auto, using(kts_spec::proofs::Meanings::on_schedules))]
    #[cycle(meaning)]
    fn two_values(&self, parts: &[Term], scope: &Scope) -> (i64, i64)
        requires parts { AllOf (TermIn self.now scope.now) parts.now }
        requires two { length parts.now ≡ 2 }
        ensures { values_in self.now parts.now scope.now ≡ result.0 ∷ result.1 ∷ [] }
    {
        let a = self.value(&parts[0], scope);
        let b = self.value(&parts[1], scope);
        (a, b)
    }

    #[tactic(auto, using(kts_spec::proofs::Meanings::on_schedules))]
    #[cycle(meaning)]
    fn place_of(&self, indexes: &[u32], args: &[Term], scope: &Scope) -> usize
        requires args { AllOf (TermIn self.now scope.now) args.now }
        requires members { AreMembers (map (size_of (world_in self.now)) indexes.now) (values_in self.now args.now scope.now) }
        requires declared { AllIn (length self.now.schema.now.indexes) indexes.now }
        requires few { length indexes.now ≤ most_arguments }
        ensures { place (map (size_of (world_in self.now)) indexes.now) (values_in self.now args.now scope.now) ≡ Some result }
    {
        if indexes.is_empty() {
            return 0;
        }
        let first = as_member(self.value(&args[0], scope));
        if indexes.len() == 1 {
            return first;
        }
        let second = as_member(self.value(&args[1], scope));
        place_of_pair(first, self.size(indexes[1]), second)
    }

    #[tactic(auto, using(kts_spec::proofs::Meanings::on_schedules))]
    #[cycle(meaning)]
    fn sum_of(&self, terms: &[Term], scope: &Scope) -> i64
        requires parts { AllOf (TermIn self.now scope.now) terms.now }
        requires few { length terms.now ≤ most_parts }
        ensures { result ≡ total (values_in self.now terms.now scope.now) }
    {
        let mut total = 0;
        for term in terms {
            total = plus(total, self.value(term, scope));
        }
        total
    }

    #[tactic(auto, using(kts_spec::proofs::Meanings::on_schedules))]
    #[cycle(meaning)]
    fn sum_over(&self, index: u32, p: &Formula, a: &Term, scope: &Scope) -> i64
        requires { TermIn self.now scope.now (term_.Sum index p.now a.now) }
        ensures { result ≡ value_in self.now (term_.Sum index p.now a.now) scope.now }
    {
        let mut total = 0;
        let count = self.size(index);
        for member in 0..count {
            let inner = scope.with(member);
            total = plus(total, self.gated_value(p, a, &inner));
        }
        total
    }

    /// The value where the formula is true, else 0.
    #[tactic(auto, using(kts_spec::proofs::Meanings::on_schedules))]
    #[cycle(meaning)]
    fn gated_value(&self, p: &Formula, a: &Term, scope: &Scope) -> i64
        requires gate { FormulaIn self.now scope.now p.now }
        requires term { TermIn self.now scope.now a.now }
        ensures { result ≡ (if truth_in self.now p.now scope.now then value_in self.now a.now scope.now else pos 0) }
    {
        if self.truth(p, scope) {
            return self.value(a, scope);
        }
        0
    }

    #[tactic(auto, using(kts_spec::proofs::Meanings::on_schedules))]
    #[cycle(meaning)]
    pub fn truth(&self, formula: &Formula, scope: &Scope) -> bool
        requires { FormulaIn self.now scope.now formula.now }
        ensures { result ≡ truth_in self.now formula.now scope.now }
    {
        match formula {
            Formula::Compare(c, a, b) => {
                let a = self.value(a, scope);
                let b = self.value(b, scope);
                compare(*c, a, b)
            }
            Formula::And(parts) => self.all_true(parts.as_slice(), scope),
            Formula::Or(parts) => self.any_true(parts.as_slice(), scope),
            Formula::Not(p) => !self.truth(p.get(), scope),
            Formula::Implies(p, q) => {
                if !self.truth(p.get(), scope) {
                    return true;
                }
                self.truth(q.get(), scope)
            }
            Formula::Forall(indexes, p) => self.true_for_all(indexes.as_slice(), 0, p.get(), scope),
            Formula::Exists(indexes, p) => self.true_for_some(
                indexes.as_slice(),
                0,
                p.get(),
                scope,
            ),
        }
    }

    #[tactic(auto, using(kts_spec::proofs::Meanings::on_schedules))]
    #[cycle(meaning)]
    fn all_true(&self, formulas: &[Formula], scope: &Scope) -> bool
        requires { AllOf (FormulaIn self.now scope.now) formulas.now }
        ensures { result ≡ list_all (λ p. truth_in self.now p scope.now) formulas.now }
    {
        for formula in formulas {
            if !self.truth(formula, scope) {
                return false;
            }
        }
        true
    }

    #[tactic(auto, using(kts_spec::proofs::Meanings::on_schedules))]
    #[cycle(meaning)]
    fn any_true(&self, formulas: &[Formula], scope: &Scope) -> bool
        requires { AllOf (FormulaIn self.now scope.now) formulas.now }
        ensures { result ≡ list_any (λ p. truth_in self.now p scope.now) formulas.now }
    {
        for formula in formulas {
            if self.truth(formula, scope) {
                return true;
            }
        }
        false
    }

    /// Whether a formula is true at all members of the indexes from one of them on.
    #[tactic(auto, using(kts_spec::proofs::Meanings::on_schedules))]
    #[cycle(meaning)]
    fn true_for_all(&self, indexes: &[u32], at: usize, p: &Formula, scope: &Scope) -> bool
        requires { BodyIn self.now scope.now (drop at indexes.now) p.now }
        ensures { result ≡ for_all (map (size_of (world_in self.now)) (drop at indexes.now)) (truth_in self.now p.now) scope.now }
    {
        if at >= indexes.len() {
            return self.truth(p, scope);
        }
        let count = self.size(indexes[at]);
        for member in 0..count {
            let inner = scope.with(member);
            if !self.true_for_all(indexes, at + 1, p, &inner) {
                return false;
            }
        }
        true
    }

    /// Whether it is true at some of them.
    #[tactic(auto, using(kts_spec::proofs::Meanings::on_schedules))]
    #[cycle(meaning)]
    fn true_for_some(&self, indexes: &[u32], at: usize, p: &Formula, scope: &Scope) -> bool
        requires { BodyIn self.now scope.now (drop at indexes.now) p.now }
        ensures { result ≡ for_some (map (size_of (world_in self.now)) (drop at indexes.now)) (truth_in self.now p.now) scope.now }
    {
        if at >= indexes.len() {
            return self.truth(p, scope);
        }
        let count = self.size(indexes[at]);
        for member in 0..count {
            let inner = scope.with(member);
            if self.true_for_some(indexes, at + 1, p, &inner) {
                return true;
            }
        }
        false
    }
}
