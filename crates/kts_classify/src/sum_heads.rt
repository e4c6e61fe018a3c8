ghost use Rattle.std.specs.Prelude.{◌≡◌, ◌<◌, ◌++◌, ◌∷◌, [], length, map, IfOk, OnOk};
ghost use Rattle.kts_plan.specs.Heads.{all_but, heads_of_sum, op_below as op_below_lem, rest as rest_lem};
ghost use Rattle.kts_classify.specs.HeadPlaces.{addend_at, definite_at, heads_in_sum};
ghost use Rattle.kts_classify.specs.SignedTerms.{addend_of, sign_of, signed_as};

use crate::bare::bare;
use crate::place::Place;
use kts_abs::Op;
use kts_base::{List, NoMemory};
use kts_plan::{Bound, Definite, Head};
use kts_spec::{Term, copy_terms};
use std::alloc::Global;

/// Appends the constraints of a sum that is 0, or at most 0.
pub fn add_sum_heads(
    alloc: Global,
    at: Place,
    zero: bool,
    sum: &[(bool, &Term)],
    definites: &mut List<Definite>,
) -> Result<(), NoMemory>
    ensures { OnOk result (definites.new ≡ definites.old ++ map (definite_at at) (heads_of_sum (heads_in_sum zero) (map (λ t. addend_of t.0 t.1.now) sum.now))) }
{
    for k in 0..sum.len() {
        add_addend_heads(alloc, at, zero, sum, k, definites)?;
    }
    Ok(())
}

// Appends the constraints of the addend of this number: an upper bound where it is added, a lower one where it is taken away,
// and both where the sum is 0.
fn add_addend_heads(
    alloc: Global,
    at: Place,
    zero: bool,
    sum: &[(bool, &Term)],
    k: usize,
    definites: &mut List<Definite>,
) -> Result<(), NoMemory>
    requires { k < length sum.now }
    ensures { OnOk result (definites.new ≡ definites.old ++ map (definite_at at) (let addends = map (λ t. addend_of t.0 t.1.now) sum.now in heads_in_sum zero (addend_at addends k) (all_but k addends))) }
{
    let (minus, term) = sum[k];
    match bare(term) {
        None => Ok(()),
        Some((choice, args)) => {
            let bound = rest(alloc, sum, k, minus)?;
            if !zero {
                return push_head(alloc, at, choice, args, op_below(minus), bound, definites);
            }
            push_head(alloc, at, choice, args, Op::AtLeast, bound, definites)?;
            let bound = rest(alloc, sum, k, minus)?;
            push_head(alloc, at, choice, args, Op::AtMost, bound, definites)
        }
    }
}

// How an addend is bounded in a sum that is at most 0.
fn op_below(minus: bool) -> Op
    ensures { result ≡ op_below_lem (sign_of minus) }
{
    if minus { Op::AtLeast } else { Op::AtMost }
}

/// Appends the constraint of a head with these parts.
pub fn push_head(
    alloc: Global,
    at: Place,
    choice: u32,
    args: &[Term],
    op: Op,
    bound: Bound,
    definites: &mut List<Definite>,
) -> Result<(), NoMemory>
    ensures { OnOk result (definites.new ≡ definites.old ++ definite_at at (record { choice = choice; args = args.now; op = op; bound = bound }) ∷ []) }
{
    let args = copy_terms(alloc, args)?;
    let head = Head::new(choice, args, op, bound);
    definites.push(Definite::new(at.clause, at.literal, head))
}

// The addends but for the one of this number, of the sign that bounds that one.
fn rest(alloc: Global, sum: &[(bool, &Term)], k: usize, minus: bool) -> Result<Bound, NoMemory>
    requires { k < length sum.now }
    ensures { IfOk result (λ bound. bound ≡ rest_lem (sign_of minus) (all_but k (map (λ t. addend_of t.0 t.1.now) sum.now))) }
{
    let mut terms = List::with_capacity(alloc, sum.len() - 1)?;
    append_terms(alloc, &sum[..k], !minus, &mut terms)?;
    append_terms(alloc, &sum[k + 1..], !minus, &mut terms)?;
    Ok(Bound::Rest(terms))
}

fn append_terms(
    alloc: Global,
    sum: &[(bool, &Term)],
    turned: bool,
    terms: &mut List<(bool, Term)>,
) -> Result<(), NoMemory>
    ensures { OnOk result (terms.new ≡ terms.old ++ map (λ t. signed_as turned (addend_of t.0 t.1.now)) sum.now) }
{
    for (minus, term) in sum {
        terms.push((*minus != turned, term.copy(alloc)?))?;
    }
    Ok(())
}
