ghost use Rattle.std.specs.Prelude.{◌≡◌, ◌-◌, ◌^◌, ◌<◌, map, min, length};
ghost use Rattle.kts_emit.specs.Bodies.{constraint_in};
ghost use Rattle.kts_emit.specs.BodyWeights.{literal_weight, later_weight, sum_weight, bound_weight, head_weight, length_of_body};
ghost use Rattle.kts_emit.specs.Weights.{once, chain_rest_weight};
ghost use Rattle.kts_plan.specs.Heads.{all_but};

use crate::lengths::{length_formula, length_term, sequence_length};
use kts_clause::{Clause, Literal};
use kts_plan::{Bound, Definite, Head};
use kts_spec::Term;

/// How many instructions the body of a constraint of this clause has; a count past the type's end stops there.
pub fn length_body(clause: &Clause, definite: &Definite) -> u64
    requires { definite.now.literal < length clause.now.literals }
    ensures { result ≡ min (length_of_body (constraint_in clause.now definite.now)) (2 ^ 64 - 1) }
{
    let literals = clause.literals().as_slice();
    others_length(literals, definite.literal() as usize).saturating_add(head_length(
        definite.head(),
    ))
}

/// The same of the literals but for the one of this number, each with its test.
fn others_length(literals: &[Literal], k: usize) -> u64
    requires { k < length literals.now }
    ensures { result ≡ min (chain_rest_weight (map (literal_weight once) (all_but k literals.now))) (2 ^ 64 - 1) }
{
    needs_length(&literals[..k]).saturating_add(needs_length(&literals[k + 1..]))
}

fn needs_length(literals: &[Literal]) -> u64
    ensures { result ≡ min (chain_rest_weight (map (literal_weight once) literals.now)) (2 ^ 64 - 1) }
{
    let mut count: u64 = 0;
    for literal in literals {
        count = count
            .saturating_add(literal_length(literal))
            .saturating_add(1);
    }
    count
}

pub fn literal_length(literal: &Literal) -> u64
    ensures { result ≡ min (literal_weight once literal.now) (2 ^ 64 - 1) }
{
    let formula = length_formula(literal.formula());
    if literal.negative() {
        formula.saturating_add(1)
    } else {
        formula
    }
}

/// The same of the arguments of a head, its bound, its step and the way back.
fn head_length(head: &Head) -> u64
    ensures { result ≡ min (head_weight once head.now) (2 ^ 64 - 1) }
{
    sequence_length(head.args().as_slice())
        .saturating_add(bound_length(head.bound()))
        .saturating_add(2)
}

fn bound_length(bound: &Bound) -> u64
    ensures { result ≡ min (bound_weight once bound.now) (2 ^ 64 - 1) }
{
    match bound {
        Bound::Rest(addends) => addends_length(addends.as_slice()),
        Bound::Side(term) => length_term(term),
    }
}

/// The same of a signed sum.
fn addends_length(addends: &[(bool, Term)]) -> u64
    ensures { result ≡ min (sum_weight once addends.now) (2 ^ 64 - 1) }
{
    match addends.split_first() {
        None => 1,
        Some((first, later)) => length_term(&first.1)
            .saturating_add(if first.0 { 2 } else { 0 })
            .saturating_add(later_length(later)),
    }
}

fn later_length(addends: &[(bool, Term)]) -> u64
    ensures { result ≡ min (later_weight once addends.now) (2 ^ 64 - 1) }
{
    let mut count: u64 = 0;
    for addend in addends {
        count = count
            .saturating_add(length_term(&addend.1))
            .saturating_add(1);
    }
    count
}
