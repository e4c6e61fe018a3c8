ghost use Rattle.std.specs.Prelude.{◌≡◌, ◌++◌, map, OnOk};
ghost use Rattle.kts_plan.specs.BareAccesses.{bare as bare_lem};
ghost use Rattle.kts_plan.specs.Heads.{head_of, heads_below, heads_of_assertion, heads_of_sum};
ghost use Rattle.kts_plan.specs.Assertions.{comparison_assertion};
ghost use Rattle.kts_plan.specs.declared.bound.Bound.TheVariants.{Side};
ghost use Rattle.kts_spec.specs.Addends.{addends_between, minus};
ghost use Rattle.kts_classify.specs.HeadPlaces.{definite_at, heads_in_sum};

use crate::addends::difference;
use crate::bare::bare;
use crate::place::Place;
use crate::sum_heads::{add_sum_heads, push_head};
use kts_abs::Op;
use kts_base::{List, NoMemory};
use kts_plan::{Bound, Definite};
use kts_spec::{Comparison, Term};
use std::alloc::Global;

/// Appends the constraints of a comparison of two terms.
pub fn add_comparison_heads(
    alloc: Global,
    at: Place,
    comparison: Comparison,
    a: &Term,
    b: &Term,
    definites: &mut List<Definite>,
) -> Result<(), NoMemory>
    ensures { OnOk result (definites.new ≡ definites.old ++ map (definite_at at) (heads_of_assertion (comparison_assertion comparison a.now b.now))) }
{
    match comparison {
        Comparison::Le => add_difference(alloc, at, false, a, b, definites),
        Comparison::Lt => add_less(alloc, at, a, b, definites),
        Comparison::Ge => add_difference(alloc, at, false, b, a, definites),
        Comparison::Gt => add_less(alloc, at, b, a, definites),
        Comparison::Eq => add_difference(alloc, at, true, a, b, definites),
        Comparison::Ne => Ok(()),
        Comparison::Same => add_sides(alloc, at, Op::Within, a, b, definites),
        Comparison::Other => add_sides(alloc, at, Op::Without, a, b, definites),
    }
}

// Appends those of `a - b`, where that is 0, or at most 0.
fn add_difference(
    alloc: Global,
    at: Place,
    zero: bool,
    a: &Term,
    b: &Term,
    definites: &mut List<Definite>,
) -> Result<(), NoMemory>
    ensures { OnOk result (definites.new ≡ definites.old ++ map (definite_at at) (heads_of_sum (heads_in_sum zero) (minus a.now b.now))) }
{
    let sum = difference(alloc, a, b)?;
    add_sum_heads(alloc, at, zero, sum.as_slice(), definites)
}

// Appends those of `a - b + 1`, where that is at most 0.
fn add_less(
    alloc: Global,
    at: Place,
    a: &Term,
    b: &Term,
    definites: &mut List<Definite>,
) -> Result<(), NoMemory>
    ensures { OnOk result (definites.new ≡ definites.old ++ map (definite_at at) (heads_of_sum heads_below (addends_between Comparison.Lt a.now b.now))) }
{
    let one = Term::Number(1);
    let mut sum = difference(alloc, a, b)?;
    sum.push((false, &one))?;
    add_sum_heads(alloc, at, false, sum.as_slice(), definites)
}

// Appends those of two members: of the left side, then of the right one.
fn add_sides(
    alloc: Global,
    at: Place,
    op: Op,
    a: &Term,
    b: &Term,
    definites: &mut List<Definite>,
) -> Result<(), NoMemory>
    ensures { OnOk result (definites.new ≡ definites.old ++ map (definite_at at) (head_of op (Side b.now) (bare_lem a.now) ++ head_of op (Side a.now) (bare_lem b.now))) }
{
    add_side(alloc, at, op, a, b, definites)?;
    add_side(alloc, at, op, b, a, definites)
}

// Appends the one of a side, where that is an access, by the other.
fn add_side(
    alloc: Global,
    at: Place,
    op: Op,
    side: &Term,
    other: &Term,
    definites: &mut List<Definite>,
) -> Result<(), NoMemory>
    ensures { OnOk result (definites.new ≡ definites.old ++ map (definite_at at) (head_of op (Side other.now) (bare_lem side.now))) }
{
    match bare(side) {
        None => Ok(()),
        Some((choice, args)) => {
            let bound = Bound::Side(other.copy(alloc)?);
            push_head(alloc, at, choice, args, op, bound, definites)
        }
    }
}
