ghost use Rattle.std.specs.Prelude.{◌≡◌, ◌++◌, map, true, false, OnOk};
ghost use Rattle.kts_plan.specs.Heads.{heads_of};
ghost use Rattle.kts_spec.specs.Addends.{negation};
ghost use Rattle.kts_classify.specs.HeadPlaces.{definite_at, signed_comparison};

use crate::comparison_heads::add_comparison_heads;
use crate::place::Place;
use kts_base::{List, NoMemory};
use kts_clause::Literal;
use kts_plan::Definite;
use kts_spec::{Comparison, Formula};
use std::alloc::Global;

/// Appends the constraints of a literal.
pub fn add_literal_heads(
    alloc: Global,
    at: Place,
    literal: &Literal,
    definites: &mut List<Definite>,
) -> Result<(), NoMemory>
    ensures { OnOk result (definites.new ≡ definites.old ++ map (definite_at at) (heads_of literal.now)) }
{
    match literal.formula() {
        Formula::Compare(comparison, a, b) => {
            let comparison = signed(*comparison, literal.negative());
            add_comparison_heads(alloc, at, comparison, a, b, definites)
        }
        _ => Ok(()),
    }
}

// A comparison, or its negation.
fn signed(comparison: Comparison, negative: bool) -> Comparison
    ensures { result ≡ signed_comparison comparison negative }
{
    if negative {
        return negation(comparison);
    }
    comparison
}

fn negation(comparison: Comparison) -> Comparison
    ensures { result ≡ negation comparison }
{
    match comparison {
        Comparison::Le => Comparison::Gt,
        Comparison::Lt => Comparison::Ge,
        Comparison::Ge => Comparison::Lt,
        Comparison::Gt => Comparison::Le,
        Comparison::Eq => Comparison::Ne,
        Comparison::Ne => Comparison::Eq,
        Comparison::Same => Comparison::Other,
        Comparison::Other => Comparison::Same,
    }
}
