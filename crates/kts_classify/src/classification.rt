ghost use Rattle.std.specs.Prelude.{◌≡◌, ◌<◌, ◌++◌, ◌∷◌, [], ◌^◌, length, if◌then◌else◌, IfOk, OnOk};
ghost use Rattle.kts_clause.specs.declared.clause.Clause.{Clause};
ghost use Rattle.kts_plan.specs.Plans.{IsPlanOf, clauses_of_spec, definites_of_clause};

use crate::literal_heads::add_literal_heads;
use crate::place::Place;
use kts_base::{List, NoMemory};
use kts_clause::{Clause, append_clauses};
use kts_plan::{Definite, Plan};
use kts_spec::Spec;
use std::alloc::Global;

/// The plan of a specification: every constraint and every residual clause, in order.
pub fn classify(alloc: Global, spec: &Spec) -> Result<Plan, NoMemory>
    ensures { IfOk result (λ plan. IsPlanOf spec.now plan) }
{
    let clauses = clauses_of_spec(alloc, spec)?;
    let mut definites = List::new(alloc);
    let mut residuals = List::new(alloc);
    for (number, clause) in clauses.as_slice().iter().enumerate() {
        let before = definites.len();
        add_definites(alloc, number as u32, clause, &mut definites)?;
        push_if(definites.len() == before, number as u32, &mut residuals)?;
    }
    Ok(Plan::new(clauses, definites, residuals))
}

// The clauses of all formulas, in order.
fn clauses_of_spec(alloc: Global, spec: &Spec) -> Result<List<Clause>, NoMemory>
    ensures { IfOk result (λ clauses. clauses ≡ clauses_of_spec spec.now) }
{
    let mut clauses = List::new(alloc);
    for (number, formula) in spec.formulas().as_slice().iter().enumerate() {
        append_clauses(alloc, number as u32, &formula.1, &mut clauses)?;
    }
    Ok(clauses)
}

// Appends the constraints of a clause.
fn add_definites(
    alloc: Global,
    number: u32,
    clause: &Clause,
    definites: &mut List<Definite>,
) -> Result<(), NoMemory>
    requires { length clause.now.literals < 2 ^ 32 }
    ensures { OnOk result (definites.new ≡ definites.old ++ definites_of_clause (number, clause.now)) }
{
    for (k, literal) in clause.literals().as_slice().iter().enumerate() {
        let at = Place {
            clause: number,
            literal: k as u32,
        };
        add_literal_heads(alloc, at, literal, definites)?;
    }
    Ok(())
}

// Appends the number where that is wanted.
fn push_if(wanted: bool, number: u32, numbers: &mut List<u32>) -> Result<(), NoMemory>
    ensures { OnOk result (numbers.new ≡ numbers.old ++ (if wanted then number ∷ [] else [])) }
{
    if !wanted {
        return Ok(());
    }
    numbers.push(number)
}
