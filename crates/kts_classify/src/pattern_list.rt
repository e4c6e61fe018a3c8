ghost use Rattle.std.specs.Prelude.{◌≡◌, ◌≤◌, ◌<◌, ◌++◌, length, map, flat_map, IfOk, OnOk};
ghost use Rattle.kts_classify.specs.PlanPatterns.{access_pattern, constraint_patterns, definite_at, extended, patterns_of};
ghost use Rattle.kts_clause.specs.declared.literal.Literal.{Literal};
ghost use Rattle.kts_plan.specs.Constraints.{constraint_of};
ghost use Rattle.kts_plan.specs.Heads.{all_but};
ghost use Rattle.kts_plan.specs.TaskReads.{bound_reads};
ghost use Rattle.kts_spec.specs.Reads.{reads_in, reads_of};

use crate::accesses::{Reader, add_formula, add_term};
use kts_base::{List, NoMemory};
use kts_clause::Literal;
use kts_index::{Index, Pattern};
use kts_plan::{Bound, Plan};
use kts_spec::Term;
use std::alloc::Global;

/// For each constraint the patterns of the accesses that it reads, in order: those of its other
/// literals first, then those of its bound. A pattern that stands already for the constraint is left out.
pub fn patterns(alloc: Global, plan: &Plan) -> Result<Index, NoMemory>
    ensures { IfOk result (λ index. index ≡ patterns_of plan.now) }
{
    let mut patterns = List::new(alloc);
    for number in 0..plan.definites().len() {
        add_constraint(alloc, plan, number, &mut patterns)?;
    }
    Ok(Index::new(patterns))
}

// Appends those of the constraint of this number.
fn add_constraint(
    alloc: Global,
    plan: &Plan,
    number: usize,
    patterns: &mut List<Pattern>,
) -> Result<(), NoMemory>
    requires { number < length plan.now.definites }
    ensures { OnOk result (patterns.new ≡ patterns.old ++ constraint_patterns (number, constraint_of plan.now.clauses (definite_at plan.now.definites number))) }
{
    let definite = &plan.definites().as_slice()[number];
    let clause = &plan.clauses().as_slice()[definite.clause() as usize];
    let reader = Reader {
        definite: number as u32,
        variables: clause.prefix().len(),
        first: patterns.len(),
    };
    let literals = clause.literals().as_slice();
    add_others(
        alloc,
        reader,
        literals,
        definite.literal() as usize,
        patterns,
    )?;
    add_bound(alloc, reader, definite.head().bound(), patterns)
}

// Appends those of the literals but for the one of this number.
fn add_others(
    alloc: Global,
    reader: Reader,
    literals: &[Literal],
    k: usize,
    patterns: &mut List<Pattern>,
) -> Result<(), NoMemory>
    requires begun { reader.first ≤ length patterns.old }
    requires named { k < length literals.now }
    ensures { OnOk result (patterns.new ≡ extended reader.first patterns.old (map (access_pattern reader.definite reader.variables) (flat_map (λ (l : Literal). reads_in l.formula) (all_but k literals.now)))) }
{
    add_literals(alloc, reader, &literals[..k], patterns)?;
    add_literals(alloc, reader, &literals[k + 1..], patterns)
}

fn add_literals(
    alloc: Global,
    reader: Reader,
    literals: &[Literal],
    patterns: &mut List<Pattern>,
) -> Result<(), NoMemory>
    requires { reader.first ≤ length patterns.old }
    ensures { OnOk result (patterns.new ≡ extended reader.first patterns.old (map (access_pattern reader.definite reader.variables) (flat_map (λ (l : Literal). reads_in l.formula) literals.now))) }
{
    for literal in literals {
        add_formula(alloc, reader, literal.formula(), patterns)?;
    }
    Ok(())
}

fn add_bound(
    alloc: Global,
    reader: Reader,
    bound: &Bound,
    patterns: &mut List<Pattern>,
) -> Result<(), NoMemory>
    requires { reader.first ≤ length patterns.old }
    ensures { OnOk result (patterns.new ≡ extended reader.first patterns.old (map (access_pattern reader.definite reader.variables) (bound_reads bound.now))) }
{
    match bound {
        Bound::Rest(terms) => add_addends(alloc, reader, terms.as_slice(), patterns),
        Bound::Side(term) => add_term(alloc, reader, term, patterns),
    }
}

fn add_addends(
    alloc: Global,
    reader: Reader,
    terms: &[(bool, Term)],
    patterns: &mut List<Pattern>,
) -> Result<(), NoMemory>
    requires { reader.first ≤ length patterns.old }
    ensures { OnOk result (patterns.new ≡ extended reader.first patterns.old (map (access_pattern reader.definite reader.variables) (flat_map (λ t. reads_of t.1) terms.now))) }
{
    for (_, term) in terms {
        add_term(alloc, reader, term, patterns)?;
    }
    Ok(())
}
