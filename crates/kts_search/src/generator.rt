ghost use Rattle.std.specs.Prelude.{◌≡◌, ◌+◌, ◌-◌, ◌^◌, ◌<◌, ◌≤◌, ◌++◌, length, map, min, IfOk, OnOk, IfErr};
ghost use Rattle.kts_base.specs.Limits.{most_instructions};
ghost use Rattle.kts_emit.specs.Bodies.{body_code};
ghost use Rattle.kts_emit.specs.BodyRuns.{bodies_code, entries_from};
ghost use Rattle.kts_emit.specs.BodyWeights.{length_of_body};
ghost use Rattle.kts_emit.specs.ClauseCode.{clause_code, length_of_clause};
ghost use Rattle.kts_plan.specs.Constraints.{clause_at, constraint_of};
ghost use Rattle.kts_search.specs.ClauseFilters.{filters_by, weight_by};
ghost use Rattle.kts_search.specs.Instrs.{head, tail};
ghost use Rattle.kts_search.specs.WholeFaults.{HasShortPrefixes, IsNamed, IsWholeFault, instrs_of};
ghost use Rattle.kts_search.specs.WholeScheme.{bodies_count, length_of_whole, whole_scheme};

use kts_base::{GENERATED_STACK, List, MAX_INSTRUCTIONS, NoMemory};
use kts_classify::{classify, patterns, task_schema};
use kts_clause::Clause;
use kts_code::{Code, Instr};
use kts_emit::{Buffer, EmitFault, emit_body, emit_clause, length_body, length_clause};
use kts_plan::{Definite, Plan};
use kts_spec::Spec;
use std::alloc::Global;

/// How many instructions stand around the filters.
const AROUND_FILTERS: u32 = 9;

/// Why no code was generated.
#[derive(Clone, Copy, Debug, PartialEq, Eq)]
pub enum GenFault {
    /// The code would have so many instructions; a count past the type's end stops there.
    TooLong(u64),
    /// Memory was refused.
    NoMemory,
}

impl From<NoMemory> for GenFault {
    ghost use Rattle.std.specs.Prelude.{◌≡◌};
    ghost use Rattle.kts_search.specs.declared.generator.GenFault.TheVariants.{NoMemory as NoMemoryFault};

    ghost from_gives = { λ _ fault. fault ≡ NoMemoryFault };

    fn from(_refused: NoMemory) -> GenFault {
        GenFault::NoMemory
    }
}

/// The code of a specification, whose length is counted before it is made.
pub fn generate(alloc: Global, spec: &Spec) -> Result<Code, GenFault>
    ensures code { IfOk result (λ code. whole_scheme spec.now ≡ Some code) }
    ensures short { OnOk result (length_of_whole spec.now ≤ MAX_INSTRUCTIONS) }
    ensures fault { IfErr result (IsWholeFault spec.now) }
{
    let plan = classify(alloc, spec)?;
    let filters = filters_length(&plan);
    let length = filters
        .saturating_add(bodies_length(&plan))
        .saturating_add(AROUND_FILTERS as u64);
    if length > MAX_INSTRUCTIONS as u64 {
        return Err(GenFault::TooLong(length));
    }
    let schema = task_schema(alloc, spec, &plan)?;
    let index = patterns(alloc, &plan)?;
    let entries = entries(alloc, &plan, filters as u32 + AROUND_FILTERS)?;
    let instrs = instructions(alloc, &plan, filters as u32)?;
    let code = Code::new(schema, entries, index, GENERATED_STACK, instrs);
    Ok(code)
}

/// The clause of this number.
fn clause_of(plan: &Plan, number: u32) -> &Clause
    requires { number < length plan.now.clauses }
    ensures { result.now ≡ clause_at plan.now.clauses number }
{
    &plan.clauses().as_slice()[number as usize]
}

/// How many instructions the filters have; a count past the type's end stops there.
fn filters_length(plan: &Plan) -> u64
    ensures { result ≡ min (weight_by length_of_clause (map (clause_at plan.now.clauses) plan.now.residuals)) (2 ^ 64 - 1) }
{
    let numbers = plan.residuals().as_slice();
    let mut count: u64 = 0;
    for number in numbers {
        count = count
            .saturating_add(length_clause(clause_of(plan, *number)))
            .saturating_add(1);
    }
    count
}

/// How many instructions the body of a constraint has.
fn body_length(plan: &Plan, definite: &Definite) -> u64
    requires { IsNamed plan.now.clauses definite.now }
    ensures { result ≡ min (length_of_body (constraint_of plan.now.clauses definite.now)) (2 ^ 64 - 1) }
{
    length_body(clause_of(plan, definite.clause()), definite)
}

/// The same of all bodies.
fn bodies_length(plan: &Plan) -> u64
    ensures { result ≡ min (bodies_count (map (constraint_of plan.now.clauses) plan.now.definites)) (2 ^ 64 - 1) }
{
    let definites = plan.definites().as_slice();
    let mut count: u64 = 0;
    for definite in definites {
        count = count.saturating_add(body_length(plan, definite));
    }
    count
}

/// Where the body of each constraint begins, the first at this place.
fn entries(alloc: Global, plan: &Plan, first: u32) -> Result<List<u32>, NoMemory>
    requires { first + bodies_count (map (constraint_of plan.now.clauses) plan.now.definites) ≤ most_instructions }
    ensures { IfOk result (λ entries. entries ≡ entries_from first (map (constraint_of plan.now.clauses) plan.now.definites)) }
{
    let definites = plan.definites().as_slice();
    let mut entries = List::new(alloc);
    let mut place = first;
    for definite in definites {
        entries.push(place)?;
        place += body_length(plan, definite) as u32;
    }
    Ok(entries)
}

// All instructions, whose labels are those for so many instructions of the filters. There is room for all of them, so a buffer
// takes no more only where memory is refused.
fn instructions(alloc: Global, plan: &Plan, count: u32) -> Result<List<Instr>, NoMemory>
    requires few { count < 2 ^ 31 }
    requires counted { count ≡ weight_by length_of_clause (map (clause_at plan.now.clauses) plan.now.residuals) }
    requires short { HasShortPrefixes plan.now }
    ensures { IfOk result (λ instrs. instrs ≡ instrs_of plan.now) }
{
    match instruction_buffer(alloc, plan, count) {
        Ok(code) => Ok(code.into_instrs()),
        Err(_) => Err(NoMemory),
    }
}

fn instruction_buffer(alloc: Global, plan: &Plan, count: u32) -> Result<Buffer, EmitFault>
    requires few { count < 2 ^ 31 }
    requires counted { count ≡ weight_by length_of_clause (map (clause_at plan.now.clauses) plan.now.residuals) }
    requires short { HasShortPrefixes plan.now }
    ensures { IfOk result (λ code. code.instrs ≡ instrs_of plan.now) }
{
    let mut code = Buffer::new(alloc, 0)?;
    emit_head(&mut code, count)?;
    emit_filters(&mut code, plan, 6 + count)?;
    emit_tail(&mut code, count)?;
    emit_bodies(&mut code, plan, 6 + count)?;
    Ok(code)
}

// Appends the loop up to its filters.
fn emit_head(code: &mut Buffer, count: u32) -> Result<(), EmitFault>
    requires { count < 2 ^ 31 }
    ensures { OnOk result (code.new.instrs ≡ code.old.instrs ++ head count) }
{
    code.push(Instr::Start(8 + count))?;
    code.push(Instr::Take(2))?;
    code.push(Instr::Node)
}

/// Appends the code of each clause without a head, with a test that goes to the label where it is false.
fn emit_filters(code: &mut Buffer, plan: &Plan, to: u32) -> Result<(), EmitFault>
    ensures { OnOk result (code.new.instrs ≡ code.old.instrs ++ filters_by clause_code (map (clause_at plan.now.clauses) plan.now.residuals) (length code.old.instrs) to) }
{
    let numbers = plan.residuals().as_slice();
    for number in numbers {
        emit_clause(code, clause_of(plan, *number))?;
        code.push(Instr::Test(to))?;
    }
    Ok(())
}

// Appends the loop behind its filters.
fn emit_tail(code: &mut Buffer, count: u32) -> Result<(), EmitFault>
    requires { count < 2 ^ 31 }
    ensures { OnOk result (code.new.instrs ≡ code.old.instrs ++ tail count) }
{
    code.push(Instr::Pick(5 + count))?;
    code.push(Instr::Jump(1))?;
    code.push(Instr::Emit)?;
    code.push(Instr::Back(8 + count))?;
    code.push(Instr::Jump(1))?;
    code.push(Instr::Halt)
}

/// Appends the body of a constraint.
fn emit_constraint(
    code: &mut Buffer,
    plan: &Plan,
    definite: &Definite,
    fail: u32,
) -> Result<(), EmitFault>
    requires named { IsNamed plan.now.clauses definite.now }
    requires short { HasShortPrefixes plan.now }
    ensures { OnOk result (code.new.instrs ≡ code.old.instrs ++ body_code (constraint_of plan.now.clauses definite.now) 1 fail (length code.old.instrs) (length (constraint_of plan.now.clauses definite.now).prefix)) }
{
    emit_body(code, clause_of(plan, definite.clause()), definite, 1, fail)
}

/// Appends the bodies of all constraints. The run goes on at the head of the loop when a task is done, and at `fail` when
/// nothing is left of a cell.
fn emit_bodies(code: &mut Buffer, plan: &Plan, fail: u32) -> Result<(), EmitFault>
    requires { HasShortPrefixes plan.now }
    ensures { OnOk result (code.new.instrs ≡ code.old.instrs ++ bodies_code 1 fail (map (constraint_of plan.now.clauses) plan.now.definites) (length code.old.instrs)) }
{
    let definites = plan.definites().as_slice();
    for definite in definites {
        emit_constraint(code, plan, definite, fail)?;
    }
    Ok(())
}
