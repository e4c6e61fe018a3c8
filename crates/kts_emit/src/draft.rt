ghost use Rattle.std.specs.Prelude.{◌≡◌, ◌+◌, ◌*◌, ◌<◌, ◌≤◌, ◌++◌, [], ◌∷◌, suc, map, length, IfOk, OnOk};
ghost use Rattle.kts_base.specs.Limits.{most_instructions};
ghost use Rattle.kts_code.specs.declared.instructions.Instr.TheVariants.{First, Add as AddInstr};
ghost use Rattle.kts_emit.specs.Fragments.{sequence, chain, nested_loops};
ghost use Rattle.kts_emit.specs.Codes.{term_code, formula_code, is_turned, test_code};
ghost use Rattle.kts_emit.specs.Drafts.{openings, with_end, with_ends};

use kts_base::{List, MAX_INSTRUCTIONS, NoMemory};
use kts_code::Instr;
use kts_spec::{Comparison, Formula, Term};

// Code is drafted apart from the buffer that it is for, so that a refusal leaves the buffer as it is. `base` is the place at which
// the draft will stand.

/// The place behind the draft. A draft is begun only where it fits, so that it is never refused.
fn place(draft: &List<Instr>, base: u32) -> Result<u32, NoMemory>
    ensures count { IfOk result (λ p. p ≡ base + length draft.now) }
    ensures small { IfOk result (λ p. p ≤ most_instructions) }
{
    let count = draft.len();
    let base = base as usize;
    if count > MAX_INSTRUCTIONS || base > MAX_INSTRUCTIONS - count {
        return Err(NoMemory);
    }
    Ok((base + count) as u32)
}

/// One variable more. At most eight are in scope, so that it is never refused.
fn deeper(scope: u8) -> Result<u8, NoMemory>
    ensures { IfOk result (λ s. s ≡ suc scope) }
{
    if scope == u8::MAX {
        return Err(NoMemory);
    }
    Ok(scope + 1)
}

/// Appends what stands before the body of a loop, its label open.
fn open_loop(draft: &mut List<Instr>, scope: u8, start: Instr, index: u32) -> Result<(), NoMemory>
    ensures { OnOk result (draft.new ≡ draft.old ++ (start ∷ First scope index 0 ∷ [])) }
{
    draft.push(start)?;
    draft.push(Instr::First(scope, index, 0))?;
    Ok(())
}

/// Appends the end of the loop that begins `at` so many instructions, and sets its label.
fn close_loop(
    draft: &mut List<Instr>,
    base: u32,
    scope: u8,
    index: u32,
    at: usize,
) -> Result<(), NoMemory>
    requires { at + 1 < length draft.old }
    ensures { OnOk result (draft.new ≡ with_end base scope index at draft.old) }
{
    let end = place(draft, base)?;
    let body = base + at as u32 + 1 + 1;
    draft.push(Instr::Next(scope, body))?;
    draft.set(at + 1, Instr::First(scope, index, end + 1));
    Ok(())
}

/// Appends what stands before the body of nested loops, and gives the number of variables in it.
pub fn open_loops(
    draft: &mut List<Instr>,
    scope: u8,
    start: Instr,
    indexes: &[u32],
) -> Result<u8, NoMemory>
    ensures code { OnOk result (draft.new ≡ draft.old ++ openings start indexes.now scope) }
    ensures depth { IfOk result (λ n. n ≡ scope + length indexes.now) }
{
    let mut depth = scope;
    for index in indexes {
        open_loop(draft, depth, start, *index)?;
        depth = deeper(depth)?;
    }
    Ok(depth)
}

/// Appends the ends of nested loops of which the first begins `at` so many instructions.
pub fn close_loops(
    draft: &mut List<Instr>,
    base: u32,
    scope: u8,
    join: Instr,
    indexes: &[u32],
    at: usize,
) -> Result<(), NoMemory>
    requires { at + 2 * length indexes.now ≤ length draft.old }
    ensures code { OnOk result (draft.new ≡ with_ends base join indexes.now at scope draft.old) }
    ensures more { OnOk result (length draft.old ≤ length draft.new) }
{
    match indexes.split_first() {
        None => Ok(()),
        Some((index, rest)) => {
            // It bounds the sums.
            let _count = draft.len();
            let inner = deeper(scope)?;
            close_loops(draft, base, inner, join, rest, at + 1 + 1)?;
            draft.push(join)?;
            close_loop(draft, base, scope, *index, at)
        }
    }
}

/// Whether the second side of a comparison is pushed before the first.
fn is_turned(comparison: Comparison) -> bool
    ensures { result ≡ is_turned comparison }
{
    matches!(comparison, Comparison::Lt | Comparison::Ge)
}

/// Appends what tests the two sides of a comparison.
fn draft_test(draft: &mut List<Instr>, comparison: Comparison) -> Result<(), NoMemory>
    ensures { OnOk result (draft.new ≡ draft.old ++ test_code comparison) }
{
    match comparison {
        Comparison::Le | Comparison::Ge => draft.push(Instr::Le)?,
        Comparison::Lt | Comparison::Gt => {
            draft.push(Instr::Le)?;
            draft.push(Instr::Not)?;
        }
        Comparison::Eq => draft.push(Instr::Eq)?,
        Comparison::Ne => {
            draft.push(Instr::Eq)?;
            draft.push(Instr::Not)?;
        }
        Comparison::Same => draft.push(Instr::Same)?,
        Comparison::Other => {
            draft.push(Instr::Same)?;
            draft.push(Instr::Not)?;
        }
    }
    Ok(())
}

/// Appends the code of a term, with so many variables in scope.
#[cycle(draft)]
#[tactic(auto, using(crate::proofs::CodeEquations::code_forms))]
pub fn draft_term(
    draft: &mut List<Instr>,
    base: u32,
    scope: u8,
    term: &Term,
) -> Result<(), NoMemory>
    ensures { OnOk result (draft.new ≡ draft.old ++ term_code term.now (base + length draft.old) scope) }
{
    match term {
        Term::Number(n) => draft.push(Instr::Num(*n))?,
        Term::Var(k) => draft.push(Instr::Var(*k))?,
        Term::Given(f, args) => {
            draft_terms(draft, base, scope, args.as_slice())?;
            draft.push(Instr::Given(*f))?;
        }
        Term::Choice(x, args) => {
            draft_terms(draft, base, scope, args.as_slice())?;
            draft.push(Instr::Choice(*x))?;
        }
        Term::Add(parts) => draft_sum(draft, base, scope, parts.as_slice())?,
        Term::Sub(parts) => {
            draft_terms(draft, base, scope, parts.as_slice())?;
            draft.push(Instr::Sub)?;
        }
        Term::Mul(parts) => {
            draft_terms(draft, base, scope, parts.as_slice())?;
            draft.push(Instr::Mul)?;
        }
        Term::Min(parts) => {
            draft_terms(draft, base, scope, parts.as_slice())?;
            draft.push(Instr::Min)?;
        }
        Term::Max(parts) => {
            draft_terms(draft, base, scope, parts.as_slice())?;
            draft.push(Instr::Max)?;
        }
        Term::Sum(index, p, a) => {
            let at = draft.len();
            let inner = deeper(scope)?;
            open_loop(draft, scope, Instr::Num(0), *index)?;
            draft_formula(draft, base, inner, p.get())?;
            draft_term(draft, base, inner, a.get())?;
            draft.push(Instr::Gate)?;
            draft.push(Instr::Add)?;
            close_loop(draft, base, scope, *index, at)?;
        }
    }
    Ok(())
}

/// Appends the codes of several terms, one after the other.
#[cycle(draft)]
pub fn draft_terms(
    draft: &mut List<Instr>,
    base: u32,
    scope: u8,
    parts: &[Term],
) -> Result<(), NoMemory>
    ensures { OnOk result (draft.new ≡ draft.old ++ sequence (map term_code parts.now) (base + length draft.old) scope) }
{
    for part in parts {
        draft_term(draft, base, scope, part)?;
    }
    Ok(())
}

/// Appends the code of a sum of several terms.
#[cycle(draft)]
fn draft_sum(draft: &mut List<Instr>, base: u32, scope: u8, parts: &[Term]) -> Result<(), NoMemory>
    ensures { OnOk result (draft.new ≡ draft.old ++ chain AddInstr (map term_code parts.now) (base + length draft.old) scope) }
{
    let mut first = true;
    for part in parts {
        draft_term(draft, base, scope, part)?;
        if !first {
            draft.push(Instr::Add)?;
        }
        first = false;
    }
    Ok(())
}

/// Appends the code of several formulas that an instruction joins.
#[cycle(draft)]
fn draft_chain(
    draft: &mut List<Instr>,
    base: u32,
    scope: u8,
    join: Instr,
    parts: &[Formula],
) -> Result<(), NoMemory>
    ensures { OnOk result (draft.new ≡ draft.old ++ chain join (map formula_code parts.now) (base + length draft.old) scope) }
{
    let mut first = true;
    for part in parts {
        draft_formula(draft, base, scope, part)?;
        if !first {
            draft.push(join)?;
        }
        first = false;
    }
    Ok(())
}

/// Appends the code of a formula under binders.
#[cycle(draft)]
fn draft_bound(
    draft: &mut List<Instr>,
    base: u32,
    scope: u8,
    start: Instr,
    join: Instr,
    indexes: &[u32],
    p: &Formula,
) -> Result<(), NoMemory>
    ensures { OnOk result (draft.new ≡ draft.old ++ nested_loops start join indexes.now (formula_code p.now) (base + length draft.old) scope) }
{
    let at = draft.len();
    let inner = open_loops(draft, scope, start, indexes)?;
    draft_formula(draft, base, inner, p)?;
    close_loops(draft, base, scope, join, indexes, at)?;
    Ok(())
}

/// Appends the code of a formula, with so many variables in scope.
#[cycle(draft)]
#[tactic(auto, using(crate::proofs::CodeEquations::code_forms))]
pub fn draft_formula(
    draft: &mut List<Instr>,
    base: u32,
    scope: u8,
    formula: &Formula,
) -> Result<(), NoMemory>
    ensures { OnOk result (draft.new ≡ draft.old ++ formula_code formula.now (base + length draft.old) scope) }
{
    match formula {
        Formula::Compare(comparison, a, b) => {
            if is_turned(*comparison) {
                draft_term(draft, base, scope, b)?;
                draft_term(draft, base, scope, a)?;
                draft_test(draft, *comparison)?;
            } else {
                draft_term(draft, base, scope, a)?;
                draft_term(draft, base, scope, b)?;
                draft_test(draft, *comparison)?;
            }
        }
        Formula::And(parts) => draft_chain(draft, base, scope, Instr::And, parts.as_slice())?,
        Formula::Or(parts) => draft_chain(draft, base, scope, Instr::Or, parts.as_slice())?,
        Formula::Not(p) => {
            draft_formula(draft, base, scope, p.get())?;
            draft.push(Instr::Not)?;
        }
        Formula::Implies(p, q) => {
            draft_formula(draft, base, scope, p.get())?;
            draft.push(Instr::Not)?;
            draft_formula(draft, base, scope, q.get())?;
            draft.push(Instr::Or)?;
        }
        Formula::Forall(indexes, p) => {
            let indexes = indexes.as_slice();
            draft_bound(
                draft,
                base,
                scope,
                Instr::True,
                Instr::And,
                indexes,
                p.get(),
            )?;
        }
        Formula::Exists(indexes, p) => {
            let indexes = indexes.as_slice();
            draft_bound(
                draft,
                base,
                scope,
                Instr::False,
                Instr::Or,
                indexes,
                p.get(),
            )?;
        }
    }
    Ok(())
}
