ghost use Rattle.std.specs.Prelude.{◌≡◌, ◌+◌, ◌<◌, ◌≤◌, ◌++◌, map, length, OnOk};
ghost use Rattle.kts_base.specs.Limits.{most_variables};
ghost use Rattle.kts_code.specs.declared.instructions.Instr.TheVariants.{Need};
ghost use Rattle.kts_emit.specs.Fragments.{chain_rest};
ghost use Rattle.kts_emit.specs.Codes.{term_code};
ghost use Rattle.kts_emit.specs.Bodies.{literal_code, first_code, sign_instr, later_code, sum_code, bound_code, op_instr, head_code, body_code, constraint_in};
ghost use Rattle.kts_plan.specs.Heads.{all_but};

use crate::draft::{draft_formula, draft_term, draft_terms};
use kts_base::{List, NoMemory};
use kts_clause::{Clause, Literal};
use kts_code::Instr;
use kts_plan::{Bound, Definite, Head, Op};
use kts_spec::Term;

/// Appends the code of the body of a constraint of this clause.
pub fn draft_body(
    draft: &mut List<Instr>,
    base: u32,
    clause: &Clause,
    definite: &Definite,
    done: u32,
    fail: u32,
) -> Result<(), NoMemory>
    requires few { length clause.now.prefix ≤ most_variables }
    requires named { definite.now.literal < length clause.now.literals }
    ensures { OnOk result (draft.new ≡ draft.old ++ body_code (constraint_in clause.now definite.now) done fail (base + length draft.old) (length clause.now.prefix)) }
{
    let scope = clause.prefix().len() as u8;
    let literals = clause.literals().as_slice();
    draft_others(
        draft,
        base,
        scope,
        literals,
        definite.literal() as usize,
        done,
    )?;
    draft_head(draft, base, scope, definite.head(), done, fail)
}

/// Appends the code of the literals but for the one of this number, each of which has to be false.
fn draft_others(
    draft: &mut List<Instr>,
    base: u32,
    scope: u8,
    literals: &[Literal],
    k: usize,
    done: u32,
) -> Result<(), NoMemory>
    requires { k < length literals.now }
    ensures { OnOk result (draft.new ≡ draft.old ++ chain_rest (Need done) (map literal_code (all_but k literals.now)) (base + length draft.old) scope) }
{
    draft_needs(draft, base, scope, &literals[..k], done)?;
    draft_needs(draft, base, scope, &literals[k + 1..], done)
}

/// The same of all of them.
fn draft_needs(
    draft: &mut List<Instr>,
    base: u32,
    scope: u8,
    literals: &[Literal],
    done: u32,
) -> Result<(), NoMemory>
    ensures { OnOk result (draft.new ≡ draft.old ++ chain_rest (Need done) (map literal_code literals.now) (base + length draft.old) scope) }
{
    for literal in literals {
        draft_literal(draft, base, scope, literal)?;
        draft.push(Instr::Need(done))?;
    }
    Ok(())
}

pub fn draft_literal(
    draft: &mut List<Instr>,
    base: u32,
    scope: u8,
    literal: &Literal,
) -> Result<(), NoMemory>
    ensures { OnOk result (draft.new ≡ draft.old ++ literal_code literal.now (base + length draft.old) scope) }
{
    draft_formula(draft, base, scope, literal.formula())?;
    if literal.negative() {
        draft.push(Instr::Not)
    } else {
        Ok(())
    }
}

/// Appends the arguments of a head and its bound, its step, and the way back.
fn draft_head(
    draft: &mut List<Instr>,
    base: u32,
    scope: u8,
    head: &Head,
    done: u32,
    fail: u32,
) -> Result<(), NoMemory>
    ensures { OnOk result (draft.new ≡ draft.old ++ head_code head.now done fail (base + length draft.old) scope) }
{
    draft_terms(draft, base, scope, head.args().as_slice())?;
    draft_side(draft, base, scope, head.bound())?;
    draft.push(op_instr(head.op(), head.choice(), fail))?;
    draft.push(Instr::Jump(done))
}

/// The instruction of a head on a choice.
fn op_instr(op: Op, choice: u32, fail: u32) -> Instr
    ensures { result ≡ op_instr op choice fail }
{
    match op {
        Op::AtLeast => Instr::AtLeast(choice, fail),
        Op::AtMost => Instr::AtMost(choice, fail),
        Op::Within => Instr::Within(choice, fail),
        Op::Without => Instr::Without(choice, fail),
    }
}

/// Appends the code of a bound.
fn draft_side(draft: &mut List<Instr>, base: u32, scope: u8, bound: &Bound) -> Result<(), NoMemory>
    ensures { OnOk result (draft.new ≡ draft.old ++ bound_code bound.now (base + length draft.old) scope) }
{
    match bound {
        Bound::Rest(addends) => draft_addends(draft, base, scope, addends.as_slice()),
        Bound::Side(term) => draft_term(draft, base, scope, term),
    }
}

/// Appends the code of a signed sum.
fn draft_addends(
    draft: &mut List<Instr>,
    base: u32,
    scope: u8,
    addends: &[(bool, Term)],
) -> Result<(), NoMemory>
    ensures { OnOk result (draft.new ≡ draft.old ++ sum_code addends.now (base + length draft.old) scope) }
{
    match addends.split_first() {
        None => draft.push(Instr::Num(0)),
        Some((first, later)) => {
            draft_first(draft, base, scope, first.0, &first.1)?;
            draft_later(draft, base, scope, later)
        }
    }
}

/// Appends the code of the first addend of a sum.
fn draft_first(
    draft: &mut List<Instr>,
    base: u32,
    scope: u8,
    minus: bool,
    term: &Term,
) -> Result<(), NoMemory>
    ensures { OnOk result (draft.new ≡ draft.old ++ first_code minus (term_code term.now) (base + length draft.old) scope) }
{
    if minus {
        draft.push(Instr::Num(0))?;
        draft_term(draft, base, scope, term)?;
        draft.push(Instr::Sub)
    } else {
        draft_term(draft, base, scope, term)
    }
}

/// Appends the code of later addends, each joined to what is before it.
fn draft_later(
    draft: &mut List<Instr>,
    base: u32,
    scope: u8,
    addends: &[(bool, Term)],
) -> Result<(), NoMemory>
    ensures { OnOk result (draft.new ≡ draft.old ++ later_code addends.now (base + length draft.old) scope) }
{
    for addend in addends {
        draft_term(draft, base, scope, &addend.1)?;
        draft.push(sign_instr(addend.0))?;
    }
    Ok(())
}

/// What joins an addend to what is before it.
fn sign_instr(minus: bool) -> Instr
    ensures { result ≡ sign_instr minus }
{
    if minus { Instr::Sub } else { Instr::Add }
}
