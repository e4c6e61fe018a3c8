ghost use Rattle.std.specs.Prelude.{◌≡◌, ◌≤◌, ◌<◌, ◌+◌, ◌^◌, [], length, flat_map, slice_get, option_map, nat_eq, MatchOption};
ghost use Rattle.std.specs.List.{enumerate_from, prefix_len};
ghost use Rattle.kts_base.specs.Writes.{Wrote};
ghost use Rattle.kts_plan.specs.Plans.{IsPlanOf, definites_of};
ghost use Rattle.kts_spec.specs.Schemas.{family_at};
ghost use Rattle.kts_top.specs.ClassifyTexts.{classification_text, clause_lines, definite_line, formula_name as name_of_formula, lines_from, op_word as word_of, residual_count as count_residual, residual_line};

use itoa::Buffer;
use kts_base::{Name, Sink, SinkFault, put_pieces};
use kts_clause::Clause;
use kts_plan::{Definite, Op, Plan};
use kts_spec::Spec;

/// Puts the constraints and the residual clauses of a specification, clause by clause, and the totals. Takes no memory.
pub fn put_classification<S: Sink>(spec: &Spec, plan: &Plan, out: &mut S) -> Result<(), SinkFault>
    requires { IsPlanOf spec.now plan.now }
    ensures { Wrote result (S.log out.old) (S.log out.new) (classification_text spec.now) }
{
    put_clauses(spec, plan, out)?;
    let (mut definites, mut residuals) = (Buffer::new(), Buffer::new());
    put_pieces(
        out,
        &[
            b"classified ",
            definites.format(plan.definites().len()).as_bytes(),
            b" ",
            residuals.format(plan.residuals().len()).as_bytes(),
            b"\n",
        ],
    )
}

// Puts the lines of each clause. The constraints of a plan stand in the order of their clauses.
fn put_clauses<S: Sink>(spec: &Spec, plan: &Plan, out: &mut S) -> Result<(), SinkFault>
    requires { plan.now.definites ≡ definites_of plan.now.clauses }
    ensures { Wrote result (S.log out.old) (S.log out.new) (lines_from spec.now.formulas spec.now.schema.choices 0 0 0 plan.now.clauses) }
{
    let mut rest = plan.definites().as_slice();
    let mut definites = 0;
    let mut residuals = 0;
    for (number, clause) in plan.clauses().as_slice().iter().enumerate() {
        let count = count_own(rest, number);
        let parts = rest.split_at(count);
        put_clause(spec, clause, definites, residuals, parts.0, out)?;
        definites += count;
        residuals += residual_count(parts.0);
        rest = parts.1;
    }
    Ok(())
}

// How many constraints are of the clause of this number, from the front on.
fn count_own(definites: &[Definite], clause: usize) -> usize
    ensures { result ≡ prefix_len (λ d. nat_eq d.clause clause) definites.now }
{
    definites
        .iter()
        .take_while(|definite| definite.clause() as usize == clause)
        .count()
}

fn residual_count(own: &[Definite]) -> usize
    ensures count { result ≡ count_residual own.now }
    ensures few { result ≤ 1 }
{
    match own {
        [] => 1,
        [_, ..] => 0,
    }
}

// Puts the lines of a clause with these constraints, after so many constraints and so many residual clauses.
fn put_clause<S: Sink>(
    spec: &Spec,
    clause: &Clause,
    definites: usize,
    residuals: usize,
    own: &[Definite],
    out: &mut S,
) -> Result<(), SinkFault>
    requires { definites + length own.now < 2 ^ 64 }
    ensures { Wrote result (S.log out.old) (S.log out.new) (clause_lines spec.now.formulas spec.now.schema.choices definites residuals clause.now own.now) }
{
    match own {
        [] => put_residual(spec, clause, residuals, out),
        [_, ..] => put_definites(spec, clause, definites, own, out),
    }
}

fn put_residual<S: Sink>(
    spec: &Spec,
    clause: &Clause,
    number: usize,
    out: &mut S,
) -> Result<(), SinkFault>
    ensures { Wrote result (S.log out.old) (S.log out.new) (residual_line spec.now.formulas spec.now.schema.choices clause.now number) }
{
    let (mut numeral, mut place) = (Buffer::new(), Buffer::new());
    put_pieces(
        out,
        &[
            b"residual ",
            numeral.format(number).as_bytes(),
            b" ",
            formula_name(spec, clause.formula()),
            b" ",
            place.format(clause.clause()).as_bytes(),
            b"\n",
        ],
    )
}

// Puts the lines of the constraints of a clause, numbered on from the first.
fn put_definites<S: Sink>(
    spec: &Spec,
    clause: &Clause,
    first: usize,
    own: &[Definite],
    out: &mut S,
) -> Result<(), SinkFault>
    requires { first + length own.now < 2 ^ 64 }
    ensures { Wrote result (S.log out.old) (S.log out.new) (flat_map (definite_line spec.now.formulas spec.now.schema.choices clause.now) (enumerate_from first own.now)) }
{
    for (k, definite) in own.iter().enumerate() {
        put_definite(spec, clause, first + k, definite, out)?;
    }
    Ok(())
}

fn put_definite<S: Sink>(
    spec: &Spec,
    clause: &Clause,
    number: usize,
    definite: &Definite,
    out: &mut S,
) -> Result<(), SinkFault>
    ensures { Wrote result (S.log out.old) (S.log out.new) (definite_line spec.now.formulas spec.now.schema.choices clause.now (number, definite.now)) }
{
    let head = definite.head();
    let choice = choice_name(spec, head.choice());
    let (mut numeral, mut place, mut literal) = (Buffer::new(), Buffer::new(), Buffer::new());
    put_pieces(
        out,
        &[
            b"definite ",
            numeral.format(number).as_bytes(),
            b" ",
            formula_name(spec, clause.formula()),
            b" ",
            place.format(clause.clause()).as_bytes(),
            b" ",
            literal.format(definite.literal()).as_bytes(),
            b" ",
            op_word(head.op()),
            b" ",
            bytes_of(&choice),
            b"\n",
        ],
    )
}

fn op_word<'a>(op: Op) -> &'a [u8]
    ensures { result.now ≡ word_of op }
{
    match op {
        Op::AtLeast => b"atleast",
        Op::AtMost => b"atmost",
        Op::Within => b"within",
        Op::Without => b"without",
    }
}

// The name of the formula of this number; past the last one nothing.
fn formula_name(spec: &Spec, formula: u32) -> &[u8]
    ensures { result.now ≡ name_of_formula spec.now.formulas spec.now.schema.choices formula }
{
    match spec.formulas().as_slice().get(formula as usize) {
        Some((name, _)) => name.bytes(),
        None => b"",
    }
}

// The name of the choice of this number.
fn choice_name(spec: &Spec, choice: u32) -> Option<Name>
    ensures { result ≡ option_map (λ family. family.name) (slice_get spec.now.schema.choices choice) }
{
    match spec.schema().choices().as_slice().get(choice as usize) {
        Some(family) => Some(family.name()),
        None => None,
    }
}

// The bytes of a name; nothing where there is none.
fn bytes_of(name: &Option<Name>) -> &[u8]
    ensures { MatchOption name.now (result.now ≡ []) (λ bytes. result.now ≡ bytes) }
{
    match name {
        Some(name) => name.bytes(),
        None => b"",
    }
}
