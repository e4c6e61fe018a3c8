ghost use Rattle.std.specs.Prelude.{◌≡◌, ◌==◌, ◌<◌, ◌≤◌, []};
ghost use Rattle.kts_base.specs.Reads.{Gives};
ghost use Rattle.kts_text.specs.Shown.{trees_left};
ghost use Rattle.kts_syntax.specs.Faults.{IsNoMemory};
ghost use Rattle.kts_syntax.specs.Rooms.{Builds, trees_below};
ghost use Rattle.kts_syntax.specs.Tops.{names, first_arguments, begins_with, two_ends, int_type, first_type, first_formula, one_name, family_of, family, formula_of, formula, form_of, later_form, later_forms, spec_name};

use crate::atoms::{count, first_name, first_number, name_at, rest};
use crate::counts::Counts;
use crate::expr::Expr;
use crate::exprs::expr;
use crate::fault::{FormFault, FormKind};
use crate::form::{Form, Shape};
use crate::layout::Role;
use crate::names::is_text;
use crate::word::Word;
use kts_base::{List, MAX_ARGUMENTS, MAX_WRITTEN_TREES, fail};
use kts_text::{Front, Siblings};
use std::alloc::Global;

/// Each tree as a name.
fn names(alloc: Global, trees: &Siblings) -> Result<List<Word>, FormFault>
    ensures { Gives IsNoMemory (λ words. words) result (names (trees_left trees.now)) }
{
    let mut words = List::new(alloc);
    let mut left = *trees;
    loop {
        match left.front() {
            Front::End => return Ok(words),
            Front::Atom {
                place,
                bytes,
                after,
            } => {
                let word = name_at(place, bytes)?;
                words.push(word)?;
                left = after;
            }
            Front::List { start, .. } => return fail(FormKind::NotAForm, start),
        }
    }
}

/// The first tree as arguments.
#[tactic(auto, unfolding(crate::specs::Tops::first_arguments))]
fn first_arguments(alloc: Global, trees: &Siblings) -> Result<List<Word>, FormFault>
    ensures { Gives IsNoMemory (λ words. words) result (first_arguments (trees_left trees.now)) }
{
    match trees.front() {
        Front::End => fail(FormKind::NotAForm, 0),
        Front::Atom { place, .. } => fail(FormKind::NotAForm, place),
        Front::List { start, inside, .. } => {
            if count(&inside) <= MAX_ARGUMENTS {
                return names(alloc, &inside);
            }
            fail(FormKind::WrongCount, start)
        }
    }
}

fn begins_with(word: &[u8], trees: &Siblings) -> bool
    ensures { result ≡ begins_with word.now (trees_left trees.now) }
{
    match trees.front() {
        Front::Atom { bytes, .. } => is_text(bytes, word),
        _ => false,
    }
}

#[tactic(auto, unfolding(crate::specs::Tops::two_ends))]
fn two_ends(start: usize, ends: &Siblings) -> Result<Shape, FormFault>
    ensures { result ≡ two_ends start (trees_left ends.now) }
{
    let low = first_number(ends)?;
    let high = first_number(&rest(ends))?;
    Ok(Shape::Int(low, high, start))
}

/// The type between two ends.
#[tactic(auto, unfolding(crate::specs::Tops::int_type))]
fn int_type(start: usize, inside: &Siblings) -> Result<Shape, FormFault>
    ensures { result ≡ int_type start (trees_left inside.now) }
{
    if !begins_with(b"int", inside) {
        return fail(FormKind::NotAForm, start);
    }
    if count(inside) != 3 {
        return fail(FormKind::WrongCount, start);
    }
    two_ends(start, &rest(inside))
}

/// The first tree as a type.
#[tactic(auto, unfolding(crate::specs::Tops::first_type))]
fn first_type(trees: &Siblings) -> Result<Shape, FormFault>
    ensures { result ≡ first_type (trees_left trees.now) }
{
    match trees.front() {
        Front::End => fail(FormKind::NotAForm, 0),
        Front::Atom { place, bytes, .. } => Ok(Shape::Named(name_at(place, bytes)?)),
        Front::List { start, inside, .. } => int_type(start, &inside),
    }
}

/// The first tree as a formula, which is built where some of the room is left.
#[tactic(auto, unfolding(crate::specs::Tops::first_formula))]
fn first_formula(alloc: Global, trees: &Siblings, room: &mut usize) -> Result<Expr, FormFault>
    ensures { Builds trees_below room.old room.new result (first_formula (trees_left trees.now)) }
{
    match trees.front() {
        Front::End => fail(FormKind::NotAForm, 0),
        Front::Atom { place, .. } => fail(FormKind::NotAForm, place),
        Front::List { start, inside, .. } => expr(alloc, Role::Formula, start, &inside, room),
    }
}

#[tactic(auto, unfolding(crate::specs::Tops::one_name))]
fn one_name(start: usize, parts: &Siblings) -> Result<Word, FormFault>
    ensures { result ≡ one_name start (trees_left parts.now) }
{
    if count(parts) == 1 {
        return first_name(parts);
    }
    fail(FormKind::WrongCount, start)
}

#[tactic(auto, unfolding(crate::specs::Tops::family_of))]
fn family_of(alloc: Global, parts: &Siblings) -> Result<(Word, List<Word>, Shape), FormFault>
    ensures { Gives IsNoMemory (λ family. family) result (family_of (trees_left parts.now)) }
{
    let word = first_name(parts)?;
    let more = rest(parts);
    let args = first_arguments(alloc, &more)?;
    let shape = first_type(&rest(&more))?;
    Ok((word, args, shape))
}

/// A name, arguments and a type.
#[tactic(auto, unfolding(crate::specs::Tops::family))]
fn family(
    alloc: Global,
    start: usize,
    parts: &Siblings,
) -> Result<(Word, List<Word>, Shape), FormFault>
    ensures { Gives IsNoMemory (λ family. family) result (family start (trees_left parts.now)) }
{
    if count(parts) == 3 {
        return family_of(alloc, parts);
    }
    fail(FormKind::WrongCount, start)
}

#[tactic(auto, unfolding(crate::specs::Tops::formula_of))]
fn formula_of(alloc: Global, start: usize, parts: &Siblings) -> Result<Form, FormFault>
    ensures { Gives IsNoMemory (λ form. form) result (formula_of start (trees_left parts.now)) }
{
    let word = first_name(parts)?;
    let mut room = MAX_WRITTEN_TREES;
    let expr = first_formula(alloc, &rest(parts), &mut room)?;
    if room == 0 {
        return fail(FormKind::TooMany, start);
    }
    Ok(Form::Formula(word, expr))
}

/// A name and a formula.
#[tactic(auto, unfolding(crate::specs::Tops::formula))]
fn formula(alloc: Global, start: usize, parts: &Siblings) -> Result<Form, FormFault>
    ensures { Gives IsNoMemory (λ form. form) result (formula start (trees_left parts.now)) }
{
    if count(parts) == 2 {
        return formula_of(alloc, start, parts);
    }
    fail(FormKind::WrongCount, start)
}

#[tactic(auto, unfolding(crate::specs::Tops::form_of))]
fn form_of(alloc: Global, start: usize, word: &[u8], parts: &Siblings) -> Result<Form, FormFault>
    ensures { Gives IsNoMemory (λ form. form) result (form_of start word.now (trees_left parts.now)) }
{
    if is_text(word, b"index") {
        return Ok(Form::Index(one_name(start, parts)?));
    }
    if is_text(word, b"given") {
        let (name, args, shape) = family(alloc, start, parts)?;
        return Ok(Form::Given(name, args, shape));
    }
    if is_text(word, b"choose") {
        let (name, args, shape) = family(alloc, start, parts)?;
        return Ok(Form::Choose(name, args, shape));
    }
    if is_text(word, b"formula") {
        return formula(alloc, start, parts);
    }
    if is_text(word, b"manifest") {
        return Ok(Form::Manifest(one_name(start, parts)?));
    }
    fail(FormKind::NotAForm, start)
}

/// A list as a form after the first.
#[tactic(auto, unfolding(crate::specs::Tops::later_form))]
fn later_form(alloc: Global, start: usize, inside: &Siblings) -> Result<Form, FormFault>
    ensures { Gives IsNoMemory (λ form. form) result (later_form start (trees_left inside.now)) }
{
    match inside.front() {
        Front::Atom { bytes, after, .. } => form_of(alloc, start, bytes, &after),
        _ => fail(FormKind::NotAForm, start),
    }
}

/// Trees as forms.
pub fn later_forms(alloc: Global, trees: &Siblings) -> Result<List<Form>, FormFault>
    ensures { Gives IsNoMemory (λ forms. forms) result (later_forms [] (trees_left trees.now)) }
{
    let mut forms = List::new(alloc);
    let mut counts = Counts::new();
    let mut left = *trees;
    loop {
        match left.front() {
            Front::End => return Ok(forms),
            Front::Atom { place, .. } => return fail(FormKind::NotAForm, place),
            Front::List {
                start,
                inside,
                after,
                ..
            } => {
                let form = later_form(alloc, start, &inside)?;
                if !counts.take(&form) {
                    return fail(FormKind::TooMany, start);
                }
                forms.push(form)?;
                left = after;
            }
        }
    }
}

/// The name in the first form.
#[tactic(auto, unfolding(crate::specs::Tops::spec_name))]
pub fn spec_name(start: usize, inside: &Siblings) -> Result<Word, FormFault>
    ensures { result ≡ spec_name start (trees_left inside.now) }
{
    if !begins_with(b"spec", inside) {
        return fail(FormKind::NotAForm, start);
    }
    if count(inside) != 2 {
        return fail(FormKind::WrongCount, start);
    }
    first_name(&rest(inside))
}
