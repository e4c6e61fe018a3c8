ghost use Rattle.std.specs.Prelude.{◌≡◌};
ghost use Rattle.kts_text.specs.Shown.{trees_left};
ghost use Rattle.kts_syntax.specs.Readings.{two_names, binder, term_atom, atom_part, head_before, list_head, list_part, parts_in, expr};
ghost use Rattle.kts_syntax.specs.Rooms.{Builds, trees_of, trees_below, trees_in_part};

use crate::atoms::{count, first_name, is_none, name_at, number_at, rest};
use crate::expr::Expr;
use crate::fault::{FormFault, FormKind};
use crate::head::Head;
use crate::layout::{Layout, Role};
use crate::numbers::is_like_number;
use crate::operations::{has_parts, head_of, layout_of};
use crate::parts::{Part, Parts};
use crate::word::Word;
use kts_base::{List, fail};
use kts_text::{Front, Siblings};
use std::alloc::Global;

#[tactic(auto, unfolding(crate::specs::Readings::two_names))]
fn two_names(start: usize, inside: &Siblings) -> Result<(Word, Word, usize), FormFault>
    ensures { result ≡ two_names start (trees_left inside.now) }
{
    let variable = first_name(inside)?;
    let index = first_name(&rest(inside))?;
    Ok((variable, index, start))
}

/// A list as a binder.
#[tactic(auto, unfolding(crate::specs::Readings::binder))]
fn binder(start: usize, inside: &Siblings) -> Result<(Word, Word, usize), FormFault>
    ensures { result ≡ binder start (trees_left inside.now) }
{
    match count(inside) {
        0 => fail(FormKind::NotAForm, start),
        2 => two_names(start, inside),
        _ => fail(FormKind::WrongCount, start),
    }
}

/// An atom as a term.
#[tactic(auto, unfolding(crate::specs::Readings::term_atom))]
fn term_atom(alloc: Global, at: usize, bytes: &[u8]) -> Result<Expr, FormFault>
    ensures { result ≡ term_atom at bytes.now }
{
    let head = if is_like_number(bytes) {
        Head::Number(number_at(at, bytes)?)
    } else {
        Head::Use(name_at(at, bytes)?)
    };
    Ok(Expr::new(at, head, List::new(alloc), List::new(alloc)))
}

/// An atom as a part.
#[tactic(auto, unfolding(crate::specs::Readings::atom_part))]
fn atom_part(alloc: Global, role: Role, at: usize, bytes: &[u8]) -> Result<Part, FormFault>
    ensures { result ≡ atom_part role at bytes.now }
{
    match role {
        Role::Term => Ok(Part::Operand(term_atom(alloc, at, bytes)?)),
        _ => fail(FormKind::NotAForm, at),
    }
}

#[tactic(auto, unfolding(crate::specs::Readings::head_before))]
fn head_before(start: usize, n: usize, found: Option<Head>) -> Result<Head, FormFault>
    ensures { result ≡ head_before start n found }
{
    match found {
        None => fail(FormKind::NotAForm, start),
        Some(head) if has_parts(&head, n) => Ok(head),
        Some(_) => fail(FormKind::WrongCount, start),
    }
}

/// The head of a list in this role, where the list's own form is right.
#[tactic(auto, unfolding(crate::specs::Readings::list_head))]
fn list_head(role: Role, start: usize, inside: &Siblings) -> Result<Head, FormFault>
    ensures { result ≡ list_head role start (trees_left inside.now) }
{
    match inside.front() {
        Front::Atom {
            place,
            bytes,
            after,
        } => head_before(start, count(&after), head_of(role, place, bytes)),
        _ => fail(FormKind::NotAForm, start),
    }
}

/// A list as a part, of which what is below it takes room.
#[cycle(exprs)]
#[tactic(auto, unfolding(crate::specs::Readings::list_part))]
fn list_part(
    alloc: Global,
    role: Role,
    start: usize,
    inside: &Siblings,
    room: &mut usize,
) -> Result<Part, FormFault>
    ensures { Builds trees_in_part room.old room.new result (list_part role (binder start (trees_left inside.now)) (λ role. expr role start (trees_left inside.now))) }
{
    match role {
        Role::Binder => Ok(Part::Bound(binder(start, inside)?)),
        _ => Ok(Part::Operand(expr(alloc, role, start, inside, room)?)),
    }
}

/// Trees as the parts of a list with this layout, built while some of the room is left.
#[cycle(exprs)]
fn parts_in(
    alloc: Global,
    layout: Layout,
    trees: &Siblings,
    room: &mut usize,
) -> Result<Parts, FormFault>
    ensures { Builds trees_of room.old room.new result (parts_in layout (trees_left trees.now)) }
{
    let mut parts = Parts::new(alloc);
    let mut ahead = layout;
    let mut left = *trees;
    loop {
        match left.front() {
            Front::End => return Ok(parts),
            Front::Atom {
                place,
                bytes,
                after,
            } => {
                let part = atom_part(alloc, ahead.role(is_none(&after)), place, bytes)?;
                parts.push(part, room)?;
                ahead = ahead.next();
                left = after;
                continue;
            }
            Front::List {
                start,
                inside,
                after,
                ..
            } => {
                let part = list_part(alloc, ahead.role(is_none(&after)), start, &inside, room)?;
                parts.push(part, room)?;
                ahead = ahead.next();
                left = after;
                continue;
            }
        }
    }
}

/// A list as an expression of a role, of which the trees below it take room. It is built where some of the room is left.
#[cycle(exprs)]
pub fn expr(
    alloc: Global,
    role: Role,
    start: usize,
    inside: &Siblings,
    room: &mut usize,
) -> Result<Expr, FormFault>
    ensures { Builds trees_below room.old room.new result (expr role start (trees_left inside.now)) }
{
    let head = list_head(role, start, inside)?;
    let parts = parts_in(alloc, layout_of(&head), &rest(inside), room)?;
    Ok(Expr::new(start, head, parts.binders, parts.exprs))
}
