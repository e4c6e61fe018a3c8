ghost use Rattle.std.specs.Prelude.{◌≡◌, ◌<◌, true, None, length, IfOk};
ghost use Rattle.kts_base.specs.Limits.{most_variables};
ghost use Rattle.kts_base.specs.Reads.{Gives};
ghost use Rattle.kts_check.specs.Faults.{IsNoMemory};
ghost use Rattle.kts_check.specs.Declarations.{entry_of};
ghost use Rattle.kts_check.specs.Scopes.{variable};
ghost use Rattle.kts_check.specs.Contexts.{bind, binder_index, operator_context, context_with, further, has_room, name_of, plain_context, reference};

use crate::binding::Binding;
use crate::entry::Entry;
use crate::fault::{SpecFault, SpecKind};
use crate::names::{index_of, is_taken};
use crate::reference::Reference;
use crate::scope::Scope;
use indexmap::IndexMap;
use kts_base::{List, MAX_PREFIX, MAX_VARIABLES, Name, fail};
use kts_syntax::{Head, Word};
use std::alloc::Global;

fn has_room(way: Option<usize>) -> bool
    ensures { result ≡ has_room way }
{
    match way {
        None => true,
        Some(n) => n < MAX_PREFIX,
    }
}

fn further(way: Option<usize>) -> Option<usize>
    requires { has_room way ≡ true }
    ensures { result ≡ further way }
{
    match way {
        None => None,
        Some(n) => Some(n + 1),
    }
}

/// The index of a binder's variable.
#[tactic(auto, unfolding(crate::specs::Contexts::binder_index))]
fn binder_index(
    names: &IndexMap<Name, Entry>,
    own: &Name,
    scope: &Scope,
    way: Option<usize>,
    binder: &(Word, Word, usize),
) -> Result<u32, SpecFault>
    ensures index { result ≡ binder_index names.now.entries own.now (plain_context scope.now.variables.items way) binder.now }
    ensures few { IfOk result (λ i. length scope.now.variables.items < most_variables) }
    ensures room { IfOk result (λ i. has_room way ≡ true) }
{
    let name = binder.0.name();
    if is_taken(names, own, scope, &name) {
        return fail(SpecKind::NameTaken, binder.0.at());
    }
    let i = index_of(names, &binder.1)?;
    if scope.len() < MAX_VARIABLES && has_room(way) {
        return Ok(i);
    }
    fail(SpecKind::TooMany, binder.2)
}

/// Brings the variables of binders into scope: the indexes of these, and the way after them.
fn bind(
    alloc: Global,
    names: &IndexMap<Name, Entry>,
    own: &Name,
    binders: &[(Word, Word, usize)],
    scope: &mut Scope,
    start: Option<usize>,
) -> Result<Binding, SpecFault>
    ensures { Gives IsNoMemory (context_with scope.new.variables.items) result (bind names.now.entries own.now (plain_context scope.old.variables.items start) binders.now) }
{
    let mut indexes = List::new(alloc);
    let mut way = start;
    for binder in binders {
        let i = binder_index(names, own, scope, way, binder)?;
        scope.push(binder.0.name(), i)?;
        indexes.push(i)?;
        way = further(way);
    }
    Ok(Binding { indexes, way })
}

/// Where the parts of a tree that is no name stand, by its head and its binders: their variables are brought into scope.
#[tactic(auto, unfolding(crate::specs::Contexts::operator_context))]
pub fn operator_context(
    alloc: Global,
    names: &IndexMap<Name, Entry>,
    own: &Name,
    head: Head,
    binders: &[(Word, Word, usize)],
    scope: &mut Scope,
    way: Option<usize>,
) -> Result<Binding, SpecFault>
    ensures { Gives IsNoMemory (context_with scope.new.variables.items) result (operator_context names.now.entries own.now head binders.now scope.old.variables.items way) }
{
    match head {
        Head::Sum => bind(alloc, names, own, binders, scope, None),
        Head::Exists => bind(alloc, names, own, binders, scope, None),
        Head::Forall => bind(alloc, names, own, binders, scope, way),
        Head::And => Ok(Binding::new(alloc, way)),
        _ => Ok(Binding::new(alloc, None)),
    }
}

/// The name that an expression with this head uses.
#[tactic(auto, unfolding(crate::specs::Contexts::name_of))]
pub fn name_of(head: Head) -> Option<Word>
    ensures { result ≡ name_of head }
{
    match head {
        Head::Use(word) => Some(word),
        _ => None,
    }
}

/// What a name stands for, where it stands alone or before arguments.
#[tactic(auto, unfolding(crate::specs::Contexts::reference))]
pub fn reference(
    names: &IndexMap<Name, Entry>,
    word: &Word,
    alone: bool,
    scope: &Scope,
) -> Result<Reference, SpecFault>
    ensures { result ≡ reference word.now.at alone (variable scope.now.variables.items word.now.name) (entry_of names.now.entries word.now.name) }
{
    let name = word.name();
    match scope.variable(&name) {
        Some((k, i)) => {
            if alone {
                return Ok(Reference::Variable(k, i));
            }
            fail(SpecKind::WrongKind, word.at())
        }
        None => match names.get(&name) {
            None => fail(SpecKind::UnknownName, word.at()),
            Some(Entry::Given(f)) => Ok(Reference::Given(*f)),
            Some(Entry::Choice(x)) => Ok(Reference::Choice(*x)),
            Some(_) => fail(SpecKind::WrongKind, word.at()),
        },
    }
}
