ghost use Rattle.std.specs.Prelude.{◌≡◌};
ghost use Rattle.kts_base.specs.Reads.{Gives};
ghost use Rattle.kts_spec.specs.Schemas.{is_end};
ghost use Rattle.kts_check.specs.Faults.{IsNoMemory};
ghost use Rattle.kts_check.specs.Declarations.{index_of, indexes_of, new_name, type_of, is_taken};

use crate::entry::Entry;
use crate::fault::{SpecFault, SpecKind};
use crate::scope::Scope;
use indexmap::IndexMap;
use kts_base::{List, MAX_TYPE_END, Name, fail};
use kts_spec::ValueType;
use kts_syntax::{Shape, Word};
use std::alloc::Global;

/// The number of an index.
#[tactic(auto, unfolding(crate::specs::Declarations::index_of))]
pub fn index_of(names: &IndexMap<Name, Entry>, word: &Word) -> Result<u32, SpecFault>
    ensures { result ≡ index_of names.now.entries word.now }
{
    let name = word.name();
    match names.get(&name) {
        None => fail(SpecKind::UnknownName, word.at()),
        Some(Entry::Index(i)) => Ok(*i),
        Some(_) => fail(SpecKind::WrongKind, word.at()),
    }
}

/// The numbers of the indexes.
pub fn indexes_of(
    alloc: Global,
    names: &IndexMap<Name, Entry>,
    words: &[Word],
) -> Result<List<u32>, SpecFault>
    ensures { Gives IsNoMemory (λ is. is) result (indexes_of names.now.entries words.now) }
{
    let mut indexes = List::new(alloc);
    for word in words {
        indexes.push(index_of(names, word)?)?;
    }
    Ok(indexes)
}

/// A name that a form declares.
#[tactic(auto, unfolding(crate::specs::Declarations::new_name))]
pub fn new_name(names: &IndexMap<Name, Entry>, word: &Word) -> Result<Name, SpecFault>
    ensures { result ≡ new_name names.now.entries word.now }
{
    let name = word.name();
    match names.get(&name) {
        None => Ok(name),
        Some(_) => fail(SpecKind::NameTaken, word.at()),
    }
}

fn is_end(n: i64) -> bool
    ensures { result ≡ is_end n }
{
    -MAX_TYPE_END <= n && n <= MAX_TYPE_END
}

/// The type that is written.
#[tactic(auto, unfolding(crate::specs::Declarations::type_of))]
pub fn type_of(names: &IndexMap<Name, Entry>, shape: &Shape) -> Result<ValueType, SpecFault>
    ensures { result ≡ type_of names.now.entries shape.now }
{
    match shape {
        Shape::Int(low, high, at) => {
            if is_end(*low) && is_end(*high) && *low <= *high {
                return Ok(ValueType::Int {
                    lo: *low,
                    hi: *high,
                });
            }
            fail(SpecKind::BadRange, *at)
        }
        Shape::Named(word) => Ok(ValueType::Member(index_of(names, word)?)),
    }
}

/// Whether a variable may not have this name.
pub fn is_taken(names: &IndexMap<Name, Entry>, own: &Name, scope: &Scope, name: &Name) -> bool
    ensures { result ≡ is_taken names.now.entries own.now scope.now.variables.items name.now }
{
    names.get(name).is_some() || *own == *name || scope.variable(name).is_some()
}
