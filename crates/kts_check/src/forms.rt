ghost use Rattle.std.specs.Prelude.{◌≡◌};
ghost use Rattle.std.specs.List.{list_any};
ghost use Rattle.kts_base.specs.Reads.{Gives};
ghost use Rattle.kts_spec.specs.Schemas.{assigns_members};
ghost use Rattle.kts_check.specs.Faults.{IsNoMemory};
ghost use Rattle.kts_check.specs.Declarations.{entry_of};
ghost use Rattle.kts_check.specs.Forms.{family, is_manifest_of, manifest, declaration_of, declarations_in, formula_declaration};

use crate::declaration::Declaration;
use crate::entry::Entry;
use crate::fault::{SpecFault, SpecKind};
use crate::names::{indexes_of, new_name, type_of};
use crate::phrase::Phrase;
use crate::scope::Scope;
use crate::symbol_table::SymbolTable;
use crate::trees::phrase_of;
use indexmap::IndexMap;
use kts_base::{List, Name, fail};
use kts_spec::{Decl, Family, ValueType};
use kts_syntax::{Expr, Form, Shape, Word};
use std::alloc::Global;

/// A given or a choice.
#[tactic(auto, unfolding(crate::specs::Forms::family))]
fn family(
    alloc: Global,
    names: &IndexMap<Name, Entry>,
    word: &Word,
    args: &List<Word>,
    shape: &Shape,
) -> Result<Family, SpecFault>
    ensures { Gives IsNoMemory (λ f. f) result (family names.now.entries word.now args.now shape.now) }
{
    let name = new_name(names, word)?;
    let indexes = indexes_of(alloc, names, args.as_slice())?;
    let kind = type_of(names, shape)?;
    Ok(Family::new(name, indexes, kind))
}

/// A formula under its name.
#[tactic(auto, unfolding(crate::specs::Forms::formula_declaration))]
fn formula_declaration(
    alloc: Global,
    table: &SymbolTable,
    word: &Word,
    expr: &Expr,
) -> Result<Declaration, SpecFault>
    ensures { Gives IsNoMemory (λ m. m) result (formula_declaration (declarations_in table.now) word.now expr.now) }
{
    let name = new_name(&table.names, word)?;
    let mut scope = Scope::new(alloc);
    match phrase_of(alloc, table, &name, expr, &mut scope, Some(0))? {
        Phrase::Truth(p) => Ok(Declaration::Formula(name, p)),
        Phrase::Value(_, _) => fail(SpecKind::WrongKind, word.at()),
    }
}

fn is_manifest_of(x: u32, decl: &Decl) -> bool
    ensures { result ≡ is_manifest_of x decl.now }
{
    match decl {
        Decl::Manifest(y) => x == *y,
        _ => false,
    }
}

fn has_manifest(x: u32, decls: &[Decl]) -> bool
    ensures { result ≡ list_any (is_manifest_of x) decls.now }
{
    decls.iter().any(|decl| is_manifest_of(x, decl))
}

fn assigns_members(family: &Family) -> bool
    ensures { result ≡ assigns_members family.now }
{
    family.args().len() == 1 && matches!(family.kind(), ValueType::Member(_))
}

/// The manifest of a choice.
#[tactic(auto, unfolding(crate::specs::Forms::manifest))]
fn manifest(table: &SymbolTable, word: &Word) -> Result<Declaration, SpecFault>
    ensures { result ≡ manifest (declarations_in table.now) word.now.at (entry_of table.now.names.entries word.now.name) }
{
    let name = word.name();
    match table.names.get(&name) {
        None => fail(SpecKind::UnknownName, word.at()),
        Some(Entry::Choice(x)) => match table.choices.as_slice().get(*x as usize) {
            None => fail(SpecKind::WrongKind, word.at()),
            Some(family) => {
                if !assigns_members(family) {
                    return fail(SpecKind::WrongKind, word.at());
                }
                if has_manifest(*x, table.decls.as_slice()) {
                    return fail(SpecKind::NameTaken, word.at());
                }
                Ok(Declaration::Manifest(*x))
            }
        },
        Some(_) => fail(SpecKind::WrongKind, word.at()),
    }
}

/// What a form declares after others.
#[tactic(auto, unfolding(crate::specs::Forms::declaration_of))]
pub fn declaration_of(
    alloc: Global,
    table: &SymbolTable,
    form: &Form,
) -> Result<Declaration, SpecFault>
    ensures { Gives IsNoMemory (λ m. m) result (declaration_of (declarations_in table.now) form.now) }
{
    let names = &table.names;
    match form {
        Form::Index(word) => Ok(Declaration::Index(new_name(names, word)?)),
        Form::Given(word, args, shape) => {
            Ok(Declaration::Given(family(alloc, names, word, args, shape)?))
        }
        Form::Choose(word, args, shape) => {
            Ok(Declaration::Choice(family(alloc, names, word, args, shape)?))
        }
        Form::Formula(word, expr) => formula_declaration(alloc, table, word, expr),
        Form::Manifest(word) => manifest(table, word),
    }
}
