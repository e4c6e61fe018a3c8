ghost use Rattle.std.specs.Prelude.{◌≡◌, map, IfOk};
ghost use Rattle.kts_base.specs.Reads.{Gives};
ghost use Rattle.kts_check.specs.Faults.{IsNoMemory};
ghost use Rattle.kts_check.specs.Forms.{declarations_in};
ghost use Rattle.kts_check.specs.Trees.{phrases_at, phrase_of};

use crate::combine::{operator_phrase, reference_phrase};
use crate::contexts::{name_of, operator_context, reference};
use crate::fault::SpecFault;
use crate::phrase::{Phrase, Phrases};
use crate::scope::Scope;
use crate::symbol_table::SymbolTable;
use kts_base::Name;
use kts_syntax::Expr;
use std::alloc::Global;

/// What the parts of a tree say, in order.
#[cycle(trees)]
fn phrases_at(
    alloc: Global,
    table: &SymbolTable,
    own: &Name,
    parts: &[Expr],
    scope: &mut Scope,
    way: Option<usize>,
) -> Result<Phrases, SpecFault>
    ensures phrases { Gives IsNoMemory (λ p. p) result (phrases_at scope.old.variables.items way (map (phrase_of (declarations_in table.now) own.now) parts.now)) }
    ensures scope { IfOk result (λ p. scope.new.variables.items ≡ scope.old.variables.items) }
{
    let mut phrases = Phrases::new(alloc);
    for part in parts {
        phrases.push(phrase_of(alloc, table, own, part, scope, way)?)?;
    }
    Ok(phrases)
}

/// What a tree says in a form with this name: its own word and its binders first, then its parts, then the tree. The scope is
/// in the end as it was.
#[cycle(trees)]
pub fn phrase_of(
    alloc: Global,
    table: &SymbolTable,
    own: &Name,
    expr: &Expr,
    scope: &mut Scope,
    way: Option<usize>,
) -> Result<Phrase, SpecFault>
    ensures phrase { Gives IsNoMemory (λ p. p) result (phrase_of (declarations_in table.now) own.now expr.now scope.old.variables.items way) }
    ensures scope { IfOk result (λ p. scope.new.variables.items ≡ scope.old.variables.items) }
{
    let parts = expr.parts().as_slice();
    match name_of(expr.head()) {
        Some(word) => {
            let named = reference(&table.names, &word, parts.is_empty(), scope)?;
            let phrases = phrases_at(alloc, table, own, parts, scope, None)?;
            reference_phrase(table, expr.at(), named, phrases)
        }
        None => {
            let outer = scope.len();
            let binders = expr.binders().as_slice();
            let context = operator_context(
                alloc,
                &table.names,
                own,
                expr.head(),
                binders,
                scope,
                way,
            )?;
            let phrases = phrases_at(alloc, table, own, parts, scope, context.way)?;
            scope.truncate(outer);
            operator_phrase(alloc, expr.at(), expr.head(), context.indexes, phrases)
        }
    }
}
