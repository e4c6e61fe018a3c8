ghost use Rattle.std.specs.Prelude.{◌≡◌, ◌≤◌, ◌<◌, ◌+◌, ◌-◌, ◌^◌, ◌++◌, length, flat_map, false, IfOk, OnOk};
ghost use Rattle.kts_base.specs.Limits.{most_trees};
ghost use Rattle.kts_spec.specs.Sizes.{size_of_formula};
ghost use Rattle.kts_clause.specs.Clauses.{clauses_of, literals_of, disjunctions, numbered_from, one_clause};

use crate::clause::Clause;
use crate::literals::add_literals;
use crate::prefix::{append, shorten};
use kts_base::{List, NoMemory};
use kts_spec::Formula;
use std::alloc::Global;

/// The clauses of a formula, in order; `number` is that of the formula. Each literal's formula is
/// copied once, and the time is that of the copies.
pub fn clauses(alloc: Global, number: u32, f: &Formula) -> Result<List<Clause>, NoMemory>
    requires { (size_of_formula f.now).trees ≤ most_trees }
    ensures { IfOk result (λ clauses. clauses ≡ clauses_of number f.now) }
{
    let mut clauses = List::new(alloc);
    append_clauses(alloc, number, f, &mut clauses)?;
    Ok(clauses)
}

/// Appends the same clauses to others.
pub fn append_clauses(
    alloc: Global,
    number: u32,
    f: &Formula,
    clauses: &mut List<Clause>,
) -> Result<(), NoMemory>
    requires { (size_of_formula f.now).trees ≤ most_trees }
    ensures { OnOk result (clauses.new ≡ clauses.old ++ clauses_of number f.now) }
{
    let mut prefix = List::new(alloc);
    let first = clauses.len();
    add_clauses(alloc, number, first, f, &mut prefix, clauses)
}

// Appends the clauses of a formula after the variables of the prefix, which stays as it was; that of
// number 0 stands at `first`.
#[cycle(clauses)]
fn add_clauses(
    alloc: Global,
    number: u32,
    first: usize,
    f: &Formula,
    prefix: &mut List<u32>,
    clauses: &mut List<Clause>,
) -> Result<(), NoMemory>
    requires begun { first ≤ length clauses.old }
    requires room { length clauses.old + length (disjunctions f.now prefix.old) < 2 ^ 32 + first }
    ensures same { OnOk result (prefix.new ≡ prefix.old) }
    ensures added { OnOk result (clauses.new ≡ clauses.old ++ numbered_from number (length clauses.old - first) (disjunctions f.now prefix.old)) }
{
    match f {
        Formula::And(parts) => add_each(alloc, number, first, parts.as_slice(), prefix, clauses),
        Formula::Forall(indexes, p) => {
            append(prefix, indexes.as_slice())?;
            add_clauses(alloc, number, first, p.get(), prefix, clauses)?;
            shorten(prefix, indexes.len());
            Ok(())
        }
        _ => add_one(alloc, number, first, f, prefix.as_slice(), clauses),
    }
}

#[cycle(clauses)]
fn add_each(
    alloc: Global,
    number: u32,
    first: usize,
    parts: &[Formula],
    prefix: &mut List<u32>,
    clauses: &mut List<Clause>,
) -> Result<(), NoMemory>
    requires begun { first ≤ length clauses.old }
    requires room { length clauses.old + length (flat_map (λ p. disjunctions p prefix.old) parts.now) < 2 ^ 32 + first }
    ensures same { OnOk result (prefix.new ≡ prefix.old) }
    ensures added { OnOk result (clauses.new
        ≡ clauses.old ++ numbered_from number (length clauses.old - first) (flat_map (λ p. disjunctions p prefix.old) parts.now)) }
{
    for part in parts {
        add_clauses(alloc, number, first, part, prefix, clauses)?;
    }
    Ok(())
}

// Appends the only clause of a formula.
fn add_one(
    alloc: Global,
    number: u32,
    first: usize,
    f: &Formula,
    prefix: &[u32],
    clauses: &mut List<Clause>,
) -> Result<(), NoMemory>
    requires begun { first ≤ length clauses.old }
    requires room { length clauses.old < 2 ^ 32 + first }
    ensures { OnOk result (clauses.new ≡ clauses.old ++ numbered_from number (length clauses.old - first) (one_clause (literals_of false f.now) prefix.now)) }
{
    let clause = (clauses.len() - first) as u32;
    let prefix = List::from_slice(alloc, prefix)?;
    let mut literals = List::new(alloc);
    add_literals(alloc, false, f, &mut literals)?;
    clauses.push(Clause::new(number, clause, prefix, literals))
}
