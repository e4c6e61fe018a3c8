ghost use Rattle.std.specs.Prelude.{◌≡◌, ◌++◌, flat_map, OnOk};
ghost use Rattle.kts_clause.specs.Clauses.{literals_of};

use crate::literal::Literal;
use kts_base::{List, NoMemory};
use kts_spec::Formula;
use std::alloc::Global;

/// Appends the literals of a formula, or of its negation.
#[cycle(literals)]
pub fn add_literals(
    alloc: Global,
    negative: bool,
    f: &Formula,
    literals: &mut List<Literal>,
) -> Result<(), NoMemory>
    ensures { OnOk result (literals.new ≡ literals.old ++ literals_of negative f.now) }
{
    match f {
        Formula::And(parts) if negative => add_each(alloc, true, parts.as_slice(), literals),
        Formula::Or(parts) if !negative => add_each(alloc, false, parts.as_slice(), literals),
        Formula::Not(p) => add_literals(alloc, !negative, p.get(), literals),
        Formula::Implies(p, q) if !negative => {
            add_literals(alloc, true, p.get(), literals)?;
            add_literals(alloc, false, q.get(), literals)
        }
        _ => literals.push(Literal::new(negative, f.copy(alloc)?)),
    }
}

#[cycle(literals)]
fn add_each(
    alloc: Global,
    negative: bool,
    parts: &[Formula],
    literals: &mut List<Literal>,
) -> Result<(), NoMemory>
    ensures { OnOk result (literals.new ≡ literals.old ++ flat_map (literals_of negative) parts.now) }
{
    for part in parts {
        add_literals(alloc, negative, part, literals)?;
    }
    Ok(())
}
