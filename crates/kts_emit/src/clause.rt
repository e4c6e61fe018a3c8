ghost use Rattle.std.specs.Prelude.{◌≡◌, ◌-◌, ◌^◌, ◌++◌, length, map, min, OnOk, OnErr, IfErr};
ghost use Rattle.kts_emit.specs.BodyWeights.{literal_weight};
ghost use Rattle.kts_emit.specs.Buffers.{IsRefused};
ghost use Rattle.kts_emit.specs.ClauseCode.{clause_code, literals_weight, length_of_clause, PushClause};
ghost use Rattle.kts_emit.specs.Weights.{once, chain_rest_weight};

use crate::body_lengths::literal_length;
use crate::buffer::{Buffer, EmitFault};
use crate::draft_clause::draft_clause;
use crate::lengths::nested_length;
use kts_base::List;
use kts_clause::{Clause, Literal};

/// Appends the code of a clause, with no variable in scope. After a refusal the buffer is as before.
pub fn emit_clause(b: &mut Buffer, clause: &Clause) -> Result<(), EmitFault>
    ensures code { OnOk result (b.new.instrs ≡ b.old.instrs ++ clause_code clause.now (length b.old.instrs) 0) }
    ensures pushes { OnOk result (PushClause clause.now (length b.old.instrs) b.new.instrs) }
    ensures kept { OnErr result (b.new.instrs ≡ b.old.instrs) }
    ensures fault { IfErr result (IsRefused (length b.old.instrs) (length_of_clause clause.now)) }
{
    let base = b.base_for(length_clause(clause))?;
    let mut draft = List::new(b.alloc());
    draft_clause(&mut draft, base, clause)?;
    b.append(draft.as_slice())
}

/// How many instructions the code of a clause has; a count past the type's end stops there.
pub fn length_clause(clause: &Clause) -> u64
    ensures { result ≡ min (length_of_clause clause.now) (2 ^ 64 - 1) }
{
    let literals = literals_length(clause.literals().as_slice());
    nested_length(clause.prefix().as_slice(), literals)
}

/// The same of literals that are joined by `or`.
fn literals_length(literals: &[Literal]) -> u64
    ensures { result ≡ min (literals_weight once literals.now) (2 ^ 64 - 1) }
{
    match literals.split_first() {
        None => 1,
        Some((first, others)) => literal_length(first).saturating_add(joined_length(others)),
    }
}

fn joined_length(literals: &[Literal]) -> u64
    ensures { result ≡ min (chain_rest_weight (map (literal_weight once) literals.now)) (2 ^ 64 - 1) }
{
    let mut count: u64 = 0;
    for literal in literals {
        count = count
            .saturating_add(literal_length(literal))
            .saturating_add(1);
    }
    count
}
