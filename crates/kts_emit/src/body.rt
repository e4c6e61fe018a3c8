ghost use Rattle.std.specs.Prelude.{◌≡◌, ◌<◌, ◌≤◌, ◌++◌, length, OnOk, OnErr, IfErr};
ghost use Rattle.kts_base.specs.Limits.{most_variables};
ghost use Rattle.kts_emit.specs.Bodies.{body_code, constraint_in};
ghost use Rattle.kts_emit.specs.BodyRuns.{DoBody};
ghost use Rattle.kts_emit.specs.BodyWeights.{length_of_body};
ghost use Rattle.kts_emit.specs.Buffers.{IsRefused};

use crate::body_lengths::length_body;
use crate::buffer::{Buffer, EmitFault};
use crate::draft_body::draft_body;
use kts_base::List;
use kts_clause::Clause;
use kts_plan::Definite;

/// Appends the code of the body of a constraint of this clause. The run goes on at `done` when its task is done, and at
/// `fail` when nothing is left of a cell. After a refusal the buffer is as before.
pub fn emit_body(
    b: &mut Buffer,
    clause: &Clause,
    definite: &Definite,
    done: u32,
    fail: u32,
) -> Result<(), EmitFault>
    requires few { length clause.now.prefix ≤ most_variables }
    requires named { definite.now.literal < length clause.now.literals }
    ensures code { OnOk result (b.new.instrs ≡ b.old.instrs ++ body_code (constraint_in clause.now definite.now) done fail (length b.old.instrs) (length clause.now.prefix)) }
    ensures does { OnOk result (DoBody (constraint_in clause.now definite.now) done fail (length b.old.instrs) b.new.instrs) }
    ensures kept { OnErr result (b.new.instrs ≡ b.old.instrs) }
    ensures fault { IfErr result (IsRefused (length b.old.instrs) (length_of_body (constraint_in clause.now definite.now))) }
{
    let base = b.base_for(length_body(clause, definite))?;
    let mut draft = List::new(b.alloc());
    draft_body(&mut draft, base, clause, definite, done, fail)?;
    b.append(draft.as_slice())
}
