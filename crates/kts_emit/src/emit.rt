ghost use Rattle.std.specs.Prelude.{◌≡◌, ◌++◌, length, OnOk, OnErr, IfErr};
ghost use Rattle.kts_emit.specs.Codes.{term_code, formula_code};
ghost use Rattle.kts_emit.specs.Weights.{length_of_term, length_of_formula};
ghost use Rattle.kts_emit.specs.Buffers.{IsRefused};
ghost use Rattle.kts_emit.specs.Pushes.{PushTerm, PushFormula};

use crate::buffer::{Buffer, EmitFault};
use crate::draft::{draft_formula, draft_term};
use crate::lengths::{length_formula, length_term};
use kts_base::List;
use kts_spec::{Formula, Term};

/// Appends the code of a term with so many variables in scope. After a refusal the buffer is as before.
pub fn emit_term(b: &mut Buffer, t: &Term, scope: u8) -> Result<(), EmitFault>
    ensures code { OnOk result (b.new.instrs ≡ b.old.instrs ++ term_code t.now (length b.old.instrs) scope) }
    ensures pushes { OnOk result (PushTerm t.now scope (length b.old.instrs) b.new.instrs) }
    ensures kept { OnErr result (b.new.instrs ≡ b.old.instrs) }
    ensures fault { IfErr result (IsRefused (length b.old.instrs) (length_of_term t.now)) }
{
    let base = b.base_for(length_term(t))?;
    let mut draft = List::new(b.alloc());
    draft_term(&mut draft, base, scope, t)?;
    b.append(draft.as_slice())
}

/// Appends the code of a formula with so many variables in scope. After a refusal the buffer is as before.
pub fn emit_formula(b: &mut Buffer, f: &Formula, scope: u8) -> Result<(), EmitFault>
    ensures code { OnOk result (b.new.instrs ≡ b.old.instrs ++ formula_code f.now (length b.old.instrs) scope) }
    ensures pushes { OnOk result (PushFormula f.now scope (length b.old.instrs) b.new.instrs) }
    ensures kept { OnErr result (b.new.instrs ≡ b.old.instrs) }
    ensures fault { IfErr result (IsRefused (length b.old.instrs) (length_of_formula f.now)) }
{
    let base = b.base_for(length_formula(f))?;
    let mut draft = List::new(b.alloc());
    draft_formula(&mut draft, base, scope, f)?;
    b.append(draft.as_slice())
}
