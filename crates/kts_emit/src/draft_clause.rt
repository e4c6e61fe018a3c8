ghost use Rattle.std.specs.Prelude.{◌≡◌, ◌+◌, ◌++◌, map, length, OnOk};
ghost use Rattle.kts_code.specs.declared.instructions.Instr.TheVariants.{Or as OrInstr};
ghost use Rattle.kts_emit.specs.Bodies.{literal_code};
ghost use Rattle.kts_emit.specs.ClauseCode.{literals_code, clause_code};
ghost use Rattle.kts_emit.specs.Fragments.{chain_rest};

use crate::draft::{close_loops, open_loops};
use crate::draft_body::draft_literal;
use kts_base::{List, NoMemory};
use kts_clause::{Clause, Literal};
use kts_code::Instr;

/// Appends the code of a clause, with no variable in scope.
pub fn draft_clause(draft: &mut List<Instr>, base: u32, clause: &Clause) -> Result<(), NoMemory>
    ensures { OnOk result (draft.new ≡ draft.old ++ clause_code clause.now (base + length draft.old) 0) }
{
    let at = draft.len();
    let prefix = clause.prefix().as_slice();
    let scope = open_loops(draft, 0, Instr::True, prefix)?;
    draft_literals(draft, base, scope, clause.literals().as_slice())?;
    close_loops(draft, base, 0, Instr::And, prefix, at)?;
    Ok(())
}

/// Appends the code of literals that are joined by `or`.
fn draft_literals(
    draft: &mut List<Instr>,
    base: u32,
    scope: u8,
    literals: &[Literal],
) -> Result<(), NoMemory>
    ensures { OnOk result (draft.new ≡ draft.old ++ literals_code literals.now (base + length draft.old) scope) }
{
    match literals.split_first() {
        None => draft.push(Instr::False),
        Some((first, others)) => {
            draft_literal(draft, base, scope, first)?;
            draft_joined(draft, base, scope, others)
        }
    }
}

/// Appends the code of literals that are each joined to what is before them.
fn draft_joined(
    draft: &mut List<Instr>,
    base: u32,
    scope: u8,
    literals: &[Literal],
) -> Result<(), NoMemory>
    ensures { OnOk result (draft.new ≡ draft.old ++ chain_rest OrInstr (map literal_code literals.now) (base + length draft.old) scope) }
{
    for literal in literals {
        draft_literal(draft, base, scope, literal)?;
        draft.push(Instr::Or)?;
    }
    Ok(())
}
