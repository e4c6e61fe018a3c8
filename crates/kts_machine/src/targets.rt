ghost use Rattle.std.specs.Prelude.{◌≡◌, ◌<◌, ◌≤◌, ◌+◌, ℕ, ℤ, List, Option, length, drop, true, Some, IfOk, IfErr};
ghost use Rattle.kts_abs.specs.Cells.{value_of};
ghost use Rattle.kts_abs.specs.Demands.{Suits};
ghost use Rattle.kts_abs.specs.Values.{Abs};
ghost use Rattle.kts_code.specs.HeadSteps.{on_head, on_demand};
ghost use Rattle.kts_code.specs.Operands.{trap};
ghost use Rattle.kts_code.specs.States.{Core};
ghost use Rattle.kts_mean.specs.Bounds.{AreOffsets};
ghost use Rattle.kts_spec.specs.Data.{is_valid};
ghost use Rattle.kts_spec.specs.Places.{cell};
ghost use Rattle.kts_spec.specs.Schemas.{family_at};
ghost use Rattle.kts_spec.specs.Worlds.{world_of, choice_of};
ghost use Rattle.kts_machine.specs.OfKind.{IsOf};
ghost use Rattle.kts_machine.specs.Targets.{setup_with};

use crate::demands::bound;
use crate::offsets::Offsets;
use crate::reads::choice_args;
use crate::stack::Stack;
use kts_abs::{Cell, Op};
use kts_code::{Code, TrapKind};
use kts_spec::{Instance, Schema, ValueType};

/// A cell, the bound of a demand on it, and how many operands have told both.
#[derive(Clone, Copy)]
pub struct Target<const W: usize> {
    pub bound: Cell<W>,
    pub cell: usize,
    pub operands: usize,
}

fn choice_kind(schema: &Schema, x: usize) -> ValueType
    requires { x < length schema.now.choices }
    ensures { result ≡ (family_at schema.now.choices x).kind }
{
    schema.choices().as_slice()[x].kind()
}

/// What the operands on top tell of a demand on a cell of a choice.
pub fn top_target<const W: usize>(
    code: &Code,
    inst: &Instance,
    offsets: &Offsets,
    stack: &Stack<W>,
    op: Op,
    x: u32,
) -> Result<Target<W>, TrapKind>
    requires few_words { W ≤ 1024 }
    requires valid { is_valid code.now.schema inst.now ≡ true }
    requires offsets { AreOffsets (world_of code.now.schema inst.now) offsets.now }
    requires declared { x < length code.now.schema.choices }
    ensures there { IfOk result (λ t. t.operands ≤ length stack.now.items) }
    ensures cell { IfOk result (λ t. (args : List ℤ) × (cell (world_of code.now.schema inst.now) x args ≡ Some t.cell)) }
    ensures bound { IfOk result (λ t. Suits op (value_of t.bound)) }
    ensures suits { IfOk result (λ t. (a : Abs) → IsOf (choice_of (world_of code.now.schema inst.now) x).kind a → Suits op a) }
    ensures ok { IfOk result (λ t. (origin : Option (List Abs)) (s : Core) (space : List Abs) (to : ℕ) → s.stack ≡ stack.now.items
        → on_head (setup_with code.now inst.now origin) s op x to space
        ≡ on_demand (setup_with code.now inst.now origin) s space to (drop t.operands stack.now.items) (op, value_of t.bound) t.cell) }
    ensures err { IfErr result (λ kind. (origin : Option (List Abs)) (s : Core) (space : List Abs) (to : ℕ) → s.stack ≡ stack.now.items
        → on_head (setup_with code.now inst.now origin) s op x to space ≡ trap kind s) }
{
    let schema = code.schema();
    let indexes = choice_args(schema, x as usize);
    if stack.len() < indexes.len() + 1 {
        return Err(TrapKind::Underflow);
    }
    let Some(top) = stack.at(0) else {
        return Err(TrapKind::Underflow);
    };
    let Some(bound) = bound(op, choice_kind(schema, x as usize), &top) else {
        return Err(TrapKind::Kind);
    };
    let Some(tuple) = stack.tuple(indexes) else {
        return Err(TrapKind::Kind);
    };
    let Some(cell) = offsets.cell(schema, inst, x as usize, tuple) else {
        return Err(TrapKind::Kind);
    };
    Ok(Target {
        bound,
        cell,
        operands: indexes.len() + 1,
    })
}
