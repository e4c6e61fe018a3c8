ghost use Rattle.std.specs.Prelude.{◌≡◌, ◌≤◌, length, true, map, flat_map, zip};
ghost use Rattle.kts_base.specs.Writes.{Wrote};
ghost use Rattle.kts_spec.specs.Data.{is_valid};
ghost use Rattle.kts_spec.specs.Places.{count_of, cell_count};
ghost use Rattle.kts_spec.specs.Schedules.{tuples};
ghost use Rattle.kts_spec.specs.Worlds.{world_of};
ghost use Rattle.kts_abs.specs.Cells.{value_of, space_of};
ghost use Rattle.kts_show.specs.Keys.{IsOver, sizes_in};
ghost use Rattle.kts_abs.specs.NodeTexts.{known_text, known_cells_text, node_text};

use crate::key::count_tuples;
use crate::known::put_known;
use kts_abs::{Cell, Space};
use kts_base::{Sink, SinkFault};
use kts_spec::{Family, Instance, Schema};

/// Puts the line of a node: what the space knows of each cell.
pub fn put_node<const W: usize, S: Sink>(
    schema: &Schema,
    inst: &Instance,
    space: &Space<W>,
    out: &mut S,
) -> Result<(), SinkFault>
    requires few_words { W ≤ 1024 }
    requires valid { is_valid schema.now inst.now ≡ true }
    requires whole { length space.now.cells ≡ cell_count (world_of schema.now inst.now) schema.now.choices }
    ensures { Wrote result (S.log out.old) (S.log out.new) (node_text schema.now inst.now (space_of space.now)) }
{
    out.put(b"node")?;
    put_cells(schema, inst, space.cells().as_slice(), out)?;
    out.put(b"\n")
}

fn put_cells<const W: usize, S: Sink>(
    schema: &Schema,
    inst: &Instance,
    cells: &[Cell<W>],
    out: &mut S,
) -> Result<(), SinkFault>
    requires few_words { W ≤ 1024 }
    requires valid { is_valid schema.now inst.now ≡ true }
    requires whole { length cells.now ≡ cell_count (world_of schema.now inst.now) schema.now.choices }
    ensures { Wrote result (S.log out.old) (S.log out.new) (known_cells_text schema.now inst.now (map value_of cells.now)) }
{
    let mut rest = cells;
    for family in schema.choices().as_slice() {
        let count = count_tuples(inst, family);
        let parts = rest.split_at(count);
        put_own(inst, family, parts.0, out)?;
        rest = parts.1;
    }
    Ok(())
}

// Puts what is known of the cells of one choice.
fn put_own<const W: usize, S: Sink>(
    inst: &Instance,
    family: &Family,
    own: &[Cell<W>],
    out: &mut S,
) -> Result<(), SinkFault>
    requires few_words { W ≤ 1024 }
    requires over { IsOver inst.now family.now }
    requires whole { length own.now ≡ count_of (sizes_in inst.now family.now) }
    ensures { Wrote result (S.log out.old) (S.log out.new)
        (flat_map (known_text inst.now family.now) (zip (tuples (sizes_in inst.now family.now)) (map value_of own.now))) }
{
    for (at, cell) in own.iter().enumerate() {
        put_known(inst, family, at, cell, out)?;
    }
    Ok(())
}
