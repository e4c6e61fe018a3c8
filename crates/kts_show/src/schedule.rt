ghost use Rattle.std.specs.Prelude.{◌≡◌, ◌<◌, length, true, slice_index_or, []};
ghost use Rattle.kts_base.specs.Writes.{Wrote};
ghost use Rattle.kts_spec.specs.Data.{is_valid};
ghost use Rattle.kts_spec.specs.Places.{count_of, cell_count};
ghost use Rattle.kts_spec.specs.Schedules.{tuples};
ghost use Rattle.kts_spec.specs.Texts.{entry_text, choice_lines, schedule_text};
ghost use Rattle.kts_spec.specs.Worlds.{world_of};
ghost use Rattle.kts_show.specs.Keys.{IsOver, sizes_in};
ghost use Rattle.kts_show.specs.OwnTexts.{own_line, own_values_text};

use crate::ending::put_numbered;
use crate::key::{count_tuples, key_at};
use crate::manifest::put_manifests;
use crate::names::{members, name_at};
use itoa::Buffer;
use kts_base::{Sink, SinkFault, put_pieces};
use kts_spec::{Family, Instance, Schema, ValueType};

/// Puts a schedule with its number: a line for each choice, and the manifests. `values` has the
/// value of each cell, in the order of the cells.
pub fn put_schedule<S: Sink>(
    schema: &Schema,
    inst: &Instance,
    number: u64,
    values: &[i64],
    out: &mut S,
) -> Result<(), SinkFault>
    requires valid { is_valid schema.now inst.now ≡ true }
    requires whole { length values.now ≡ cell_count (world_of schema.now inst.now) schema.now.choices }
    ensures { Wrote result (S.log out.old) (S.log out.new) (schedule_text schema.now inst.now number values.now) }
{
    put_numbered(b"schedule ", number, out)?;
    put_choices(schema, inst, values, out)?;
    put_manifests(schema, inst, values, out)
}

// Puts the line of each choice.
fn put_choices<S: Sink>(
    schema: &Schema,
    inst: &Instance,
    values: &[i64],
    out: &mut S,
) -> Result<(), SinkFault>
    requires valid { is_valid schema.now inst.now ≡ true }
    requires whole { length values.now ≡ cell_count (world_of schema.now inst.now) schema.now.choices }
    ensures { Wrote result (S.log out.old) (S.log out.new) (choice_lines schema.now inst.now values.now) }
{
    let mut rest = values;
    for family in schema.choices().as_slice() {
        let count = count_tuples(inst, family);
        let parts = rest.split_at(count);
        put_choice(inst, family, parts.0, out)?;
        rest = parts.1;
    }
    Ok(())
}

// Puts the line of a choice, on the values of its own cells.
fn put_choice<S: Sink>(
    inst: &Instance,
    family: &Family,
    own: &[i64],
    out: &mut S,
) -> Result<(), SinkFault>
    requires over { IsOver inst.now family.now }
    requires whole { length own.now ≡ count_of (sizes_in inst.now family.now) }
    ensures { Wrote result (S.log out.old) (S.log out.new) (own_line inst.now family.now own.now) }
{
    out.put(family.name().bytes())?;
    put_values(inst, family, own, out)?;
    out.put(b"\n")
}

fn put_values<S: Sink>(
    inst: &Instance,
    family: &Family,
    own: &[i64],
    out: &mut S,
) -> Result<(), SinkFault>
    requires over { IsOver inst.now family.now }
    requires whole { length own.now ≡ count_of (sizes_in inst.now family.now) }
    ensures { Wrote result (S.log out.old) (S.log out.new) (own_values_text inst.now family.now own.now) }
{
    for (at, value) in own.iter().enumerate() {
        put_value(inst, family, at, *value, out)?;
    }
    Ok(())
}

// Puts the value of the tuple at a place.
fn put_value<S: Sink>(
    inst: &Instance,
    family: &Family,
    at: usize,
    value: i64,
    out: &mut S,
) -> Result<(), SinkFault>
    requires over { IsOver inst.now family.now }
    requires within { at < count_of (sizes_in inst.now family.now) }
    ensures { Wrote result (S.log out.old) (S.log out.new)
        (entry_text inst.now family.now (slice_index_or (tuples (sizes_in inst.now family.now)) at [], value)) }
{
    let key = key_at(inst, family, at);
    let mut buffer = Buffer::new();
    let text = match family.kind() {
        ValueType::Int { .. } => buffer.format(value).as_bytes(),
        ValueType::Member(index) => name_at(members(inst, index), value.unsigned_abs() as usize),
    };
    put_pieces(out, &[b" ", key.first, key.comma, key.second, b"=", text])
}
