ghost use Rattle.std.specs.Prelude.{◌≡◌, ◌<◌, length, true, slice_index_or, [], take, drop};
ghost use Rattle.kts_base.specs.Writes.{Wrote};
ghost use Rattle.kts_spec.specs.Data.{is_valid};
ghost use Rattle.kts_spec.specs.Facts.{is_manifest};
ghost use Rattle.kts_spec.specs.Places.{count_of, cell_count, offset};
ghost use Rattle.kts_spec.specs.Schedules.{tuples};
ghost use Rattle.kts_spec.specs.Schemas.{family_at, assigns_members};
ghost use Rattle.kts_spec.specs.Texts.{holder_text, index_of, member_name, declared_lines, manifest_lines, manifests_text};
ghost use Rattle.kts_spec.specs.Worlds.{world_of};
ghost use Rattle.kts_show.specs.Keys.{IsOver, sizes_in};
ghost use Rattle.kts_show.specs.OwnTexts.{own_manifest_line, own_holders_text};

use crate::key::{count_tuples, key_at};
use crate::names::value_names;
use kts_base::{Name, Sink, SinkFault, put_pieces};
use kts_spec::{Decl, Family, Instance, Schema};

/// Puts the manifests of a schedule. `values` has the value of each cell, in the order of the cells.
pub fn put_manifests<S: Sink>(
    schema: &Schema,
    inst: &Instance,
    values: &[i64],
    out: &mut S,
) -> Result<(), SinkFault>
    requires valid { is_valid schema.now inst.now ≡ true }
    requires whole { length values.now ≡ cell_count (world_of schema.now inst.now) schema.now.choices }
    ensures { Wrote result (S.log out.old) (S.log out.new) (manifests_text schema.now inst.now values.now) }
{
    for decl in schema.decls().as_slice() {
        put_declared(schema, inst, *decl, values, out)?;
    }
    Ok(())
}

// Puts the manifest that a declaration asks for.
fn put_declared<S: Sink>(
    schema: &Schema,
    inst: &Instance,
    decl: Decl,
    values: &[i64],
    out: &mut S,
) -> Result<(), SinkFault>
    requires valid { is_valid schema.now inst.now ≡ true }
    requires whole { length values.now ≡ cell_count (world_of schema.now inst.now) schema.now.choices }
    requires declared { is_manifest schema.now.choices decl ≡ true }
    ensures { Wrote result (S.log out.old) (S.log out.new) (declared_lines schema.now inst.now values.now decl) }
{
    match decl {
        Decl::Manifest(x) => put_manifest(schema, inst, x as usize, values, out),
        _ => Ok(()),
    }
}

// Puts a line for each member that the choice gives.
fn put_manifest<S: Sink>(
    schema: &Schema,
    inst: &Instance,
    x: usize,
    values: &[i64],
    out: &mut S,
) -> Result<(), SinkFault>
    requires valid { is_valid schema.now inst.now ≡ true }
    requires whole { length values.now ≡ cell_count (world_of schema.now inst.now) schema.now.choices }
    requires declared { x < length schema.now.choices }
    requires assigns { assigns_members (family_at schema.now.choices x) ≡ true }
    ensures { Wrote result (S.log out.old) (S.log out.new) (manifest_lines schema.now inst.now values.now x) }
{
    let family = &schema.choices().as_slice()[x];
    let own = own_values(schema, inst, x, values);
    for (m, member) in value_names(inst, family.kind()).iter().enumerate() {
        put_manifest_line(inst, family, own, m, *member, out)?;
    }
    Ok(())
}

// The values of the cells of a choice.
fn own_values<'a>(schema: &Schema, inst: &Instance, x: usize, values: &'a [i64]) -> &'a [i64]
    requires valid { is_valid schema.now inst.now ≡ true }
    requires whole { length values.now ≡ cell_count (world_of schema.now inst.now) schema.now.choices }
    requires declared { x < length schema.now.choices }
    ensures { result.now ≡ take (count_of (sizes_in inst.now (family_at schema.now.choices x))) (drop (offset (world_of schema.now inst.now) x) values.now) }
{
    let families = schema.choices().as_slice();
    let mut rest = values;
    for k in 0..x {
        let count = count_tuples(inst, &families[k]);
        let parts = rest.split_at(count);
        rest = parts.1;
    }
    let size = count_tuples(inst, &families[x]);
    let own = rest.split_at(size);
    own.0
}

// Puts the line of a member: its name, and who has it.
fn put_manifest_line<S: Sink>(
    inst: &Instance,
    family: &Family,
    own: &[i64],
    m: usize,
    member: Name,
    out: &mut S,
) -> Result<(), SinkFault>
    requires over { IsOver inst.now family.now }
    requires whole { length own.now ≡ count_of (sizes_in inst.now family.now) }
    requires named { member ≡ member_name inst.now (index_of family.now.kind) m }
    ensures { Wrote result (S.log out.old) (S.log out.new) (own_manifest_line inst.now family.now own.now m) }
{
    let name = family.name();
    put_pieces(out, &[b"manifest ", name.bytes(), b" ", member.bytes()])?;
    put_holders(inst, family, own, m, out)?;
    out.put(b"\n")
}

fn put_holders<S: Sink>(
    inst: &Instance,
    family: &Family,
    own: &[i64],
    m: usize,
    out: &mut S,
) -> Result<(), SinkFault>
    requires over { IsOver inst.now family.now }
    requires whole { length own.now ≡ count_of (sizes_in inst.now family.now) }
    ensures { Wrote result (S.log out.old) (S.log out.new) (own_holders_text inst.now family.now own.now m) }
{
    for (at, value) in own.iter().enumerate() {
        put_holder(inst, family, at, *value, m, out)?;
    }
    Ok(())
}

// Puts the names of the tuple at a place, if its value is the member.
fn put_holder<S: Sink>(
    inst: &Instance,
    family: &Family,
    at: usize,
    value: i64,
    m: usize,
    out: &mut S,
) -> Result<(), SinkFault>
    requires over { IsOver inst.now family.now }
    requires within { at < count_of (sizes_in inst.now family.now) }
    ensures { Wrote result (S.log out.old) (S.log out.new)
        (holder_text inst.now family.now m (slice_index_or (tuples (sizes_in inst.now family.now)) at [], value)) }
{
    if value.unsigned_abs() != m as u64 {
        return Ok(());
    }
    let key = key_at(inst, family, at);
    put_pieces(out, &[b" ", key.first, key.comma, key.second])
}
