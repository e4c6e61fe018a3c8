ghost use Rattle.std.specs.Prelude.{◌≡◌, ◌+◌, map, length};
ghost use Rattle.serde_json.specs.View.{view};
ghost use Rattle.kts_base.specs.Reads.{Gives};
ghost use Rattle.kts_data.specs.Faults.{IsNoMemory, fold_read};
ghost use Rattle.kts_data.specs.Instances.{in_range, value_of, with_value, with_row, table_by, table_of, size_at, place_in, members_at};

use crate::fault::{DataFault, Reason, fail_at};
use crate::lookup::so_many;
use crate::roster::Roster;
use kts_base::{List, Name};
use kts_spec::{Family, ValueType};
use serde_json::Value;
use std::alloc::Global;

/// How many members an index has; none where it isn't there.
fn size_at(members: &[Roster], index: u32) -> usize
    ensures { result ≡ size_at members.now index }
{
    match members.get(index as usize) {
        Some(roster) => roster.len(),
        None => 0,
    }
}

fn in_range(name: &Name, lo: i64, hi: i64, element: usize, n: i64) -> Result<i64, DataFault>
    ensures { result ≡ in_range name.now lo hi element n }
{
    if lo <= n && n <= hi {
        return Ok(n);
    }
    fail_at(name, element, Reason::OutOfRange)
}

/// A value of a type.
#[tactic(auto, unfolding(crate::specs::Instances::value_of))]
fn value_of(
    members: &[Roster],
    name: &Name,
    kind: ValueType,
    element: usize,
    value: &Value,
) -> Result<i64, DataFault>
    ensures { result ≡ value_of members.now name.now kind element (view value.now) }
{
    match kind {
        ValueType::Int { lo, hi } => match value.as_i64() {
            Some(n) => in_range(name, lo, hi, element, n),
            None => fail_at(name, element, Reason::NotWhole),
        },
        ValueType::Member(index) => match value.as_str() {
            None => fail_at(name, element, Reason::NotText),
            Some(text) => match place_at(members, index, text.as_bytes()) {
                Some(place) => Ok(place),
                None => fail_at(name, element, Reason::UnknownMember),
            },
        },
    }
}

/// The position of the member of an index with this name.
fn place_at(members: &[Roster], index: u32, text: &[u8]) -> Option<i64>
    ensures { result ≡ place_in (members_at members.now index) text.now }
{
    members.get(index as usize)?.place_of(text)
}

/// Takes one value of a family after those that are taken.
#[tactic(auto, unfolding(crate::specs::Instances::with_value))]
fn take_value(
    members: &[Roster],
    family: &Family,
    taken: &mut List<i64>,
    value: &Value,
) -> Result<(), DataFault>
    ensures { Gives IsNoMemory (λ _. taken.new) result (with_value members.now family.now taken.old (view value.now)) }
{
    // By `match`, since the checker fails on a plan of its own where `?` stands here.
    match value_of(members, &family.name(), family.kind(), taken.len(), value) {
        Ok(n) => Ok(taken.push(n)?),
        Err(fault) => Err(fault),
    }
}

/// Takes values of a family after those that are taken.
fn take_values(
    members: &[Roster],
    family: &Family,
    taken: &mut List<i64>,
    values: &[Value],
) -> Result<(), DataFault>
    ensures { Gives IsNoMemory (λ _. taken.new) result (fold_read (with_value members.now family.now) taken.old (map view values.now)) }
{
    for value in values {
        take_value(members, family, taken, value)?;
    }
    Ok(())
}

/// Takes a row of so many values, which has number `row`, after those that are taken.
#[tactic(auto, unfolding(crate::specs::Instances::with_row))]
fn take_row(
    members: &[Roster],
    family: &Family,
    width: usize,
    row: usize,
    taken: &mut List<i64>,
    value: &Value,
) -> Result<(), DataFault>
    ensures { Gives IsNoMemory (λ _. (row + 1, taken.new)) result (with_row members.now family.now width (row, taken.old) (view value.now)) }
{
    let values = so_many(value, &family.name(), row, width)?;
    take_values(members, family, taken, values)
}

/// Takes rows of so many values after those that are taken.
fn take_rows(
    members: &[Roster],
    family: &Family,
    width: usize,
    taken: &mut List<i64>,
    rows: &[Value],
) -> Result<(), DataFault>
    ensures { Gives IsNoMemory (λ _. (length rows.now, taken.new)) result (fold_read (with_row members.now family.now width) (0, taken.old) (map view rows.now)) }
{
    for (row, value) in rows.iter().enumerate() {
        take_row(members, family, width, row, taken, value)?;
    }
    Ok(())
}

/// The values of a family, one for each tuple of its arguments.
#[tactic(auto, unfolding(crate::specs::Instances::table_by))]
pub fn table_of(
    alloc: Global,
    members: &[Roster],
    family: &Family,
    value: &Value,
) -> Result<List<i64>, DataFault>
    ensures { Gives IsNoMemory (λ table. table) result (table_of members.now family.now (view value.now)) }
{
    let mut taken = List::new(alloc);
    let name = family.name();
    match family.args().as_slice() {
        [] => take_value(members, family, &mut taken, value)?,
        [i] => {
            let values = so_many(value, &name, 0, size_at(members, *i))?;
            take_values(members, family, &mut taken, values)?;
        }
        [i, j] => {
            let rows = so_many(value, &name, 0, size_at(members, *i))?;
            take_rows(members, family, size_at(members, *j), &mut taken, rows)?;
        }
        _ => {}
    }
    Ok(taken)
}
