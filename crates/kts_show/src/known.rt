ghost use Rattle.std.specs.Prelude.{◌<◌, [], map, pos, slice_index_or};
ghost use Rattle.kts_base.specs.Writes.{Wrote};
ghost use Rattle.kts_spec.specs.Places.{count_of};
ghost use Rattle.kts_spec.specs.Schedules.{tuples};
ghost use Rattle.kts_abs.specs.Cells.{value_of};
ghost use Rattle.kts_abs.specs.Values.{Win, Mem};
ghost use Rattle.kts_show.specs.Keys.{IsOver, sizes_in};
ghost use Rattle.kts_abs.specs.NodeTexts.{range_text, known_text};

use crate::key::key_at;
use crate::names::{name_at, value_names};
use itoa::Buffer;
use kts_abs::Cell;
use kts_base::{Name, Sink, SinkFault, put_pieces};
use kts_semi::Window;
use kts_sets::Choice;
use kts_spec::{Family, Instance};

/// Puts what is known of the cell of a choice at a place.
pub fn put_known<const W: usize, S: Sink>(
    inst: &Instance,
    family: &Family,
    at: usize,
    cell: &Cell<W>,
    out: &mut S,
) -> Result<(), SinkFault>
    requires over { IsOver inst.now family.now }
    requires within { at < count_of (sizes_in inst.now family.now) }
    ensures { Wrote result (S.log out.old) (S.log out.new)
        (known_text inst.now family.now (slice_index_or (tuples (sizes_in inst.now family.now)) at [], value_of cell.now)) }
{
    let name = family.name();
    let key = key_at(inst, family, at);
    put_pieces(
        out,
        &[
            b" ",
            name.bytes(),
            b"(",
            key.first,
            key.comma,
            key.second,
            b")=",
        ],
    )?;
    put_range(value_names(inst, family.kind()), cell, out)
}

fn put_range<const W: usize, S: Sink>(
    names: &[Name],
    cell: &Cell<W>,
    out: &mut S,
) -> Result<(), SinkFault>
    ensures { Wrote result (S.log out.old) (S.log out.new) (range_text names.now (value_of cell.now)) }
{
    match cell {
        Cell::Win(window) => put_window(window, out),
        Cell::Mem(choice) => put_members(names, choice, out),
    }
}

fn put_window<S: Sink>(window: &Window, out: &mut S) -> Result<(), SinkFault>
    ensures { Wrote result (S.log out.old) (S.log out.new) (range_text [] (Win window.now)) }
{
    let (mut lo, mut hi) = (Buffer::new(), Buffer::new());
    put_pieces(
        out,
        &[
            lo.format(window.lo()).as_bytes(),
            b"..",
            hi.format(window.hi()).as_bytes(),
        ],
    )
}

// Puts the names of the members of a set, in braces.
fn put_members<const W: usize, S: Sink>(
    names: &[Name],
    choice: &Choice<W>,
    out: &mut S,
) -> Result<(), SinkFault>
    ensures { Wrote result (S.log out.old) (S.log out.new) (range_text names.now (Mem (map pos choice.now))) }
{
    let set = choice.set();
    let mut before: &[u8] = b"{";
    let mut next = 0;
    while let Some(m) = set.from(next) {
        put_pieces(out, &[before, name_at(names, m)])?;
        before = b",";
        next = m + 1;
    }
    out.put(b"}")
}
