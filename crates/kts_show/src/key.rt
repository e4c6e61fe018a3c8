ghost use Rattle.std.specs.Prelude.{◌≡◌, ◌<◌, [], slice_index_or};
ghost use Rattle.kts_spec.specs.Places.{count_of};
ghost use Rattle.kts_spec.specs.Schedules.{tuples};
ghost use Rattle.kts_spec.specs.Texts.{key_text};
ghost use Rattle.kts_show.specs.Keys.{IsOver, sizes_in, bytes_of};

use crate::names::members;
use kts_spec::{Family, Instance};

/// The names of a tuple of at most two members, and the comma between two.
#[derive(Clone, Copy)]
pub struct Key<'a> {
    pub first: &'a [u8],
    pub comma: &'a [u8],
    pub second: &'a [u8],
}

/// How many tuples of members a family is over.
pub fn count_tuples(inst: &Instance, family: &Family) -> usize
    requires { IsOver inst.now family.now }
    ensures { result ≡ count_of (sizes_in inst.now family.now) }
{
    let indexes = family.args().as_slice();
    if indexes.is_empty() {
        return 1;
    }
    let first = members(inst, indexes[0]).len();
    if indexes.len() == 1 {
        return first;
    }
    first * members(inst, indexes[1]).len()
}

/// The names of the tuple at a place of their lexicographic order.
pub fn key_at<'a>(inst: &'a Instance, family: &Family, at: usize) -> Key<'a>
    requires over { IsOver inst.now family.now }
    requires within { at < count_of (sizes_in inst.now family.now) }
    ensures { bytes_of result ≡ key_text inst.now family.now.args (slice_index_or (tuples (sizes_in inst.now family.now)) at []) }
{
    let indexes = family.args().as_slice();
    if indexes.is_empty() {
        return Key {
            first: b"",
            comma: b"",
            second: b"",
        };
    }
    let first = members(inst, indexes[0]);
    if indexes.len() == 1 {
        return Key {
            first: first[at].bytes(),
            comma: b"",
            second: b"",
        };
    }
    let second = members(inst, indexes[1]);
    Key {
        first: first[at / second.len()].bytes(),
        comma: b",",
        second: second[at % second.len()].bytes(),
    }
}
