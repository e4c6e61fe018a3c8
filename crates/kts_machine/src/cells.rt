ghost use Rattle.std.specs.Prelude.{◌≡◌, ◌≢◌, ◌<◌, ◌<ℤ◌, ◌+ℤ◌, [], length, take, drop, pos, true};
ghost use Rattle.kts_abs.specs.Cells.{IsValid, is_above, value_of};
ghost use Rattle.kts_semi.specs.Ends.{InEnds};
ghost use Rattle.kts_sets.specs.Choices.{IsChoice};
ghost use Rattle.kts_abs.specs.Spaces.{is_wide as is_wide_lem, least_in, least_alone as least_alone_lem, least_dropped as least_dropped_lem};

use kts_abs::Cell;
use kts_semi::Window;
use kts_sets::{Choice, MemberSet};

/// Whether a cell has two values or more.
pub fn is_wide<const W: usize>(cell: &Cell<W>) -> bool
    ensures { result ≡ is_wide_lem (value_of cell.now) }
{
    match cell {
        Cell::Win(window) => window.lo() < window.hi(),
        Cell::Mem(choice) => choice.set().len() > 1,
    }
}

/// The least value of a cell.
pub fn least<const W: usize>(cell: &Cell<W>) -> i64
    ensures { result ≡ least_in (value_of cell.now) }
{
    match cell {
        Cell::Win(window) => window.lo(),
        Cell::Mem(choice) => match choice.set().first() {
            Some(member) => member as i64,
            None => 0,
        },
    }
}

/// The cell with its least value alone.
pub fn least_alone<const W: usize>(cell: &Cell<W>) -> Cell<W>
    ensures value { value_of result ≡ least_alone_lem (value_of cell.now) }
    ensures above { is_above cell.now result ≡ true }
    ensures cell_valid { IsValid cell.now }
    ensures valid { IsValid result }
{
    match cell {
        Cell::Win(window) => Cell::Win(lowest(window)),
        Cell::Mem(choice) => Cell::Mem(first_member(choice)),
    }
}

/// The cell without its least value.
pub fn least_dropped<const W: usize>(cell: &Cell<W>) -> Cell<W>
    requires { is_wide_lem (value_of cell.now) ≡ true }
    ensures value { value_of result ≡ least_dropped_lem (value_of cell.now) }
    ensures above { is_above cell.now result ≡ true }
    ensures cell_valid { IsValid cell.now }
    ensures valid { IsValid result }
{
    match cell {
        Cell::Win(window) => Cell::Win(above_lowest(window)),
        Cell::Mem(choice) => Cell::Mem(other_members(choice)),
    }
}

fn lowest(window: &Window) -> Window
    ensures ends { result ≡ (window.now.0, window.now.0) }
    ensures window_valid { InEnds window.now }
    ensures valid { InEnds result }
{
    match Window::new(window.lo(), window.lo()) {
        Some(lowest) => lowest,
        None => unreachable!(),
    }
}

fn above_lowest(window: &Window) -> Window
    requires { window.now.0 <ℤ window.now.1 }
    ensures ends { result ≡ (window.now.0 +ℤ pos 1, window.now.1) }
    ensures window_valid { InEnds window.now }
    ensures valid { InEnds result }
{
    match Window::new(window.lo() + 1, window.hi()) {
        Some(part) => part,
        None => unreachable!(),
    }
}

fn first_member<const W: usize>(choice: &Choice<W>) -> Choice<W>
    ensures member { result ≡ take 1 choice.now }
    ensures choice_valid { IsChoice choice.now }
    ensures valid { IsChoice result }
{
    let first = match choice.set().first() {
        Some(member) => member,
        None => unreachable!(),
    };
    match MemberSet::single(first) {
        Some(set) => chosen(set),
        None => unreachable!(),
    }
}

fn other_members<const W: usize>(choice: &Choice<W>) -> Choice<W>
    requires { 1 < length choice.now }
    ensures members { result ≡ drop 1 choice.now }
    ensures choice_valid { IsChoice choice.now }
    ensures valid { IsChoice result }
{
    let set = choice.set();
    let least = match set.first() {
        Some(member) => member,
        None => unreachable!(),
    };
    match Choice::new(set.without(least)) {
        Some(others) => {
            // A set tells that it is valid.
            others.set();
            others
        }
        None => unreachable!(),
    }
}

// A set that isn't empty.
fn chosen<const W: usize>(set: MemberSet<W>) -> Choice<W>
    requires { set ≢ [] }
    ensures members { result ≡ set.entry }
    ensures valid { IsChoice result }
{
    match Choice::new(set) {
        Some(choice) => {
            // A set tells that it is valid.
            choice.set();
            choice
        }
        None => unreachable!(),
    }
}
