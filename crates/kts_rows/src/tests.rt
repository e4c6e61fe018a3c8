ghost use Rattle.std.specs.Prelude.{◌≤◌};

use crate::{Row, rises_are_few};
use kts_base::{List, NoMemory};
use kts_semi::{Rise, Semi, Window};
use kts_sets::{Choice, MemberSet};
use std::alloc::Global;
use std::test::Fail;

/// The answers of three rises after a mark, and the cell after the first, the last and the way back.
fn risen_and_back<L: Semi>(
    alloc: Global,
    cell: L,
    bounds: &[L; 3],
) -> Result<([Rise; 3], [L; 3]), NoMemory> {
    let mut row = Row::open(alloc, List::from_slice(alloc, &[cell])?, 1)?;
    row.mark();
    let first = row.rise(0, &bounds[0]);
    let risen = row.get(0);
    let second = row.rise(0, &bounds[1]);
    let third = row.rise(0, &bounds[2]);
    let last = row.get(0);
    row.back();
    Ok(([first, second, third], [risen, last, row.get(0)]))
}

fn window(lo: i64, hi: i64) -> Result<Window, Fail> {
    Ok(Window::new(lo, hi).ok_or("no window")?)
}

#[test]
fn the_way_back_undoes_a_rise_of_a_window(rt: HostRuntime) -> Result<(), Fail> {
    let bounds = [window(2, 9)?, window(0, 9)?, window(4, 9)?];
    let (answers, cells) = risen_and_back(rt.alloc(), window(0, 3)?, &bounds)?;
    assert_eq!(rt; answers, [Rise::Up, Rise::Same, Rise::Empty]);
    assert_eq!(rt; cells, [window(2, 3)?, window(2, 3)?, window(0, 3)?]);
    Ok(())
}

/// The choice of the numbers from `first` to `last`, of those that may be members.
fn choice_of<const W: usize>(first: usize, last: usize) -> Option<Choice<W>>
    requires { W ≤ 1024 }
{
    let mut set = MemberSet::empty();
    for m in first..=last {
        if let Some(one) = MemberSet::single(m) {
            set = set.join_sets(&one);
        }
    }
    Choice::new(set)
}

/// The least member, the greatest of those up to 255, and how many members there are.
fn ends<const W: usize>(choice: &Choice<W>) -> (Option<usize>, Option<usize>, usize) {
    let set = choice.set();
    (
        set.first(),
        (0..256).rev().find(|m| set.contains(*m)),
        set.len(),
    )
}

#[test]
fn the_way_back_undoes_a_rise_of_a_choice(rt: HostRuntime) -> Result<(), Fail> {
    let cell: Choice<1> = choice_of(0, 3).ok_or("none")?;
    let bounds = [
        choice_of(2, 9).ok_or("none")?,
        choice_of(0, 9).ok_or("none")?,
        choice_of(4, 9).ok_or("none")?,
    ];
    let (answers, [risen, last, back]) = risen_and_back(rt.alloc(), cell, &bounds)?;
    assert_eq!(rt; answers, [Rise::Up, Rise::Same, Rise::Empty]);
    assert_eq!(rt; ends(&risen), (Some(2), Some(3), 2));
    assert_eq!(rt; ends(&last), (Some(2), Some(3), 2));
    assert_eq!(rt; ends(&back), (Some(0), Some(3), 4));

    let cell: Choice<4> = choice_of(62, 65).ok_or("none")?;
    let bounds = [
        choice_of(64, 255).ok_or("none")?,
        choice_of(60, 70).ok_or("none")?,
        choice_of(66, 255).ok_or("none")?,
    ];
    let (answers, [risen, last, back]) = risen_and_back(rt.alloc(), cell, &bounds)?;
    assert_eq!(rt; answers, [Rise::Up, Rise::Same, Rise::Empty]);
    assert_eq!(rt; ends(&risen), (Some(64), Some(65), 2));
    assert_eq!(rt; ends(&last), (Some(64), Some(65), 2));
    assert_eq!(rt; ends(&back), (Some(62), Some(65), 4));
    Ok(())
}

/// The answers of a rise after each of two marks and of one more in the second cell, and both cells
/// with the number of marks then, after the way back, and after a reset.
fn raised_back_and_reset(
    alloc: Global,
    cells: &[Window; 2],
    bounds: &[Window; 3],
) -> Result<([Rise; 3], [(Window, Window, usize); 3]), NoMemory> {
    let mut row = Row::open(alloc, List::from_slice(alloc, cells)?, 2)?;
    row.mark();
    let first = row.rise(0, &bounds[0]);
    row.mark();
    let second = row.rise(0, &bounds[1]);
    let third = row.rise(1, &bounds[2]);
    let raised = (row.get(0), row.get(1), row.marks());
    row.back();
    let back = (row.get(0), row.get(1), row.marks());
    row.reset();
    let reset = (row.get(0), row.get(1), row.marks());
    rises_are_few(&row.get(0));
    Ok(([first, second, third], [raised, back, reset]))
}

#[test]
fn the_latest_mark_is_the_first_to_go_back_to(rt: HostRuntime) -> Result<(), Fail> {
    let cells = [window(0, 9)?, window(5, 5)?];
    let bounds = [window(3, 20)?, window(4, 4)?, window(4, 4)?];
    let (answers, states) = raised_back_and_reset(rt.alloc(), &cells, &bounds)?;
    assert_eq!(rt; answers, [Rise::Up, Rise::Up, Rise::Empty]);
    assert_eq!(rt;
        states,
        [
            (window(4, 4)?, window(5, 5)?, 2),
            (window(3, 9)?, window(5, 5)?, 1),
            (window(0, 9)?, window(5, 5)?, 0)
        ]
    );
    Ok(())
}

/// How many cells and marks a row without cells has, after a mark and after the way back.
fn marks_of_no_cells(alloc: Global) -> Result<[(usize, usize); 2], NoMemory> {
    let mut row: Row<Window> = Row::open(alloc, List::new(alloc), 1)?;
    row.mark();
    let marked = (row.len(), row.marks());
    row.back();
    Ok([marked, (row.len(), row.marks())])
}

#[test]
fn a_row_of_no_cells_has_marks(rt: HostRuntime) -> Result<(), Fail> {
    assert_eq!(rt; marks_of_no_cells(rt.alloc())?, [(0, 1), (0, 0)]);
    Ok(())
}

/// Both cells before the ways back, after the first and after the second, where the first cell rises
/// twice after a mark and once more after the next, and the second cell after the next alone.
fn risen_under_two_marks(
    alloc: Global,
    cell: Window,
    first: &[Window; 3],
    second: Window,
) -> Result<[(Window, Window); 3], NoMemory> {
    let mut row = Row::open(alloc, List::from_slice(alloc, &[cell, cell])?, 3)?;
    row.mark();
    row.rise(0, &first[0]);
    row.rise(0, &first[1]);
    row.mark();
    row.rise(1, &second);
    row.rise(0, &first[2]);
    let risen = (row.get(0), row.get(1));
    row.back();
    let back = (row.get(0), row.get(1));
    row.back();
    Ok([risen, back, (row.get(0), row.get(1))])
}

#[test]
fn a_cell_goes_back_to_what_it_was_at_each_mark(rt: HostRuntime) -> Result<(), Fail> {
    let first = [window(1, 9)?, window(2, 9)?, window(3, 9)?];
    let states = risen_under_two_marks(rt.alloc(), window(0, 9)?, &first, window(0, 4)?)?;
    assert_eq!(rt;
        states,
        [
            (window(3, 9)?, window(0, 4)?),
            (window(2, 9)?, window(0, 9)?),
            (window(0, 9)?, window(0, 9)?)
        ]
    );
    Ok(())
}
