ghost use Rattle.std.specs.Prelude.{◌≤◌};

use crate::{
    Cell, Operand, Space, Tri, add, and, eq, gate, hull, le, max, min, mul, not, or, same, sub,
    union,
};
use kts_base::{List, NoMemory};
use kts_semi::{MAX_WINDOW_END, Semi, Window};
use kts_sets::{Choice, MemberSet};
use std::alloc::Global;
use std::test::Fail;

fn window(lo: i64, hi: i64) -> Result<Window, Fail> {
    Ok(Window::new(lo, hi).ok_or("no window")?)
}

/// The set of one or two members.
fn choice<const W: usize>(m: usize, n: usize) -> Option<Choice<W>>
    requires { W ≤ 1024 }
{
    let first = MemberSet::single(m)?;
    let second = MemberSet::single(n)?;
    Choice::new(first.join_sets(&second))
}

#[test]
fn arithmetic_gives_the_least_window_of_all_results(rt: HostRuntime) -> Result<(), Fail> {
    let a = window(-2, 3)?;
    let b = window(-5, 4)?;
    assert_eq!(rt; add(&a, &b), Window::new(-7, 7));
    assert_eq!(rt; sub(&a, &b), Window::new(-6, 8));
    assert_eq!(rt; mul(&a, &b), Window::new(-15, 12));
    assert_eq!(rt; min(&a, &b), Window::new(-5, 3));
    assert_eq!(rt; max(&a, &b), Window::new(-2, 4));
    assert_eq!(rt; hull(&a, &b), window(-5, 4)?);
    assert_eq!(rt;
        mul(&window(-3, -2)?, &window(-7, -5)?),
        Window::new(10, 21)
    );
    Ok(())
}

#[test]
fn a_result_past_the_greatest_end_is_none(rt: HostRuntime) -> Result<(), Fail> {
    let top = window(MAX_WINDOW_END, MAX_WINDOW_END)?;
    let bottom = window(-MAX_WINDOW_END, -MAX_WINDOW_END)?;
    let one = window(1, 1)?;
    let zero = window(0, 0)?;
    assert_eq!(rt; add(&top, &zero), Some(top));
    assert_eq!(rt; add(&top, &one), None);
    assert_eq!(rt; sub(&bottom, &zero), Some(bottom));
    assert_eq!(rt; sub(&bottom, &one), None);
    assert_eq!(rt; sub(&zero, &bottom), Some(top));
    assert_eq!(rt; mul(&top, &one), Some(top));
    assert_eq!(rt;
        mul(&top, &window(-1, 1)?),
        Window::new(-MAX_WINDOW_END, MAX_WINDOW_END)
    );
    assert_eq!(rt; mul(&top, &window(0, 2)?), None);
    assert_eq!(rt; mul(&top, &bottom), None);
    assert_eq!(rt; max(&top, &bottom), Some(top));
    assert_eq!(rt;
        hull(&top, &bottom),
        window(-MAX_WINDOW_END, MAX_WINDOW_END)?
    );
    Ok(())
}

#[test]
fn windows_compare_as_their_ends_decide(rt: HostRuntime) -> Result<(), Fail> {
    let a = window(2, 5)?;
    for (lo, hi, at_most, equal) in [
        (5, 9, Tri::T, Tri::U),
        (6, 9, Tri::T, Tri::F),
        (4, 9, Tri::U, Tri::U),
        (0, 2, Tri::U, Tri::U),
        (0, 1, Tri::F, Tri::F),
        (2, 5, Tri::U, Tri::U),
    ] {
        assert_eq!(rt; le(&a, &window(lo, hi)?), at_most, "at {lo} {hi}");
        assert_eq!(rt; eq(&a, &window(lo, hi)?), equal, "at {lo} {hi}");
    }
    assert_eq!(rt; eq(&window(3, 3)?, &window(3, 3)?), Tri::T);
    assert_eq!(rt; eq(&window(3, 3)?, &window(4, 4)?), Tri::F);
    Ok(())
}

#[test]
fn an_addend_may_count_where_its_condition_is_unknown(rt: HostRuntime) -> Result<(), Fail> {
    let a = window(2, 5)?;
    assert_eq!(rt; gate(Tri::T, &a), a);
    assert_eq!(rt; gate(Tri::F, &a), window(0, 0)?);
    assert_eq!(rt; gate(Tri::U, &a), window(0, 5)?);
    assert_eq!(rt; gate(Tri::U, &window(-3, -1)?), window(-3, 0)?);
    Ok(())
}

#[test]
fn an_unknown_truth_value_is_settled_by_the_other_alone(rt: HostRuntime) {
    for (a, b, both, either) in [
        (Tri::F, Tri::F, Tri::F, Tri::F),
        (Tri::F, Tri::U, Tri::F, Tri::U),
        (Tri::F, Tri::T, Tri::F, Tri::T),
        (Tri::U, Tri::U, Tri::U, Tri::U),
        (Tri::U, Tri::T, Tri::U, Tri::T),
        (Tri::T, Tri::T, Tri::T, Tri::T),
    ] {
        assert_eq!(rt; and(a, b), both, "{a:?} and {b:?}");
        assert_eq!(rt; and(b, a), both, "{b:?} and {a:?}");
        assert_eq!(rt; or(a, b), either, "{a:?} or {b:?}");
        assert_eq!(rt; or(b, a), either, "{b:?} or {a:?}");
    }
    assert_eq!(rt;
        (not(Tri::F), not(Tri::U), not(Tri::T)),
        (Tri::T, Tri::U, Tri::F)
    );
}

/// Whether `narrow` is at or above `wide`, and allows the value as its only one.
fn is_single_above<A: Operand>(wide: &A, narrow: &A, value: &A::Value) -> bool
where
    A::Value: Drop,
{
    wide.leq(narrow)
        && !narrow.leq(wide)
        && narrow.allows(value)
        && narrow.single().is_some()
        && wide.single().is_none()
}

#[test]
fn a_single_value_is_above_what_allows_it(rt: HostRuntime) -> Result<(), Fail> {
    assert!(rt; is_single_above(&window(2, 5)?, &window(3, 3)?, &3));
    assert!(rt; !is_single_above(&window(2, 5)?, &window(6, 6)?, &6));
    assert!(rt; !is_single_above(&window(2, 5)?, &window(3, 3)?, &4));
    assert!(rt; is_single_above(&Tri::U, &Tri::F, &false));
    assert!(rt; !is_single_above(&Tri::T, &Tri::F, &false));
    assert!(rt;
        is_single_above(
            &choice::<4>(3, 255).ok_or("none")?,
            &choice::<4>(255, 255).ok_or("none")?,
            &255
        )
    );
    assert!(rt;
        !is_single_above(
            &choice::<4>(3, 255).ok_or("none")?,
            &choice::<4>(254, 254).ok_or("none")?,
            &254
        )
    );
    assert_eq!(rt; choice::<1>(63, 63).ok_or("none")?.single(), Some(63));
    assert_eq!(rt; choice::<1>(0, 63).ok_or("none")?.single(), None);
    assert_eq!(rt; window(-4, -4)?.single(), Some(-4));
    assert_eq!(rt; Tri::T.single(), Some(true));
    Ok(())
}

#[test]
fn sets_are_the_same_where_each_has_the_one_member(rt: HostRuntime) -> Result<(), Fail> {
    for (a, b, c, d, want) in [
        (63, 63, 63, 63, Tri::T),
        (63, 63, 0, 0, Tri::F),
        (0, 1, 2, 63, Tri::F),
        (0, 1, 0, 1, Tri::U),
        (0, 1, 1, 1, Tri::U),
        (1, 1, 1, 2, Tri::U),
    ] {
        assert_eq!(rt;
            same(
                &choice::<1>(a, b).ok_or("none")?,
                &choice::<1>(c, d).ok_or("none")?
            ),
            want,
            "{a} {b} {c} {d}"
        );
        assert_eq!(rt;
            same(
                &choice::<4>(a, b).ok_or("none")?,
                &choice::<4>(c, d).ok_or("none")?
            ),
            want,
            "{a} {b} {c} {d}"
        );
    }
    let both = union(
        &choice::<4>(3, 64).ok_or("none")?,
        &choice::<4>(64, 200).ok_or("none")?,
    )
    .set();
    assert_eq!(rt;
        (both.len(), both.first(), both.from(65)),
        (3, Some(3), Some(200))
    );
    assert!(rt; both.contains(64));
    Ok(())
}

/// Whether the two have an upper bound, and it is the second.
fn rises_to<L: Semi>(low: &L, high: &L) -> bool {
    match low.join(high) {
        Some(join) => high.leq(&join) && join.leq(high) && join.size() < low.size(),
        None => false,
    }
}

#[test]
fn cells_of_two_kinds_have_no_join(rt: HostRuntime) -> Result<(), Fail> {
    let wide = Cell::<1>::Win(window(0, 3)?);
    let narrow = Cell::<1>::Win(window(2, 3)?);
    let many = Cell::<1>::Mem(choice(0, 3).ok_or("none")?);
    let one = Cell::<1>::Mem(choice(3, 3).ok_or("none")?);
    assert!(rt; rises_to(&wide, &narrow));
    assert!(rt; rises_to(&many, &one));
    assert!(rt; !rises_to(&narrow, &wide));
    for (a, b) in [(wide, many), (many, wide), (narrow, one), (one, narrow)] {
        assert!(rt; a.join(&b).is_none());
        assert!(rt; !a.leq(&b));
    }
    assert_eq!(rt; (wide.size(), many.size()), (4, 2));
    Ok(())
}

/// How many cells a space of three has, and whether their sizes are these once the second is replaced.
fn replaced(
    alloc: Global,
    cell: Cell<1>,
    other: Cell<1>,
    sizes: [u64; 3],
) -> Result<(usize, bool), NoMemory> {
    let mut space = Space::new(List::from_slice(alloc, &[cell, cell, cell])?);
    let count = space.cells().len();
    space.set(1, other);
    let mut same = true;
    for (cell, size) in space.cells().as_slice().iter().zip(sizes) {
        same = same && cell.size() == size;
    }
    Ok((count, same))
}

#[test]
fn a_cell_of_a_space_is_replaced_alone(rt: HostRuntime) -> Result<(), Fail> {
    let cell = Cell::Win(window(0, 3)?);
    let other = Cell::Mem(choice(0, 1).ok_or("none")?);
    assert_eq!(rt; replaced(rt.alloc(), cell, other, [4, 2, 4])?, (3, true));
    Ok(())
}
