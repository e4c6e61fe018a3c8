use crate::{Earliest, Latest, MAX_WINDOW_END, Semi, Window, leq_by_ends};
use std::test::Fail;

fn window(lo: i64, hi: i64) -> Result<Window, Fail> {
    Ok(Window::new(lo, hi).ok_or("no window")?)
}

#[test]
fn a_window_keeps_its_order_and_the_greatest_end(rt: HostRuntime) -> Result<(), Fail> {
    for (lo, hi, is_window) in [
        (-4_000_000_000_000_000_000, 4_000_000_000_000_000_000, true),
        (-4_000_000_000_000_000_001, 0, false),
        (0, 4_000_000_000_000_000_001, false),
        (MAX_WINDOW_END, MAX_WINDOW_END, true),
        (1, 0, false),
        (i64::MIN, i64::MAX, false),
    ] {
        let made = Window::new(lo, hi);
        assert_eq!(rt; made.is_some(), is_window, "at {lo} {hi}");
        if let Some(w) = made {
            assert_eq!(rt; (w.lo(), w.hi()), (lo, hi), "at {lo} {hi}");
        }
    }
    Ok(())
}

#[test]
fn a_part_is_none_where_it_is_empty(rt: HostRuntime) -> Result<(), Fail> {
    let w = window(-2, 3)?;
    for (bound, least, most) in [
        (i64::MIN, Window::new(-2, 3), None),
        (-3, Window::new(-2, 3), None),
        (-2, Window::new(-2, 3), Window::new(-2, -2)),
        (1, Window::new(1, 3), Window::new(-2, 1)),
        (3, Window::new(3, 3), Window::new(-2, 3)),
        (4, None, Window::new(-2, 3)),
        (i64::MAX, None, Window::new(-2, 3)),
    ] {
        assert_eq!(rt; w.at_least(bound), least, "at least {bound}");
        assert_eq!(rt; w.at_most(bound), most, "at most {bound}");
    }
    Ok(())
}

#[test]
fn windows_rise_as_they_shrink(rt: HostRuntime) -> Result<(), Fail> {
    let w = window(0, 3)?;
    for (lo, hi, join, is_above) in [
        (2, 9, Window::new(2, 3), false),
        (0, 9, Window::new(0, 3), false),
        (4, 9, None, false),
        (1, 2, Window::new(1, 2), true),
        (0, 3, Window::new(0, 3), true),
    ] {
        let other = window(lo, hi)?;
        assert_eq!(rt; w.join(&other), join, "at {lo} {hi}");
        assert_eq!(rt; w.leq(&other), is_above, "at {lo} {hi}");
        assert_eq!(rt; leq_by_ends(&w, &other), is_above, "at {lo} {hi}");
    }
    Ok(())
}

/// The sizes of both values and of their join, or 0 for none.
fn sizes<L: Semi>(a: &L, b: &L) -> (u64, u64, u64) {
    (a.size(), b.size(), a.join(b).map_or(0, |both| both.size()))
}

#[test]
fn a_strict_rise_lowers_the_size(rt: HostRuntime) -> Result<(), Fail> {
    let all = window(-MAX_WINDOW_END, MAX_WINDOW_END)?;
    let one = window(5, 5)?;
    assert_eq!(rt; sizes(&all, &one), (8_000_000_000_000_000_001, 1, 1));
    assert_eq!(rt; sizes(&one, &window(6, 7)?), (1, 2, 0));

    let (first, later): (Earliest, Earliest) = (all.earliest(), one.earliest());
    assert_eq!(rt;
        sizes(&first, &later),
        (
            8_000_000_000_000_000_001,
            3_999_999_999_999_999_996,
            3_999_999_999_999_999_996
        )
    );
    assert_eq!(rt; (first.at(), later.at()), (-4_000_000_000_000_000_000, 5));
    assert!(rt; first.leq(&later) && !later.leq(&first));

    let (last, sooner): (Latest, Latest) = (all.latest(), one.latest());
    assert_eq!(rt;
        sizes(&last, &sooner),
        (
            8_000_000_000_000_000_001,
            4_000_000_000_000_000_006,
            4_000_000_000_000_000_006
        )
    );
    assert_eq!(rt; (last.at(), sooner.at()), (4_000_000_000_000_000_000, 5));
    assert!(rt; last.leq(&sooner) && !sooner.leq(&last));
    Ok(())
}
