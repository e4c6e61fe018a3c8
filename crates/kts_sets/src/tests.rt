ghost use Rattle.std.specs.Prelude.{◌≤◌};

use crate::widening::*;
use crate::{Choice, MemberSet};
use kts_semi::Semi;
use std::process::Abort;
use std::test::Fail;

/// The set of those of the numbers that may be members.
fn set_of<const W: usize>(members: &[usize]) -> MemberSet<W>
    requires { W ≤ 1024 }
{
    let mut set = MemberSet::empty();
    for m in members {
        if let Some(one) = MemberSet::single(*m) {
            set = set.join_sets(&one);
        }
    }
    set
}

fn choice_of<const W: usize>(members: &[usize]) -> Option<Choice<W>>
    requires { W ≤ 1024 }
{
    Choice::new(set_of(members))
}

fn assert_members<const W: usize>(rt: &impl Abort, set: &MemberSet<W>, members: &[usize]) {
    let mut next = set.first();
    for m in members {
        assert_eq!(rt; next, Some(*m));
        assert!(rt; set.contains(*m), "{m} is missing");
        next = set.from(m.saturating_add(1));
    }
    assert_eq!(rt; next, None);
    assert_eq!(rt; set.len(), members.len());
}

#[test]
fn the_last_bit_of_the_last_word_is_a_member(rt: HostRuntime) -> Result<(), Fail> {
    for (m, one_word, four_words) in [
        (0, true, true),
        (63, true, true),
        (64, false, true),
        (255, false, true),
        (256, false, false),
        (usize::MAX, false, false),
    ] {
        assert_eq!(rt; MemberSet::<1>::single(m).is_some(), one_word, "at {m}");
        assert_eq!(rt; MemberSet::<4>::single(m).is_some(), four_words, "at {m}");
    }
    assert_members(&rt, &MemberSet::<1>::single(63).ok_or("none")?, &[63]);
    assert_members(&rt, &MemberSet::<4>::single(64).ok_or("none")?, &[64]);
    assert_members(&rt, &MemberSet::<4>::single(255).ok_or("none")?, &[255]);
    assert!(rt; MemberSet::<1>::below(65).is_none() && MemberSet::<4>::below(257).is_none());
    for n in [0, 1, 63, 64] {
        let narrow = MemberSet::<1>::below(n).ok_or("none")?;
        let wide = MemberSet::<4>::below(n + 192).ok_or("none")?;
        assert_eq!(rt; (narrow.len(), narrow.from(n)), (n, None), "at {n}");
        assert_eq!(rt; (wide.len(), wide.from(n)), (n + 192, Some(n)), "at {n}");
    }
    Ok(())
}

#[test]
fn sets_of_four_words_meet_and_join(rt: HostRuntime) -> Result<(), Fail> {
    let a = set_of::<4>(&[0, 5, 63, 64, 255]);
    let b = set_of::<4>(&[5, 64, 128]);
    assert_members(&rt, &a, &[0, 5, 63, 64, 255]);
    assert_members(&rt, &a.meet(&b), &[5, 64]);
    assert_members(&rt, &a.join_sets(&b), &[0, 5, 63, 64, 128, 255]);
    assert_members(&rt, &a.meet(&MemberSet::empty()), &[]);
    assert_members(&rt, &a.without(0), &[5, 63, 64, 255]);
    assert_members(&rt, &a.without(64), &[0, 5, 63, 255]);
    assert_members(&rt, &a.without(6), &[0, 5, 63, 64, 255]);
    assert_members(&rt, &a.without(1000), &[0, 5, 63, 64, 255]);
    Ok(())
}

#[test]
fn the_least_member_from_a_number_on(rt: HostRuntime) -> Result<(), Fail> {
    let set = set_of::<4>(&[3, 63, 130]);
    for (m, least) in [
        (0, Some(3)),
        (3, Some(3)),
        (4, Some(63)),
        (63, Some(63)),
        (64, Some(130)),
        (130, Some(130)),
        (131, None),
        (255, None),
        (256, None),
        (usize::MAX, None),
    ] {
        assert_eq!(rt; set.from(m), least, "from {m}");
        assert_eq!(rt; set.contains(m), least == Some(m), "at {m}");
    }
    assert_eq!(rt; MemberSet::<4>::empty().first(), None);
    Ok(())
}

#[test]
fn a_wider_set_has_the_same_members(rt: HostRuntime) -> Result<(), Fail> {
    let (a, b) = (set_of::<1>(&[0, 7, 63]), set_of::<1>(&[7, 9]));
    let wide: MemberSet<4> = a.widen().ok_or("narrower")?;
    assert_members(&rt, &wide, &[0, 7, 63]);
    let back: Option<MemberSet<1>> = wide.widen();
    assert!(rt; back.is_none());

    let pairs: [((MemberSet<4>, MemberSet<4>), &[usize]); 6] = [
        (empty_widens::<1, 4>(), &[]),
        (single_widens::<1, 4>(63), &[63]),
        (below_widens::<1, 4>(3), &[0, 1, 2]),
        (meet_widens(&a, &b), &[7]),
        (join_widens(&a, &b), &[0, 7, 9, 63]),
        (without_widens(&a, 63), &[0, 7]),
    ];
    for ((before, after), members) in pairs {
        assert_members(&rt, &before, members);
        assert_members(&rt, &after, members);
    }
    assert_eq!(rt; contains_widens::<1, 4>(&a, 63), (true, true));
    assert_eq!(rt; len_widens::<1, 4>(&a), (3, 3));
    assert_eq!(rt; first_widens::<1, 4>(&b), (Some(7), Some(7)));
    assert_eq!(rt; from_widens::<1, 4>(&a, 8), (Some(63), Some(63)));
    Ok(())
}

/// What `b` is to `a`: whether it is above, and the sizes of both and of their join, or 0.
fn compared<L: Semi>(a: &L, b: &L) -> (bool, u64, u64, u64) {
    (
        a.leq(b),
        a.size(),
        b.size(),
        a.join(b).map_or(0, |both| both.size()),
    )
}

#[test]
fn choices_rise_as_they_shrink(rt: HostRuntime) -> Result<(), Fail> {
    let (a, b) = (
        choice_of::<1>(&[0, 1, 63]).ok_or("none")?,
        choice_of::<1>(&[1, 2, 63]).ok_or("none")?,
    );
    assert_eq!(rt; compared(&a, &b), (false, 3, 3, 2));
    assert_eq!(rt;
        compared(&a, &choice_of(&[0, 63]).ok_or("none")?),
        (true, 3, 2, 2)
    );
    assert_eq!(rt;
        compared(&a, &choice_of(&[2]).ok_or("none")?),
        (false, 3, 1, 0)
    );
    let wide = choice_of::<4>(&[64, 100, 255]).ok_or("none")?;
    assert_eq!(rt;
        compared(&wide, &choice_of(&[100, 255]).ok_or("none")?),
        (true, 3, 2, 2)
    );
    assert_eq!(rt;
        compared(&wide, &choice_of(&[65]).ok_or("none")?),
        (false, 3, 1, 0)
    );
    assert!(rt; Choice::new(MemberSet::<4>::empty()).is_none());
    assert_members(&rt, &wide.set(), &[64, 100, 255]);

    let (before, after) = choice_join_widens::<1, 4>(&a, &b);
    assert_members(&rt, &before.ok_or("none")?.set(), &[1, 63]);
    assert_members(&rt, &after.ok_or("none")?.set(), &[1, 63]);
    let (before, after) = choice_widens::<1, 4>(&MemberSet::empty());
    assert!(rt; before.is_none() && after.is_none());
    assert_eq!(rt; choice_leq_widens::<1, 4>(&a, &b), (false, false));
    assert_eq!(rt; choice_size_widens::<1, 4>(&a), (3, 3));
    Ok(())
}
