//! Each call gives after widening what it gives before.

ghost use Rattle.std.specs.Prelude.{◌≡◌, ◌*◌, ◌<◌, ◌≤◌, [], ◌∷◌, length, filter, slice_get, ◌||◌};
ghost use Rattle.std.specs.List.{range_with_len};
ghost use Rattle.kts_sets.specs.Sets.{set_of, elem, other, not_below};
ghost use Rattle.kts_sets.specs.Choices.{within, common, unless_empty};

use crate::choice::Choice;
use crate::set::MemberSet;
use kts_semi::Semi;

fn wide<const W: usize, const V: usize>(set: &MemberSet<W>) -> MemberSet<V>
    requires wider { W ≤ V }
    requires few_words { V ≤ 1024 }
    ensures { result ≡ set.now }
{
    set.widen().unwrap()
}

fn wide_choice<const W: usize, const V: usize>(choice: &Choice<W>) -> Choice<V>
    requires wider { W ≤ V }
    requires few_words { V ≤ 1024 }
    ensures { result ≡ choice.now }
{
    Choice::new(wide(&choice.set())).unwrap()
}

pub fn empty_widens<const W: usize, const V: usize>() -> (MemberSet<V>, MemberSet<V>)
    requires wider { W ≤ V }
    requires few_words { V ≤ 1024 }
    ensures same { result.0 ≡ result.1 }
    ensures value { result.1 ≡ [] }
{
    (wide(&MemberSet::<W>::empty()), MemberSet::empty())
}

pub fn single_widens<const W: usize, const V: usize>(m: usize) -> (MemberSet<V>, MemberSet<V>)
    requires wider { W ≤ V }
    requires few_words { V ≤ 1024 }
    requires may_be { m < 64 * W }
    ensures same { result.0 ≡ result.1 }
    ensures value { result.1 ≡ m ∷ [] }
{
    let narrow = MemberSet::<W>::single(m).unwrap();
    (wide(&narrow), MemberSet::single(m).unwrap())
}

pub fn below_widens<const W: usize, const V: usize>(n: usize) -> (MemberSet<V>, MemberSet<V>)
    requires wider { W ≤ V }
    requires few_words { V ≤ 1024 }
    requires may_be { n ≤ 64 * W }
    ensures same { result.0 ≡ result.1 }
    ensures value { result.1 ≡ range_with_len 0 n }
{
    let narrow = MemberSet::<W>::below(n).unwrap();
    (wide(&narrow), MemberSet::below(n).unwrap())
}

pub fn meet_widens<const W: usize, const V: usize>(
    a: &MemberSet<W>,
    b: &MemberSet<W>,
) -> (MemberSet<V>, MemberSet<V>)
    requires wider { W ≤ V }
    requires few_words { V ≤ 1024 }
    ensures same { result.0 ≡ result.1 }
    ensures value { result.1 ≡ filter (λ m. elem m b.now) a.now }
{
    (wide(&a.meet(b)), wide(a).meet(&wide(b)))
}

pub fn join_widens<const W: usize, const V: usize>(
    a: &MemberSet<W>,
    b: &MemberSet<W>,
) -> (MemberSet<V>, MemberSet<V>)
    requires wider { W ≤ V }
    requires few_words { V ≤ 1024 }
    ensures same { result.0 ≡ result.1 }
    ensures value { result.1 ≡ set_of (λ m. elem m a.now || elem m b.now) }
{
    (wide(&a.join_sets(b)), wide(a).join_sets(&wide(b)))
}

pub fn without_widens<const W: usize, const V: usize>(
    set: &MemberSet<W>,
    m: usize,
) -> (MemberSet<V>, MemberSet<V>)
    requires wider { W ≤ V }
    requires few_words { V ≤ 1024 }
    ensures same { result.0 ≡ result.1 }
    ensures value { result.1 ≡ filter (other m) set.now }
{
    (wide(&set.without(m)), wide(set).without(m))
}

pub fn contains_widens<const W: usize, const V: usize>(set: &MemberSet<W>, m: usize) -> (bool, bool)
    requires wider { W ≤ V }
    requires few_words { V ≤ 1024 }
    ensures same { result.0 ≡ result.1 }
    ensures value { result.1 ≡ elem m set.now }
{
    (set.contains(m), wide::<W, V>(set).contains(m))
}

pub fn len_widens<const W: usize, const V: usize>(set: &MemberSet<W>) -> (usize, usize)
    requires wider { W ≤ V }
    requires few_words { V ≤ 1024 }
    ensures same { result.0 ≡ result.1 }
    ensures value { result.1 ≡ length set.now }
{
    (set.len(), wide::<W, V>(set).len())
}

pub fn first_widens<const W: usize, const V: usize>(
    set: &MemberSet<W>,
) -> (Option<usize>, Option<usize>)
    requires wider { W ≤ V }
    requires few_words { V ≤ 1024 }
    ensures same { result.0 ≡ result.1 }
    ensures value { result.1 ≡ slice_get set.now 0 }
{
    (set.first(), wide::<W, V>(set).first())
}

pub fn from_widens<const W: usize, const V: usize>(
    set: &MemberSet<W>,
    m: usize,
) -> (Option<usize>, Option<usize>)
    requires wider { W ≤ V }
    requires few_words { V ≤ 1024 }
    ensures same { result.0 ≡ result.1 }
    ensures value { result.1 ≡ slice_get (filter (not_below m) set.now) 0 }
{
    (set.from(m), wide::<W, V>(set).from(m))
}

pub fn choice_widens<const W: usize, const V: usize>(
    set: &MemberSet<W>,
) -> (Option<Choice<V>>, Option<Choice<V>>)
    requires wider { W ≤ V }
    requires few_words { V ≤ 1024 }
    ensures same { result.0 ≡ result.1 }
    ensures value { result.1 ≡ unless_empty set.now }
{
    let narrow = match Choice::new(*set) {
        Some(choice) => Some(wide_choice(&choice)),
        None => None,
    };
    (narrow, Choice::new(wide(set)))
}

pub fn choice_leq_widens<const W: usize, const V: usize>(
    a: &Choice<W>,
    b: &Choice<W>,
) -> (bool, bool)
    requires wider { W ≤ V }
    requires few_words { V ≤ 1024 }
    ensures same { result.0 ≡ result.1 }
    ensures value { result.1 ≡ within a.now b.now }
{
    (a.leq(b), wide_choice::<W, V>(a).leq(&wide_choice(b)))
}

pub fn choice_join_widens<const W: usize, const V: usize>(
    a: &Choice<W>,
    b: &Choice<W>,
) -> (Option<Choice<V>>, Option<Choice<V>>)
    requires wider { W ≤ V }
    requires few_words { V ≤ 1024 }
    ensures same { result.0 ≡ result.1 }
    ensures value { result.1 ≡ common a.now b.now }
{
    let narrow = match a.join(b) {
        Some(choice) => Some(wide_choice(&choice)),
        None => None,
    };
    (narrow, wide_choice::<W, V>(a).join(&wide_choice(b)))
}

pub fn choice_size_widens<const W: usize, const V: usize>(choice: &Choice<W>) -> (u64, u64)
    requires wider { W ≤ V }
    requires few_words { V ≤ 1024 }
    ensures same { result.0 ≡ result.1 }
    ensures value { result.1 ≡ length choice.now }
{
    (choice.size(), wide_choice::<W, V>(choice).size())
}
