ghost use Rattle.std.specs.Prelude.{◌≡◌, ◌&&◌, length, nat_eq};
ghost use Rattle.kts_sets.specs.Choices.{IsChoice};
ghost use Rattle.kts_abs.specs.Members.{same_of};
ghost use Rattle.kts_abs.specs.Windows.{le_of, are_one, are_apart, eq_of};

use crate::truth::Tri;
use kts_semi::Window;
use kts_sets::Choice;

/// T where each number of `a` is at most each of `b`, F where each is greater.
pub fn le(a: &Window, b: &Window) -> Tri
    ensures { result ≡ le_of a.now b.now }
{
    if a.hi() <= b.lo() {
        Tri::T
    } else if b.hi() < a.lo() {
        Tri::F
    } else {
        Tri::U
    }
}

fn one(a: &Window, b: &Window) -> bool
    ensures { result ≡ are_one a.now b.now }
{
    a.lo() == a.hi() && b.lo() == b.hi() && a.lo() == b.lo()
}

fn apart(a: &Window, b: &Window) -> bool
    ensures { result ≡ are_apart a.now b.now }
{
    a.hi() < b.lo() || b.hi() < a.lo()
}

/// T where both are one and the same number, F where they have none in common.
pub fn eq(a: &Window, b: &Window) -> Tri
    ensures { result ≡ eq_of a.now b.now }
{
    if one(a, b) {
        Tri::T
    } else if apart(a, b) {
        Tri::F
    } else {
        Tri::U
    }
}

fn are_single<const W: usize>(a: &Choice<W>, b: &Choice<W>) -> bool
    ensures single { result ≡ (nat_eq (length a.now) 1 && nat_eq (length b.now) 1) }
    ensures first_valid { IsChoice a.now }
    ensures second_valid { IsChoice b.now }
{
    let first = a.set();
    let second = b.set();
    first.len() == 1 && second.len() == 1
}

/// T where both are one and the same member, F where they have none in common.
pub fn same<const W: usize>(a: &Choice<W>, b: &Choice<W>) -> Tri
    ensures { result ≡ same_of nat_eq a.now b.now }
{
    if a.set().meet(&b.set()).len() == 0 {
        Tri::F
    } else if are_single(a, b) {
        Tri::T
    } else {
        Tri::U
    }
}
