ghost use Rattle.std.specs.Prelude.{◌≡◌, ◌*ℤ◌, ◌≤ℤ◌, Some};
ghost use Rattle.kts_abs.specs.Members.{union_of};
ghost use Rattle.kts_abs.specs.Windows.{sum_of, difference_of, product_of, least_of_four, greatest_of_four, least_of, greatest_of, hull_of, gated, fitted};

use crate::truth::Tri;
use kts_semi::Window;
use kts_sets::Choice;

/// The window with these ends, where the machine's range has them.
fn fit(lo: i128, hi: i128) -> Option<Window>
    requires { lo ≤ℤ hi }
    ensures { result ≡ fitted (lo, hi) }
{
    Window::new(i64::try_from(lo).ok()?, i64::try_from(hi).ok()?)
}

/// The sum, None where an end leaves the machine's range.
pub fn add(a: &Window, b: &Window) -> Option<Window>
    ensures { result ≡ fitted (sum_of a.now b.now) }
{
    Window::new(a.lo() + b.lo(), a.hi() + b.hi())
}

/// The difference, None where an end leaves the machine's range.
pub fn sub(a: &Window, b: &Window) -> Option<Window>
    ensures { result ≡ fitted (difference_of a.now b.now) }
{
    Window::new(a.lo() - b.hi(), a.hi() - b.lo())
}

fn times(x: i64, y: i64) -> i128
    ensures { result ≡ x *ℤ y }
{
    x as i128 * y as i128
}

#[tactic(auto, unfolding(crate::specs::Windows::least_of_four))]
fn least_in(p: i128, q: i128, r: i128, s: i128) -> i128
    ensures { result ≡ least_of_four p q r s }
{
    p.min(q).min(r.min(s))
}

#[tactic(auto, unfolding(crate::specs::Windows::greatest_of_four))]
fn greatest_in(p: i128, q: i128, r: i128, s: i128) -> i128
    ensures { result ≡ greatest_of_four p q r s }
{
    p.max(q).max(r.max(s))
}

/// The product, None where an end leaves the machine's range.
pub fn mul(a: &Window, b: &Window) -> Option<Window>
    ensures { result ≡ fitted (product_of a.now b.now) }
{
    let p = times(a.lo(), b.lo());
    let q = times(a.lo(), b.hi());
    let r = times(a.hi(), b.lo());
    let s = times(a.hi(), b.hi());
    fit(least_in(p, q, r, s), greatest_in(p, q, r, s))
}

/// The window of the lesser of two numbers; never None.
pub fn min(a: &Window, b: &Window) -> Option<Window>
    ensures { result ≡ Some (least_of a.now b.now) }
{
    Window::new(a.lo().min(b.lo()), a.hi().min(b.hi()))
}

/// The window of the greater of two numbers; never None.
pub fn max(a: &Window, b: &Window) -> Option<Window>
    ensures { result ≡ Some (greatest_of a.now b.now) }
{
    Window::new(a.lo().max(b.lo()), a.hi().max(b.hi()))
}

/// The least window round both.
pub fn hull(a: &Window, b: &Window) -> Window
    ensures { result ≡ hull_of a.now b.now }
{
    Window::new(a.lo().min(b.lo()), a.hi().max(b.hi())).unwrap()
}

/// The members of either.
pub fn union<const W: usize>(a: &Choice<W>, b: &Choice<W>) -> Choice<W>
    ensures { result ≡ union_of a.now b.now }
{
    Choice::new(a.set().join_sets(&b.set())).unwrap()
}

/// The addend `w` of a sum, which counts where `c` holds.
pub fn gate(c: Tri, w: &Window) -> Window
    ensures { result ≡ gated c w.now }
{
    let zero = Window::new(0, 0).unwrap();
    match c {
        Tri::F => zero,
        Tri::U => hull(w, &zero),
        Tri::T => *w,
    }
}
