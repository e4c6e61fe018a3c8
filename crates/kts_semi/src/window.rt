ghost use Rattle.std.specs.Prelude.{◌≡◌, ◌↔◌, IfSome, IsSome};
ghost use Rattle.kts_semi.specs.Ends.{InEnds, inside, part_from, part_to};

use crate::ends::{Earliest, Latest, MAX_WINDOW_END};
use crate::semi::Semi;
use std::marker::Model;

/// The whole numbers from `lo` to `hi`, at least one: it rises as it shrinks.
#[derive(Clone, Copy, Debug, PartialEq, Eq)]
pub struct Window {
    lo: i64,
    hi: i64,
}

impl Model for Window {
    ghost use Rattle.std.specs.Prelude.{ℤ};
    ghost use Rattle.kts_semi.specs.Ends.{InEnds};

    ghost Value = { ℤ × ℤ };

    ghost view = { λ w. (w.lo, w.hi) };

    ghost invariant = { λ w. InEnds (w.lo, w.hi) };

    ghost inverse = { λ ends. record { lo = ends.0; hi = ends.1 } };
}

impl Window {
    pub fn new(lo: i64, hi: i64) -> Option<Window>
        ensures valid { IsSome result ↔ InEnds (lo, hi) }
        ensures ends { IfSome result (λ w. w ≡ (lo, hi)) }
    {
        if lo <= hi && -MAX_WINDOW_END <= lo && hi <= MAX_WINDOW_END {
            Some(Window { lo, hi })
        } else {
            None
        }
    }

    pub fn lo(&self) -> i64
        ensures low { result ≡ self.now.0 }
        ensures valid { InEnds self.now }
    {
        self.lo
    }

    pub fn hi(&self) -> i64
        ensures high { result ≡ self.now.1 }
        ensures valid { InEnds self.now }
    {
        self.hi
    }

    /// The lower end as a bound from below.
    pub fn earliest(&self) -> Earliest
        ensures low { result ≡ self.now.0 }
        ensures valid { InEnds self.now }
    {
        Earliest::new(self.lo)
    }

    /// The upper end as a bound from above.
    pub fn latest(&self) -> Latest
        ensures high { result ≡ self.now.1 }
        ensures valid { InEnds self.now }
    {
        Latest::new(self.hi)
    }

    /// The part that is not below `bound`, if it is not empty.
    pub fn at_least(&self, bound: i64) -> Option<Window>
        ensures part { result ≡ part_from self.now bound }
        ensures valid { InEnds self.now }
    {
        let lo = self.lo.max(bound);
        if lo <= self.hi {
            Some(Window { lo, hi: self.hi })
        } else {
            None
        }
    }

    /// The part that is not above `bound`, if it is not empty.
    pub fn at_most(&self, bound: i64) -> Option<Window>
        ensures part { result ≡ part_to self.now bound }
        ensures valid { InEnds self.now }
    {
        let hi = self.hi.min(bound);
        if self.lo <= hi {
            Some(Window { lo: self.lo, hi })
        } else {
            None
        }
    }
}

impl Semi for Window {
    ghost use Rattle.kts_semi.specs.Ends.{InEnds, inside, overlap, width};
    ghost use Rattle.kts_semi.specs.EndLaws.{window_laws};

    ghost Valid = { InEnds };

    ghost le = { inside };

    ghost joined = { overlap };

    ghost extent = { width };

    ghost laws = { window_laws };

    fn leq(&self, other: &Self) -> bool {
        self.lo <= other.lo && other.hi <= self.hi
    }

    fn join(&self, other: &Self) -> Option<Self> {
        let lo = self.lo.max(other.lo);
        let hi = self.hi.min(other.hi);
        if lo <= hi {
            Some(Window { lo, hi })
        } else {
            None
        }
    }

    fn size(&self) -> u64 {
        (self.hi - self.lo) as u64 + 1
    }
}

/// Whether `b` is `a` or above it, told by their ends alone.
pub fn leq_by_ends(a: &Window, b: &Window) -> bool
    ensures { result ≡ inside a.now b.now }
{
    a.earliest().leq(&b.earliest()) && a.latest().leq(&b.latest())
}
