ghost use Rattle.std.specs.Prelude.{◌≡◌};
ghost use Rattle.kts_semi.specs.Ends.{InLimits};

use crate::semi::Semi;
use std::marker::Model;

/// The greatest end of a window; the least is its negative.
pub const MAX_WINDOW_END: i64 = 4_000_000_000_000_000_000;

/// A bound from below: it rises as its time rises.
#[derive(Clone, Copy, Debug, PartialEq, Eq)]
pub struct Earliest {
    at: i64,
}

impl Model for Earliest {
    ghost use Rattle.std.specs.Prelude.{ℤ};
    ghost use Rattle.kts_semi.specs.Ends.{InLimits};

    ghost Value = { ℤ };

    ghost view = { λ e. e.at };

    ghost invariant = { λ e. InLimits e.at };

    ghost inverse = { λ time. record { at = time } };
}

impl Earliest {
    pub(crate) fn new(at: i64) -> Self
        requires { InLimits at }
        ensures { result ≡ at }
    {
        Earliest { at }
    }

    pub fn at(&self) -> i64
        ensures time { result ≡ self.now }
        ensures valid { InLimits self.now }
    {
        self.at
    }
}

impl Semi for Earliest {
    ghost use Rattle.kts_semi.specs.Ends.{InLimits, not_before, later, room_above};
    ghost use Rattle.kts_semi.specs.EndLaws.{earliest_laws};

    ghost Valid = { InLimits };

    ghost le = { not_before };

    ghost joined = { later };

    ghost extent = { room_above };

    ghost laws = { earliest_laws };

    fn leq(&self, other: &Self) -> bool {
        self.at <= other.at
    }

    fn join(&self, other: &Self) -> Option<Self> {
        Some(Earliest {
            at: self.at.max(other.at),
        })
    }

    fn size(&self) -> u64 {
        (MAX_WINDOW_END - self.at) as u64 + 1
    }
}

/// A bound from above: it rises as its time falls.
#[derive(Clone, Copy, Debug, PartialEq, Eq)]
pub struct Latest {
    at: i64,
}

impl Model for Latest {
    ghost use Rattle.std.specs.Prelude.{ℤ};
    ghost use Rattle.kts_semi.specs.Ends.{InLimits};

    ghost Value = { ℤ };

    ghost view = { λ e. e.at };

    ghost invariant = { λ e. InLimits e.at };

    ghost inverse = { λ time. record { at = time } };
}

impl Latest {
    pub(crate) fn new(at: i64) -> Self
        requires { InLimits at }
        ensures { result ≡ at }
    {
        Latest { at }
    }

    pub fn at(&self) -> i64
        ensures time { result ≡ self.now }
        ensures valid { InLimits self.now }
    {
        self.at
    }
}

impl Semi for Latest {
    ghost use Rattle.kts_semi.specs.Ends.{InLimits, not_after, earlier, room_below};
    ghost use Rattle.kts_semi.specs.EndLaws.{latest_laws};

    ghost Valid = { InLimits };

    ghost le = { not_after };

    ghost joined = { earlier };

    ghost extent = { room_below };

    ghost laws = { latest_laws };

    fn leq(&self, other: &Self) -> bool {
        other.at <= self.at
    }

    fn join(&self, other: &Self) -> Option<Self> {
        Some(Latest {
            at: self.at.min(other.at),
        })
    }

    fn size(&self) -> u64 {
        (self.at + MAX_WINDOW_END) as u64 + 1
    }
}
