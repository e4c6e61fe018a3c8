ghost use Rattle.std.specs.Prelude.{◌≡◌, ℕ, Bool, Option};
ghost use Rattle.kts_semi.specs.Semilattice.{IsSemi};

/// A semilattice of values that rise, each of which can rise only finitely often.
pub trait Semi: Copy {
    ghost Valid: { Self → Type 0 };

    ghost le: { Self → Self → Bool };

    ghost joined: { Self → Self → Option Self };

    ghost extent: { Self → ℕ };

    /// Whether `other` is this value or above it.
    fn leq(&self, other: &Self) -> bool
        ensures value { result ≡ le self.now other.now }
        ensures valid { Valid self.now }
        ensures other_valid { Valid other.now };

    /// The least value above both, if any value is.
    fn join(&self, other: &Self) -> Option<Self>
        ensures { result ≡ joined self.now other.now };

    /// One more than a bound on how often the value can still rise.
    fn size(&self) -> u64
        ensures value { result ≡ extent self.now }
        ensures valid { Valid self.now };

    ghost laws: { IsSemi Valid le joined extent };
}

/// What raising a value to a bound did.
#[derive(Clone, Copy, Debug, PartialEq, Eq)]
pub enum Rise {
    /// The value met the bound already.
    Same,
    /// The value is now the join of both.
    Up,
    /// No value is above both, and the value is as it was.
    Empty,
}
