ghost use Rattle.std.specs.Prelude.{◌≡◌, ◌<◌, ◌≤◌, ◌∷◌, [], length};
ghost use Rattle.kts_base.specs.Limits.{most_nesting};

use kts_base::MAX_NESTING;
use std::marker::Model;

/// The numbers of the nodes whose lists are open, the innermost first.
#[derive(Drop)]
pub struct Opened {
    numbers: [usize; MAX_NESTING],
    free: usize,
}

impl Model for Opened {
    ghost use Rattle.std.specs.Prelude.{◌≡◌, ◌≤◌, List, ℕ, length, drop};
    ghost use Rattle.kts_base.specs.Limits.{most_nesting};

    ghost Value = { List ℕ };

    ghost view = { λ opened. drop opened.free opened.numbers };

    ghost invariant = { λ opened. (opened.free ≤ most_nesting) × (length opened.numbers ≡ most_nesting) };
}

impl Opened {
    pub fn new() -> Opened
        ensures { result ≡ [] }
    {
        Opened {
            numbers: [0; MAX_NESTING],
            free: MAX_NESTING,
        }
    }

    pub fn len(&self) -> usize
        ensures len { result ≡ length self.now }
        ensures few { result ≤ most_nesting }
    {
        MAX_NESTING - self.free
    }

    pub fn push(&mut self, number: usize)
        requires { length self.old < most_nesting }
        ensures { self.new ≡ number ∷ self.old }
    {
        self.free -= 1;
        self.numbers[self.free] = number;
    }

    pub fn pop(&mut self) -> usize
        requires { 0 < length self.old }
        ensures { self.old ≡ result ∷ self.new }
    {
        let number = self.numbers[self.free];
        self.free += 1;
        number
    }
}
