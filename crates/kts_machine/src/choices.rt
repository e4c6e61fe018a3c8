ghost use Rattle.std.specs.Prelude.{◌≡◌, ◌<◌, [], ◌∷◌, length, ◌↔◌, IsTrue, IfOk, IfNone, IfSome};

use kts_base::NoMemory;
use std::alloc::Global;
use std::marker::Model;

/// The cell that a choice split, and the path count of that moment. The space of that moment is a mark of the row.
#[derive(Clone, Copy, Drop)]
pub struct Split {
    pub cell: usize,
    pub path: u64,
}

/// The choices made, with room for so many. Only `open` takes memory.
#[derive(Drop)]
pub struct Choices {
    splits: Vec<Split>,
    room: usize,
}

impl Model for Choices {
    ghost use Rattle.std.specs.Prelude.{◌≤◌, reverse, length, vec_capacity};
    ghost use Rattle.kts_machine.specs.Splits.{Choices as Choices_};

    ghost Value = { Choices_ };

    ghost view = { λ c. record { room = c.room; latest = reverse c.splits.items } };

    ghost invariant = { λ c. (length c.splits.items ≤ c.room) × (c.room ≤ vec_capacity c.splits) };
}

impl Choices {
    /// No choice, with room for so many.
    pub fn open(alloc: Global, room: usize) -> Result<Choices, NoMemory>
        ensures { IfOk result (λ c. c ≡ record { room = room; latest = [] }) }
    {
        match Vec::with_capacity(alloc, room) {
            Ok(splits) => Ok(Choices { splits, room }),
            Err(_) => Err(NoMemory),
        }
    }

    pub fn is_empty(&self) -> bool
        ensures { IsTrue result ↔ (self.now.latest ≡ []) }
    {
        self.splits.is_empty()
    }

    pub fn push(&mut self, split: Split)
        requires { length self.old.latest < self.old.room }
        ensures { self.new ≡ record self.old { latest = split ∷ self.old.latest } }
    {
        match self.splits.push(split) {
            Ok(()) => {}
            Err(_) => unreachable!(),
        }
    }

    /// Takes the latest choice.
    pub fn pop(&mut self) -> Option<Split>
        ensures none { IfNone result (self.new ≡ self.old) }
        ensures empty { IfNone result (self.old.latest ≡ []) }
        ensures some { IfSome result (λ split. self.old ≡ record self.new { latest = split ∷ self.new.latest }) }
    {
        self.splits.pop()
    }

    pub fn clear(&mut self)
        ensures { self.new ≡ record self.old { latest = [] } }
    {
        self.splits.clear();
    }
}
