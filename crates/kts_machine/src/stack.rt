ghost use Rattle.std.specs.Prelude.{◌≡◌, ◌<◌, ◌≤◌, ◌+◌, [], ◌∷◌, length, drop, slice_get, option_map, nat_lt, true, false, IfOk};
ghost use Rattle.kts_machine.specs.OperandViews.{shown};

use crate::operand::Operand;
use kts_abs::Tri;
use kts_base::NoMemory;
use std::alloc::Global;
use std::marker::Model;

/// An operand stack whose places are taken when it is made.
#[derive(Drop)]
pub struct Stack<const W: usize> {
    places: Vec<Operand<W>>,
    used: usize,
}

impl<const W: usize> Model for Stack<W> {
    ghost use Rattle.std.specs.Prelude.{◌≤◌, map, reverse, take, length};
    ghost use Rattle.kts_machine.specs.Parts.{Operands};

    ghost Value = { Operands };

    ghost use Rattle.kts_machine.specs.OperandViews.{shown};

    ghost view = { λ s. record { room = length s.places.items; items = map shown (reverse (take s.used s.places.items)) } };

    ghost invariant = { λ s. s.used ≤ length s.places.items };
}

impl<const W: usize> Stack<W> {
    pub fn new(alloc: Global, room: usize) -> Result<Stack<W>, NoMemory>
        ensures { IfOk result (λ s. s ≡ record { room = room; items = [] }) }
    {
        let mut places = Vec::new(alloc);
        for _ in 0..room {
            if places.push(Operand::Truth(Tri::U)).is_err() {
                return Err(NoMemory);
            }
        }
        Ok(Stack { places, used: 0 })
    }

    #[inline(always)]
    pub fn len(&self) -> usize
        ensures { result ≡ length self.now.items }
    {
        self.used
    }

    #[inline(always)]
    pub fn room(&self) -> usize
        ensures { result ≡ self.now.room }
    {
        self.places.len()
    }

    /// How many places are free.
    #[inline(always)]
    pub fn room_left(&self) -> usize
        ensures { length self.now.items + result ≡ self.now.room }
    {
        self.places.len() - self.used
    }

    /// The operand below `depth` others.
    #[inline(always)]
    pub fn at(&self, depth: usize) -> Option<Operand<W>>
        ensures { option_map shown result ≡ slice_get self.now.items depth }
    {
        if depth < self.used {
            Some(self.places[self.used - 1 - depth])
        } else {
            None
        }
    }

    #[inline(always)]
    pub fn push(&mut self, x: Operand<W>)
        requires { length self.old.items < self.old.room }
        ensures { self.new ≡ record self.old { items = shown x.entry ∷ self.old.items } }
    {
        self.places[self.used] = x;
        self.used += 1;
    }

    /// The operand in the place of so many topmost ones, where that leaves room for it; whether it does.
    #[inline(always)]
    pub fn replace(&mut self, count: usize, x: Operand<W>) -> bool
        requires { count ≤ length self.old.items }
        ensures fits { result ≡ nat_lt (length (drop count self.old.items)) self.old.room }
        ensures done { result ≡ true → self.new ≡ record self.old { items = shown x.entry ∷ drop count self.old.items } }
        ensures full { result ≡ false → self.new ≡ self.old }
    {
        if self.used - count < self.room() {
            self.drop_top(count);
            self.push(x);
            true
        } else {
            false
        }
    }

    #[inline(always)]
    pub fn drop_top(&mut self, count: usize)
        requires { count ≤ length self.old.items }
        ensures { self.new ≡ record self.old { items = drop count self.old.items } }
    {
        self.used -= count;
    }

    #[inline(always)]
    pub fn clear(&mut self)
        ensures { self.new ≡ record self.old { items = [] } }
    {
        self.used = 0;
    }
}
