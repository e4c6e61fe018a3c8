ghost use Rattle.std.specs.Iterator.{YieldsFirst, item_count};
ghost use Rattle.std.specs.Prelude.{◌≡◌, true};
ghost use Rattle.kts_index.specs.Pairs.{pairs};
ghost use Rattle.kts_index.specs.PatternOrder.{AreInOrder};
ghost use Rattle.kts_spec.specs.Data.{is_valid};

use crate::first_paired::first_paired;
use crate::groups::{group_end, next_group};
use crate::pattern::Pattern;
use crate::tuples::Tuples;
use kts_spec::{Instance, Schema};
use std::marker::Model;

/// The tasks that patterns pair with a cell, rising. Contracts see it as the list of those that are
/// still to be given.
#[derive(Drop)]
pub struct Tasks<'a> {
    patterns: &'a [Pattern],
    in_order: bool,
    /// How many patterns are known to be of constraints before `definite`.
    from: usize,
    schema: &'a Schema,
    inst: &'a Instance,
    choice: u32,
    tuple: &'a [usize],
    /// The constraint whose tasks are looked at, the number of its first task, and that of the next
    /// one to look at.
    definite: usize,
    start: usize,
    next: usize,
}

impl<'a> Model for Tasks<'a> {
    ghost use Rattle.std.specs.Prelude.{ℕ, List};
    ghost use Rattle.kts_index.specs.Cursor.{pairs_from, IsCursor};
    ghost use Rattle.kts_index.specs.PatternOrder.{ArePassed};

    ghost Value = { List ℕ };

    ghost view = { λ t. pairs_from t.patterns.now t.schema.now t.inst.now t.choice t.tuple.now t.next };

    ghost invariant = { λ t. IsCursor t.schema.now t.inst.now t.definite t.start t.next × ArePassed t.patterns.now t.in_order t.definite t.from };
}

impl<'a> Tasks<'a> {
    pub(crate) fn new(
        patterns: &'a [Pattern],
        in_order: bool,
        schema: &'a Schema,
        inst: &'a Instance,
        choice: u32,
        tuple: &'a [usize],
    ) -> Tasks<'a>
        requires in_order { in_order ≡ true → AreInOrder patterns.now }
        requires valid { is_valid schema.now inst.now ≡ true }
        ensures { result ≡ pairs patterns.now schema.now inst.now choice tuple.now }
    {
        Tasks {
            patterns,
            in_order,
            from: 0,
            schema,
            inst,
            choice,
            tuple,
            definite: 0,
            start: 0,
            next: 0,
        }
    }

    fn advance(&mut self) -> Option<u32>
        ensures { YieldsFirst (λ tasks. tasks) self.old result self.new }
    {
        while self.definite < self.schema.tasks().len() {
            let tuples = Tuples::of_constraint(self.schema, self.inst, self.definite);
            let count = tuples.count();
            let end = group_end(self.patterns, self.in_order, self.definite, self.from);
            let found = first_paired(
                &self.patterns[self.from..end],
                self.definite,
                self.choice,
                self.tuple,
                &tuples,
                self.next - self.start,
            );
            if found < count {
                let task = self.start + found;
                self.next = task + 1;
                return Some(task as u32);
            }
            self.from = next_group(self.patterns, self.in_order, self.definite, self.from, end);
            self.definite += 1;
            self.start += count;
            self.next = self.start;
        }
        None
    }
}

impl<'a> Iterator for Tasks<'a> {
    type Item = u32;

    ghost next_gives = { YieldsFirst (λ tasks. tasks) };

    ghost remaining = { item_count (λ tasks. tasks) };

    fn next(&mut self) -> Option<u32> {
        self.advance()
    }
}
