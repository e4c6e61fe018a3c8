ghost use Rattle.std.specs.Prelude.{◌≡◌, ◌+◌, ◌<◌, ◌≤◌, ℕ, List, [], length, slice_index_or, true, false};
ghost use Rattle.kts_base.specs.Limits.{most_tasks};
ghost use Rattle.kts_index.specs.FirstNumbers.{IsFirst, IsSkip};
ghost use Rattle.kts_index.specs.Pairs.{argument_agrees, arguments_agree};
ghost use Rattle.kts_index.specs.TaskOrder.{tasks_before};
ghost use Rattle.kts_index.specs.TupleNumbers.{sizes_in, AreIndexes};
ghost use Rattle.kts_spec.specs.Data.{is_valid};
ghost use Rattle.kts_spec.specs.Places.{count_of};
ghost use Rattle.kts_spec.specs.Worlds.{world_of};

use crate::digit::first_with_digit;
use crate::sizes::{count, prefix_of, size};
use kts_spec::{Instance, Schema};

/// Whether two arguments name one variable and the cell has different members there, so that no
/// tuple agrees.
fn clashes(args: &[Option<u8>], cell: &[usize]) -> bool
    ensures { result ≡ true → (tuple : List ℕ) → arguments_agree tuple args.now cell.now ≡ false }
{
    if args.len() < 2 || cell.len() < 2 || cell[0] == cell[1] {
        return false;
    }
    match (args[0], args[1]) {
        (Some(place), Some(other)) => place == other,
        _ => false,
    }
}

/// The tuples of a prefix, numbered in lexicographic order.
#[derive(Clone, Copy)]
pub struct Tuples<'a> {
    inst: &'a Instance,
    prefix: &'a [u32],
    count: usize,
    ghost indexes: { AreIndexes inst.now prefix.now },
    ghost counted: { count ≡ count_of (sizes_in inst.now prefix.now) },
    ghost few: { count ≤ most_tasks },
}

impl<'a> Tuples<'a> {
    ghost use Rattle.kts_index.specs.ConstraintTuples.{tuple_in, agrees_in};

    /// The tuples of a constraint. Its tasks stand after those of earlier constraints, and all of these
    /// together are no more than a schema may have.
    pub fn of_constraint(schema: &'a Schema, inst: &'a Instance, definite: usize) -> Tuples<'a>
        requires valid { is_valid schema.now inst.now ≡ true }
        requires declared { definite < length schema.now.tasks }
        ensures inst { result.inst.now ≡ inst.now }
        ensures prefix { result.prefix.now ≡ slice_index_or schema.now.tasks definite [] }
        ensures next { tasks_before (world_of schema.now inst.now) schema.now.tasks (definite + 1) ≡ tasks_before (world_of schema.now inst.now) schema.now.tasks definite + result.count }
        ensures few { tasks_before (world_of schema.now inst.now) schema.now.tasks (definite + 1) ≤ most_tasks }
    {
        let prefix = prefix_of(schema, definite);
        let count = count(inst, prefix);
        Tuples {
            inst,
            prefix,
            count,
        }
    }

    pub fn count(&self) -> usize
        ensures value { result ≡ self.now.count }
        ensures counted { result ≡ count_of (sizes_in self.now.inst.now self.now.prefix.now) }
    {
        self.count
    }

    /// A number from which to go on to tuples that agree with this argument; the same number exactly
    /// where its tuple does.
    fn skip_argument(&self, argument: Option<u8>, member: usize, from: usize) -> usize
        requires { from < self.now.count }
        ensures { IsSkip (λ p. argument_agrees (tuple_in self.now p) argument member) from result }
    {
        let place = match argument {
            Some(place) => place as usize,
            None => return from,
        };
        if place >= self.prefix.len() {
            return self.count;
        }
        let base = size(self.inst, self.prefix[place]);
        if member >= base {
            return self.count;
        }
        let width = count(self.inst, &self.prefix[place + 1..]);
        first_with_digit(from, width, base, member)
    }

    /// The same for all arguments.
    fn skip(&self, args: &[Option<u8>], cell: &[usize], from: usize) -> usize
        requires { from < self.now.count }
        ensures { IsSkip (agrees_in self.now args.now cell.now) from result }
    {
        if args.is_empty() {
            return from;
        }
        if cell.is_empty() {
            return from;
        }
        let next = self.skip_argument(args[0], cell[0], from);
        if next != from {
            return next;
        }
        self.skip(&args[1..], &cell[1..], from)
    }

    /// The number of the first tuple from `from` on that agrees with the arguments of a pattern,
    /// where the cell has these members; `below` where none before it does.
    pub fn first(&self, args: &[Option<u8>], cell: &[usize], from: usize, below: usize) -> usize
        requires from { from ≤ below }
        requires below { below ≤ self.now.count }
        ensures { IsFirst (agrees_in self.now args.now cell.now) from below result }
    {
        if clashes(args, cell) {
            return below;
        }
        let mut at = from;
        while at < below {
            let next = self.skip(args, cell, at);
            if next == at {
                return at;
            }
            at = next;
        }
        below
    }
}
