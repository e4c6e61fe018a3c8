ghost use Rattle.std.specs.Prelude.{◌≡◌, ◌<◌, ◌≤◌, ◌+◌, [], length, slice_index_or, pos};
ghost use Rattle.kts_base.specs.Limits.{most_members};
ghost use Rattle.kts_spec.specs.Places.{offset};
ghost use Rattle.kts_spec.specs.Worlds.{size_of, given_of, choice_of, table_of};
ghost use Rattle.kts_mean.specs.Evaluation.{world_in};

use crate::evaluator::{Evaluator, size};

impl<'a> Evaluator<'a> {
    /// The number of members of an index.
    pub fn size(&self, index: u32) -> usize
        requires { index < length self.now.schema.now.indexes }
        ensures value { result ≡ size_of (world_in self.now) index }
        ensures few { result ≤ most_members }
    {
        size(self.inst, index)
    }

    /// The indexes of the arguments of a given.
    pub fn given_args(&self, f: usize) -> &[u32]
        requires { f < length self.now.schema.now.givens }
        ensures { result.now ≡ (given_of (world_in self.now) f).args }
    {
        self.schema.givens().as_slice()[f].args().as_slice()
    }

    /// The indexes of the arguments of a choice.
    pub fn choice_args(&self, x: usize) -> &[u32]
        requires { x < length self.now.schema.now.choices }
        ensures { result.now ≡ (choice_of (world_in self.now) x).args }
    {
        self.schema.choices().as_slice()[x].args().as_slice()
    }

    /// The value of a given at a place.
    pub fn given(&self, f: usize, at: usize) -> i64
        requires declared { f < length self.now.inst.now.values }
        requires within { at < length (table_of (world_in self.now) f) }
        ensures { result ≡ slice_index_or (table_of (world_in self.now) f) at (pos 0) }
    {
        self.inst.values().as_slice()[f].as_slice()[at]
    }

    /// The value of a choice at a place.
    pub fn choice(&self, x: usize, at: usize) -> i64
        requires declared { x < length self.now.schema.now.choices }
        requires within { offset (world_in self.now) x + at < length self.now.schedule.now }
        ensures { result ≡ slice_index_or self.now.schedule.now (offset (world_in self.now) x + at) (pos 0) }
    {
        let offsets = &self.offsets;
        self.schedule[offsets[x] + at]
    }
}
