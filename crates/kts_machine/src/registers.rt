ghost use Rattle.std.specs.Prelude.{◌≡◌, ◌<◌, ℕ, slice_index, slice_index_or, slice_set, Some, None, IfSome};
ghost use Rattle.kts_base.specs.Limits.{most_members, most_variables};
ghost use Rattle.kts_code.specs.Queues.{registers_of};
ghost use Rattle.kts_code.specs.States.{no_registers};
ghost use Rattle.kts_machine.specs.SmallMembers.{IsSmall};

use kts_base::MAX_VARIABLES;
use std::marker::Model;

/// The registers, each with the number of an index and one of its members, or unset.
#[derive(Drop)]
pub struct Registers {
    slots: [Option<(u32, u32)>; MAX_VARIABLES],
}

impl Model for Registers {
    ghost use Rattle.std.specs.Prelude.{ℕ, List, Option};

    ghost Value = { List (Option (ℕ × ℕ)) };

    ghost view = { λ r. r.slots };

    ghost use Rattle.kts_machine.specs.SmallMembers.{AreSmall};

    ghost invariant = { λ r. AreSmall r.slots };
}

impl Registers {
    /// All unset.
    pub fn new() -> Registers
        ensures { result ≡ no_registers }
    {
        Registers {
            slots: [None; MAX_VARIABLES],
        }
    }

    /// The same registers.
    #[inline(always)]
    pub fn copy(&self) -> Registers
        ensures { result ≡ self.now }
    {
        Registers { slots: self.slots }
    }

    #[inline(always)]
    pub fn get(&self, r: usize) -> Option<(u32, usize)>
        requires { r < most_variables }
        ensures value { result ≡ slice_index_or self.now r None }
        ensures small { IfSome result (λ x. x.1 < most_members) }
    {
        let slots = &self.slots;
        match slots[r] {
            Some((index, member)) => Some((index, member as usize)),
            None => None,
        }
    }

    #[inline(always)]
    pub fn set(&mut self, r: usize, index: u32, member: usize)
        requires register { r < most_variables }
        requires small { member < most_members }
        ensures { self.new ≡ slice_set self.old r (Some (index, member)) }
    {
        self.slots[r] = Some((index, member as u32));
    }

    #[inline(always)]
    pub fn unset(&mut self, r: usize)
        requires { r < most_variables }
        ensures { self.new ≡ slice_set self.old r None }
    {
        self.slots[r] = None;
    }

    pub fn clear(&mut self)
        ensures { self.new ≡ no_registers }
    {
        self.slots = [None; MAX_VARIABLES];
    }

    /// The members of a tuple with their indexes, the others unset.
    pub fn fill(&mut self, prefix: &[u32], tuple: &[usize])
        requires { (k : ℕ) → slice_index tuple.now k < most_members }
        ensures { self.new ≡ registers_of most_variables prefix.now tuple.now }
    {
        let mut slots = [None; MAX_VARIABLES];
        for r in 0..MAX_VARIABLES {
            slots[r] = register_at(prefix, tuple, r);
        }
        self.slots = slots;
    }
}

#[tactic(auto, using(crate::proofs::RegisterLists::at_register, std::proofs::lemmas::Option::gets))]
fn register_at(prefix: &[u32], tuple: &[usize], r: usize) -> Option<(u32, u32)>
    requires register { r < most_variables }
    requires small { (k : ℕ) → slice_index tuple.now k < most_members }
    ensures value { result ≡ slice_index_or (registers_of most_variables prefix.now tuple.now) r None }
    ensures small { IsSmall result }
{
    if r < prefix.len() && r < tuple.len() {
        Some((prefix[r], tuple[r] as u32))
    } else {
        None
    }
}
