ghost use Rattle.std.specs.Prelude.{◌≡◌, ◌≢◌, ◌<◌, ◌≤◌, ◌+◌, [], ◌∷◌, length, drop, reverse, slice_get, Some, None, Option, ℕ, ℤ, List, IfSome, IfNone, IfOk, IfErr, pos, map};
ghost use Rattle.kts_base.specs.Limits.{most_arguments};
ghost use Rattle.kts_abs.specs.declared.truth.Tri.{Tri as Tri_};
ghost use Rattle.kts_abs.specs.Values.{Abs};
ghost use Rattle.kts_abs.specs.Windows.{Window as Window_};
ghost use Rattle.kts_code.specs.HeadSteps.{tuple_of};
ghost use Rattle.kts_code.specs.Operands.{trap, push, two_windows, two_truths, one_truth, on_gate, on_same, on_access, read_at, sets_of};
ghost use Rattle.kts_code.specs.States.{Core, Operand as Operand_, Win, Set, Truth};
ghost use Rattle.kts_spec.specs.declared.declarations.Family.{Family as Family_};
ghost use Rattle.kts_machine.specs.Items.{items_of, positions_of, sets_of as values_of};
ghost use Rattle.kts_machine.specs.OperandViews.{shown, same_in};
ghost use Rattle.kts_machine.specs.Sums.{IsGatedSum};

use crate::demands::only_tuple;
use crate::operand::Operand;
use crate::stack::Stack;
use crate::up_to_two::UpToTwo;
use kts_abs::{Operand as Allows, Tri, add, gate, same};
use kts_code::TrapKind;
use kts_semi::Window;
use kts_sets::Choice;

impl<const W: usize> Stack<W> {
    /// The two topmost operands, the top last.
    #[inline(always)]
    pub fn two(&self) -> Option<(Operand<W>, Operand<W>)>
        ensures some { IfSome result (λ x. self.now.items ≡ shown x.1 ∷ (shown x.0 ∷ drop 2 self.now.items)) }
        ensures none { IfNone result (length self.now.items < 2) }
    {
        match (self.at(1), self.at(0)) {
            (Some(below), Some(top)) => Some((below, top)),
            _ => None,
        }
    }

    /// The topmost operand where it is a window.
    #[inline(always)]
    pub fn top_window(&self) -> Option<Window>
        requires { W ≤ 1024 }
        ensures { IfSome result (λ w. self.now.items ≡ Win w ∷ drop 1 self.now.items) }
    {
        match self.at(0) {
            Some(top) => top.window(),
            None => None,
        }
    }

    /// The topmost operand where it is a set of members of this index.
    #[inline(always)]
    pub fn top_set(&self, index: u32) -> Option<Choice<W>>
        requires { W ≤ 1024 }
        ensures { IfSome result (λ ms. self.now.items ≡ Set index (map pos ms) ∷ drop 1 self.now.items) }
    {
        match self.at(0) {
            Some(top) => top.set(index),
            None => None,
        }
    }

    /// The member of the topmost operand, where it is a set of one member of this index.
    #[inline(always)]
    pub fn top_member(&self, index: u32) -> Option<usize>
        requires { W ≤ 1024 }
        ensures { IfSome result (λ member. self.now.items ≡ Set index (pos member ∷ []) ∷ drop 1 self.now.items) }
    {
        match self.top_set(index) {
            Some(members) => members.single(),
            None => None,
        }
    }

    /// The sum of the third operand with the topmost one under the condition between them.
    #[inline(always)]
    pub fn gated_sum(&self) -> Option<Window>
        requires { W ≤ 1024 }
        ensures { IfSome result (λ sum. IsGatedSum self.now.items sum) }
    {
        match (self.at(2), self.at(1), self.at(0)) {
            (Some(sum), Some(condition), Some(top)) => {
                match (sum.window(), condition.truth(), top.window()) {
                    (Some(a), Some(t), Some(w)) => add(&a, &gate(t, &w)),
                    _ => None,
                }
            }
            _ => None,
        }
    }

    /// The two topmost operands where they are windows.
    #[inline(always)]
    pub fn two_windows(&self) -> Result<(Window, Window), TrapKind>
        requires { W ≤ 1024 }
        ensures ok { IfOk result (λ w. self.now.items ≡ Win w.1 ∷ (Win w.0 ∷ drop 2 self.now.items)) }
        ensures err { IfErr result (λ kind. (s : Core) (go : Window_ → Window_ → List Operand_ → Core)
            → two_windows self.now.items s go ≡ trap kind s) }
    {
        match self.two() {
            Some((below, top)) => match (below.window(), top.window()) {
                (Some(a), Some(b)) => Ok((a, b)),
                _ => Err(TrapKind::Kind),
            },
            None => Err(TrapKind::Underflow),
        }
    }

    /// The two topmost operands where they are truth values.
    #[inline(always)]
    pub fn two_truths(&self) -> Result<(Tri, Tri), TrapKind>
        requires { W ≤ 1024 }
        ensures ok { IfOk result (λ t. self.now.items ≡ Truth t.1 ∷ (Truth t.0 ∷ drop 2 self.now.items)) }
        ensures err { IfErr result (λ kind. (s : Core) (go : Tri_ → Tri_ → List Operand_ → Core)
            → two_truths self.now.items s go ≡ trap kind s) }
    {
        match self.two() {
            Some((below, top)) => match (below.truth(), top.truth()) {
                (Some(a), Some(b)) => Ok((a, b)),
                _ => Err(TrapKind::Kind),
            },
            None => Err(TrapKind::Underflow),
        }
    }

    /// The topmost operand where it is a truth value.
    #[inline(always)]
    pub fn one_truth(&self) -> Result<Tri, TrapKind>
        requires { W ≤ 1024 }
        ensures ok { IfOk result (λ t. self.now.items ≡ Truth t ∷ drop 1 self.now.items) }
        ensures err { IfErr result (λ kind. (s : Core) (go : Tri_ → List Operand_ → Core)
            → one_truth self.now.items s go ≡ trap kind s) }
    {
        match self.at(0) {
            Some(top) => match top.truth() {
                Some(t) => Ok(t),
                None => Err(TrapKind::Kind),
            },
            None => Err(TrapKind::Underflow),
        }
    }

    /// A truth value, and the window on top of it.
    #[inline(always)]
    pub fn gated_window(&self) -> Result<(Tri, Window), TrapKind>
        requires { W ≤ 1024 }
        ensures ok { IfOk result (λ x. self.now.items ≡ Win x.1 ∷ (Truth x.0 ∷ drop 2 self.now.items)) }
        ensures err { IfErr result (λ kind. (places : ℕ) (s : Core) → on_gate places s self.now.items ≡ trap kind s) }
    {
        match self.two() {
            Some((below, top)) => match (below.truth(), top.window()) {
                (Some(t), Some(w)) => Ok((t, w)),
                _ => Err(TrapKind::Kind),
            },
            None => Err(TrapKind::Underflow),
        }
    }

    /// Whether the two topmost operands, sets of members of one index, are one and the same member.
    #[inline(always)]
    pub fn same(&self) -> Result<Tri, TrapKind>
        requires { W ≤ 1024 }
        ensures there { IfOk result (λ t. 2 ≤ length self.now.items) }
        ensures ok { IfOk result (λ t. (places : ℕ) (s : Core)
            → on_same places s self.now.items ≡ push places s (Truth t) (drop 2 self.now.items)) }
        ensures err { IfErr result (λ kind. (places : ℕ) (s : Core) → on_same places s self.now.items ≡ trap kind s) }
    {
        match self.two() {
            Some((below, top)) => same_member(&below, &top).ok_or(TrapKind::Kind),
            None => Err(TrapKind::Underflow),
        }
    }

    /// The set of this index below `depth` others.
    #[inline(always)]
    fn set_at(&self, depth: usize, index: u32) -> Option<Choice<W>>
        requires { W ≤ 1024 }
        ensures some { IfSome result (λ ms. slice_get self.now.items depth ≡ Some (Set index (map pos ms))) }
        ensures none { IfNone result ((ms : List ℤ) → slice_get self.now.items depth ≢ Some (Set index ms)) }
    {
        match self.at(depth) {
            Some(x) => x.set(index),
            None => None,
        }
    }

    /// The sets of these indexes below `depth` others, the last index on top.
    pub fn sets(&self, indexes: &[u32], depth: usize) -> Option<UpToTwo<Choice<W>>>
        requires few_words { W ≤ 1024 }
        requires few { length indexes.now ≤ most_arguments }
        requires near { depth ≤ 1 }
        ensures long { IfSome result (λ sets. length indexes.now ≡ length (items_of sets)) }
        ensures some { IfSome result (λ sets. sets_of (reverse indexes.now) (drop depth self.now.items) []
            ≡ Some (values_of sets, drop (depth + length indexes.now) self.now.items)) }
        ensures none { IfNone result (sets_of (reverse indexes.now) (drop depth self.now.items) [] ≡ None) }
    {
        if indexes.is_empty() {
            return Some(UpToTwo::Zero);
        }
        if indexes.len() == 1 {
            return self.one_set(indexes[0], depth);
        }
        self.two_sets(indexes[0], indexes[1], depth)
    }

    /// The arguments of a family that are on top, and what an access to it does.
    pub fn arguments(&self, indexes: &[u32]) -> Result<UpToTwo<Choice<W>>, TrapKind>
        requires few_words { W ≤ 1024 }
        requires few { length indexes.now ≤ most_arguments }
        ensures long { IfOk result (λ sets. length indexes.now ≡ length (items_of sets)) }
        ensures there { IfOk result (λ sets. length indexes.now ≤ length self.now.items) }
        ensures ok { IfOk result (λ sets. (places : ℕ) (s : Core) (family : Family_) (place : List ℤ → Option ℕ) (cells : List Abs)
            → s.stack ≡ self.now.items → family.args ≡ indexes.now
            → on_access places s family place cells ≡ push places s (read_at family place cells (values_of sets)) (drop (length indexes.now) self.now.items)) }
        ensures err { IfErr result (λ kind. (places : ℕ) (s : Core) (family : Family_) (place : List ℤ → Option ℕ) (cells : List Abs)
            → s.stack ≡ self.now.items → family.args ≡ indexes.now
            → on_access places s family place cells ≡ trap kind s) }
    {
        if self.len() < indexes.len() {
            return Err(TrapKind::Underflow);
        }
        match self.sets(indexes, 0) {
            Some(sets) => Ok(sets),
            None => Err(TrapKind::Kind),
        }
    }

    /// The members that are the arguments of a cell, below one other operand.
    pub fn tuple(&self, indexes: &[u32]) -> Option<UpToTwo<usize>>
        requires few_words { W ≤ 1024 }
        requires few { length indexes.now ≤ most_arguments }
        ensures long { IfSome result (λ tuple. length indexes.now ≡ length (items_of tuple)) }
        ensures some { IfSome result (λ tuple. tuple_of (sets_of (reverse indexes.now) (drop 1 self.now.items) [])
            ≡ Some (positions_of tuple, drop (1 + length indexes.now) self.now.items)) }
        ensures none { IfNone result (tuple_of (sets_of (reverse indexes.now) (drop 1 self.now.items) []) ≡ None) }
    {
        match self.sets(indexes, 1) {
            Some(sets) => only_tuple(&sets),
            None => None,
        }
    }

    fn one_set(&self, index: u32, depth: usize) -> Option<UpToTwo<Choice<W>>>
        requires { W ≤ 1024 }
        ensures long { IfSome result (λ sets. length (items_of sets) ≡ 1) }
        ensures some { IfSome result (λ sets. sets_of (index ∷ []) (drop depth self.now.items) []
            ≡ Some (values_of sets, drop (depth + 1) self.now.items)) }
        ensures none { IfNone result (sets_of (index ∷ []) (drop depth self.now.items) [] ≡ None) }
    {
        match self.set_at(depth, index) {
            Some(members) => Some(UpToTwo::One(members)),
            None => None,
        }
    }

    fn two_sets(&self, first: u32, last: u32, depth: usize) -> Option<UpToTwo<Choice<W>>>
        requires few_words { W ≤ 1024 }
        requires near { depth ≤ 1 }
        ensures long { IfSome result (λ sets. length (items_of sets) ≡ 2) }
        ensures some { IfSome result (λ sets. sets_of (last ∷ first ∷ []) (drop depth self.now.items) []
            ≡ Some (values_of sets, drop (depth + 2) self.now.items)) }
        ensures none { IfNone result (sets_of (last ∷ first ∷ []) (drop depth self.now.items) [] ≡ None) }
    {
        match self.set_at(depth, last) {
            Some(others) => match self.set_at(depth + 1, first) {
                Some(members) => Some(UpToTwo::Two(members, others)),
                None => None,
            },
            None => None,
        }
    }
}

// The answer for two sets of members of one index.
#[inline(always)]
fn same_member<const W: usize>(below: &Operand<W>, top: &Operand<W>) -> Option<Tri>
    ensures { result ≡ same_in (shown below.now) (shown top.now) }
{
    match below {
        Operand::Set(index, members) => match top.set(*index) {
            Some(others) => Some(same(members, &others)),
            None => None,
        },
        Operand::Win(_) => None,
        Operand::Truth(_) => None,
    }
}
