ghost use Rattle.std.specs.Prelude.{◌≡◌, ◌<◌, ◌≤◌, ◌+◌, [], ◌∷◌, length, drop, true, false};
ghost use Rattle.kts_base.specs.Limits.{most_instructions, most_members, most_variables};
ghost use Rattle.kts_code.specs.declared.modes.TrapKind.TheVariants as trap_kind;
ghost use Rattle.kts_code.specs.Operands.{trap, push, push_fitted};
ghost use Rattle.kts_code.specs.States.{Win, Truth};
ghost use Rattle.kts_code.specs.WellFormed.{is_code_number};
ghost use Rattle.kts_machine.specs.OperandViews.{shown};
ghost use Rattle.kts_machine.specs.Steps.{acted, with_core};

use crate::machine::Machine;
use crate::operand::Operand;
use kts_abs::{Tri, add, and, eq, gate, le, max, min, mul, not, or, sub};
use kts_code::{Instr, TrapKind};
use kts_semi::Window;
use kts_sets::{Choice, MemberSet};

impl<const W: usize> Machine<W> {
    /// After an operand came in the place of so many topmost ones, where there was room for it.
    #[inline(always)]
    fn replaced(&mut self, fits: bool)
        requires { self.old.core.pc < most_instructions }
        ensures fits { fits ≡ true → self.new ≡ with_core self.old (record self.old.core { pc = self.old.core.pc + 1 }) }
        ensures full { fits ≡ false → self.new ≡ with_core self.old (trap trap_kind.StackFull self.old.core) }
    {
        if fits {
            self.pc += 1;
        } else {
            self.trap(TrapKind::StackFull);
        }
    }

    #[inline(always)]
    pub(super) fn push_operand(&mut self, count: usize, x: Operand<W>)
        requires place { self.old.core.pc < most_instructions }
        requires there { count ≤ length self.old.core.stack }
        ensures { self.new ≡ with_core self.old (push self.old.setup.code.stack self.old.core (shown x.entry) (drop count self.old.core.stack)) }
    {
        let fits = self.stack.replace(count, x);
        self.replaced(fits);
    }

    #[inline(always)]
    fn push_truth(&mut self, count: usize, truth: Tri)
        requires place { self.old.core.pc < most_instructions }
        requires there { count ≤ length self.old.core.stack }
        ensures { self.new ≡ with_core self.old (push self.old.setup.code.stack self.old.core (Truth truth) (drop count self.old.core.stack)) }
    {
        let fits = self.stack.replace(count, Operand::Truth(truth));
        self.replaced(fits);
    }

    #[inline(always)]
    fn push_window(&mut self, count: usize, window: Window)
        requires place { self.old.core.pc < most_instructions }
        requires there { count ≤ length self.old.core.stack }
        ensures { self.new ≡ with_core self.old (push self.old.setup.code.stack self.old.core (Win window) (drop count self.old.core.stack)) }
    {
        let fits = self.stack.replace(count, Operand::Win(window));
        self.replaced(fits);
    }

    /// The window in the place of the two topmost operands, where there is one.
    #[inline(always)]
    fn push_fitted(&mut self, window: Option<Window>)
        requires place { self.old.core.pc < most_instructions }
        requires there { 2 ≤ length self.old.core.stack }
        ensures { self.new ≡ with_core self.old (push_fitted self.old.setup.code.stack self.old.core window (drop 2 self.old.core.stack)) }
    {
        match window {
            Some(w) => self.push_window(2, w),
            None => self.trap(TrapKind::Overflow),
        }
    }

    #[inline(always)]
    pub(super) fn num(&mut self, n: i64)
        requires place { self.old.core.pc < most_instructions }
        requires number { is_code_number n ≡ true }
        ensures { self.new ≡ acted (Instr.Num n) self.old }
    {
        self.push_window(0, single(n));
    }

    #[inline(always)]
    pub(super) fn var(&mut self, r: u8)
        requires place { self.old.core.pc < most_instructions }
        requires register { r < most_variables }
        ensures { self.new ≡ acted (Instr.Var r) self.old }
    {
        match self.registers.get(r as usize) {
            Some((index, member)) => {
                let members = alone(member);
                self.push_operand(0, Operand::Set(index, members));
            }
            None => self.trap(TrapKind::Register),
        }
    }

    #[inline(always)]
    pub(super) fn add(&mut self)
        requires { self.old.core.pc < most_instructions }
        ensures { self.new ≡ acted Instr.Add self.old }
    {
        match self.stack.two_windows() {
            Ok((a, b)) => self.push_fitted(add(&a, &b)),
            Err(kind) => self.trap(kind),
        }
    }

    #[inline(always)]
    pub(super) fn sub(&mut self)
        requires { self.old.core.pc < most_instructions }
        ensures { self.new ≡ acted Instr.Sub self.old }
    {
        match self.stack.two_windows() {
            Ok((a, b)) => self.push_fitted(sub(&a, &b)),
            Err(kind) => self.trap(kind),
        }
    }

    #[inline(never)]
    pub(super) fn mul(&mut self)
        requires { self.old.core.pc < most_instructions }
        ensures { self.new ≡ acted Instr.Mul self.old }
    {
        match self.stack.two_windows() {
            Ok((a, b)) => self.push_fitted(mul(&a, &b)),
            Err(kind) => self.trap(kind),
        }
    }

    #[inline(always)]
    pub(super) fn min(&mut self)
        requires { self.old.core.pc < most_instructions }
        ensures { self.new ≡ acted Instr.Min self.old }
    {
        match self.stack.two_windows() {
            Ok((a, b)) => self.push_fitted(min(&a, &b)),
            Err(kind) => self.trap(kind),
        }
    }

    #[inline(always)]
    pub(super) fn max(&mut self)
        requires { self.old.core.pc < most_instructions }
        ensures { self.new ≡ acted Instr.Max self.old }
    {
        match self.stack.two_windows() {
            Ok((a, b)) => self.push_fitted(max(&a, &b)),
            Err(kind) => self.trap(kind),
        }
    }

    #[inline(always)]
    pub(super) fn le(&mut self)
        requires { self.old.core.pc < most_instructions }
        ensures { self.new ≡ acted Instr.Le self.old }
    {
        match self.stack.two_windows() {
            Ok((a, b)) => self.push_truth(2, le(&a, &b)),
            Err(kind) => self.trap(kind),
        }
    }

    #[inline(always)]
    pub(super) fn eq(&mut self)
        requires { self.old.core.pc < most_instructions }
        ensures { self.new ≡ acted Instr.Eq self.old }
    {
        match self.stack.two_windows() {
            Ok((a, b)) => self.push_truth(2, eq(&a, &b)),
            Err(kind) => self.trap(kind),
        }
    }

    #[inline(always)]
    pub(super) fn same(&mut self)
        requires { self.old.core.pc < most_instructions }
        ensures { self.new ≡ acted Instr.Same self.old }
    {
        match self.stack.same() {
            Ok(truth) => self.push_truth(2, truth),
            Err(kind) => self.trap(kind),
        }
    }

    #[inline(always)]
    pub(super) fn and(&mut self)
        requires { self.old.core.pc < most_instructions }
        ensures { self.new ≡ acted Instr.And self.old }
    {
        match self.stack.two_truths() {
            Ok((a, b)) => self.push_truth(2, and(a, b)),
            Err(kind) => self.trap(kind),
        }
    }

    #[inline(always)]
    pub(super) fn or(&mut self)
        requires { self.old.core.pc < most_instructions }
        ensures { self.new ≡ acted Instr.Or self.old }
    {
        match self.stack.two_truths() {
            Ok((a, b)) => self.push_truth(2, or(a, b)),
            Err(kind) => self.trap(kind),
        }
    }

    #[inline(always)]
    pub(super) fn not(&mut self)
        requires { self.old.core.pc < most_instructions }
        ensures { self.new ≡ acted Instr.Not self.old }
    {
        match self.stack.one_truth() {
            Ok(truth) => self.push_truth(1, not(truth)),
            Err(kind) => self.trap(kind),
        }
    }

    #[inline(always)]
    pub(super) fn gate(&mut self)
        requires { self.old.core.pc < most_instructions }
        ensures { self.new ≡ acted Instr.Gate self.old }
    {
        match self.stack.gated_window() {
            Ok((truth, window)) => self.push_window(2, gate(truth, &window)),
            Err(kind) => self.trap(kind),
        }
    }

    #[inline(always)]
    pub(super) fn push_true(&mut self)
        requires { self.old.core.pc < most_instructions }
        ensures { self.new ≡ acted Instr.True self.old }
    {
        self.push_truth(0, Tri::T);
    }

    #[inline(always)]
    pub(super) fn push_false(&mut self)
        requires { self.old.core.pc < most_instructions }
        ensures { self.new ≡ acted Instr.False self.old }
    {
        self.push_truth(0, Tri::F);
    }
}

/// The window of one number.
#[inline(always)]
pub(crate) fn single(n: i64) -> Window
    requires { is_code_number n ≡ true }
    ensures { result ≡ (n, n) }
{
    match Window::new(n, n) {
        Some(w) => w,
        None => unreachable!(),
    }
}

/// The set of one member.
#[inline(always)]
pub(super) fn alone<const W: usize>(member: usize) -> Choice<W>
    requires one_word { 1 ≤ W }
    requires few_words { W ≤ 1024 }
    requires small { member < most_members }
    ensures { result ≡ member ∷ [] }
{
    Choice::new(MemberSet::single(member).unwrap()).unwrap()
}
