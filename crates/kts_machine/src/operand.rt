ghost use Rattle.std.specs.Prelude.{◌≡◌, ◌≢◌, ℤ, List, map, pos, IfSome, IfNone};
ghost use Rattle.kts_abs.specs.declared.truth.Tri.{Tri as Tri_};
ghost use Rattle.kts_abs.specs.Windows.{Window as Window_};
ghost use Rattle.kts_code.specs.States.{Win, Set, Truth};
ghost use Rattle.kts_machine.specs.OperandViews.{shown};

use kts_abs::Tri;
use kts_semi::Window;
use kts_sets::Choice;

/// What the operand stack holds; a set has the number of its index.
#[derive(Clone, Copy, Debug)]
pub enum Operand<const W: usize> {
    Win(Window),
    Set(u32, Choice<W>),
    Truth(Tri),
}

impl<const W: usize> Operand<W> {
    /// The window, where it is one.
    #[inline(always)]
    pub fn window(&self) -> Option<Window>
        ensures some { IfSome result (λ w. shown self.now ≡ Win w) }
        ensures none { IfNone result ((w : Window_) → shown self.now ≢ Win w) }
    {
        match self {
            Operand::Win(w) => Some(*w),
            Operand::Set(_, _) => None,
            Operand::Truth(_) => None,
        }
    }

    /// The truth value, where it is one.
    #[inline(always)]
    pub fn truth(&self) -> Option<Tri>
        ensures some { IfSome result (λ t. shown self.now ≡ Truth t) }
        ensures none { IfNone result ((t : Tri_) → shown self.now ≢ Truth t) }
    {
        match self {
            Operand::Truth(t) => Some(*t),
            Operand::Win(_) => None,
            Operand::Set(_, _) => None,
        }
    }

    /// The set, where it is one of members of this index.
    #[inline(always)]
    pub fn set(&self, index: u32) -> Option<Choice<W>>
        ensures some { IfSome result (λ ms. shown self.now ≡ Set index (map pos ms)) }
        ensures none { IfNone result ((ms : List ℤ) → shown self.now ≢ Set index ms) }
    {
        match self {
            Operand::Set(i, members) => { if *i == index { Some(*members) } else { None } }
            Operand::Win(_) => None,
            Operand::Truth(_) => None,
        }
    }
}
