ghost use Rattle.std.specs.Prelude.{◌≡◌, ◌++◌, ◌∷◌, [], suc, nat_lt, List as ListOf, true};
ghost use Rattle.kts_syntax.specs.Tops.{has_room};
ghost use Rattle.kts_syntax.specs.Counting.{AreCounts};
ghost use Rattle.kts_syntax.specs.declared.form.Form.{Form as FormOf};

use crate::form::Form;
use kts_base::{MAX_CHOICES, MAX_FORMULAS, MAX_GIVENS, MAX_INDEXES};

/// How many forms of the bounded kinds there were.
#[derive(Clone, Copy, Debug)]
pub struct Counts {
    indexes: usize,
    givens: usize,
    choices: usize,
    formulas: usize,
}

/// Whether there may be one more; then it is counted.
fn take_one(count: &mut usize, most: usize) -> bool
    ensures room { result ≡ nat_lt count.old most }
    ensures counted { result ≡ true → count.new ≡ suc count.old }
{
    let room = *count < most;
    if room {
        *count += 1;
    }
    room
}

impl Counts {
    pub fn new() -> Counts
        ensures { AreCounts result [] }
    {
        Counts {
            indexes: 0,
            givens: 0,
            choices: 0,
            formulas: 0,
        }
    }

    /// Whether there may be such a form; then it is counted.
    #[tactic(auto, unfolding(crate::specs::Tops::has_room))]
    pub fn take(&mut self, form: &Form) -> bool
        ensures room { (before : ListOf FormOf) → AreCounts self.old before → result ≡ has_room before form.now }
        ensures counts { (before : ListOf FormOf) → AreCounts self.old before → result ≡ true → AreCounts self.new (before ++ form.now ∷ []) }
    {
        match form {
            Form::Index(_) => take_one(&mut self.indexes, MAX_INDEXES),
            Form::Given(_, _, _) => take_one(&mut self.givens, MAX_GIVENS),
            Form::Choose(_, _, _) => take_one(&mut self.choices, MAX_CHOICES),
            Form::Formula(_, _) => take_one(&mut self.formulas, MAX_FORMULAS),
            Form::Manifest(_) => true,
        }
    }
}
