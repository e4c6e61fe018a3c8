ghost use Rattle.std.specs.Prelude.{◌≡◌, ◌≢◌, ◌≤◌, not, ◌||◌};
ghost use Rattle.kts_base.specs.Limits.{most_budget};
ghost use Rattle.kts_base.specs.Writes.{Done, Stopped};
ghost use Rattle.kts_code.specs.Printed.{items_text};
ghost use Rattle.kts_machine.specs.Cuts.{CutOff, text_after};
ghost use Rattle.kts_machine.specs.Outcomes.{ended_as, outcome_of};
ghost use Rattle.kts_machine.specs.Progress.{progress, is_going, is_last};

use crate::machine::Machine;
use crate::outcome::Outcome;
use kts_base::Sink;
use kts_code::Mode;

impl<const W: usize> Machine<W> {
    /// Runs the code anew, up to `budget` steps, the oldest task first, until it has printed the
    /// schedule with the number `first`, and writes the text of what the run finds. It takes no memory.
    pub fn run<S: Sink>(
        &mut self,
        budget: u64,
        first: Option<u64>,
        traced: bool,
        out: &mut S,
    ) -> Outcome
        requires budget { budget ≤ most_budget }
        ensures setup { self.new.setup ≡ self.old.setup }

        // Where no write failed, the run was done.
        ensures outcome { result ≢ Outcome.WriteFault → result ≡ outcome_of first (progress self.old.setup first budget) }
        ensures steps { result ≢ Outcome.WriteFault → self.new.steps ≡ (progress self.old.setup first budget).steps }
        ensures longest { result ≢ Outcome.WriteFault → self.new.longest ≡ (progress self.old.setup first budget).longest }
        ensures wrote { result ≢ Outcome.WriteFault → Done (S.log out.old) (S.log out.new) (text_after self.old.setup 0 first traced budget) }

        // Where one failed, it was in the last of the steps done.
        ensures few { self.new.steps ≤ budget }
        ensures stopped { result ≡ Outcome.WriteFault → Stopped (S.log out.old) (S.log out.new) (text_after self.old.setup 0 first traced budget) }
        ensures cut { result ≡ Outcome.WriteFault → CutOff self.old.setup 0 first traced self.new.steps (S.log out.old) (S.log out.new) }
    {
        self.run_from(0, budget, first, traced, out)
    }

    /// The same where so many schedules were printed before, from which the schedules are numbered on.
    /// `first` is the number among the schedules of this run.
    #[inline(never)]
    pub fn run_from<S: Sink>(
        &mut self,
        before: u64,
        budget: u64,
        first: Option<u64>,
        traced: bool,
        out: &mut S,
    ) -> Outcome
        requires before { before ≤ most_budget }
        requires budget { budget ≤ most_budget }
        ensures setup { self.new.setup ≡ self.old.setup }

        // Where no write failed, the run was done.
        ensures outcome { result ≢ Outcome.WriteFault → result ≡ outcome_of first (progress self.old.setup first budget) }
        ensures steps { result ≢ Outcome.WriteFault → self.new.steps ≡ (progress self.old.setup first budget).steps }
        ensures longest { result ≢ Outcome.WriteFault → self.new.longest ≡ (progress self.old.setup first budget).longest }
        ensures wrote { result ≢ Outcome.WriteFault → Done (S.log out.old) (S.log out.new) (text_after self.old.setup before first traced budget) }

        // Where one failed, it was in the last of the steps done.
        ensures few { self.new.steps ≤ budget }
        ensures stopped { result ≡ Outcome.WriteFault → Stopped (S.log out.old) (S.log out.new) (text_after self.old.setup before first traced budget) }
        ensures cut { result ≡ Outcome.WriteFault → CutOff self.old.setup before first traced self.new.steps (S.log out.old) (S.log out.new) }
    {
        self.reset();
        let mut left = budget;
        while left > 0 {
            left -= 1;
            if let Err(_) = self.step(before, traced, out) {
                self.steps = budget - left;
                return Outcome::WriteFault;
            }
            if self.is_over(first) {
                return self.ended(budget - left, first);
            }
            left -= self.run_silently(left);
            if !self.is_going() {
                return self.ended(budget - left, first);
            }
        }
        self.ended(budget, first)
    }

    // The outcome of a run that did so many steps.
    fn ended(&mut self, steps: u64, first: Option<u64>) -> Outcome
        ensures outcome { result ≡ ended_as first self.old.core.mode self.old.printed self.old.core.pc }
        ensures steps { self.new ≡ record self.old { steps = steps } }
    {
        self.steps = steps;
        self.outcome(first)
    }

    #[inline(always)]
    fn is_over(&self, first: Option<u64>) -> bool
        ensures { result ≡ (not (is_going self.now.core.mode) || is_last first self.now.printed) }
    {
        match self.mode {
            Mode::Going => self.is_last(first),
            _ => true,
        }
    }

    // Whether the schedule that was printed last has this number.
    #[inline(always)]
    fn is_last(&self, number: Option<u64>) -> bool
        ensures { result ≡ is_last number self.now.printed }
    {
        match number {
            Some(number) => self.printed > 0 && self.printed == number,
            None => false,
        }
    }

    #[inline(always)]
    fn outcome(&self, first: Option<u64>) -> Outcome
        ensures { result ≡ ended_as first self.now.core.mode self.now.printed self.now.core.pc }
    {
        match self.mode {
            Mode::Going => {
                if self.is_last(first) {
                    Outcome::Stopped(self.printed)
                } else {
                    Outcome::Spent(self.printed)
                }
            }
            Mode::Halted => Outcome::Ended(self.printed),
            Mode::Trapped(kind) => Outcome::Trap(kind, self.pc as u32),
        }
    }
}
