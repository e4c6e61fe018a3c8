ghost use Rattle.std.specs.Prelude.{◌≡◌, ◌≢◌, ◌++◌, true};
ghost use Rattle.kts_base.specs.Writes.{Wrote};
ghost use Rattle.kts_spec.specs.Data.{is_valid};
ghost use Rattle.kts_spec.specs.Texts.{ending_text};
ghost use Rattle.kts_spec.specs.declared.ending.Ending.TheVariants.{End as WholeEnd};
ghost use Rattle.kts_top.specs.Endings.{Ends, EndsOrLacks};
ghost use Rattle.kts_top.specs.Runs.{last_of, owed_run, shown_path};

use crate::lines::{put_trap, say_no_memory, status_of};
use crate::options::Options;
use kts_base::{Sink, SinkFault, Status};
use kts_code::Code;
use kts_machine::{Machine, Outcome};
use kts_show::{put_end, put_path};
use kts_spec::{Ending, Instance};
use std::alloc::Global;

/// Runs code on data with these options.
pub fn run_code<S: Sink>(
    alloc: Global,
    code: &Code,
    inst: &Instance,
    options: Options,
    out: &mut S,
) -> Status
    requires valid { is_valid code.now.schema inst.now ≡ true }
    ensures { EndsOrLacks result (S.log out.old) (S.log out.new) (owed_run options code.now inst.now) }
{
    match Machine::<1>::open(alloc, code, inst) {
        Ok(mut machine) => {
            match machine.run(options.steps(), options.first(), options.trace(), out) {
                Outcome::WriteFault => return Status::WriteFault,
                outcome => {
                    let path = if options.trace() {
                        Some((machine.longest(), code.bound(inst)))
                    } else {
                        None
                    };
                    return end_run(outcome, path, out);
                }
            }
        }
        Err(_) => return say_no_memory(out),
    }
}

/// Writes the last lines of a run: where it has halted, its longest path and the bound on it follow, if they are to be shown.
pub fn end_run<S: Sink>(outcome: Outcome, path: Option<(u64, u64)>, out: &mut S) -> Status
    requires { outcome ≢ Outcome.WriteFault }
    ensures { Ends result (S.log out.old) (S.log out.new) (last_of (shown_path path) outcome) }
{
    match outcome {
        Outcome::Ended(n) => return status_of(put_whole_end(n, path, out), Status::Done),
        Outcome::Stopped(n) => return status_of(put_end(Ending::First(n), out), Status::Done),
        Outcome::Spent(n) => return status_of(put_end(Ending::Budget(n), out), Status::Budget),
        Outcome::Trap(kind, pc) => return status_of(put_trap(out, kind, pc), Status::Trap),
        Outcome::WriteFault => unreachable!(),
    }
}

// Writes the last line of a run that has halted, and the line of its path, if there is one.
fn put_whole_end<S: Sink>(
    count: u64,
    path: Option<(u64, u64)>,
    out: &mut S,
) -> Result<(), SinkFault>
    ensures { Wrote result (S.log out.old) (S.log out.new) (ending_text (WholeEnd count) ++ shown_path path) }
{
    put_end(Ending::End(count), out)?;
    match path {
        Some((longest, bound)) => put_path(longest, bound, out),
        None => Ok(()),
    }
}
