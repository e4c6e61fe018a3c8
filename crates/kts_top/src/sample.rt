ghost use Rattle.std.specs.Prelude.{◌≡◌, ◌≢◌, ◌≤◌, ◌+◌, ℕ, List, [], length, true, Some};
ghost use Rattle.kts_base.specs.Limits.{most_sample};
ghost use Rattle.kts_search.specs.WholeScheme.{whole_scheme};
ghost use Rattle.kts_spec.specs.Data.{is_valid};
ghost use Rattle.kts_top.specs.Endings.{EndsOrLacks};
ghost use Rattle.kts_top.specs.Options.{first_hundred};
ghost use Rattle.kts_top.specs.Owed.{answer, data_answer, fed, first_solved, program_of, sampled, solution_wanted};
ghost use Rattle.kts_top.specs.Runs.{last_of, owed_run, with_text};
ghost use Rattle.kts_top.specs.Samples.{summary, summarized};
ghost use Rattle.kts_top.specs.LastLines.{Lines};

use crate::content::read_content;
use crate::lines::{put_sample, say_no_memory, say_refused_length};
use crate::options::Options;
use crate::refusals::{say_data_fault, say_fault};
use crate::run::end_run;
use crate::sample_texts::sample_files;
use kts_base::{CountSink, Sink, Status};
use kts_code::Code;
use kts_data::read_data;
use kts_machine::{Machine, Outcome, progress_law};
use kts_search::{GenFault, generate, whole_code_searches};
use kts_spec::{Instance, Spec};
use std::alloc::Global;

/// Answers `sample` of a size: it solves the sample problem for its first hundred schedules, and puts how many bytes the run
/// prints, and its last line.
pub fn answer_sample<S: Sink>(alloc: Global, size: u64, out: &mut S) -> Status
    requires some { 1 ≤ size }
    requires few { size ≤ most_sample }
    ensures { EndsOrLacks result (S.log out.old) (S.log out.new) (sampled size) }
{
    match sample_files(alloc, size as u32) {
        Ok((spec, table)) => summarize_files(alloc, size, spec.as_slice(), table.as_slice(), out),
        Err(_) => say_no_memory(out),
    }
}

// Puts the summary of the run for a specification and data of these bytes.
fn summarize_files<S: Sink>(
    alloc: Global,
    size: u64,
    spec: &[u8],
    table: &[u8],
    out: &mut S,
) -> Status
    ensures { EndsOrLacks result (S.log out.old) (S.log out.new) (summarized size (first_solved spec.now table.now)) }
{
    match read_content(alloc, spec) {
        Ok((forms, spec)) => {
            drop(forms);
            summarize_spec(alloc, size, &spec, table, out)
        }
        Err(fault) => say_fault(out, &fault),
    }
}

// Puts the summary of the run of a specification's code.
fn summarize_spec<S: Sink>(
    alloc: Global,
    size: u64,
    spec: &Spec,
    table: &[u8],
    out: &mut S,
) -> Status
    ensures { EndsOrLacks result (S.log out.old) (S.log out.new) (summarized size (fed table.now (solution_wanted first_hundred (Some []) (Some spec.now)))) }
{
    match generate(alloc, spec) {
        Ok(code) => summarize_data(alloc, size, spec, &code, table, out),
        Err(GenFault::TooLong(length)) => say_refused_length(out, length),
        Err(GenFault::NoMemory) => say_no_memory(out),
    }
}

// Puts the summary of the run of a program on the data of these bytes.
fn summarize_data<S: Sink>(
    alloc: Global,
    size: u64,
    spec: &Spec,
    code: &Code,
    table: &[u8],
    out: &mut S,
) -> Status
    requires code { whole_scheme spec.now ≡ Some code.now }
    ensures { EndsOrLacks result (S.log out.old) (S.log out.new) (summarized size (data_answer first_hundred (program_of spec.now code.now) table.now)) }
{
    match read_data(alloc, code.schema(), table) {
        Ok(inst) => summarize_instance(alloc, size, spec, code, &inst, out),
        Err(fault) => say_data_fault(out, b"refused data ", &fault),
    }
}

// Puts the summary of the run of a program on an instance.
fn summarize_instance<S: Sink>(
    alloc: Global,
    size: u64,
    spec: &Spec,
    code: &Code,
    inst: &Instance,
    out: &mut S,
) -> Status
    requires code { whole_scheme spec.now ≡ Some code.now }
    requires valid { is_valid code.now.schema inst.now ≡ true }
    ensures { EndsOrLacks result (S.log out.old) (S.log out.new) (summary size (answer first_hundred (program_of spec.now code.now) inst.now)) }
{
    whole_code_searches();
    progress_law();
    summarize_code(alloc, size, code, inst, out)
}

// Runs code on an instance, counts what it prints, and puts the summary.
fn summarize_code<S: Sink>(
    alloc: Global,
    size: u64,
    code: &Code,
    inst: &Instance,
    out: &mut S,
) -> Status
    requires valid { is_valid code.now.schema inst.now ≡ true }
    ensures { EndsOrLacks result (S.log out.old) (S.log out.new) (summary size (owed_run first_hundred code.now inst.now)) }
{
    match Machine::<1>::open(alloc, code, inst) {
        Ok(mut machine) => {
            let options = Options::first_hundred();
            let mut count = CountSink::new();
            match machine.run(
                options.steps(),
                options.first(),
                options.trace(),
                &mut count,
            ) {
                // The count ended: no run of so few steps prints so much.
                Outcome::WriteFault => return say_no_memory(out),
                outcome => return end_summary(size, outcome, &mut count, out),
            }
        }
        Err(_) => return say_no_memory(out),
    }
}

// Puts the summary of a run that has printed what is counted, and ended so.
fn end_summary<S: Sink>(size: u64, outcome: Outcome, count: &mut CountSink, out: &mut S) -> Status
    requires { outcome ≢ Outcome.WriteFault }
    ensures { (text : List ℕ) → Lines text → count.old.count ≡ length text
        → EndsOrLacks result (S.log out.old) (S.log out.new) (summary size (with_text text (last_of [] outcome))) }
{
    match end_run(outcome, None, count) {
        // The count ended here.
        Status::WriteFault => say_no_memory(out),
        _ => put_summary(size, outcome, count.count(), out),
    }
}

// Puts the summary of a run that has printed so many bytes, its last line among them, and ended so.
fn put_summary<S: Sink>(size: u64, outcome: Outcome, count: u64, out: &mut S) -> Status
    requires { outcome ≢ Outcome.WriteFault }
    ensures { (text : List ℕ) → Lines text → count ≡ length text + length (last_of [] outcome).bytes
        → EndsOrLacks result (S.log out.old) (S.log out.new) (summary size (with_text text (last_of [] outcome))) }
{
    match put_sample(out, size, count) {
        Ok(()) => end_run(outcome, None, out),
        Err(_) => Status::WriteFault,
    }
}
