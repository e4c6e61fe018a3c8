ghost use Rattle.std.specs.Prelude.{Some};
ghost use Rattle.kts_top.specs.Commands.{classify as classify_command};
ghost use Rattle.kts_top.specs.Courses.{Course};
ghost use Rattle.kts_top.specs.Endings.{EndsOrLacks};
ghost use Rattle.kts_top.specs.Owed.{classification, classified, wanted};

use crate::classification::put_classification;
use crate::content::read_content;
use crate::lines::{say_no_memory, status_of};
use crate::loads::read_file;
use crate::refusals::say_fault;
use kts_base::{Files, Sink, Status};
use kts_classify::classify;
use kts_spec::Spec;
use std::alloc::Global;

/// Answers `classify SPEC`.
pub fn answer_classify<F: Files, S: Sink>(
    alloc: Global,
    spec: &str,
    files: &mut F,
    out: &mut S,
) -> Status
    ensures { Course result (S.log out.old) (S.log out.new) (F.store files.new) 1 (F.store files.old) (wanted (classify_command spec.now)) }
{
    match read_file(alloc, 1, spec, files, out) {
        Ok(bytes) => put_classified(alloc, &bytes, out),
        Err(status) => status,
    }
}

// Puts the classification of the specification that a file holds, or the line of its fault.
fn put_classified<S: Sink>(alloc: Global, bytes: &[u8], out: &mut S) -> Status
    ensures { EndsOrLacks result (S.log out.old) (S.log out.new) (classified bytes.now) }
{
    match read_content(alloc, bytes) {
        Ok((_, spec)) => return classify_spec(alloc, &spec, out),
        Err(fault) => return say_fault(out, &fault),
    }
}

// Puts the classification of a specification.
fn classify_spec<S: Sink>(alloc: Global, spec: &Spec, out: &mut S) -> Status
    ensures { EndsOrLacks result (S.log out.old) (S.log out.new) (classification (Some spec.now)) }
{
    match classify(alloc, spec) {
        Ok(plan) => return status_of(put_classification(spec, &plan, out), Status::Done),
        Err(_) => return say_no_memory(out),
    }
}
