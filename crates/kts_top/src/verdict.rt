ghost use Rattle.kts_top.specs.Courses.{Course};
ghost use Rattle.kts_top.specs.Endings.{EndsOrLacks};
ghost use Rattle.kts_top.specs.Commands.{check};
ghost use Rattle.kts_top.specs.Owed.{verdict, wanted};

use crate::content::read_content;
use crate::lines::status_of;
use crate::loads::read_file;
use crate::refusals::say_fault;
use kts_base::{Files, Sink, Status};
use kts_syntax::print;
use std::alloc::Global;

/// Answers `check SPEC`.
pub fn answer_check<F: Files, S: Sink>(
    alloc: Global,
    spec: &str,
    files: &mut F,
    out: &mut S,
) -> Status
    ensures { Course result (S.log out.old) (S.log out.new) (F.store files.new) 1 (F.store files.old) (wanted (check spec.now)) }
{
    match read_file(alloc, 1, spec, files, out) {
        Ok(bytes) => put_verdict(alloc, &bytes, out),
        Err(status) => status,
    }
}

// Puts the canonical text of a file's forms, or the line of its fault.
fn put_verdict<S: Sink>(alloc: Global, bytes: &[u8], out: &mut S) -> Status
    ensures { EndsOrLacks result (S.log out.old) (S.log out.new) (verdict bytes.now) }
{
    match read_content(alloc, bytes) {
        Ok((forms, _)) => return status_of(print(&forms, out), Status::Done),
        Err(fault) => return say_fault(out, &fault),
    }
}
