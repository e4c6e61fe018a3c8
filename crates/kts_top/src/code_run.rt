ghost use Rattle.kts_top.specs.Courses.{Course};
ghost use Rattle.kts_top.specs.Endings.{EndsOrLacks};
ghost use Rattle.kts_top.specs.Owed.{code_run, data_run, load};

use crate::loads::read_file;
use crate::options::Options;
use crate::refusals::{say_code_fault, say_data_fault};
use crate::run::run_code;
use kts_base::{Files, Sink, Status};
use kts_code::Code;
use kts_data::read_data;
use kts_read::{code_files_law, read_code};
use std::alloc::Global;

/// Answers `run CODE DATA` with these options.
pub fn answer_run<F: Files, S: Sink>(
    alloc: Global,
    code: &str,
    data_path: &str,
    options: Options,
    files: &mut F,
    out: &mut S,
) -> Status
    ensures { Course result (S.log out.old) (S.log out.new) (F.store files.new) 1 (F.store files.old)
        (load code.now (code_run options data_path.now)) }
{
    match read_file(alloc, 1, code, files, out) {
        Ok(bytes) => run_bytes(alloc, bytes, data_path, options, files, out),
        Err(status) => status,
    }
}

// Goes on from the bytes of a code file, which are let go of before data are loaded.
fn run_bytes<F: Files, S: Sink>(
    alloc: Global,
    bytes: Vec<u8>,
    data_path: &str,
    options: Options,
    files: &mut F,
    out: &mut S,
) -> Status
    ensures { Course result (S.log out.old) (S.log out.new) (F.store files.new) 2 (F.store files.old) (code_run options data_path.now bytes.items) }
{
    code_files_law();
    let read = read_code(alloc, &bytes);
    drop(bytes);
    match read {
        Ok(code) => match read_file(alloc, 2, data_path, files, out) {
            Ok(bytes) => run_data(alloc, &code, &bytes, options, out),
            Err(status) => status,
        },
        Err(fault) => say_code_fault(out, &fault),
    }
}

// Puts the run of code on the data of these bytes, or the line of their fault.
fn run_data<S: Sink>(
    alloc: Global,
    code: &Code,
    bytes: &[u8],
    options: Options,
    out: &mut S,
) -> Status
    ensures { EndsOrLacks result (S.log out.old) (S.log out.new) (data_run options code.now bytes.now) }
{
    match read_data(alloc, code.schema(), bytes) {
        Ok(inst) => run_code(alloc, code, &inst, options, out),
        Err(fault) => say_data_fault(out, b"refused data ", &fault),
    }
}
