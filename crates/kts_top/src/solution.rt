ghost use Rattle.std.specs.Prelude.{◌≡◌, true, Some, option_map};
ghost use Rattle.kts_search.specs.WholeScheme.{whole_scheme};
ghost use Rattle.kts_spec.specs.Data.{is_valid};
ghost use Rattle.kts_top.specs.Courses.{Course};
ghost use Rattle.kts_top.specs.Endings.{EndsOrLacks};
ghost use Rattle.kts_top.specs.Owed.{answer, data_answer, load, program_of, solution_wanted, spec_solved, with_data};

use crate::content::read_content;
use crate::lines::{say_no_memory, say_refused_length};
use crate::loads::read_file;
use crate::options::Options;
use crate::refusals::{say_data_fault, say_fault};
use crate::run::run_code;
use kts_base::{Files, Sink, Status};
use kts_code::Code;
use kts_data::read_data;
use kts_machine::progress_law;
use kts_search::{GenFault, generate, whole_code_searches};
use kts_spec::{Instance, Spec};
use std::alloc::Global;

// The data of a command without a data file.
const NO_DATA: &[u8] = b"{}";

/// Answers `solve SPEC DATA`, or `solve SPEC` where no data are told, with these options.
pub fn answer_solve<F: Files, S: Sink>(
    alloc: Global,
    spec: &str,
    data: Option<&str>,
    options: Options,
    files: &mut F,
    out: &mut S,
) -> Status
    ensures { Course result (S.log out.old) (S.log out.new) (F.store files.new) 1 (F.store files.old)
        (load spec.now (spec_solved options (option_map (λ path. path.now) «data».entry))) }
{
    match read_file(alloc, 1, spec, files, out) {
        Ok(bytes) => solve_bytes(alloc, bytes, data, options, files, out),
        Err(status) => status,
    }
}

// Goes on from the bytes of a specification. They are let go of before code is generated, with the forms that were read of them.
fn solve_bytes<F: Files, S: Sink>(
    alloc: Global,
    bytes: Vec<u8>,
    data: Option<&str>,
    options: Options,
    files: &mut F,
    out: &mut S,
) -> Status
    ensures { Course result (S.log out.old) (S.log out.new) (F.store files.new) 2 (F.store files.old)
        (spec_solved options (option_map (λ path. path.now) «data».entry) bytes.items) }
{
    let content = read_content(alloc, &bytes);
    drop(bytes);
    match content {
        Ok((forms, spec)) => {
            drop(forms);
            solve_spec(alloc, &spec, data, options, files, out)
        }
        Err(fault) => say_fault(out, &fault),
    }
}

// Goes on from a specification: it generates its code.
fn solve_spec<F: Files, S: Sink>(
    alloc: Global,
    spec: &Spec,
    data: Option<&str>,
    options: Options,
    files: &mut F,
    out: &mut S,
) -> Status
    ensures { Course result (S.log out.old) (S.log out.new) (F.store files.new) 2 (F.store files.old)
        (solution_wanted options (option_map (λ path. path.now) «data».entry) (Some spec.now)) }
{
    match generate(alloc, spec) {
        Ok(code) => load_data(alloc, spec, &code, data, options, files, out),
        Err(GenFault::TooLong(length)) => say_refused_length(out, length),
        Err(GenFault::NoMemory) => say_no_memory(out),
    }
}

// Loads data for a program, where they are told, and puts its answer on them.
fn load_data<F: Files, S: Sink>(
    alloc: Global,
    spec: &Spec,
    code: &Code,
    data: Option<&str>,
    options: Options,
    files: &mut F,
    out: &mut S,
) -> Status
    requires code { whole_scheme spec.now ≡ Some code.now }
    ensures { Course result (S.log out.old) (S.log out.new) (F.store files.new) 2 (F.store files.old)
        (with_data (option_map (λ path. path.now) «data».entry) (data_answer options (program_of spec.now code.now))) }
{
    match data {
        Some(path) => match read_file(alloc, 2, path, files, out) {
            Ok(bytes) => solve_data(alloc, spec, code, &bytes, options, out),
            Err(status) => status,
        },
        None => solve_data(alloc, spec, code, NO_DATA, options, out),
    }
}

// Puts the answer of a program on the data of these bytes, or the line of their fault.
fn solve_data<S: Sink>(
    alloc: Global,
    spec: &Spec,
    code: &Code,
    bytes: &[u8],
    options: Options,
    out: &mut S,
) -> Status
    requires code { whole_scheme spec.now ≡ Some code.now }
    ensures { EndsOrLacks result (S.log out.old) (S.log out.new) (data_answer options (program_of spec.now code.now) bytes.now) }
{
    match read_data(alloc, code.schema(), bytes) {
        Ok(inst) => solve_instance(alloc, spec, code, &inst, options, out),
        Err(fault) => say_data_fault(out, b"refused data ", &fault),
    }
}

// Puts the answer of a program on an instance: it runs the code.
fn solve_instance<S: Sink>(
    alloc: Global,
    spec: &Spec,
    code: &Code,
    inst: &Instance,
    options: Options,
    out: &mut S,
) -> Status
    requires code { whole_scheme spec.now ≡ Some code.now }
    requires valid { is_valid code.now.schema inst.now ≡ true }
    ensures { EndsOrLacks result (S.log out.old) (S.log out.new) (answer options (program_of spec.now code.now) inst.now) }
{
    whole_code_searches();
    progress_law();
    run_code(alloc, code, inst, options, out)
}
