ghost use Rattle.std.specs.Prelude.{◌≡◌, ◌<◌, true, length, IfSome};
ghost use Rattle.kts_spec.specs.Data.{is_valid};
ghost use Rattle.kts_top.specs.Commands.{audit};
ghost use Rattle.kts_top.specs.Courses.{Course};
ghost use Rattle.kts_top.specs.Endings.{Ends, EndsOrLacks};
ghost use Rattle.kts_top.specs.Owed.{data_judged, end, judgement, load, plan_judged, spec_judged, wanted};

use crate::content::read_content;
use crate::lines::status_of;
use crate::loads::read_file;
use crate::refusals::{say_data_fault, say_fault};
use kts_base::{Files, Sink, Status, put_pieces};
use kts_data::{read_data, read_plan};
use kts_mean::first_broken;
use kts_spec::{Instance, Spec};
use std::alloc::Global;

/// Answers `audit SPEC DATA PLAN`.
pub fn answer_audit<F: Files, S: Sink>(
    alloc: Global,
    spec: &str,
    data: &str,
    plan: &str,
    files: &mut F,
    out: &mut S,
) -> Status
    ensures { Course result (S.log out.old) (S.log out.new) (F.store files.new) 1 (F.store files.old) (wanted (audit spec.now «data».now plan.now)) }
{
    match read_file(alloc, 1, spec, files, out) {
        Ok(bytes) => audit_spec(alloc, bytes, data, plan, files, out),
        Err(status) => status,
    }
}

// Goes on from the bytes of a specification. They are let go of before data are loaded, with the forms that were read of them.
fn audit_spec<F: Files, S: Sink>(
    alloc: Global,
    bytes: Vec<u8>,
    data: &str,
    plan: &str,
    files: &mut F,
    out: &mut S,
) -> Status
    ensures { Course result (S.log out.old) (S.log out.new) (F.store files.new) 2 (F.store files.old) (spec_judged «data».now plan.now bytes.items) }
{
    let content = read_content(alloc, &bytes);
    drop(bytes);
    match content {
        Ok((forms, spec)) => {
            drop(forms);
            load_data(alloc, &spec, data, plan, files, out)
        }
        Err(fault) => say_fault(out, &fault),
    }
}

// Loads data for a specification, and goes on from their bytes.
fn load_data<F: Files, S: Sink>(
    alloc: Global,
    spec: &Spec,
    data: &str,
    plan: &str,
    files: &mut F,
    out: &mut S,
) -> Status
    ensures { Course result (S.log out.old) (S.log out.new) (F.store files.new) 2 (F.store files.old) (load «data».now (data_judged spec.now plan.now)) }
{
    match read_file(alloc, 2, data, files, out) {
        Ok(bytes) => audit_data(alloc, spec, bytes, plan, files, out),
        Err(status) => status,
    }
}

// Goes on from the bytes of data, which are let go of before the plan is loaded.
fn audit_data<F: Files, S: Sink>(
    alloc: Global,
    spec: &Spec,
    bytes: Vec<u8>,
    plan: &str,
    files: &mut F,
    out: &mut S,
) -> Status
    ensures { Course result (S.log out.old) (S.log out.new) (F.store files.new) 3 (F.store files.old) (data_judged spec.now plan.now bytes.items) }
{
    let inst = read_data(alloc, spec.schema(), &bytes);
    drop(bytes);
    match inst {
        Ok(inst) => load_plan(alloc, spec, &inst, plan, files, out),
        Err(fault) => say_data_fault(out, b"refused data ", &fault),
    }
}

// Loads a plan for an instance, and judges it.
fn load_plan<F: Files, S: Sink>(
    alloc: Global,
    spec: &Spec,
    inst: &Instance,
    plan: &str,
    files: &mut F,
    out: &mut S,
) -> Status
    requires { is_valid spec.now.schema inst.now ≡ true }
    ensures { Course result (S.log out.old) (S.log out.new) (F.store files.new) 3 (F.store files.old) (load plan.now (λ bytes. end (plan_judged spec.now inst.now bytes))) }
{
    match read_file(alloc, 3, plan, files, out) {
        Ok(bytes) => audit_plan(alloc, spec, inst, &bytes, out),
        Err(status) => status,
    }
}

// Puts the judgement on the plan of these bytes, or the line of its fault.
fn audit_plan<S: Sink>(
    alloc: Global,
    spec: &Spec,
    inst: &Instance,
    bytes: &[u8],
    out: &mut S,
) -> Status
    requires { is_valid spec.now.schema inst.now ≡ true }
    ensures { EndsOrLacks result (S.log out.old) (S.log out.new) (plan_judged spec.now inst.now bytes.now) }
{
    match read_plan(alloc, spec.schema(), inst, bytes) {
        Ok(plan) => put_judgement(out, spec, first_broken(spec, inst, plan.as_slice())),
        Err(fault) => say_data_fault(out, b"refused plan ", &fault),
    }
}

// Puts whether all formulas are kept, or the name of the first that is broken.
fn put_judgement<S: Sink>(out: &mut S, spec: &Spec, broken: Option<usize>) -> Status
    requires { IfSome broken (λ k. k < length spec.now.formulas) }
    ensures { Ends result (S.log out.old) (S.log out.new) (judgement spec.now broken) }
{
    match broken {
        None => status_of(out.put(b"kept\n"), Status::Done),
        Some(k) => {
            let (name, _) = &spec.formulas().as_slice()[k];
            status_of(
                put_pieces(out, &[b"broken ", name.bytes(), b"\n"]),
                Status::Done,
            )
        }
    }
}
