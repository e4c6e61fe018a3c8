ghost use Rattle.std.specs.Prelude.{◌≡◌, ◌++◌, codes, decimal};
ghost use Rattle.kts_base.specs.Writes.{Wrote};
ghost use Rattle.kts_data.specs.Faults.{IsNoMemory as DataLack, fault_text};
ghost use Rattle.kts_read.specs.Faults.{IsNoMemory as CodeLack, kind_text};
ghost use Rattle.kts_spec.specs.Texts.{newline};
ghost use Rattle.kts_top.specs.Contents.{IsNoMemory};
ghost use Rattle.kts_top.specs.Endings.{EndsUnless};
ghost use Rattle.kts_top.specs.Refusals.{refusal, refused_at, refused_code, refused_value};

use crate::content_fault::ContentFault;
use crate::lines::{say_no_memory, status_of};
use itoa::Buffer;
use kts_base::{Fault, FaultKind, NoMemory, Sink, SinkFault, Status, put_pieces};
use kts_data::DataFault;
use kts_read::CodeFault;

/// Puts the line of a fault, or that of refused memory. Takes no memory.
pub fn say_fault<S: Sink>(out: &mut S, fault: &ContentFault) -> Status
    ensures { EndsUnless result (S.log out.old) (S.log out.new) (IsNoMemory fault.now) (refusal fault.now) }
{
    match fault {
        ContentFault::Trees(fault) => say_refused(out, b"refused trees ", fault),
        ContentFault::Form(fault) => say_refused(out, b"refused form ", fault),
        ContentFault::Spec(fault) => say_refused(out, b"refused spec ", fault),
    }
}

// Puts the line of a fault of any kind: of what, the text of the kind, and the place.
fn say_refused<S: Sink, K: FaultKind>(out: &mut S, what: &[u8], fault: &Fault<K>) -> Status
    ensures { EndsUnless result (S.log out.old) (S.log out.new) (fault.now.kind ≡ K.no_memory) (refused_at what.now (K.text fault.now.kind) fault.now.at) }
{
    let kind = fault.kind();
    if kind.is_no_memory() {
        return say_no_memory(out);
    }
    status_of(put_refused(out, what, &kind, fault.at()), Status::Refused)
}

fn put_refused<S: Sink, K: FaultKind>(
    out: &mut S,
    what: &[u8],
    kind: &K,
    at: usize,
) -> Result<(), SinkFault>
    ensures { Wrote result (S.log out.old) (S.log out.new) (what.now ++ (K.text kind.now ++ (codes " at " ++ (decimal at ++ newline)))) }
{
    out.put(what)?;
    kind.put(out)?;
    let mut buffer = Buffer::new();
    put_pieces(out, &[b" at ", buffer.format(at).as_bytes(), b"\n"])
}

/// Puts the line of the first line of code that is at fault, or that of refused memory. Takes no memory.
pub fn say_code_fault<S: Sink>(out: &mut S, fault: &CodeFault) -> Status
    ensures { EndsUnless result (S.log out.old) (S.log out.new) (CodeLack fault.now.kind) (refused_code fault.now) }
{
    if fault.kind().is_no_memory() {
        return say_no_memory(out);
    }
    status_of(put_code_fault(out, fault), Status::Refused)
}

fn put_code_fault<S: Sink>(out: &mut S, fault: &CodeFault) -> Result<(), SinkFault>
    ensures { Wrote result (S.log out.old) (S.log out.new) (codes "refused code " ++ (kind_text fault.now.kind ++ (codes " at line " ++ (decimal fault.now.line ++ newline)))) }
{
    out.put(b"refused code ")?;
    fault.kind().put(out)?;
    let mut buffer = Buffer::new();
    put_pieces(
        out,
        &[b" at line ", buffer.format(fault.line()).as_bytes(), b"\n"],
    )
}

/// Puts the line of a fault in data or in a plan, or that of refused memory. Takes no memory.
pub fn say_data_fault<S: Sink>(out: &mut S, what: &[u8], fault: &DataFault) -> Status
    ensures { EndsUnless result (S.log out.old) (S.log out.new) (DataLack fault.now) (refused_value what.now fault.now) }
{
    if *fault == DataFault::from(NoMemory) {
        return say_no_memory(out);
    }
    status_of(put_data_fault(out, what, fault), Status::Refused)
}

// Puts of what the fault is, its text, and the end of the line.
fn put_data_fault<S: Sink>(out: &mut S, what: &[u8], fault: &DataFault) -> Result<(), SinkFault>
    ensures { Wrote result (S.log out.old) (S.log out.new) (what.now ++ (fault_text fault.now ++ newline)) }
{
    out.put(what)?;
    fault.put(out)?;
    out.put(b"\n")
}
