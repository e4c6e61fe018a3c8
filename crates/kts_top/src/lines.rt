ghost use Rattle.std.specs.Prelude.{◌≡◌, ◌++◌, decimal, MatchResult};
ghost use Rattle.kts_base.specs.Writes.{Wrote};
ghost use Rattle.kts_spec.specs.Texts.{newline};
ghost use Rattle.kts_top.specs.Endings.{Ends};
ghost use Rattle.kts_top.specs.Samples.{sample_line};
ghost use Rattle.kts_top.specs.Lines.{usage, fault_read, refused_file, refused_length, no_memory};
ghost use Rattle.kts_top.specs.Traps.{trap_name, trap_line};

use itoa::Buffer;
use kts_base::{Sink, SinkFault, Status, put_pieces};
use kts_code::TrapKind;

const USAGE: &[u8] =
    b"usage: kts check SPEC | classify SPEC | generate SPEC | run CODE DATA [OPTIONS] | solve SPEC [DATA] [OPTIONS] | audit SPEC DATA PLAN | sample N\n";

// Ends with the status, where its line was written.
pub fn status_of(written: Result<(), SinkFault>, status: Status) -> Status
    ensures { MatchResult written (λ _. result ≡ status) (λ _. result ≡ Status.WriteFault) }
{
    match written {
        Ok(()) => status,
        Err(_) => Status::WriteFault,
    }
}

// Puts a word, a number and the end of the line.
pub fn put_numbered<S: Sink>(out: &mut S, word: &[u8], number: u64) -> Result<(), SinkFault>
    ensures { Wrote result (S.log out.old) (S.log out.new) (word.now ++ (decimal number ++ newline)) }
{
    let mut buffer = Buffer::new();
    put_pieces(out, &[word, buffer.format(number).as_bytes(), b"\n"])
}

/// Puts the line that sums up the run of the sample problem of a size: how many bytes it prints.
pub fn put_sample<S: Sink>(out: &mut S, size: u64, count: u64) -> Result<(), SinkFault>
    ensures { Wrote result (S.log out.old) (S.log out.new) (sample_line size count) }
{
    let mut first = Buffer::new();
    let mut second = Buffer::new();
    put_pieces(
        out,
        &[
            b"sample ",
            first.format(size).as_bytes(),
            b" bytes ",
            second.format(count).as_bytes(),
            b"\n",
        ],
    )
}

pub fn say_usage<S: Sink>(out: &mut S) -> Status
    ensures { Ends result (S.log out.old) (S.log out.new) usage }
{
    status_of(out.put(USAGE), Status::Usage)
}

pub fn say_fault_read<S: Sink>(out: &mut S, number: u64) -> Status
    ensures { Ends result (S.log out.old) (S.log out.new) (fault_read number) }
{
    status_of(put_numbered(out, b"fault read ", number), Status::ReadFault)
}

pub fn say_refused_file<S: Sink>(out: &mut S, number: u64) -> Status
    ensures { Ends result (S.log out.old) (S.log out.new) (refused_file number) }
{
    status_of(put_numbered(out, b"refused file ", number), Status::Refused)
}

pub fn say_refused_length<S: Sink>(out: &mut S, length: u64) -> Status
    ensures { Ends result (S.log out.old) (S.log out.new) (refused_length length) }
{
    status_of(
        put_numbered(out, b"refused length ", length),
        Status::Refused,
    )
}

pub fn say_no_memory<S: Sink>(out: &mut S) -> Status
    ensures { Ends result (S.log out.old) (S.log out.new) no_memory }
{
    status_of(out.put(b"no memory\n"), Status::NoMemory)
}

/// Puts the line of a trap at a place.
pub fn put_trap<S: Sink>(out: &mut S, kind: TrapKind, at: u32) -> Result<(), SinkFault>
    ensures { Wrote result (S.log out.old) (S.log out.new) (trap_line kind at) }
{
    let mut buffer = Buffer::new();
    put_pieces(
        out,
        &[
            b"trap ",
            name_of(kind),
            b" at ",
            buffer.format(at).as_bytes(),
            b"\n",
        ],
    )
}

// The name of a kind of trap.
fn name_of(kind: TrapKind) -> &'static [u8]
    ensures { result.now ≡ trap_name kind }
{
    match kind {
        TrapKind::PcOut => b"PcOut",
        TrapKind::NoSpace => b"NoSpace",
        TrapKind::Register => b"Register",
        TrapKind::Underflow => b"Underflow",
        TrapKind::Kind => b"Kind",
        TrapKind::Overflow => b"Overflow",
        TrapKind::StackFull => b"StackFull",
    }
}
