ghost use Rattle.std.specs.Prelude.{◌≡◌, IfOk, IfErr};
ghost use Rattle.kts_top.specs.Courses.{IsRead, Unread};

use crate::lines::{say_fault_read, say_no_memory, say_refused_file};
use kts_base::{Files, LoadFault, MAX_FILE_BYTES, Sink, Status};
use std::alloc::Global;

/// The bytes of the file of this number; where they can't be had, the line that says so is put, and its status given.
pub fn read_file<F: Files, S: Sink>(
    alloc: Global,
    number: u64,
    path: &str,
    files: &mut F,
    out: &mut S,
) -> Result<Vec<u8>, Status>
    ensures read { IfOk result (λ bytes. IsRead (F.store files.old) (F.store files.new) path.now bytes.items) }
    ensures quiet { IfOk result (λ _. S.log out.new ≡ S.log out.old) }
    ensures unread { IfErr result (λ status. Unread status (S.log out.old) (S.log out.new) (F.store files.new) number (F.store files.old) path.now) }
{
    match files.load(alloc, path, MAX_FILE_BYTES) {
        Ok(bytes) => Ok(bytes),
        Err(LoadFault::Failed) => Err(say_fault_read(out, number)),
        Err(LoadFault::TooLong) => Err(say_refused_file(out, number)),
        Err(LoadFault::NoMemory) => Err(say_no_memory(out)),
    }
}
