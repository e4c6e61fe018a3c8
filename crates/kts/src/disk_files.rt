ghost use Rattle.std.specs.Prelude.{◌≡◌, ◌≤◌, ◌<◌, length, None, IfOk, IfSome, IsErrOf};
ghost use Rattle.std.specs.Io.KnownBytes.{Consumes};

use kts_base::{Files, LoadFault};
use std::alloc::Global;
use std::io::Read;
use std::{fs, rt};

/// How many bytes a file is read by.
const CHUNK_BYTES: usize = 16_384;

/// The files of the disk. It tells nothing of what they hold.
#[derive(Drop)]
pub struct DiskFiles<'a, R: rt::Files> {
    rt: &'a R,
    faults: u64,
    taken: u64,
}

impl<'a, R: rt::Files> DiskFiles<'a, R> {
    pub fn new(rt: &'a R) -> DiskFiles<'a, R>
        ensures faults { result.faults ≡ 0 }
        ensures taken { result.taken ≡ 0 }
    {
        DiskFiles {
            rt,
            faults: 0,
            taken: 0,
        }
    }

    /// How many bytes the latest load took.
    #[cfg(test)]
    pub fn taken(&self) -> u64 {
        self.taken
    }
}

impl<'a, R: rt::Files> Files for DiskFiles<'a, R> {
    ghost store = { λ files. record { held = λ _. None; faults = files.faults; taken = files.taken; loads = None } };

    fn load(&mut self, alloc: Global, path: &str, limit: usize) -> Result<Vec<u8>, LoadFault> {
        self.taken = 0;
        let read = match fs::open(self.rt, path) {
            Ok(mut file) => read_within(alloc, &mut file, limit, &mut self.taken),
            Err(_) => Err(LoadFault::Failed),
        };
        if matches!(&read, Err(LoadFault::Failed)) {
            self.faults = self.faults.saturating_add(1);
        }
        read
    }
}

// All that is left to read, where that is within the limit. A read that gives nothing is the end.
fn read_within<R: Read>(
    alloc: Global,
    reader: &mut R,
    limit: usize,
    taken: &mut u64,
) -> Result<Vec<u8>, LoadFault>
    requires { taken.old ≡ 0 }
    ensures within { IfOk result (λ v. length v.items ≤ limit) }
    ensures bytes { IfOk result (λ v. IfSome (R.remaining reader.old) (λ left. v.items ≡ left)) }
    ensures count { IfOk result (λ v. taken.new ≡ length v.items) }
    ensures long { IsErrOf result LoadFault.TooLong → limit < taken.new }
    ensures told_long { IsErrOf result LoadFault.TooLong → IfSome (R.remaining reader.old) (λ left. limit < length left) }
{
    let mut bytes = Vec::new(alloc);
    let mut chunk = [0u8; CHUNK_BYTES];
    while bytes.len() <= limit {
        match reader.read(&mut chunk) {
            Err(_) => return Err(LoadFault::Failed),
            Ok(0) => return Ok(bytes),
            Ok(count) => {
                *taken = taken.saturating_add(count as u64);
                if bytes.extend_from_slice(&chunk[..count]).is_err() {
                    return Err(LoadFault::NoMemory);
                }
            }
        }
    }
    Err(LoadFault::TooLong)
}
