ghost use Rattle.std.specs.Prelude.{◌≡◌, ◌≤◌, ◌+◌, ◌-◌, ◌^◌, ◌++◌, [], ◌∷◌, ℕ, length, min, IfOk, OnOk, OnErr, IfErr};
ghost use Rattle.kts_base.specs.Limits.{most_instructions};
ghost use Rattle.kts_emit.specs.Buffers.{IsRefused};

use crate::appends::append;
use kts_base::{List, MAX_INSTRUCTIONS, NoMemory};
use kts_code::Instr;
use std::alloc::Global;

/// Why instructions were not appended.
#[derive(Clone, Copy, Debug, PartialEq, Eq)]
pub enum EmitFault {
    /// There would be so many, which are too many for code.
    Full(u64),
    /// Memory was refused.
    NoMemory,
}

impl From<NoMemory> for EmitFault {
    ghost use Rattle.std.specs.Prelude.{◌≡◌};
    ghost use Rattle.kts_emit.specs.declared.buffer.EmitFault.TheVariants.{NoMemory as NoMemoryFault};

    ghost from_gives = { λ _ fault. fault ≡ NoMemoryFault };

    fn from(_refused: NoMemory) -> EmitFault {
        EmitFault::NoMemory
    }
}

/// Instructions, at most as many as code may have. It grows by its own allocator.
#[derive(Drop)]
pub struct Buffer {
    alloc: Global,
    instrs: List<Instr>,
    ghost few: { length instrs ≤ most_instructions },
}

impl Buffer {
    /// An empty buffer, with memory for so many instructions.
    pub fn new(alloc: Global, room: usize) -> Result<Buffer, NoMemory>
        requires { room ≤ MAX_INSTRUCTIONS }
        ensures { IfOk result (λ buffer. buffer.instrs ≡ []) }
    {
        let instrs = List::with_capacity(alloc, room)?;
        Ok(Buffer { alloc, instrs })
    }

    /// What the buffer grows by.
    pub(crate) fn alloc(&self) -> Global {
        self.alloc
    }

    pub fn instrs(&self) -> &[Instr]
        ensures { result.now ≡ self.now.instrs }
    {
        self.instrs.as_slice()
    }

    /// What was appended.
    pub fn into_instrs(self) -> List<Instr>
        ensures { result ≡ self.instrs }
    {
        self.instrs
    }

    /// Appends an instruction. After a refusal the buffer is as before.
    pub fn push(&mut self, instr: Instr) -> Result<(), EmitFault>
        ensures instrs { OnOk result (self.new.instrs ≡ self.old.instrs ++ instr ∷ []) }
        ensures kept { OnErr result (self.new.instrs ≡ self.old.instrs) }
        ensures fault { IfErr result (IsRefused (length self.old.instrs) 1) }
    {
        let count = self.instrs.len();
        if count == MAX_INSTRUCTIONS {
            return Err(EmitFault::Full(count as u64 + 1));
        }
        self.instrs.push(instr)?;
        Ok(())
    }

    /// The place at which so many instructions more will stand, where there may be as many; a count at its type's end stands for
    /// each that is as great.
    pub(crate) fn base_for(&self, count: u64) -> Result<u32, EmitFault>
        ensures base { IfOk result (λ base. base ≡ length self.now.instrs) }
        ensures fits { OnOk result (length self.now.instrs + count ≤ most_instructions) }
        ensures fault { IfErr result (λ fault. (more : ℕ) → count ≡ min more (2 ^ 64 - 1) → IsRefused (length self.now.instrs) more fault) }
    {
        let used = self.instrs.len();
        let total = (used as u64).saturating_add(count);
        if total > MAX_INSTRUCTIONS as u64 {
            return Err(EmitFault::Full(total));
        }
        Ok(used as u32)
    }

    /// Appends instructions for which there is room. After a refusal the buffer is as before.
    pub(crate) fn append(&mut self, instrs: &[Instr]) -> Result<(), EmitFault>
        requires { length self.old.instrs + length instrs.now ≤ most_instructions }
        ensures instrs { OnOk result (self.new.instrs ≡ self.old.instrs ++ instrs.now) }
        ensures kept { OnErr result (self.new.instrs ≡ self.old.instrs) }
        ensures fault { IfErr result (λ fault. fault ≡ EmitFault.NoMemory) }
    {
        append(&mut self.instrs, instrs)?;
        Ok(())
    }
}
