ghost use Rattle.std.specs.Prelude.{◌≡◌, ◌<◌, ◌≤◌, ◌^◌, length, Ok, All};
ghost use Rattle.kts_base.specs.Reads.{Gives};
ghost use Rattle.kts_read.specs.Faults.{IsNoMemory};
ghost use Rattle.kts_read.specs.Lines.{words_in};
ghost use Rattle.kts_read.specs.Reading.{stack_in, size_in, placed_count};

use crate::fault::CodeKind;
use crate::lines::{count_words, word};
use crate::names::is_text;
use crate::numbers::{number_of, whole_in};
use kts_base::{List, MAX_INSTRUCTIONS, MAX_STACK};
use std::alloc::Global;

/// The places of the operand stack.
#[tactic(auto, unfolding(crate::specs::Reading::stack_in))]
pub fn stack_in(line: &[u8]) -> Result<u32, CodeKind>
    ensures { result ≡ stack_in (words_in line.now) }
{
    if count_words(line) != 2 {
        return Err(CodeKind::WrongCount);
    }
    match whole_in(1, MAX_STACK + 1, word(line, 1)) {
        None => Err(CodeKind::BadNumber),
        Some(stack) => Ok(stack),
    }
}

/// The number of instructions.
#[tactic(auto, unfolding(crate::specs::Reading::size_in))]
pub fn size_in(line: &[u8]) -> Result<usize, CodeKind>
    ensures { result ≡ size_in (words_in line.now) }
{
    if !is_text(word(line, 0), b"code") {
        return Err(CodeKind::BadLine);
    }
    if count_words(line) != 2 {
        return Err(CodeKind::WrongCount);
    }
    match number_of(word(line, 1)) {
        None => Err(CodeKind::BadNumber),
        Some(size) => {
            if size < 1 {
                return Err(CodeKind::BadNumber);
            }
            if size > MAX_INSTRUCTIONS as i64 {
                return Err(CodeKind::TooLong);
            }
            Ok(size as usize)
        }
    }
}

/// How many bodies from the first on begin within code of this size.
#[tactic(auto, unfolding(crate::specs::Reading::placed_count))]
pub fn placed_count(size: usize, entries: &[u64]) -> usize
    ensures count { result ≡ placed_count size entries.now }
    ensures few { result ≤ length entries.now }
{
    for k in 0..entries.len() {
        if entries[k] >= size as u64 {
            return k;
        }
    }
    entries.len()
}

/// The places of bodies, none of which is beyond the largest code.
pub fn entries_of(alloc: Global, entries: &[u64]) -> Result<List<u32>, CodeKind>
    requires { All (λ entry. entry < 2 ^ 32) entries.now }
    ensures { Gives IsNoMemory (λ list. list) result (Ok entries.now) }
{
    let mut list = List::new(alloc);
    for entry in entries {
        if let Err(_) = list.push(*entry as u32) {
            return Err(CodeKind::NoMemory);
        }
    }
    Ok(list)
}
