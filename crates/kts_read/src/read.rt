ghost use Rattle.std.specs.Prelude.{◌≡◌, ◌⊎◌, IfOk, IfErr, MatchResult};
ghost use Rattle.kts_base.specs.Reads.{Gives};
ghost use Rattle.kts_code.specs.CodeTexts.{code_text};
ghost use Rattle.kts_read.specs.Faults.{IsRefused};
ghost use Rattle.kts_read.specs.FirstFault.{IsFirstFault};
ghost use Rattle.kts_read.specs.Reading.{code_read, draft_of};
ghost use Rattle.kts_code.specs.declared.code.Code.{Code as CodeOf};

use crate::draft::Draft;
use crate::fault::CodeFault;
use crate::lines::split_once;
use kts_code::Code;
use std::alloc::Global;

/// What the bytes say, line by line.
fn code_read(alloc: Global, bytes: &[u8]) -> Result<Code, CodeFault>
    ensures { Gives IsRefused draft_of result (code_read bytes.now) }
{
    let mut draft = Draft::new(alloc);
    let mut rest = bytes;
    let mut at = 1;
    'lines: loop {
        let (line, more) = split_once(rest, b'\n');
        match more {
            None => {
                return match draft.finish(alloc, line) {
                    Ok(code) => Ok(code),
                    Err(kind) => Err(CodeFault::told(at, kind)),
                };
            }
            Some(after) => {
                if let Err(fault) = draft.take_line(alloc, at, line) {
                    return Err(fault);
                }
                rest = after;
                at += 1;
            }
        }
    }
}

/// The code that the bytes are the text of, or the first line at fault with its kind, in a time that grows with the bytes.
pub fn read_code(alloc: Global, bytes: &[u8]) -> Result<Code, CodeFault>
    // The bytes are the text of what is read; and where they are the text of some code, that code is read.
    ensures found { IfOk result (λ code. bytes.now ≡ code_text code) }
    ensures only { (code : CodeOf) → bytes.now ≡ code_text code → MatchResult result (λ read. read ≡ code) IsRefused }
    ensures first { IfErr result (λ fault. IsRefused fault ⊎ IsFirstFault bytes.now fault) }
{
    code_read(alloc, bytes)
}
