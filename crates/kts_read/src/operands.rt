ghost use Rattle.std.specs.Prelude.{◌≡◌, ◌≤◌, find, take, length, Ok, Err, MatchResult};
ghost use Rattle.kts_code.specs.CodeTexts.{word_of};
ghost use Rattle.kts_read.specs.Lines.{words_in};
ghost use Rattle.kts_read.specs.Words.{is_text};
ghost use Rattle.kts_read.specs.InstructionLines.{operation_of, count_of, is_number, is_label, fits, misfit, operand, operands, instr_line};

use crate::fault::CodeKind;
use crate::lines::{count_words, word};
use crate::names::is_text;
use crate::numbers::number_of;
use kts_base::{MAX_NUMBER, MAX_VARIABLES};
use kts_code::Instr;
use kts_write::{OperandKind, kinds_of, samples, with_values, word_of};

/// How many there are of what operands name.
#[derive(Clone, Copy, Debug, PartialEq, Eq)]
pub struct Counts {
    pub(crate) labels: usize,
    pub(crate) indexes: usize,
    pub(crate) givens: usize,
    pub(crate) choices: usize,
}

fn operation_in(instrs: &[Instr], word: &[u8]) -> Option<Instr>
    ensures { result ≡ find (λ instr. is_text (word_of instr) word.now) instrs.now }
{
    for instr in instrs {
        if is_text(word_of(instr), word) {
            return Some(*instr);
        }
    }
    None
}

/// The instruction of this word, with operands 0.
#[tactic(auto, unfolding(crate::specs::InstructionLines::operation_of))]
fn operation_of(word: &[u8]) -> Option<Instr>
    ensures { result ≡ operation_of word.now }
{
    operation_in(samples(), word)
}

fn count_of(counts: &Counts, kind: OperandKind) -> usize
    ensures { result ≡ count_of counts.now kind }
{
    match kind {
        OperandKind::Label => counts.labels,
        OperandKind::Given => counts.givens,
        OperandKind::Choice => counts.choices,
        OperandKind::Number => 0,
        OperandKind::Register => MAX_VARIABLES,
        OperandKind::Index => counts.indexes,
    }
}

fn is_number(kind: OperandKind) -> bool
    ensures { result ≡ is_number kind }
{
    matches!(kind, OperandKind::Number)
}

fn is_label(kind: OperandKind) -> bool
    ensures { result ≡ is_label kind }
{
    matches!(kind, OperandKind::Label)
}

#[tactic(auto, unfolding(crate::specs::InstructionLines::fits))]
fn fits(counts: &Counts, kind: OperandKind, z: i64) -> bool
    ensures { result ≡ fits counts.now kind z }
{
    if is_number(kind) {
        return -MAX_NUMBER <= z && z <= MAX_NUMBER;
    }
    0 <= z && i128::from(z) < count_of(counts, kind) as i128
}

fn misfit(kind: OperandKind, z: i64) -> CodeKind
    ensures { result ≡ misfit kind z }
{
    if is_label(kind) && 0 <= z {
        CodeKind::BadLabel
    } else {
        CodeKind::BadNumber
    }
}

/// The operand that a word is.
#[tactic(auto, unfolding(crate::specs::InstructionLines::operand))]
fn operand(counts: &Counts, kind: OperandKind, word: &[u8]) -> Result<i64, CodeKind>
    ensures { result ≡ operand counts.now kind word.now }
{
    match number_of(word) {
        None => Err(CodeKind::BadNumber),
        Some(z) => {
            if fits(counts, kind, z) {
                return Ok(z);
            }
            Err(misfit(kind, z))
        }
    }
}

/// The operands after the first word of a line, and zeros after them.
#[tactic(auto, unfolding(crate::specs::InstructionLines::operands))]
fn operands(counts: &Counts, kinds: &[OperandKind], line: &[u8]) -> Result<[i64; 3], CodeKind>
    requires { length kinds.now ≤ 3 }
    ensures { MatchResult result (λ values. operands counts.now kinds.now (words_in line.now) ≡ Ok (take (length kinds.now) values)) (λ kind. operands counts.now kinds.now (words_in line.now) ≡ Err kind) }
{
    let mut values = [0; 3];
    for k in 0..kinds.len() {
        match operand(counts, kinds[k], word(line, k + 1)) {
            Ok(value) => values[k] = value,
            Err(kind) => return Err(kind),
        }
    }
    Ok(values)
}

/// The instruction of a line.
#[tactic(auto, using(crate::proofs::InstrLaws::with_front_values), unfolding(crate::specs::InstructionLines::instr_line))]
pub fn instr_line(counts: &Counts, line: &[u8]) -> Result<Instr, CodeKind>
    ensures { result ≡ instr_line counts.now (words_in line.now) }
{
    let first = word(line, 0);
    if is_text(first, b"end") {
        return Err(CodeKind::BadLine);
    }
    match operation_of(first) {
        None => Err(CodeKind::BadWord),
        Some(instr) => {
            let kinds = kinds_of(&instr);
            if count_words(line) != kinds.len() + 1 {
                return Err(CodeKind::WrongCount);
            }
            match operands(counts, kinds, line) {
                Err(kind) => Err(kind),
                Ok(values) => Ok(with_values(&instr, values)),
            }
        }
    }
}
