ghost use Rattle.std.specs.Prelude.{◌≡◌, ◌⊎◌, ◌<◌, length, [], slice_index_or, Ok, Err, OnOk, IfErr};
ghost use Rattle.kts_base.specs.Reads.{Gives};
ghost use Rattle.kts_read.specs.Faults.{IsNoMemory};
ghost use Rattle.kts_read.specs.Lines.{words_in};
ghost use Rattle.kts_read.specs.ConstraintLines.{no_constraints, entry_in, with_task, task_line, place_in, places_in, with_pattern, constraint_of, pattern_of, wake_line};

use crate::declarations::{Declared, args_from, family_at};
use crate::fault::CodeKind;
use crate::lines::{count_words, word};
use crate::names::is_text;
use crate::numbers::{number_below, number_of, whole_in};
use kts_base::{List, MAX_INSTRUCTIONS, MAX_PREFIX};
use kts_index::Pattern;
use std::alloc::Global;

/// The constraints, each with the place of its body and the indexes of its variables, and the patterns.
#[derive(Debug, Drop)]
pub struct Constraints {
    pub(crate) entries: List<u64>,
    pub(crate) prefixes: List<List<u32>>,
    pub(crate) patterns: List<Pattern>,
}

/// The place of a body.
#[tactic(auto, unfolding(crate::specs::ConstraintLines::entry_in))]
fn entry_in(word: &[u8]) -> Result<u64, CodeKind>
    ensures { result ≡ entry_in word.now }
{
    match number_of(word) {
        None => Err(CodeKind::BadNumber),
        Some(z) => {
            if 0 <= z {
                return Ok(z as u64);
            }
            Err(CodeKind::BadNumber)
        }
    }
}

/// The place of a variable of this index in a prefix, or any member.
#[tactic(auto, unfolding(crate::specs::ConstraintLines::place_in))]
fn place_in(prefix: &[u32], index: u32, word: &[u8]) -> Result<Option<u8>, CodeKind>
    ensures { result ≡ place_in prefix.now index word.now }
{
    if is_text(word, b"*") {
        return Ok(None);
    }
    let end = prefix.len().min(MAX_PREFIX);
    match whole_in(0, end as u32, word) {
        None => Err(CodeKind::BadNumber),
        Some(k) => {
            if prefix[k as usize] == index {
                return Ok(Some(k as u8));
            }
            Err(CodeKind::BadNumber)
        }
    }
}

/// The places for arguments of these indexes.
#[tactic(auto, unfolding(crate::specs::ConstraintLines::places_in))]
fn places_in(
    alloc: Global,
    prefix: &[u32],
    args: &[u32],
    line: &[u8],
) -> Result<List<Option<u8>>, CodeKind>
    ensures { Gives IsNoMemory (λ places. places) result (places_in prefix.now args.now (words_in line.now)) }
{
    let mut places = List::new(alloc);
    for k in 0..args.len() {
        match place_in(prefix, args[k], word(line, k + 3)) {
            Err(kind) => return Err(kind),
            Ok(place) => {
                if let Err(_) = places.push(place) {
                    return Err(CodeKind::NoMemory);
                }
            }
        }
    }
    Ok(places)
}

/// The prefix of a constraint.
fn prefix_at(prefixes: &[List<u32>], number: u32) -> &[u32]
    requires { number < length prefixes.now }
    ensures { result.now ≡ slice_index_or prefixes.now number [] }
{
    prefixes[number as usize].as_slice()
}

impl Constraints {
    /// None.
    pub fn new(alloc: Global) -> Constraints
        ensures { result ≡ no_constraints }
    {
        Constraints {
            entries: List::new(alloc),
            prefixes: List::new(alloc),
            patterns: List::new(alloc),
        }
    }

    /// Takes a constraint more.
    #[tactic(auto, unfolding(crate::specs::ConstraintLines::with_task))]
    fn take_task(&mut self, entry: u64, prefix: List<u32>) -> Result<(), CodeKind>
        ensures ok { OnOk result (with_task self.old entry prefix ≡ Ok self.new) }
        ensures err { IfErr result (λ kind. IsNoMemory kind ⊎ (with_task self.old entry prefix ≡ Err kind)) }
    {
        if self.entries.len() >= MAX_INSTRUCTIONS {
            return Err(CodeKind::TooLong);
        }
        if let Err(_) = self.entries.push(entry) {
            return Err(CodeKind::NoMemory);
        }
        match self.prefixes.push(prefix) {
            Ok(()) => Ok(()),
            Err(_) => Err(CodeKind::NoMemory),
        }
    }

    /// Takes the constraint of a line, where there are so many indexes.
    #[tactic(auto, unfolding(crate::specs::ConstraintLines::task_line))]
    pub fn task_line(&mut self, alloc: Global, indexes: usize, line: &[u8]) -> Result<(), CodeKind>
        ensures ok { OnOk result (task_line indexes self.old (words_in line.now) ≡ Ok self.new) }
        ensures err { IfErr result (λ kind. IsNoMemory kind ⊎ (task_line indexes self.old (words_in line.now) ≡ Err kind)) }
    {
        let count = count_words(line);
        if count < 2 || count > 5 {
            return Err(CodeKind::WrongCount);
        }
        match entry_in(word(line, 1)) {
            Err(kind) => Err(kind),
            Ok(entry) => match args_from(alloc, indexes, 2, line) {
                Err(kind) => Err(kind),
                Ok(prefix) => self.take_task(entry, prefix),
            },
        }
    }

    /// Takes a pattern more.
    #[tactic(auto, unfolding(crate::specs::ConstraintLines::with_pattern))]
    fn take_pattern(&mut self, pattern: Pattern) -> Result<(), CodeKind>
        ensures ok { OnOk result (with_pattern self.old pattern ≡ Ok self.new) }
        ensures err { IfErr result (λ kind. IsNoMemory kind ⊎ (with_pattern self.old pattern ≡ Err kind)) }
    {
        if self.patterns.len() >= MAX_INSTRUCTIONS {
            return Err(CodeKind::TooLong);
        }
        match self.patterns.push(pattern) {
            Ok(()) => Ok(()),
            Err(_) => Err(CodeKind::NoMemory),
        }
    }

    /// Takes the pattern of a line for this constraint, where the choice has these arguments.
    fn constraint_of(
        &mut self,
        alloc: Global,
        choice: u32,
        args: &[u32],
        line: &[u8],
        constraint: u32,
    ) -> Result<(), CodeKind>
        requires { constraint < length self.old.prefixes }
        ensures ok { OnOk result (constraint_of self.old choice args.now (words_in line.now) (Some constraint) ≡ Ok self.new) }
        ensures err { IfErr result (λ kind. IsNoMemory kind ⊎ (constraint_of self.old choice args.now (words_in line.now) (Some constraint) ≡ Err kind)) }
    {
        match places_in(
            alloc,
            prefix_at(self.prefixes.as_slice(), constraint),
            args,
            line,
        ) {
            Err(kind) => Err(kind),
            Ok(places) => self.take_pattern(Pattern::new(constraint, choice, places)),
        }
    }

    /// Takes the pattern of a line, where the choice has these arguments.
    #[tactic(auto, unfolding(crate::specs::ConstraintLines::pattern_of))]
    fn pattern_of(
        &mut self,
        alloc: Global,
        choice: u32,
        args: &[u32],
        line: &[u8],
    ) -> Result<(), CodeKind>
        ensures ok { OnOk result (pattern_of self.old choice args.now (words_in line.now) ≡ Ok self.new) }
        ensures err { IfErr result (λ kind. IsNoMemory kind ⊎ (pattern_of self.old choice args.now (words_in line.now) ≡ Err kind)) }
    {
        if count_words(line) != args.len() + 3 {
            return Err(CodeKind::WrongCount);
        }
        match number_below(self.prefixes.len(), word(line, 1)) {
            None => Err(CodeKind::BadNumber),
            Some(constraint) => self.constraint_of(alloc, choice, args, line, constraint),
        }
    }

    /// Takes the pattern of a line.
    #[tactic(auto, unfolding(crate::specs::ConstraintLines::wake_line))]
    pub fn wake_line(
        &mut self,
        alloc: Global,
        declared: &Declared,
        line: &[u8],
    ) -> Result<(), CodeKind>
        ensures ok { OnOk result (wake_line declared.now self.old (words_in line.now) ≡ Ok self.new) }
        ensures err { IfErr result (λ kind. IsNoMemory kind ⊎ (wake_line declared.now self.old (words_in line.now) ≡ Err kind)) }
    {
        let count = count_words(line);
        if count < 3 || count > 5 {
            return Err(CodeKind::WrongCount);
        }
        match number_below(declared.choices.len(), word(line, 2)) {
            None => Err(CodeKind::BadNumber),
            Some(choice) => {
                let family = family_at(declared.choices.as_slice(), choice);
                self.pattern_of(alloc, choice, family.args().as_slice(), line)
            }
        }
    }
}
