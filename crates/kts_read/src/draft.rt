ghost use Rattle.std.specs.Prelude.{◌≡◌, ◌⊎◌, ◌+◌, ◌<◌, ◌^◌, length, Ok, Err, Some, OnOk, IfErr};
ghost use Rattle.kts_base.specs.Reads.{Gives};
ghost use Rattle.kts_read.specs.Faults.{IsNoMemory, IsRefused};
ghost use Rattle.kts_read.specs.Lines.{words_in};
ghost use Rattle.kts_read.specs.Goods.{Good};
ghost use Rattle.kts_read.specs.Reading.{nothing, name_line, stack_in, size_in, placed_count, size_line, stack_line, pattern_line, constraint_line, declaration_line, counts_in, end_line, body_line, other_line, words_line, line_step, finished, draft_of};
ghost use Rattle.kts_read.specs.declared.draft.Part.TheVariants as Part;

use crate::constraints::Constraints;
use crate::declarations::Declared;
use crate::fault::{CodeFault, CodeKind};
use crate::lines::{count_words, is_line, word};
use crate::names::{is_text, name_in};
use crate::operands::{Counts, instr_line};
use crate::sizes::{entries_of, placed_count, size_in, stack_in};
use kts_base::{List, Name};
use kts_code::{Code, Instr};
use kts_index::Index;
use kts_spec::Schema;
use std::alloc::Global;

/// Which line comes next.
#[derive(Clone, Copy, Debug, PartialEq, Eq)]
pub enum Part {
    /// The first line.
    Header,
    /// The line of the name.
    Named,
    /// A declaration, or a line that may stand after declarations.
    Declarations,
    /// A constraint, or a line that may stand after constraints.
    Tasks,
    /// A pattern, or the line of the stack.
    Wakes,
    /// The line of the number of instructions.
    Size,
    /// An instruction, or the end.
    Instructions,
    /// None.
    Whole,
}

/// What the lines so far say.
#[derive(Debug, Drop)]
pub struct Draft {
    pub(crate) part: Part,
    pub(crate) name: Option<Name>,
    pub(crate) declared: Declared,
    pub(crate) constraints: Constraints,
    pub(crate) stack: u32,
    pub(crate) size: usize,
    pub(crate) instrs: List<Instr>,
}

impl Draft {
    /// What is known before the first line.
    pub fn new(alloc: Global) -> Draft
        ensures { result ≡ nothing }
    {
        Draft {
            part: Part::Header,
            name: None,
            declared: Declared::new(alloc),
            constraints: Constraints::new(alloc),
            stack: 0,
            size: 0,
            instrs: List::new(alloc),
        }
    }

    #[tactic(auto, unfolding(crate::specs::Reading::name_line))]
    fn name_line(&mut self, line: &[u8]) -> Result<(), CodeKind>
        ensures ok { OnOk result (name_line self.old (words_in line.now) ≡ Ok self.new) }
        ensures err { IfErr result (λ kind. name_line self.old (words_in line.now) ≡ Err kind) }
    {
        if !is_text(word(line, 0), b"spec") {
            return Err(CodeKind::BadLine);
        }
        if count_words(line) != 2 {
            return Err(CodeKind::WrongCount);
        }
        match name_in(word(line, 1)) {
            None => Err(CodeKind::BadName),
            Some(name) => {
                self.name = Some(name);
                self.part = Part::Declarations;
                Ok(())
            }
        }
    }

    #[tactic(auto, unfolding(crate::specs::Reading::stack_line))]
    fn stack_line(&mut self, line: &[u8]) -> Result<(), CodeKind>
        ensures ok { OnOk result (stack_line self.old (words_in line.now) ≡ Ok self.new) }
        ensures err { IfErr result (λ kind. stack_line self.old (words_in line.now) ≡ Err kind) }
    {
        if !is_text(word(line, 0), b"stack") {
            return Err(CodeKind::BadLine);
        }
        match stack_in(line) {
            Err(kind) => Err(kind),
            Ok(stack) => {
                self.stack = stack;
                self.part = Part::Size;
                Ok(())
            }
        }
    }

    #[tactic(auto, unfolding(crate::specs::Reading::pattern_line))]
    fn pattern_line(&mut self, alloc: Global, line: &[u8]) -> Result<(), CodeKind>
        ensures ok { OnOk result (pattern_line self.old (words_in line.now) ≡ Ok self.new) }
        ensures err { IfErr result (λ kind. IsNoMemory kind ⊎ (pattern_line self.old (words_in line.now) ≡ Err kind)) }
    {
        if !is_text(word(line, 0), b"wake") {
            return self.stack_line(line);
        }
        match self.constraints.wake_line(alloc, &self.declared, line) {
            Err(kind) => Err(kind),
            Ok(()) => {
                self.part = Part::Wakes;
                Ok(())
            }
        }
    }

    #[tactic(auto, unfolding(crate::specs::Reading::constraint_line))]
    fn constraint_line(&mut self, alloc: Global, line: &[u8]) -> Result<(), CodeKind>
        ensures ok { OnOk result (constraint_line self.old (words_in line.now) ≡ Ok self.new) }
        ensures err { IfErr result (λ kind. IsNoMemory kind ⊎ (constraint_line self.old (words_in line.now) ≡ Err kind)) }
    {
        if !is_text(word(line, 0), b"task") {
            return self.pattern_line(alloc, line);
        }
        let indexes = self.declared.indexes.len();
        match self.constraints.task_line(alloc, indexes, line) {
            Err(kind) => Err(kind),
            Ok(()) => {
                self.part = Part::Tasks;
                Ok(())
            }
        }
    }

    #[tactic(auto, unfolding(crate::specs::Reading::declaration_line))]
    fn declaration_line(&mut self, alloc: Global, line: &[u8]) -> Result<(), CodeKind>
        requires { self.old.part ≡ Part.Declarations }
        ensures ok { OnOk result (declaration_line self.old (words_in line.now) ≡ Ok self.new) }
        ensures err { IfErr result (λ kind. IsNoMemory kind ⊎ (declaration_line self.old (words_in line.now) ≡ Err kind)) }
    {
        let first = word(line, 0);
        if is_text(first, b"index") {
            return self.declared.index_line(line);
        }
        if is_text(first, b"given") {
            return self.declared.given_line(alloc, line);
        }
        if is_text(first, b"choose") {
            return self.declared.choose_line(alloc, line);
        }
        if is_text(first, b"manifest") {
            return self.declared.manifest_line(line);
        }
        self.constraint_line(alloc, line)
    }

    /// Takes the line of the number of instructions, whose number this is.
    #[tactic(auto, unfolding(crate::specs::Reading::size_line))]
    fn size_line(&mut self, at: usize, line: &[u8]) -> Result<(), CodeFault>
        requires { 3 + length self.old.declared.decls + length self.old.constraints.entries < 2 ^ 64 }
        ensures ok { OnOk result (size_line at self.old (words_in line.now) ≡ Ok self.new) }
        ensures err { IfErr result (λ fault. size_line at self.old (words_in line.now) ≡ Err fault) }
    {
        match size_in(line) {
            Err(kind) => Err(CodeFault { kind, line: at }),
            Ok(size) => {
                let placed = placed_count(size, self.constraints.entries.as_slice());
                if placed < self.constraints.entries.len() {
                    return Err(CodeFault {
                        kind: CodeKind::BadLabel,
                        line: 3 + self.declared.decls.len() + placed,
                    });
                }
                self.size = size;
                self.part = Part::Instructions;
                Ok(())
            }
        }
    }

    fn counts(&self) -> Counts
        ensures { result ≡ counts_in self.now }
    {
        Counts {
            labels: self.size,
            indexes: self.declared.indexes.len(),
            givens: self.declared.givens.len(),
            choices: self.declared.choices.len(),
        }
    }

    #[tactic(auto, unfolding(crate::specs::Reading::end_line))]
    fn end_line(&mut self, line: &[u8]) -> Result<(), CodeKind>
        ensures ok { OnOk result (end_line self.old (words_in line.now) ≡ Ok self.new) }
        ensures err { IfErr result (λ kind. end_line self.old (words_in line.now) ≡ Err kind) }
    {
        if !is_text(word(line, 0), b"end") {
            return Err(CodeKind::BadLine);
        }
        if count_words(line) != 1 {
            return Err(CodeKind::WrongCount);
        }
        self.part = Part::Whole;
        Ok(())
    }

    #[tactic(auto, unfolding(crate::specs::Reading::body_line))]
    fn body_line(&mut self, line: &[u8]) -> Result<(), CodeKind>
        ensures ok { OnOk result (body_line self.old (words_in line.now) ≡ Ok self.new) }
        ensures err { IfErr result (λ kind. IsNoMemory kind ⊎ (body_line self.old (words_in line.now) ≡ Err kind)) }
    {
        if self.instrs.len() >= self.size {
            return self.end_line(line);
        }
        match instr_line(&self.counts(), line) {
            Err(kind) => Err(kind),
            Ok(instr) => match self.instrs.push(instr) {
                Ok(()) => Ok(()),
                Err(_) => Err(CodeKind::NoMemory),
            },
        }
    }

    /// Takes a line of words, but that of the number of instructions.
    fn other_line(&mut self, alloc: Global, line: &[u8]) -> Result<(), CodeKind>
        ensures ok { OnOk result (other_line self.old (words_in line.now) self.old.part ≡ Ok self.new) }
        ensures err { IfErr result (λ kind. IsNoMemory kind ⊎ (other_line self.old (words_in line.now) self.old.part ≡ Err kind)) }
    {
        match self.part {
            Part::Header | Part::Size | Part::Whole => Err(CodeKind::BadLine),
            Part::Named => self.name_line(line),
            Part::Declarations => self.declaration_line(alloc, line),
            Part::Tasks => self.constraint_line(alloc, line),
            Part::Wakes => self.pattern_line(alloc, line),
            Part::Instructions => self.body_line(line),
        }
    }

    /// Takes a line of words, whose number this is.
    fn words_line(&mut self, alloc: Global, at: usize, line: &[u8]) -> Result<(), CodeFault>
        requires { 3 + length self.old.declared.decls + length self.old.constraints.entries < 2 ^ 64 }
        ensures ok { OnOk result (words_line at self.old (words_in line.now) self.old.part ≡ Ok self.new) }
        ensures err { IfErr result (λ fault. IsRefused fault ⊎ (words_line at self.old (words_in line.now) self.old.part ≡ Err fault)) }
    {
        match self.part {
            Part::Size => self.size_line(at, line),
            _ => match self.other_line(alloc, line) {
                Ok(()) => Ok(()),
                Err(kind) => Err(CodeFault::told(at, kind)),
            },
        }
    }

    #[tactic(auto, unfolding(crate::specs::Reading::line_step))]
    fn header(&mut self, at: usize, line: &[u8]) -> Result<(), CodeFault>
        requires { self.old.part ≡ Part.Header }
        ensures ok { OnOk result (line_step at self.old line.now ≡ Ok self.new) }
        ensures err { IfErr result (λ fault. line_step at self.old line.now ≡ Err fault) }
    {
        if !is_text(line, b"kts 1") {
            return Err(CodeFault {
                kind: CodeKind::BadHeader,
                line: at,
            });
        }
        self.part = Part::Named;
        Ok(())
    }

    /// Takes one line more, without its end, whose number this is.
    #[tactic(auto, unfolding(crate::specs::Reading::line_step))]
    pub fn take_line(&mut self, alloc: Global, at: usize, line: &[u8]) -> Result<(), CodeFault>
        requires { 3 + length self.old.declared.decls + length self.old.constraints.entries < 2 ^ 64 }
        ensures ok { OnOk result (line_step at self.old line.now ≡ Ok self.new) }
        ensures err { IfErr result (λ fault. IsRefused fault ⊎ (line_step at self.old line.now ≡ Err fault)) }
    {
        match self.part {
            Part::Header => self.header(at, line),
            _ => {
                if !is_line(line) {
                    return Err(CodeFault {
                        kind: CodeKind::BadLine,
                        line: at,
                    });
                }
                self.words_line(alloc, at, line)
            }
        }
    }

    /// The code, which is whole.
    fn code(self, alloc: Global) -> Result<Code, CodeKind>
        requires whole { Good Part.Whole self }
        requires part { self.part ≡ Part.Whole }
        ensures { Gives IsNoMemory draft_of result (Ok self) }
    {
        let Draft {
            name,
            declared,
            constraints,
            stack,
            instrs,
            ..
        } = self;
        let Declared {
            decls,
            indexes,
            givens,
            choices,
        } = declared;
        let Constraints {
            entries,
            prefixes,
            patterns,
        } = constraints;
        match name {
            None => Err(CodeKind::BadLine),
            Some(name) => match entries_of(alloc, entries.as_slice()) {
                Err(kind) => Err(kind),
                Ok(entries) => {
                    let schema = Schema::new(name, decls, indexes, givens, choices, prefixes);
                    let index = Index::new(patterns);
                    Ok(Code::new(schema, entries, index, stack, instrs))
                }
            },
        }
    }

    /// The code, where nothing is left after the last line.
    #[tactic(auto, unfolding(crate::specs::Reading::finished))]
    pub fn finish(self, alloc: Global, line: &[u8]) -> Result<Code, CodeKind>
        requires { Good self.part self }
        ensures { Gives IsNoMemory draft_of result (finished self line.now) }
    {
        match self.part {
            Part::Header => {
                if is_text(line, b"kts 1") {
                    return Err(CodeKind::BadLine);
                }
                Err(CodeKind::BadHeader)
            }
            Part::Whole => {
                if !line.is_empty() {
                    return Err(CodeKind::BadLine);
                }
                self.code(alloc)
            }
            _ => Err(CodeKind::BadLine),
        }
    }
}
