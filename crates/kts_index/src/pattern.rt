ghost use Rattle.std.specs.Prelude.{◌≡◌, IfOk};

use kts_base::{List, NoMemory};
use std::alloc::Global;

/// Pairs the tasks of a constraint with the cells of a choice. An argument `Some(k)` takes the tasks
/// whose tuple has, for variable `k` of the prefix, the member that the cell has in that argument;
/// `None` takes them all.
#[derive(Debug, Drop)]
pub struct Pattern {
    pub(crate) definite: u32,
    pub(crate) choice: u32,
    pub(crate) args: List<Option<u8>>,
}

impl Pattern {
    pub fn new(definite: u32, choice: u32, args: List<Option<u8>>) -> Pattern
        ensures definite { result.definite ≡ definite }
        ensures choice { result.choice ≡ choice }
        ensures args { result.args ≡ args }
    {
        Pattern {
            definite,
            choice,
            args,
        }
    }

    /// The number of the constraint.
    pub fn definite(&self) -> u32
        ensures { result ≡ self.now.definite }
    {
        self.definite
    }

    /// The number of the choice.
    pub fn choice(&self) -> u32
        ensures { result ≡ self.now.choice }
    {
        self.choice
    }

    pub fn args(&self) -> &List<Option<u8>>
        ensures { result.now ≡ self.now.args }
    {
        &self.args
    }

    /// An equal pattern.
    pub fn copy(&self, alloc: Global) -> Result<Pattern, NoMemory>
        ensures { IfOk result (λ copy. copy ≡ self.now) }
    {
        let args = List::from_slice(alloc, self.args.as_slice())?;
        Ok(Pattern {
            definite: self.definite,
            choice: self.choice,
            args,
        })
    }
}

/// Patterns equal to these.
pub(crate) fn copy_patterns(alloc: Global, patterns: &[Pattern]) -> Result<List<Pattern>, NoMemory>
    ensures { IfOk result (λ copies. copies ≡ patterns.now) }
{
    let mut copies = List::new(alloc);
    for pattern in patterns {
        copies.push(pattern.copy(alloc)?)?;
    }
    Ok(copies)
}
