ghost use Rattle.std.specs.Prelude.{◌≡◌, ◌≤◌, ◌<◌, [], ◌∷◌, ◌++◌, length, take, OnOk};
ghost use Rattle.kts_base.specs.Limits.{most_variables};
ghost use Rattle.kts_check.specs.Scopes.{variable};

use kts_base::{Name, NoMemory};
use std::alloc::Global;

/// The variables in scope, each with the number of its index, the outermost first.
#[derive(Debug, Drop)]
pub struct Scope {
    variables: Vec<(Name, u32)>,
    ghost few: { length variables.items ≤ most_variables },
}

impl Scope {
    pub fn new(alloc: Global) -> Scope
        ensures { result.variables.items ≡ [] }
    {
        Scope {
            variables: Vec::new(alloc),
        }
    }

    pub fn len(&self) -> usize
        ensures { result ≡ length self.now.variables.items }
    {
        self.variables.len()
    }

    /// Brings one variable more into scope.
    pub fn push(&mut self, name: Name, index: u32) -> Result<(), NoMemory>
        requires { length self.old.variables.items < most_variables }
        ensures { OnOk result (self.new.variables.items ≡ self.old.variables.items ++ (name, index) ∷ []) }
    {
        match self.variables.push((name, index)) {
            Ok(()) => Ok(()),
            Err(_) => Err(NoMemory),
        }
    }

    /// Ends the scope of all variables but the first ones.
    pub fn truncate(&mut self, len: usize)
        ensures { self.new.variables.items ≡ take len self.old.variables.items }
    {
        self.variables.truncate(len);
    }

    /// The number of a variable with its index.
    pub fn variable(&self, name: &Name) -> Option<(u8, u32)>
        ensures { result ≡ variable self.now.variables.items name.now }
    {
        let variables = self.variables.as_slice();
        for (k, v) in variables.iter().enumerate() {
            if v.0 == *name {
                return Some((k as u8, v.1));
            }
        }
        None
    }
}
