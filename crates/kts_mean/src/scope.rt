ghost use Rattle.std.specs.Prelude.{◌≡◌, ◌∷◌, [], ◌++◌, ◌<◌, ◌≤◌, length, slice_index};
ghost use Rattle.kts_base.specs.Limits.{most_variables};

use kts_base::MAX_VARIABLES;
use std::marker::Model;

/// The variables in scope, the outermost first, each with its member.
#[derive(Drop)]
pub struct Scope {
    members: [usize; MAX_VARIABLES],
    count: usize,
}

impl Model for Scope {
    ghost use Rattle.std.specs.Prelude.{ℕ, List, take, ◌≤◌};
    ghost use Rattle.kts_base.specs.Limits.{most_variables};

    ghost Value = { List ℕ };

    ghost view = { λ s. take s.count s.members };

    ghost invariant = { λ s. s.count ≤ most_variables };
}

impl Scope {
    pub fn of(vars: &[usize]) -> Scope
        requires { length vars.now ≤ most_variables }
        ensures { result ≡ vars.now }
    {
        let mut members = [0; MAX_VARIABLES];
        members[..vars.len()].copy_from_slice(vars);
        Scope {
            members,
            count: vars.len(),
        }
    }

    pub fn with(&self, member: usize) -> Scope
        requires { length self.now < most_variables }
        ensures { result ≡ self.now ++ member ∷ [] }
    {
        let mut members = self.members;
        members[self.count] = member;
        Scope {
            members,
            count: self.count + 1,
        }
    }

    pub fn get(&self, at: usize) -> usize
        requires { at < length self.now }
        ensures { result ≡ slice_index self.now at }
    {
        let members = &self.members;
        members[at]
    }
}
