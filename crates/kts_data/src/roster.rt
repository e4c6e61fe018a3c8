ghost use Rattle.std.specs.Prelude.{◌≡◌, ◌++◌, ◌∷◌, [], length, not, true, OnOk, IfOk};
ghost use Rattle.kts_spec.specs.Names.{is_among, is_distinct};
ghost use Rattle.kts_data.specs.Instances.{place_in, place_of_name};

use indexmap::IndexSet;
use kts_base::{List, Name, NoMemory};
use std::alloc::Global;
use std::marker::Model;

/// The members of an index, in order. Contracts see the list of their names, of which no two are the same.
#[derive(Drop)]
pub struct Roster {
    set: IndexSet<Name>,
}

impl Model for Roster {
    ghost use Rattle.std.specs.Prelude.{List, ℕ};

    ghost Value = { List (List ℕ) };

    ghost view = { λ roster. roster.set.keys };
}

impl Roster {
    pub fn new(alloc: Global) -> Roster
        ensures { result ≡ [] }
    {
        Roster {
            set: IndexSet::new(alloc),
        }
    }

    /// The members with these names.
    pub fn from_names(alloc: Global, names: &[Name]) -> Result<Roster, NoMemory>
        requires { is_distinct names.now ≡ true }
        ensures { IfOk result (λ roster. roster ≡ names.now) }
    {
        let mut roster = Roster::new(alloc);
        for name in names {
            roster.take(*name)?;
        }
        Ok(roster)
    }

    pub fn len(&self) -> usize
        ensures { result ≡ length self.now }
    {
        self.set.len()
    }

    pub fn contains(&self, name: &Name) -> bool
        ensures { result ≡ is_among self.now name.now }
    {
        self.set.contains(name)
    }

    /// The position of the member with this name.
    pub fn place_of(&self, text: &[u8]) -> Option<i64>
        ensures { result ≡ place_in self.now text.now }
    {
        match Name::new(text) {
            None => None,
            Some(name) => self.place(&name),
        }
    }

    fn place(&self, name: &Name) -> Option<i64>
        ensures { result ≡ place_of_name self.now name.now }
    {
        match self.set.get_index_of(name) {
            None => None,
            Some(place) => {
                let count = self.set.len();
                prove!(place < count);
                Some(place as i64)
            }
        }
    }

    /// Takes a name that is new, after the others.
    pub fn take(&mut self, name: Name) -> Result<(), NoMemory>
        requires { not (is_among self.old name) ≡ true }
        ensures { OnOk result (self.new ≡ self.old ++ name ∷ []) }
    {
        match self.set.insert(name) {
            Ok(_) => Ok(()),
            Err(_) => Err(NoMemory),
        }
    }

    /// The names, in order.
    pub fn names(&self, alloc: Global) -> Result<List<Name>, NoMemory>
        ensures { IfOk result (λ names. names ≡ self.now) }
    {
        let mut names = List::new(alloc);
        for name in self.set.iter() {
            names.push(*name)?;
        }
        Ok(names)
    }
}
