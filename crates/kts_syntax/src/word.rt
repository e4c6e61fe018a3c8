ghost use Rattle.std.specs.Prelude.{◌≡◌};

use kts_base::Name;

/// A name where it stands.
#[derive(Clone, Copy, Debug)]
pub struct Word {
    name: Name,
    at: usize,
}

impl Word {
    pub fn new(name: Name, at: usize) -> Word
        ensures name { result.name ≡ name }
        ensures at { result.at ≡ at }
    {
        Word { name, at }
    }

    pub fn name(&self) -> Name
        ensures { result ≡ self.now.name }
    {
        self.name
    }

    /// The place of its first byte, counted from 0.
    pub fn at(&self) -> usize
        ensures { result ≡ self.now.at }
    {
        self.at
    }
}
