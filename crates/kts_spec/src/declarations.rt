ghost use Rattle.std.specs.Prelude.{◌≡◌};

use kts_base::{List, Name};

/// The type of a value: the whole numbers from `lo` to `hi`, or the members of an index.
#[derive(Clone, Copy, Debug, PartialEq, Eq)]
pub enum ValueType {
    Int { lo: i64, hi: i64 },
    Member(u32),
}

/// A given or a choice: the indexes of its arguments, and the type of its values.
#[derive(Debug, Drop)]
pub struct Family {
    name: Name,
    args: List<u32>,
    kind: ValueType,
}

impl Family {
    pub fn new(name: Name, args: List<u32>, kind: ValueType) -> Family
        ensures name { result.name ≡ name }
        ensures args { result.args ≡ args }
        ensures kind { result.kind ≡ kind }
    {
        Family { name, args, kind }
    }

    pub fn name(&self) -> Name
        ensures { result ≡ self.now.name }
    {
        self.name
    }

    pub fn args(&self) -> &List<u32>
        ensures { result.now ≡ self.now.args }
    {
        &self.args
    }

    pub fn kind(&self) -> ValueType
        ensures { result ≡ self.now.kind }
    {
        self.kind
    }
}

/// A declaration, by its number among those of its kind; a manifest by the number of its choice.
#[derive(Clone, Copy, Debug, PartialEq, Eq)]
pub enum Decl {
    Index(u32),
    Given(u32),
    Choose(u32),
    Manifest(u32),
}
