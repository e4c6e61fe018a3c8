ghost use Rattle.std.specs.Prelude.{◌≡◌};

use crate::head::Head;

/// A definite constraint: where all other literals of the clause are false, the head asks for what
/// the literal of this number says.
#[derive(Debug, Drop)]
pub struct Definite {
    clause: u32,
    literal: u32,
    head: Head,
}

impl Definite {
    pub fn new(clause: u32, literal: u32, head: Head) -> Definite
        ensures clause { result.clause ≡ clause }
        ensures literal { result.literal ≡ literal }
        ensures head { result.head ≡ head }
    {
        Definite {
            clause,
            literal,
            head,
        }
    }

    /// The number of the clause, among all of the plan.
    pub fn clause(&self) -> u32
        ensures { result ≡ self.now.clause }
    {
        self.clause
    }

    /// The number of the literal, in its clause.
    pub fn literal(&self) -> u32
        ensures { result ≡ self.now.literal }
    {
        self.literal
    }

    pub fn head(&self) -> &Head
        ensures { result.now ≡ self.now.head }
    {
        &self.head
    }
}
