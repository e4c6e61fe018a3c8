ghost use Rattle.std.specs.Prelude.{◌≡◌};

use kts_spec::Formula;

/// A formula, or its negation.
#[derive(Debug, Drop)]
pub struct Literal {
    negative: bool,
    formula: Formula,
}

impl Literal {
    pub fn new(negative: bool, formula: Formula) -> Literal
        ensures negative { result.negative ≡ negative }
        ensures formula { result.formula ≡ formula }
    {
        Literal { negative, formula }
    }

    /// Whether the formula is negated.
    pub fn negative(&self) -> bool
        ensures { result ≡ self.now.negative }
    {
        self.negative
    }

    pub fn formula(&self) -> &Formula
        ensures { result.now ≡ self.now.formula }
    {
        &self.formula
    }
}
