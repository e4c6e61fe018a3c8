use crate::expr::Expr;
use crate::word::Word;
use kts_base::List;

/// The type of values: the whole numbers between two ends, or the members of an index.
#[derive(Clone, Copy, Debug)]
pub enum Shape {
    /// The lower end, the upper end, and where the type stands.
    Int(i64, i64, usize),
    Named(Word),
}

/// A form at the top of a specification, with the name that it gives first.
#[derive(Debug, Drop)]
pub enum Form {
    Index(Word),
    /// The indexes of its arguments, and the type of its values.
    Given(Word, List<Word>, Shape),
    Choose(Word, List<Word>, Shape),
    Formula(Word, Expr),
    Manifest(Word),
}
