use crate::word::Word;

/// What an expression is: an operation, a number, or the use of a name.
#[derive(Clone, Copy, Debug)]
pub enum Head {
    Add,
    Sub,
    Mul,
    Min,
    Max,
    Sum,
    Le,
    Lt,
    Ge,
    Gt,
    Eq,
    Ne,
    And,
    Or,
    Not,
    Implies,
    Forall,
    Exists,
    Number(i64),
    Use(Word),
}
