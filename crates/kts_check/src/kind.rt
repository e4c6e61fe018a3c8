/// What a term is: a whole number between two ends, or a member of an index.
#[derive(Clone, Copy, Debug, PartialEq, Eq)]
pub enum Kind {
    Whole(i64, i64),
    Member(u32),
}
