/// What a definite constraint does to its cell.
#[derive(Clone, Copy, Debug, PartialEq, Eq)]
pub enum Op {
    /// The cell rises to at least the low end of a window.
    AtLeast,
    /// It falls to at most the high end of a window.
    AtMost,
    /// It keeps the members of a set.
    Within,
    /// It loses the member of a set that has no other.
    Without,
}
