/// Why a step can't be done. Of several causes the first in this order is told.
#[derive(Clone, Copy, Debug, PartialEq, Eq)]
pub enum TrapKind {
    /// There is no instruction at the place.
    PcOut,
    /// There is no space.
    NoSpace,
    /// The register is unset.
    Register,
    /// There are fewer operands than the step pops.
    Underflow,
    /// An operand is of another kind or index, an argument of a cell has two members or more, or the cell is of the
    /// other type.
    Kind,
    /// A result has an end that windows can't have.
    Overflow,
    /// The operand stack has no place left.
    StackFull,
}

/// Whether a run goes on. One that has halted or trapped stays as it is.
#[derive(Clone, Copy, Debug, PartialEq, Eq)]
pub enum Mode {
    Going,
    Halted,
    Trapped(TrapKind),
}
