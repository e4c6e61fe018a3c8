/// An instruction. A label is a place in the code; choices, givens and indexes are named by their numbers, and registers too.
/// Operands are popped from the stack, the last one first. The step goes on to the next place where nothing else is said.
#[derive(Clone, Copy, Debug, PartialEq, Eq)]
pub enum Instr {
    /// The choices made are forgotten, the space becomes the first one and all tasks wait; to the label where there is none.
    Start(u32),
    /// A waiting task is taken, and the step goes to its entry; to the label where none waits.
    Take(u32),
    /// The space is an item of the run.
    Node,
    /// The first cell with two values or more keeps its least one, as a choice; to the label where there is none.
    Pick(u32),
    /// The least value of each cell is a schedule of the run.
    Emit,
    /// The last choice is undone and its cell loses its least value; to the label where no choice is left.
    Back(u32),
    /// The run has ended.
    Halt,
    /// To the label.
    Jump(u32),
    /// Pops a truth value; to the label where it is false.
    Test(u32),
    /// Pops a truth value; to the label where it isn't false.
    Need(u32),
    /// Pops a window and then the arguments of a choice, whose cell rises to at least the low end of the window; to the
    /// label where nothing would be left of the cell.
    AtLeast(u32, u32),
    /// The same with at most the high end.
    AtMost(u32, u32),
    /// Pops a set and then the arguments of a choice, whose cell keeps the members of the set.
    Within(u32, u32),
    /// The same, but the cell loses the member of a set that has no other.
    Without(u32, u32),
    /// Pushes the number.
    Num(i64),
    /// Pushes the set of the register's member.
    Var(u8),
    /// Pops the arguments of a given, and pushes what its values at them may be.
    Given(u32),
    /// The same of a choice and its cells.
    Choice(u32),
    /// Pops b, then a, and pushes `a + b`.
    Add,
    /// `a - b`.
    Sub,
    /// `a * b`.
    Mul,
    /// The lesser of both.
    Min,
    /// The greater of both.
    Max,
    /// Whether `a <= b`.
    Le,
    /// Whether both numbers are equal.
    Eq,
    /// Whether both members are equal.
    Same,
    /// Whether both truth values are true.
    And,
    /// Whether one of them is.
    Or,
    /// The contrary.
    Not,
    /// Pops a window, then a truth value: the window where it is true, 0 where it is false.
    Gate,
    /// The register becomes the first member of the index; to the label where it has none.
    First(u8, u32, u32),
    /// The register becomes the next member of its index, and the step goes to the label; unset where there is no further one.
    Next(u8, u32),
    True,
    False,
}
