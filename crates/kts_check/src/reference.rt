/// What a name in an expression stands for: a variable with its index, or a given or a choice by its number.
#[derive(Clone, Copy, Debug, PartialEq, Eq)]
pub enum Reference {
    Variable(u8, u32),
    Given(u32),
    Choice(u32),
}
