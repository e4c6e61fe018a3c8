/// What a declared name stands for, with its number among those of its kind.
#[derive(Clone, Copy, Debug, PartialEq, Eq)]
pub enum Entry {
    Index(u32),
    Given(u32),
    Choice(u32),
    Formula,
}
