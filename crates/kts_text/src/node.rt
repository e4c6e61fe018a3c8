ghost use Rattle.std.specs.Prelude.{◌≡◌};

/// An atom or a list, by its place in the text.
#[derive(Clone, Copy, Debug, PartialEq, Eq)]
pub struct Node {
    pub(crate) start: u32,
    pub(crate) end: u32,
    /// How many nodes stand in it, in whatever depth.
    pub(crate) inside: u32,
    pub(crate) depth: u8,
    pub(crate) atom: bool,
}

impl Node {
    /// The place of its first byte, counted from 0.
    pub fn start(&self) -> usize
        ensures { result ≡ self.now.start }
    {
        self.start as usize
    }

    /// The place after its last byte.
    pub fn end(&self) -> usize
        ensures { result ≡ self.now.end }
    {
        self.end as usize
    }

    /// In how many lists it stands.
    pub fn depth(&self) -> u8
        ensures { result ≡ self.now.depth }
    {
        self.depth
    }

    /// Whether it is an atom, and no list.
    pub fn atom(&self) -> bool
        ensures { result ≡ self.now.atom }
    {
        self.atom
    }
}
