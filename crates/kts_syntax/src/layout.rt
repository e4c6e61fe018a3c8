ghost use Rattle.std.specs.Prelude.{◌≡◌};
ghost use Rattle.kts_syntax.specs.Heads.{role_in, layout_after};

/// What a tree in an expression is read as.
#[derive(Clone, Copy, Debug)]
pub enum Role {
    Binder,
    Term,
    Formula,
}

/// What the parts of a list are.
#[derive(Clone, Copy, Debug)]
pub enum Layout {
    Terms,
    Formulas,
    /// A binder, a formula and a term.
    Summed,
    /// A formula and a term.
    Filtered,
    /// Binders, and a formula as the last part.
    Quantified,
}

impl Layout {
    /// The role of the first part, where it is the last or not.
    #[tactic(auto, unfolding(crate::specs::Heads::role_in))]
    pub fn role(self, last: bool) -> Role
        ensures { result ≡ role_in self last }
    {
        match self {
            Layout::Terms => Role::Term,
            Layout::Formulas | Layout::Filtered => Role::Formula,
            Layout::Summed => Role::Binder,
            Layout::Quantified => match last {
                true => Role::Formula,
                false => Role::Binder,
            },
        }
    }

    /// What the parts after the first are.
    #[tactic(auto, unfolding(crate::specs::Heads::layout_after))]
    pub fn next(self) -> Layout
        ensures { result ≡ layout_after self }
    {
        match self {
            Layout::Summed => Layout::Filtered,
            Layout::Filtered => Layout::Terms,
            same => same,
        }
    }
}
