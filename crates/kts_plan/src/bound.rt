use kts_base::List;
use kts_spec::Term;

/// What a definite constraint bounds its cell by.
#[derive(Debug, Drop)]
pub enum Bound {
    /// A signed sum. The truth value says that the addend is subtracted, after the change of sign
    /// that the head needs.
    Rest(List<(bool, Term)>),
    /// The other side of a comparison of members.
    Side(Term),
}
