use kts_base::Name;
use kts_spec::{Family, Formula as Statement};

/// What a form declares, or of which choice it is the manifest.
#[derive(Debug, Drop)]
pub enum Declaration {
    Index(Name),
    Given(Family),
    Choice(Family),
    Formula(Name, Statement),
    Manifest(u32),
}
