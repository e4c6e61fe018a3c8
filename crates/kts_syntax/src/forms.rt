ghost use Rattle.std.specs.Prelude.{◌≡◌, ◌≤◌, true};
ghost use Rattle.kts_base.specs.Limits.{most_nesting};
ghost use Rattle.kts_syntax.specs.Fitting.{ast_fits};
ghost use Rattle.kts_syntax.specs.Sizes.{forms_nest};

use crate::form::Form;
use kts_base::{List, Name};

/// A specification as it is written: its name, and its forms after the first.
#[derive(Debug, Drop)]
pub struct Forms {
    name: Name,
    forms: List<Form>,
    ghost fit: { ast_fits (record { name = name; forms = forms }) ≡ true },
    ghost shallow: { forms_nest forms ≤ most_nesting },
}

impl Forms {
    pub fn new(name: Name, forms: List<Form>) -> Forms
        requires fit { ast_fits (record { name = name; forms = forms }) ≡ true }
        requires shallow { forms_nest forms ≤ most_nesting }
        ensures name { result.name ≡ name }
        ensures forms { result.forms ≡ forms }
    {
        Forms { name, forms }
    }

    pub fn name(&self) -> Name
        ensures { result ≡ self.now.name }
    {
        self.name
    }

    pub fn forms(&self) -> &List<Form>
        ensures { result.now ≡ self.now.forms }
    {
        &self.forms
    }
}
