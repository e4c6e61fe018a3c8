ghost use Rattle.std.specs.Prelude.{◌≡◌, true};
ghost use Rattle.kts_spec.specs.Specifications.{is_spec};

use crate::schema::Schema;
use crate::tree::Formula;
use kts_base::{List, Name};

/// A specification: declarations, and formulas by name.
#[derive(Debug, Drop)]
pub struct Spec {
    schema: Schema,
    formulas: List<(Name, Formula)>,
    ghost is_spec: { is_spec schema formulas ≡ true },
}

impl Spec {
    pub fn new(schema: Schema, formulas: List<(Name, Formula)>) -> Spec
        requires { is_spec schema formulas ≡ true }
        ensures schema { result.schema ≡ schema }
        ensures formulas { result.formulas ≡ formulas }
    {
        Spec { schema, formulas }
    }

    pub fn schema(&self) -> &Schema
        ensures { result.now ≡ self.now.schema }
    {
        &self.schema
    }

    pub fn formulas(&self) -> &List<(Name, Formula)>
        ensures { result.now ≡ self.now.formulas }
    {
        &self.formulas
    }
}
