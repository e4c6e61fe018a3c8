ghost use Rattle.std.specs.Prelude.{◌≡◌, true};
ghost use Rattle.kts_plan.specs.PlanNumbers.{is_plan};

use crate::definite::Definite;
use kts_base::List;
use kts_clause::Clause;

/// The clauses of a specification, the definite constraints that propagation goes by, and the
/// numbers of the clauses that have none.
#[derive(Debug, Drop)]
pub struct Plan {
    clauses: List<Clause>,
    definites: List<Definite>,
    residuals: List<u32>,
    ghost is_plan: { is_plan clauses definites residuals ≡ true },
}

impl Plan {
    pub fn new(clauses: List<Clause>, definites: List<Definite>, residuals: List<u32>) -> Plan
        requires { is_plan clauses definites residuals ≡ true }
        ensures clauses { result.clauses ≡ clauses }
        ensures definites { result.definites ≡ definites }
        ensures residuals { result.residuals ≡ residuals }
    {
        Plan {
            clauses,
            definites,
            residuals,
        }
    }

    pub fn clauses(&self) -> &List<Clause>
        ensures { result.now ≡ self.now.clauses }
    {
        &self.clauses
    }

    pub fn definites(&self) -> &List<Definite>
        ensures { result.now ≡ self.now.definites }
    {
        &self.definites
    }

    pub fn residuals(&self) -> &List<u32>
        ensures { result.now ≡ self.now.residuals }
    {
        &self.residuals
    }
}
