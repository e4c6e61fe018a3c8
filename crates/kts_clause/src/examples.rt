ghost use Rattle.kts_clause.specs.WorkedClauses.{ClauseExamples};

/// The clauses of some formulas.
pub fn clause_examples()
    ensures { ClauseExamples }
{}
