ghost use Rattle.std.specs.Prelude.{ℕ};
ghost use Rattle.kts_clause.specs.ClauseFacts.{ClausesKeep};
ghost use Rattle.kts_clause.specs.ClauseTruth.{ClausesMean};
ghost use Rattle.kts_spec.specs.declared.tree.Formula.{Formula};

/// A formula is as true as its clauses, on every schedule. They are no more than its trees, and those of a formula of a
/// specification have prefixes of constraints and well typed literals.
pub fn clauses_law()
    ensures truth { (number : ℕ) (p : Formula) → ClausesMean number p }
    ensures kept { (number : ℕ) (p : Formula) → ClausesKeep number p }
{}
