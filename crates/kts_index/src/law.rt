ghost use Rattle.std.specs.Prelude.{◌≡◌, ℕ, List, true};
ghost use Rattle.kts_index.specs.TaskFacts.{TasksHaveNumbers, SomePatternPairs, PairsAreTasks};
ghost use Rattle.kts_index.specs.TaskOrder.{Task};
ghost use Rattle.kts_index.specs.declared.pattern.Pattern.{Pattern};
ghost use Rattle.kts_spec.specs.Worlds.{World};
ghost use Rattle.kts_spec.specs.declared.instance.Instance.{Instance};
ghost use Rattle.kts_spec.specs.declared.schema.Schema.{Schema};

/// Which task has which number, which tasks a pattern pairs with a cell, and that the tasks of a cell
/// rise, so that each is given once.
pub fn tasks_law()
    ensures numbers { (w : World) (prefixes : List (List ℕ)) → TasksHaveNumbers w prefixes }
    ensures paired { (patterns : List Pattern) (x : ℕ) (cell : List ℕ) (task : Task) → SomePatternPairs patterns x cell task }
    ensures pairs { (patterns : List Pattern) (schema : Schema) (inst : Instance) (x : ℕ) (cell : List ℕ) → PairsAreTasks patterns schema inst x cell }
{}
