ghost use Rattle.std.specs.Prelude.{◌≡◌, true, IfOk};
ghost use Rattle.kts_index.specs.Pairs.{pairs};
ghost use Rattle.kts_index.specs.TaskBound.{bound as bound_lem};
ghost use Rattle.kts_spec.specs.Data.{is_valid};

use crate::bound::bound;
use crate::groups::are_in_order;
use crate::pattern::{Pattern, copy_patterns};
use crate::tasks::Tasks;
use kts_base::{List, NoMemory};
use kts_spec::{Instance, Schema};
use std::alloc::Global;
use std::marker::Model;

/// Which tasks read which cells. Contracts see it as the list of its patterns.
#[derive(Debug, Drop)]
pub struct Index {
    patterns: List<Pattern>,
    /// Whether the patterns are in the order of their constraints, as those of generated code are.
    /// Then a search for tasks looks at each pattern once, and not at all of them for each constraint.
    in_order: bool,
}

impl Model for Index {
    ghost use Rattle.std.specs.Prelude.{◌≡◌, List, true};
    ghost use Rattle.kts_index.specs.declared.pattern.Pattern.{Pattern};
    ghost use Rattle.kts_index.specs.PatternOrder.{AreInOrder};

    ghost Value = { List Pattern };

    ghost view = { λ i. i.patterns };

    ghost invariant = { λ i. i.in_order ≡ true → AreInOrder i.patterns };
}

impl Index {
    /// Patterns in the order of their constraints are searched faster.
    pub fn new(patterns: List<Pattern>) -> Index
        ensures { result ≡ patterns }
    {
        let in_order = are_in_order(patterns.as_slice());
        Index { patterns, in_order }
    }

    pub fn patterns(&self) -> &List<Pattern>
        ensures { result.now ≡ self.now }
    {
        &self.patterns
    }

    /// An equal index.
    pub fn copy(&self, alloc: Global) -> Result<Index, NoMemory>
        ensures { IfOk result (λ copy. copy ≡ self.now) }
    {
        let patterns = copy_patterns(alloc, self.patterns.as_slice())?;
        Ok(Index::new(patterns))
    }

    /// The tasks that the patterns pair with the cell of a choice at these members, each once and
    /// rising. It takes no memory. Its cost is that of the constraints and of the tasks that it
    /// gives, times the patterns of a constraint, and not that of all tasks.
    pub fn tasks_of<'a>(
        &'a self,
        schema: &'a Schema,
        inst: &'a Instance,
        choice: u32,
        tuple: &'a [usize],
    ) -> Tasks<'a>
        requires { is_valid schema.now inst.now ≡ true }
        ensures { result ≡ pairs self.now schema.now inst.now choice tuple.now }
    {
        Tasks::new(
            self.patterns.as_slice(),
            self.in_order,
            schema,
            inst,
            choice,
            tuple,
        )
    }

    /// The number of the tasks, and for each cell the number of those that are paired with it, as often
    /// as the cell can rise. It takes no memory, and as much time as looking for the tasks of each cell.
    pub fn bound(&self, schema: &Schema, inst: &Instance) -> u64
        requires { is_valid schema.now inst.now ≡ true }
        ensures { result ≡ bound_lem self.now schema.now inst.now }
    {
        bound(self, schema, inst)
    }
}
