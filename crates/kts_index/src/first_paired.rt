ghost use Rattle.std.specs.Prelude.{◌≤◌};
ghost use Rattle.kts_index.specs.ConstraintTuples.{task_in};
ghost use Rattle.kts_index.specs.FirstNumbers.{IsFirst};
ghost use Rattle.kts_index.specs.Pairs.{agrees, is_paired};

use crate::pattern::Pattern;
use crate::tuples::Tuples;

/// The number of the first tuple from `from` on whose task the pattern pairs with the cell; `below`
/// where none before it is.
fn first_by(
    pattern: &Pattern,
    definite: usize,
    choice: u32,
    cell: &[usize],
    tuples: &Tuples,
    from: usize,
    below: usize,
) -> usize
    requires from { from ≤ below }
    requires below { below ≤ tuples.now.count }
    ensures { IsFirst (λ p. agrees choice cell.now (task_in tuples.now definite p) pattern.now) from below result }
{
    if pattern.definite as usize != definite {
        return below;
    }
    if pattern.choice != choice {
        return below;
    }
    tuples.first(pattern.args.as_slice(), cell, from, below)
}

/// The number of the first tuple from `from` on whose task some pattern pairs with the cell; the
/// number of tuples where there is none. Each pattern is asked only for a tuple before the best.
pub fn first_paired(
    patterns: &[Pattern],
    definite: usize,
    choice: u32,
    cell: &[usize],
    tuples: &Tuples,
    from: usize,
) -> usize
    requires { from ≤ tuples.now.count }
    ensures { IsFirst (λ p. is_paired patterns.now choice cell.now (task_in tuples.now definite p)) from tuples.now.count result }
{
    let mut first = tuples.count();
    for pattern in patterns {
        first = first_by(pattern, definite, choice, cell, tuples, from, first);
    }
    first
}
