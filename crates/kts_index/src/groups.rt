ghost use Rattle.std.specs.Prelude.{◌≡◌, ◌↔◌, ◌+◌, ◌≤◌, IsTrue, true, length};
ghost use Rattle.kts_index.specs.PatternOrder.{AreInOrder, AreBefore, IsGroup};

use crate::pattern::Pattern;

/// Whether the patterns are in the order of their constraints.
pub fn are_in_order(patterns: &[Pattern]) -> bool
    ensures { IsTrue result ↔ AreInOrder patterns.now }
{
    for k in 1..patterns.len() {
        if patterns[k].definite < patterns[k - 1].definite {
            return false;
        }
    }
    true
}

/// The place after the patterns of a constraint. Where the patterns aren't in order, that is their
/// end.
pub fn group_end(patterns: &[Pattern], in_order: bool, definite: usize, from: usize) -> usize
    requires in_order { in_order ≡ true → AreInOrder patterns.now }
    requires within { from ≤ length patterns.now }
    requires before { AreBefore patterns.now definite from }
    ensures group { IsGroup patterns.now definite from result }
    ensures passed { in_order ≡ true → AreBefore patterns.now (definite + 1) result }
{
    if !in_order {
        return patterns.len();
    }
    for k in from..patterns.len() {
        if patterns[k].definite as usize > definite {
            return k;
        }
    }
    patterns.len()
}

/// How many patterns are known to be of constraints before the next one.
pub fn next_group(
    patterns: &[Pattern],
    in_order: bool,
    definite: usize,
    from: usize,
    end: usize,
) -> usize
    requires group { IsGroup patterns.now definite from end }
    requires passed { in_order ≡ true → AreBefore patterns.now (definite + 1) end }
    ensures within { result ≤ length patterns.now }
    ensures before { AreBefore patterns.now (definite + 1) result }
    ensures passes { in_order ≡ true → result ≡ end }
{
    if in_order { end } else { from }
}
