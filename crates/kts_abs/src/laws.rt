ghost use Rattle.std.specs.Prelude.{◌≡◌, ◌↔◌, ◌+ℤ◌, ◌-ℤ◌, ◌*ℤ◌, ◌≤ℤ◌, ◌+◌, true, ◌&&◌, ◌||◌, int_le, nat_eq, not, IsSome, IfSome, Some, None, ℕ, List, [], ◌∷◌, ◌++◌, map, pos, neg_ℤ};
ghost use Rattle.std.specs.Int.{int_min, int_max};
ghost use Rattle.std.specs.Ordering.{int_eq};
ghost use Rattle.kts_base.specs.Limits.{most_window_end};
ghost use Rattle.kts_semi.specs.Ends.{InEnds, max_end, min_end};
ghost use Rattle.kts_abs.specs.Abstraction.{Abstracts, AbstractsOne, Finer, IsLeastRound};
ghost use Rattle.kts_abs.specs.Truth.{may_be, and_of, or_of, not_of};
ghost use Rattle.kts_abs.specs.Windows.{Window, in_window, fitted, sum_of, difference_of, product_of, least_of, greatest_of, kept_where, gated, le_of, eq_of, hull_of};
ghost use Rattle.kts_sets.specs.Choices.{IsChoice};
ghost use Rattle.kts_abs.specs.Members.{has_member, same_of, union_of};
ghost use Rattle.kts_abs.specs.declared.cell.Cell.{Cell};
ghost use Rattle.kts_abs.specs.Cells.{IsValid, is_above, extent, value_of};
ghost use Rattle.kts_abs.specs.Values.{Abs, Refines, is_cell, members_of, room_of};
ghost use Rattle.kts_abs.specs.InSpace.{rising};
ghost use Rattle.kts_abs.specs.Ranged.{ValuesHaveRanges};
ghost use Rattle.kts_abs.specs.Demands.{DemandsAreMet, MetDemandsStay, RaisesLowerRoom};
ghost use Rattle.kts_abs.specs.Soundness.{ValuesAreSound, ValuesAreMonotone, ValuesAreExact};
ghost use Rattle.kts_abs.specs.Spaces.{IsSpace, IsSplit, IsInitial, initial, schedules_in, split_cell, least_in};
ghost use Rattle.kts_spec.specs.Schedules.{all, schedules};
ghost use Rattle.kts_spec.specs.declared.instance.Instance.{Instance};
ghost use Rattle.kts_spec.specs.declared.schema.Schema.{Schema};
ghost use Rattle.kts_spec.specs.Worlds.{World, world_of};

use kts_semi::MAX_WINDOW_END;
use kts_spec::schemas_keep;

/// Arithmetic and comparisons on windows do to windows what they do to numbers.
pub fn window_laws()
    ensures sum { Abstracts in_window in_window in_window ◌+ℤ◌ sum_of }
    ensures difference { Abstracts in_window in_window in_window ◌-ℤ◌ difference_of }
    ensures product { Abstracts in_window in_window in_window ◌*ℤ◌ product_of }
    ensures lesser { Abstracts in_window in_window in_window int_min least_of }
    ensures greater { Abstracts in_window in_window in_window int_max greatest_of }
    ensures gate { Abstracts may_be in_window in_window kept_where gated }
    ensures at_most { Abstracts in_window in_window may_be int_le le_of }
    ensures equal { Abstracts in_window in_window may_be int_eq eq_of }
    ensures hull { IsLeastRound in_window hull_of }
{}

/// The ends of windows, of code and of definitions, are the limit that each other crate names.
pub fn window_ends_law()
    ensures code { MAX_WINDOW_END ≡ pos most_window_end }
    ensures greatest { max_end ≡ pos most_window_end }
    ensures least { min_end ≡ neg_ℤ (pos most_window_end) }
{}

/// Where a window of these ends is in the machine's range.
pub fn range_laws()
    ensures in_range { (w : Window) → w.0 ≤ℤ w.1 → (IsSome (fitted w) ↔ InEnds w) }
    ensures same { (w : Window) → IfSome (fitted w) (λ v. v ≡ w) }
{}

/// Strong Kleene logic does to three truth values what logic does to two.
pub fn truth_laws()
    ensures conjunction { Abstracts may_be may_be may_be ◌&&◌ and_of }
    ensures disjunction { Abstracts may_be may_be may_be ◌||◌ or_of }
    ensures negation { AbstractsOne may_be may_be not not_of }
{}

/// Comparison and union of sets do to sets what they do to members.
pub fn member_laws()
    ensures same { Abstracts has_member has_member may_be nat_eq (same_of nat_eq) }
    ensures union { (a b : List ℕ) (m : ℕ) → IsChoice a → IsChoice b
        → has_member (union_of a b) m ≡ (has_member a m || has_member b m) }
    ensures union_monotone { (a b c d : List ℕ) → IsChoice a → IsChoice b → IsChoice c → IsChoice d
        → Finer has_member a c → Finer has_member b d
        → Finer has_member (union_of a b) (union_of c d) }
    // The same on the values that the members have in a schedule.
    ensures same_values { (a b : List ℕ) → same_of int_eq (map pos a) (map pos b) ≡ same_of nat_eq a b }
    ensures union_values { (a b : List ℕ) → IsChoice a → IsChoice b
        → map pos (union_of a b) ≡ rising (map pos a ++ map pos b) }
{}

/// A cell is worth an abstract value, whatever the width of its set: the two have one order.
pub fn cell_laws()
    ensures cells { (W : ℕ) (a : Cell W) → IsValid a → is_cell (value_of a) ≡ true }
    ensures order { (W : ℕ) (a b : Cell W) → IsValid a → IsValid b
        → ((is_above a b ≡ true) ↔ Refines (value_of b) (value_of a)) }
    ensures room { (W : ℕ) (a : Cell W) → IsValid a → extent a ≡ room_of (value_of a) + 1 }
    ensures equal { (W : ℕ) (a b : Cell W) → value_of a ≡ value_of b → a ≡ b }
{}

/// A space that is not single is split into two; its schedules are those of the left side
/// followed by those of the right side. A single space holds one schedule.
pub fn split_laws()
    ensures split { (w : World) (t : List Abs) (k : ℕ) → IsSpace w t → split_cell t ≡ Some k → IsSplit w t k }
    ensures single { (w : World) (t : List Abs) → IsSpace w t → split_cell t ≡ None
        → schedules_in w t ≡ map least_in t ∷ [] }
    ensures schedules { (w : World) (t : List Abs) → IsSpace w t → schedules_in w t ≡ all (map members_of t) }
    ensures initial { (w : World) (s : List Abs) → initial w ≡ Some s → IsInitial w s }
    ensures no_initial { (schema : Schema) (inst : Instance) → initial (world_of schema inst) ≡ None
        → schedules (world_of schema inst) ≡ [] }
{
    schemas_keep();
}

/// The abstract values of terms and formulas in a space allow what each schedule in it gives,
/// allow less in a space that knows more, and in a space of one schedule what it gives alone.
pub fn space_laws()
    ensures sound { ValuesAreSound }
    ensures monotone { ValuesAreMonotone }
    ensures exact { ValuesAreExact }
{}

/// What definite constraints demand of cells. A cell is raised to the greatest part that meets the
/// demand, which is a cell with less room where that part is not the cell itself.
pub fn demand_laws()
    ensures met { DemandsAreMet }
    ensures stay { MetDemandsStay }
    ensures room { RaisesLowerRoom }
{}

/// On valid data and in every space above the first, the abstract value of a well typed term is a
/// window within the range of the term, or a set of some members of its index.
pub fn values_have_ranges()
    ensures { ValuesHaveRanges }
{}
