ghost use Rattle.std.specs.Prelude.{[], ◌∷◌, codes};
ghost use Rattle.kts_spec.specs.declared.declarations.Decl.TheVariants.{Index, Choose, Manifest};
ghost use Rattle.kts_spec.specs.Examples.{Prints, PrintsAtFirst, Allows, one_choice, at_most_one, at_most_one_text, at_most_one_begun, no_choice, at_most, no_data, no_choice_text, none_line, release_schema, release, released_at, one_trip_text, no_request, no_request_text, no_trip, nothing, nothing_text, two_trips, two_trips_answer, release_and_idle, idle_answer, load_schema, capacity, two_loads, capacity_text, leg_schema, separation, one_leg, separation_text, full_row, two_by_two, full_row_begun};
ghost use Rattle.kts_spec.specs.Examples.{number, lines, grid_schema, below};
ghost use Rattle.std.specs.Prelude.{◌*◌, pos, suc, true, false, Some, None};
ghost use Rattle.kts_base.specs.Limits.{most_indexes, most_givens, most_choices, most_formulas, most_trees, most_depth, most_parts, most_addends, most_members, most_type_end};
ghost use Rattle.kts_spec.specs.declared.declarations.ValueType.TheVariants.{Member};
ghost use Rattle.kts_spec.specs.declared.ending.Ending.TheVariants.{End, First, Budget};
ghost use Rattle.kts_spec.specs.Texts.{ending_text};
ghost use Rattle.kts_spec.specs.DataExamples.{IsValid, IsInvalid, sized, named, released, without_table, with_table_more, one_index, grid_and_one, ten_triples, ten_triples_and_one, next_schema, next_of, triple, minus};
ghost use Rattle.kts_spec.specs.Refusals.{IsDeclared, IsNotDeclared, IsNotTyped, IsManifest, IsNoManifest, IsNotDeclaredOver, IsAccepted, IsRefused, n, product_with, over_variables, for_each, member_as_number, sum_of_parts, number_as_member, has_indexes, has_givens, has_choices, has_formulas, is_small, kind_of_sum, sum_below_difference};
ghost use Rattle.kts_spec.specs.Typing.{Whole};
ghost use Rattle.kts_spec.specs.Sizes.{size_of_formula};
ghost use Rattle.std.specs.Prelude.{◌≡◌};
ghost use Rattle.kts_spec.specs.declared.tree.Comparison.TheVariants.{Lt, Ge};
ghost use Rattle.kts_spec.specs.Addends.{addends_between};
ghost use Rattle.kts_spec.specs.SummedExamples.{left, right, left_below_right, right_at_most_left};

use crate::tree::Formula;

/// Small specifications on small data, and what is printed for them.
pub fn worked_examples()
    ensures one_choice { Prints one_choice at_most_one no_data at_most_one_text }
    ensures one_choice_in_part { PrintsAtFirst one_choice at_most_one no_data 1 at_most_one_begun }

    ensures no_choice { Prints no_choice (at_most 0 0) no_data no_choice_text }
    ensures no_choice_none { Prints no_choice (at_most 1 0) no_data none_line }

    ensures one_trip { Prints release_schema release (released_at 2) one_trip_text }
    ensures late_release { Prints release_schema release (released_at 4) none_line }
    ensures no_request { Prints release_schema release no_request no_request_text }
    ensures no_trip { Prints release_schema release no_trip none_line }
    ensures nothing { Prints release_schema release nothing nothing_text }
    ensures two_trips { Allows release_schema release two_trips two_trips_answer }
    ensures idle_trip { Allows release_schema release_and_idle two_trips idle_answer }

    ensures manifest { Prints load_schema capacity two_loads capacity_text }
    ensures inner_access { Prints leg_schema separation one_leg separation_text }
    ensures two_arguments { PrintsAtFirst grid_schema full_row two_by_two 2 full_row_begun }
{}

/// The last line of a run, however it ended.
pub fn ending_examples()
    ensures found_none { ending_text (End 0) ≡ lines (codes "none" ∷ []) }
    ensures found_all { ending_text (End 12) ≡ lines (codes "end 12" ∷ []) }
    ensures none_asked_for { ending_text (First 0) ≡ lines (codes "first 0" ∷ []) }
    ensures as_many_as_asked_for { ending_text (First 2) ≡ lines (codes "first 2" ∷ []) }
    ensures none_in_time { ending_text (Budget 0) ≡ lines (codes "budget 0" ∷ []) }
    ensures some_in_time { ending_text (Budget 3) ≡ lines (codes "budget 3" ∷ []) }
{}

/// Data that no schema allows, and beside them near ones that it does.
pub fn data_examples()
    ensures most_members { IsValid one_index (sized (most_members ∷ [])) }
    ensures member_too_many { IsInvalid one_index (sized (suc most_members ∷ [])) }
    ensures no_member { IsValid one_index (named []) }
    ensures member_twice { IsInvalid one_index (named (codes "a" ∷ codes "b" ∷ codes "a" ∷ [])) }
    ensures one_name_begins_another { IsValid one_index (named (codes "a" ∷ codes "aa" ∷ [])) }
    ensures index_missing { IsInvalid one_index (sized []) }
    ensures index_too_many { IsInvalid one_index (sized (1 ∷ 1 ∷ [])) }

    ensures most_cells { IsValid grid_schema (sized (32 ∷ 32 ∷ [])) }
    ensures cell_too_many { IsInvalid grid_and_one (sized (32 ∷ 32 ∷ [])) }
    ensures cells_of_both { IsValid grid_and_one (sized (31 ∷ 33 ∷ [])) }
    ensures most_tasks { IsValid ten_triples (sized (50 ∷ 40 ∷ [])) }
    ensures task_too_many { IsInvalid ten_triples_and_one (sized (50 ∷ 40 ∷ [])) }
    ensures tasks_of_all { IsValid ten_triples_and_one (sized (50 ∷ 39 ∷ [])) }

    ensures table { IsValid release_schema (released (pos 0 ∷ pos 20 ∷ [])) }
    ensures value_too_large { IsInvalid release_schema (released (pos 0 ∷ pos 21 ∷ [])) }
    ensures value_too_small { IsInvalid release_schema (released (minus 1 ∷ pos 20 ∷ [])) }
    ensures value_missing { IsInvalid release_schema (released (pos 0 ∷ [])) }
    ensures value_too_many { IsInvalid release_schema (released (pos 0 ∷ pos 1 ∷ pos 2 ∷ [])) }
    ensures table_missing { IsInvalid release_schema without_table }
    ensures table_too_many { IsInvalid release_schema with_table_more }
    ensures member_values { IsValid next_schema (next_of (triple (pos 1) (pos 2) (pos 0))) }
    ensures no_such_member { IsInvalid next_schema (next_of (triple (pos 1) (pos 2) (pos 3))) }
    ensures member_below_the_first { IsInvalid next_schema (next_of (triple (pos 1) (pos 2) (minus 1))) }
{}

/// What no specification may have, and beside it what one may.
pub fn refused_examples()
    ensures declared { IsDeclared (Index 0 ∷ Choose 0 ∷ []) (codes "I") (codes "x") }
    ensures used_before { IsNotDeclared (Choose 0 ∷ Index 0 ∷ []) (codes "I") (codes "x") }
    ensures declared_twice { IsNotDeclared (Index 0 ∷ Choose 0 ∷ Choose 0 ∷ []) (codes "I") (codes "x") }
    ensures not_declared { IsNotDeclared (Index 0 ∷ []) (codes "I") (codes "x") }
    ensures one_name { IsNotDeclared (Index 0 ∷ Choose 0 ∷ []) (codes "I") (codes "I") }
    ensures reserved_word { IsNotDeclared (Index 0 ∷ Choose 0 ∷ []) (codes "I") (codes "sum") }
    ensures digit_first { IsNotDeclared (Index 0 ∷ Choose 0 ∷ []) (codes "I") (codes "1x") }
    ensures manifest_twice { IsNotDeclared (Index 0 ∷ Choose 0 ∷ Manifest 0 ∷ Manifest 0 ∷ []) (codes "I") (codes "x") }
    ensures manifest { IsManifest (0 ∷ []) (Member 0) }
    ensures manifest_of_pairs { IsNoManifest (0 ∷ 0 ∷ []) (Member 0) }
    ensures manifest_without_argument { IsNoManifest [] (Member 0) }
    ensures manifest_of_numbers { IsNoManifest (0 ∷ []) (below 5) }
    ensures three_arguments { IsNotDeclaredOver (0 ∷ 0 ∷ 0 ∷ []) }
    ensures ends_crossed { IsNotTyped 3 2 }
    ensures end_too_large { IsNotTyped 0 (suc most_type_end) }

    ensures range_at_the_limit { IsAccepted (product_with (number 1000)) }
    ensures range_beyond { IsRefused (product_with n) }
    ensures three_in_a_prefix { IsAccepted (over_variables 3) }
    ensures four_in_a_prefix { IsRefused (for_each (over_variables 3)) }
    ensures eight_in_scope { IsAccepted (Formula.Not (over_variables 8)) }
    ensures nine_in_scope { IsRefused (for_each (Formula.Not (over_variables 8))) }
    ensures member_as_number { IsRefused member_as_number }
    ensures number_as_member { IsRefused number_as_member }
    ensures two_parts { IsAccepted (sum_of_parts (n ∷ n ∷ [])) }
    ensures one_part { IsRefused (sum_of_parts (n ∷ [])) }
{}

/// As many declarations, formulas and trees as a specification may have, and one more.
pub fn limit_examples()
    ensures indexes { has_indexes most_indexes ≡ true }
    ensures index_too_many { has_indexes (suc most_indexes) ≡ false }
    ensures givens { has_givens most_givens ≡ true }
    ensures given_too_many { has_givens (suc most_givens) ≡ false }
    ensures choices { has_choices most_choices ≡ true }
    ensures choice_too_many { has_choices (suc most_choices) ≡ false }
    ensures formulas { has_formulas most_formulas ≡ true }
    ensures formula_too_many { has_formulas (suc most_formulas) ≡ false }
    ensures largest { is_small most_trees most_depth most_addends ≡ true }
    ensures tree_too_many { is_small (suc most_trees) most_depth most_addends ≡ false }
    ensures too_deep { is_small most_trees (suc most_depth) most_addends ≡ false }
    ensures addend_too_many { is_small most_trees most_depth (suc most_addends) ≡ false }
    ensures parts { kind_of_sum most_parts ≡ Some (Whole (pos 0, pos (most_parts * most_type_end))) }
    ensures part_too_many { kind_of_sum (suc most_parts) ≡ None }
    ensures size { size_of_formula sum_below_difference ≡ record { trees = 11; depth = 4; addends = 1; widest = 5 } }
{}

/// A comparison of nested sums, and its negation, as the addends of one sum.
pub fn summed_examples()
    ensures written { addends_between Lt left right ≡ left_below_right }
    ensures negated { addends_between Ge left right ≡ right_at_most_left }
{}
