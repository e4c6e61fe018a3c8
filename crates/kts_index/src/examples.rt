ghost use Rattle.std.specs.Prelude.{◌≡◌, [], ◌∷◌};
ghost use Rattle.kts_index.specs.TaskBound.{bound};
ghost use Rattle.kts_index.specs.WorkedPairs.{Gives, eight_patterns, four_constraints, three_and_two};

/// What eight patterns pair with cells of three choices.
pub fn index_examples()
    ensures two_indexes { Gives 0 (1 ∷ 0 ∷ []) (0 ∷ 2 ∷ 4 ∷ 6 ∷ 11 ∷ 17 ∷ 23 ∷ []) }
    ensures different_members { Gives 1 (0 ∷ 2 ∷ []) (13 ∷ 14 ∷ 21 ∷ 22 ∷ []) }
    ensures equal_members { Gives 1 (1 ∷ 1 ∷ []) (15 ∷ 16 ∷ 17 ∷ 18 ∷ 19 ∷ 20 ∷ []) }
    ensures no_arguments { Gives 2 [] (8 ∷ []) }
    ensures no_such_member { Gives 0 (3 ∷ 2 ∷ []) [] }
    ensures no_such_choice { Gives 3 [] [] }
    ensures bound { bound eight_patterns four_constraints three_and_two ≡ 200 }
{}
