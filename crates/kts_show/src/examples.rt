ghost use Rattle.std.specs.Prelude.{◌≡◌, [], ◌∷◌, codes, pos};
ghost use Rattle.kts_spec.specs.Examples.{lines, one_choice, no_choice, no_data, release_schema, released_at, nothing, load_schema, two_loads, leg_schema, one_leg, grid_schema, two_by_two};
ghost use Rattle.kts_spec.specs.Texts.{manifests_text};
ghost use Rattle.kts_show.specs.PathTexts.{path_text};
ghost use Rattle.kts_show.specs.TextExamples.{Shows, between, around_zero, any_of};

/// What is printed for small spaces, and what else the definitions compute.
pub fn show_examples()
    ensures windows { Shows leg_schema one_leg (between 0 0 ∷ between 4 4 ∷ []) (codes "node start(a)=0..0 start(b)=4..4") }
    ensures members { Shows load_schema two_loads (any_of (0 ∷ 1 ∷ []) ∷ any_of (0 ∷ []) ∷ []) (codes "node trip(a)={t1,t2} trip(b)={t1}") }
    ensures second_member { Shows load_schema two_loads (any_of (0 ∷ []) ∷ any_of (1 ∷ []) ∷ []) (codes "node trip(a)={t1} trip(b)={t2}") }
    ensures both_kinds { Shows release_schema (released_at 2) (any_of (0 ∷ []) ∷ between 2 3 ∷ []) (codes "node trip(a)={t1} start(t1)=2..3") }
    ensures no_argument { Shows one_choice no_data (between 0 3 ∷ []) (codes "node x()=0..3") }
    ensures below_zero { Shows one_choice no_data (around_zero 12 3 ∷ []) (codes "node x()=-12..3") }
    ensures two_arguments { Shows grid_schema two_by_two (between 0 1 ∷ between 0 0 ∷ between 1 1 ∷ between 0 1 ∷ [])
        (codes "node x(a,c)=0..1 x(a,d)=0..0 x(b,c)=1..1 x(b,d)=0..1") }
    ensures no_cell { Shows release_schema nothing [] (codes "node") }
    ensures no_choice { Shows no_choice no_data [] (codes "node") }
    ensures one_each { manifests_text load_schema two_loads (pos 0 ∷ pos 1 ∷ []) ≡ lines (codes "manifest trip t1 a" ∷ codes "manifest trip t2 b" ∷ []) }
    ensures both_in_one { manifests_text load_schema two_loads (pos 0 ∷ pos 0 ∷ []) ≡ lines (codes "manifest trip t1 a b" ∷ codes "manifest trip t2" ∷ []) }
    ensures path { path_text 4 18 ≡ lines (codes "path 4 bound 18" ∷ []) }
{}
