ghost use Rattle.kts_spec.specs.MeaningEquations.{AllTermsMean, AllFormulasMean};
ghost use Rattle.kts_spec.specs.Facts.{SchemasKeep, SpecsKeep, InstancesKeep};
ghost use Rattle.kts_spec.specs.Sums.{PartSumsFit, PartialSumsFit, SumsDecide, RangesKeepTheLimit};
ghost use Rattle.kts_spec.specs.TypedValues.{ValuesKeepKinds};
ghost use Rattle.kts_spec.specs.CellOrder.{TuplesHavePlaces, CellsHaveNumbers, EntriesHaveValues, TablesHaveValues};
ghost use Rattle.kts_spec.specs.Worlds.{World};
ghost use Rattle.std.specs.Prelude.{ℕ, ℤ, List};

/// What each variant of term means on a schedule.
pub fn terms_mean()
    ensures { AllTermsMean }
{}

/// What each variant of formula means on a schedule.
pub fn formulas_mean()
    ensures { AllFormulasMean }
{}

/// What the condition of `Schema::new` says of each schema.
pub fn schemas_keep()
    ensures { SchemasKeep }
{}

/// What the condition of `Spec::new` says of each specification.
pub fn specs_keep()
    ensures { SpecsKeep }
{}

/// When an instance is valid for a schema.
pub fn instances_keep()
    ensures { InstancesKeep }
{}

/// The range of each well typed whole number lies within the limit on numbers.
pub fn ranges_keep_the_limit()
    ensures { RangesKeepTheLimit }
{}

/// The addends of each comparison have ranges, and no sum of the first of them leaves the
/// machine's range.
pub fn partial_sums_fit()
    ensures { PartialSumsFit }
{}

/// The parts of each well typed `+` have ranges, and no sum of the first of them leaves the
/// machine's range.
pub fn part_sums_fit()
    ensures { PartSumsFit }
{}

/// Two numbers compare as the sum of the addends of their comparison says.
pub fn sums_decide()
    ensures { SumsDecide }
{}

/// On valid data the value of a well typed term lies in its range, or is a member of its index.
pub fn values_keep_kinds()
    ensures { ValuesKeepKinds }
{}

/// Tuples, cells, the entries of a text and the tables of givens have one order.
pub fn places_law()
    ensures tuples { (sizes : List ℕ) → TuplesHavePlaces sizes }
    ensures cells { (w : World) → CellsHaveNumbers w }
    ensures entries { (w : World) (schedule : List ℤ) (x : ℕ) → EntriesHaveValues w schedule x }
    ensures tables { TablesHaveValues }
{}
