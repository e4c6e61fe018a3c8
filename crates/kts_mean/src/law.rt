ghost use Rattle.kts_mean.specs.Broken.{KeptAreAnswers};

/// A schedule breaks no formula exactly where it is one of the answer.
pub fn kept_law()
    ensures { KeptAreAnswers }
{}
