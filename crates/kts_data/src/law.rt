ghost use Rattle.kts_data.specs.Laws.{DataAreRead, PlansAreRead};

/// An instance is read exactly where a data file says it.
pub fn data_law()
    ensures { DataAreRead }
{}

/// On valid data whose members have names, a schedule is read exactly where a plan file says it.
pub fn plan_law()
    ensures { PlansAreRead }
{}
