ghost use Rattle.kts_code.specs.Laws.{WhatIsOverStays, ItemsAreKept, PicksMatterToTakes};
ghost use Rattle.kts_code.specs.NamedTasks.{RunsNameTasks};
ghost use Rattle.kts_code.specs.Setups.{Setup};
ghost use Rattle.kts_code.specs.Worked.{HasPrinted, GoesOn, HasHalted, at_most_one, first_schedule, all_schedules};
ghost use Rattle.std.specs.Prelude.{[]};

/// What holds of each run of any code, whatever tasks are taken.
pub fn run_laws()
    ensures over { WhatIsOverStays }
    ensures kept { ItemsAreKept }
    ensures picks { PicksMatterToTakes }
    ensures named { (m : Setup) → RunsNameTasks m }
{}

/// The search for two numbers whose sum is at most 1, around the steps at which it prints.
pub fn worked_run()
    ensures before { HasPrinted at_most_one 30 [] }
    ensures first { HasPrinted at_most_one 31 first_schedule }
    ensures whole { HasPrinted at_most_one 75 all_schedules }
    ensures halted { HasHalted at_most_one 97 }
    ensures going { GoesOn at_most_one 96 }
{}
