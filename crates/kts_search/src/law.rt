ghost use Rattle.kts_search.specs.RunTexts.{WholeTextIsRight};
ghost use Rattle.kts_search.specs.WholeLaws.{WholeCodeSearches, WholeCodeIsThere};
ghost use Rattle.kts_search.specs.Worked.{SearchIsAsWorked};

/// On each valid data the whole code of a specification searches, from every origin: whatever tasks are taken, it prints the
/// schedules of the answer that the origin holds, within the steps that are enough.
pub fn whole_code_searches()
    ensures { WholeCodeSearches }
{}

/// The same as text, from the space of all schedules: of the whole answer where the run has halted, and of its first schedules
/// where the steps are spent.
pub fn whole_text_is_right()
    ensures { WholeTextIsRight }
{}

/// Just those specifications have whole code whose length is at most the limit.
pub fn whole_code_is_there()
    ensures { WholeCodeIsThere }
{}

/// The code of a search with a filter and the tasks of two constraints, instruction by instruction.
pub fn search_is_as_worked()
    ensures { SearchIsAsWorked }
{}
