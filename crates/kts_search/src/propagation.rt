ghost use Rattle.kts_search.specs.Propagation.{PropagationSettles};
ghost use Rattle.kts_search.specs.SearchParts.{SpecificationsSearch};
ghost use Rattle.kts_search.specs.Searches.{CodeSearches, PrintsAnswers};

/// Whatever tasks are taken: propagation ends at the least solution, or where there is none the last
/// choice is undone; the search writes its walk within the steps that are enough; and it prints the
/// answer, from every origin the part that the origin holds.
pub fn search_in_any_order()
    ensures settles { PropagationSettles }
    ensures searches { CodeSearches }
    ensures prints { PrintsAnswers }
{}

/// Code with the bodies of a specification's constraints behind its filters searches in this way, where
/// its patterns pair each task with each cell that it reads, and maybe with more.
pub fn specifications_search()
    ensures { SpecificationsSearch }
{}
