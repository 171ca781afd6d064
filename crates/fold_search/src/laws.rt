// A law of lists of candidates, as a function that does nothing.
ghost use Rattle.fold_search.specs.Laws.{DelaysArePart};

/// Law: if candidates are listed delay by delay, those of some delays are those that are listed for these.
pub fn delays_are_part()
    ensures { DelaysArePart }
{}
