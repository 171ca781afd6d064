// Laws of rows, which the contracts of functions that do nothing carry. A caller whose proof needs a law calls its
// function.
ghost use Rattle.option_rows.specs.Laws.{ValuesAreAllowed, NoneFails};

/// If the limits of a row allow its default, the value of an option in that row is a number that they allow.
pub fn values_are_allowed()
    ensures { ValuesAreAllowed }
{}

/// If no option is the first of a list that fails a test, each of the list passes it.
pub fn none_fails<O>()
    ensures { NoneFails O }
{}
