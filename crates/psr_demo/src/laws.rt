// A law of the definitions, which the contract of a function that does nothing carries.
ghost use Rattle.psr_demo.specs.Laws.{EndsInItsEndLine};

// A law: it does nothing when it runs, and the proof uses what it ensures.
use search_model::samples_of_bytes;

/// The END line of a summary is the last line of the text of its search, if there are no more candidates than that
/// search writes.
pub fn text_ends_in_its_end_line()
    ensures { EndsInItsEndLine }
{
    samples_of_bytes();
}
