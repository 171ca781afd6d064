// Laws of the definitions, as functions that do nothing. A caller whose proof needs a law calls its function.
ghost use Rattle.warm_restart.specs.Laws.{TextsSayOne, LinesAreReadBack};
ghost use Rattle.warm_restart.specs.Joins.{PartTextsJoin};

// Laws: they do nothing when they run, and the proofs use what they ensure.
use search_model::{candidates_rise, parts_join};

/// Law: a text stands for at most one checkpoint, and is short; an argument UNTIL stands for at most one number.
pub fn texts_say_one()
    ensures { TextsSayOne }
{}

/// Law: the CHECK line of a checkpoint is read back as that checkpoint.
pub fn lines_are_read_back()
    ensures { LinesAreReadBack }
{}

/// Law: the texts of two neighbouring parts, joined without the last line of the first, are the text of both; and the
/// text of the part that has all spectra is that of the whole search.
pub fn part_texts_join()
    ensures { PartTextsJoin }
{
    candidates_rise();
    parts_join();
}
