// Laws of the change of a header's field, which the contracts of functions that do nothing carry. A caller whose
// proof needs a law calls its function.
ghost use Rattle.dada_model.specs.ChangeLaws.{ChangeGivesValue, ChangeKeepsOthers, ChangeStaysInPlace, BlankKeepsLength, LastChangeCounts, ChangedIsReadBack};

/// After a change of a key, the key has the new value.
pub fn change_gives_value()
    ensures { ChangeGivesValue }
{}

/// A change of a key leaves the value of every other key as it was.
pub fn change_keeps_others()
    ensures { ChangeKeepsOthers }
{}

/// A change moves no byte of the text.
pub fn change_stays_in_place()
    ensures { ChangeStaysInPlace }
{}

/// A text keeps its length if the fields of a key become blank.
pub fn blank_keeps_length()
    ensures { BlankKeepsLength }
{}

/// If a key is changed twice to values of one width, only the last change counts.
pub fn last_change_counts()
    ensures { LastChangeCounts }
{}

/// A header with room for the change of a key other than HDR_SIZE is read back with the change and with its old size.
pub fn changed_is_read_back()
    ensures { ChangedIsReadBack }
{}
