// Laws of headers, which the contracts of functions that do nothing carry. A caller whose
// proof needs a law calls its function.
ghost use Rattle.dada_model.specs.FieldLaws.{FirstWordOfLine, FieldsByLines};
ghost use Rattle.dada_model.specs.ChangeLaws.{HeadersByFront, HeadersAreText, BlankIsReadBack, HeadersAreReadBack};

/// The first word of a part of a line begins after white space and ends before white space.
pub fn first_word_of_line()
    ensures { FirstWordOfLine }
{}

/// The fields of a text are found line by line, and a change of a text is made line by line.
pub fn fields_by_lines()
    ensures { FieldsByLines }
{}

/// A file that begins with the bytes of a header has that header.
pub fn headers_by_front()
    ensures { HeadersByFront }
{}

/// A header that is read back has a size of 4096 to 65536 bytes, and its text is ASCII without NUL and no longer than
/// the size.
pub fn headers_are_text()
    ensures { HeadersAreText }
{}

/// A header of the smallest size with an empty text is read back from its bytes.
pub fn blank_is_read_back()
    ensures { BlankIsReadBack }
{}

/// A header that was read is read back from its bytes.
pub fn headers_are_read_back()
    ensures { HeadersAreReadBack }
{}
