// Finding the words of a line.
ghost use Rattle.std.specs.Prelude.{◌≡◌, ◌==◌, ◌≤◌, not, IfSome, IfNone, [], drop, length, position};
ghost use Rattle.dada_model.specs.Fields.{is_white, without_comment, words_of, field_of_line};
ghost use Rattle.dada_model.specs.Change.{word_start, word_end};

// A law: it does nothing when it runs, and the proofs use what it ensures.
use dada_model::first_word_of_line;

/// The place of a word: from byte `start` to before byte `end`.
#[derive(Clone, Copy, Drop)]
pub(crate) struct Place {
    pub(crate) start: usize,
    pub(crate) end: usize,
}

/// The places of the two words of a field in its line.
#[derive(Clone, Copy, Drop)]
pub(crate) struct FieldPlaces {
    pub(crate) keyword: Place,
    pub(crate) value: Place,
}

// Whether a byte is a space, tab, carriage return, vertical tab or form feed.
#[tactic(auto, unfolding(dada_model::specs::Fields::is_white))]
fn is_white(byte: u8) -> bool
    ensures { result ≡ is_white byte }
{
    matches!(byte, b' ' | b'\t' | b'\r' | 11 | 12)
}

// The place of the first byte of white space.
fn first_white(line: &[u8]) -> Option<usize>
    ensures { result ≡ position is_white line.now }
{
    line.iter().position(|byte| is_white(*byte))
}

// The place of the first byte that isn't white space.
fn first_graphic(line: &[u8]) -> Option<usize>
    ensures { result ≡ position (λ byte. not (is_white byte)) line.now }
{
    line.iter().position(|byte| !is_white(*byte))
}

// The place of the `#` that begins a comment.
fn comment_start(line: &[u8]) -> Option<usize>
    ensures { result ≡ position (λ byte. byte == 35) line.now }
{
    line.iter().position(|byte| *byte == b'#')
}

/// The part of a line before its comment.
#[tactic(auto, unfolding(dada_model::specs::Fields::without_comment))]
pub(crate) fn without_comment(line: &[u8]) -> &[u8]
    ensures front { result.now ≡ without_comment line.now }
    ensures len { length result.now ≤ length line.now }
{
    match comment_start(line) {
        Some(end) => &line[..end],
        None => line,
    }
}

// The place of the first byte from `from` on that isn't white space, or the end of the line.
fn word_start(line: &[u8], from: usize) -> usize
    requires { from ≤ length line.now }
    ensures start { result ≡ word_start from line.now }
    ensures within { result ≤ length line.now }
{
    match first_graphic(&line[from..]) {
        Some(count) => from + count,
        None => line.len(),
    }
}

// The place after the word that begins at `start`.
fn word_end(line: &[u8], start: usize) -> usize
    requires { start ≤ length line.now }
    ensures end { result ≡ word_end start line.now }
    ensures within { result ≤ length line.now }
{
    match first_white(&line[start..]) {
        Some(count) => start + count,
        None => line.len(),
    }
}

impl Place {
    ghost use Rattle.dada_header.specs.Places.{IsNextWord};

    // The first word of a line that begins at or after `from`.
    fn next_word(line: &[u8], from: usize) -> Option<Place>
        requires { from ≤ length line.now }
        ensures some { IfSome result (IsNextWord line.now from) }
        ensures none { IfNone result (words_of (drop from line.now) ≡ []) }
    {
        first_word_of_line();
        let start = word_start(line, from);
        if start == line.len() {
            return None;
        }
        let end = word_end(line, start);
        Some(Place { start, end })
    }
}

impl FieldPlaces {
    ghost use Rattle.dada_header.specs.Places.{IsFieldAt};

    /// The keyword and the value of a line, if it has both.
    pub(crate) fn of(line: &[u8]) -> Option<FieldPlaces>
        ensures some { IfSome result (IsFieldAt line.now) }
        ensures none { IfNone result (field_of_line line.now ≡ None) }
    {
        let words = without_comment(line);
        let keyword = Place::next_word(words, 0)?;
        let value = Place::next_word(words, keyword.end)?;
        Some(FieldPlaces { keyword, value })
    }
}
