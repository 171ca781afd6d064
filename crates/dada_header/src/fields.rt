// Finding the lines of a text that are fields with a key.
ghost use Rattle.std.specs.Prelude.{◌≡◌, ◌≤◌, false, IfSome, IfNone, None, ◌==◌, length, position};
ghost use Rattle.dada_model.specs.Fields.{fields_of, value_of};
ghost use Rattle.dada_model.specs.Change.{has_key};
ghost use Rattle.dada_header.specs.Lines.{IsLineEnd};

use crate::words::{FieldPlaces, Place};
// A law: it does nothing when it runs, and the proofs use what it ensures.
use dada_model::fields_by_lines;

// The place of the first line feed.
fn first_line_feed(text: &[u8]) -> Option<usize>
    ensures { result ≡ position (λ byte. byte == 10) text.now }
{
    text.iter().position(|byte| *byte == b'\n')
}

/// The place where the line that begins at `from` ends.
pub(crate) fn line_end(text: &[u8], from: usize) -> usize
    requires { from ≤ length text.now }
    ensures { IsLineEnd text.now from result }
{
    match first_line_feed(&text[from..]) {
        Some(count) => from + count,
        None => text.len(),
    }
}

impl Place {
    ghost use Rattle.dada_header.specs.Places.{IsValueAt, IsFirstValueAt};

    /// The place of the value of a line, if the line is a field with the key.
    pub(crate) fn of_value(line: &[u8], key: &[u8]) -> Option<Place>
        ensures some { IfSome result (IsValueAt key.now line.now) }
        ensures none { IfNone result (has_key key.now line.now ≡ false) }
    {
        let Some(field) = FieldPlaces::of(line) else {
            return None;
        };
        if &line[field.keyword.start..field.keyword.end] == key {
            Some(field.value)
        } else {
            None
        }
    }

    /// The place of the value of the first field of a text with the key.
    pub(crate) fn of_first_value(text: &[u8], key: &[u8]) -> Option<Place>
        ensures some { IfSome result (IsFirstValueAt key.now text.now) }
        ensures none { IfNone result (value_of key.now (fields_of text.now) ≡ None) }
    {
        fields_by_lines();
        let mut from = 0;
        loop {
            let end = line_end(text, from);
            if let Some(place) = Place::of_value(&text[from..end], key) {
                return Some(Place {
                    start: from + place.start,
                    end: from + place.end,
                });
            }
            if end == text.len() {
                return None;
            }
            from = end + 1;
        }
    }
}
