// Making fields blank.
ghost use Rattle.std.specs.Prelude.{◌≡◌, if◌then◌else◌, length};
ghost use Rattle.dada_model.specs.Change.{spaces, has_key, blanked_line, blanked};

use crate::fields::line_end;
use crate::words::{Place, without_comment};
// A law: it does nothing when it runs, and the proofs use what it ensures.
use dada_model::fields_by_lines;

/// Overwrites all bytes with spaces.
pub(crate) fn fill_spaces(bytes: &mut [u8])
    ensures { bytes.new ≡ spaces (length bytes.old) }
{
    bytes.fill(b' ');
}

// Overwrites a line with spaces, up to its comment.
#[tactic(auto, unfolding(dada_model::specs::Change::blanked_line))]
fn blank_line(line: &mut [u8])
    ensures { line.new ≡ blanked_line line.old }
{
    let end = without_comment(line).len();
    fill_spaces(&mut line[..end]);
}

// Overwrites a line with spaces up to its comment, if it is a field with the key.
fn blank_field(line: &mut [u8], key: &[u8])
    ensures { line.new ≡ (if has_key key.now line.old then blanked_line line.old else line.old) }
{
    if let Some(_) = Place::of_value(line, key) {
        blank_line(line);
    }
}

/// Overwrites each line that is a field with the key with spaces, up to its comment.
pub(crate) fn blank_fields(text: &mut [u8], key: &[u8])
    ensures { text.new ≡ blanked key.now text.old }
{
    fields_by_lines();
    let mut from = 0;
    loop {
        let end = line_end(text, from);
        blank_field(&mut text[from..end], key);
        if end == text.len() {
            return;
        }
        from = end + 1;
    }
}
