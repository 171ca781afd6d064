// Changing a field of a text in the bytes of its header.
ghost use Rattle.std.specs.Prelude.{◌≡◌, ◌+◌, ◌-◌, ◌^◌, ◌≤◌, ◌==◌, min, ◌++◌, IfSome, IfNone, length, take, slice_index_or};
ghost use Rattle.dada_model.specs.Fields.{most_header};
ghost use Rattle.dada_model.specs.Change.{line_end, field_line, with_value_between, changed};
ghost use Rattle.dada_header.specs.Changes.{IsOverwrite, IsAppended, IsChangePlan, IsPut, IsReplaced, IsEdited};

use crate::blank::{blank_fields, fill_spaces};
use crate::words::Place;
// A law: it does nothing when it runs, and the proofs use what it ensures.
use dada_model::blank_keeps_length;

// Copies `piece` into `bytes` from `place` on, and returns the place after it.
fn put(bytes: &mut [u8], place: usize, piece: &[u8]) -> usize
    requires { place + length piece.now ≤ length bytes.old }
    ensures { IsPut place piece.now bytes.old bytes.new result }
{
    let end = place + piece.len();
    bytes[place..end].copy_from_slice(piece);
    end
}

// Whether a text is empty or ends in a line feed.
fn is_ended(text: &[u8]) -> bool
    ensures { result ≡ (slice_index_or text.now (length text.now - 1) 10 == 10) }
{
    match text.last() {
        Some(byte) => *byte == b'\n',
        None => true,
    }
}

// The line feed that is needed before another line: none if the text is empty or ends in one.
#[tactic(auto, unfolding(dada_model::specs::Change::line_end))]
fn line_feed_after(text: &[u8]) -> &'static [u8]
    ensures { result.now ≡ line_end text.now }
{
    if is_ended(text) { b"" } else { b"\n" }
}

// The place of the first value of a key, if the new value fits there.
fn overwritten_place(text: &[u8], key: &[u8], value: &[u8]) -> Option<Place>
    ensures some { IfSome result (IsOverwrite key.now value.now text.now) }
    ensures none { IfNone result (IsAppended key.now value.now text.now) }
{
    let Some(place) = Place::of_first_value(text, key) else {
        return None;
    };
    if value.len() <= place.end - place.start {
        Some(place)
    } else {
        None
    }
}

// The length of the text after a line with the field is appended.
fn appended_len(text: &[u8], key: &[u8], value: &[u8]) -> usize
    requires { length text.now ≤ most_header }
    ensures { let line = line_end text.now ++ field_line key.now value.now in
        result ≡ min (length text.now + length line) (2 ^ 64 - 1) }
{
    let line = key.len() + value.len();
    line.saturating_add(text.len() + line_feed_after(text).len() + 2)
}

/// How a text is changed: the place of the value that is overwritten, or `None` if a line is appended, and the length
/// of the changed text.
pub(crate) fn plan(text: &[u8], key: &[u8], value: &[u8]) -> (Option<Place>, usize)
    requires { length text.now ≤ most_header }
    ensures plan { IsChangePlan key.now value.now text.now result.0 }
    ensures need { result.1 ≡ min (length (changed key.now value.now text.now)) (2 ^ 64 - 1) }
{
    blank_keeps_length();
    match overwritten_place(text, key, value) {
        Some(place) => (Some(place), text.len()),
        None => (None, appended_len(text, key, value)),
    }
}

// Writes `value` at the front of `place`, which has room for it, and spaces into the rest of `place`.
fn overwrite(text: &mut [u8], place: Place, value: &[u8])
    requires ordered { place.start + length value.now ≤ place.end }
    requires within { place.end ≤ length text.old }
    ensures { text.new ≡ with_value_between place.start place.end value.now text.old }
{
    let end = put(text, place.start, value);
    fill_spaces(&mut text[end..place.end]);
}

// Writes the line of a field from `place` on, and returns the place after it.
fn put_field(bytes: &mut [u8], place: usize, key: &[u8], value: &[u8]) -> usize
    requires { place + length (field_line key.now value.now) ≤ length bytes.old }
    ensures { IsPut place (field_line key.now value.now) bytes.old bytes.new result }
{
    let end = put(bytes, place, key);
    let end = put(bytes, end, b" ");
    let end = put(bytes, end, value);
    put(bytes, end, b"\n")
}

// In the text that the first `len` bytes are, makes the fields with the key blank and appends a line with the new
// value. Returns the new length of the text.
fn replace(bytes: &mut [u8], len: usize, key: &[u8], value: &[u8]) -> usize
    requires len { len ≤ length bytes.old }
    requires room { let line = line_end (take len bytes.old) ++ field_line key.now value.now in
        len + length line ≤ length bytes.old }
    ensures { IsReplaced key.now value.now len bytes.old bytes.new result }
{
    blank_keeps_length();
    let line_feed = line_feed_after(&bytes[..len]);
    blank_fields(&mut bytes[..len], key);
    let end = put(bytes, len, line_feed);
    put_field(bytes, end, key, value)
}

/// Changes the text that the first `len` bytes are, as `plan` says, and returns its new length.
pub(crate) fn edit(
    bytes: &mut [u8],
    len: usize,
    plan: Option<Place>,
    key: &[u8],
    value: &[u8],
) -> usize
    requires len { len ≤ length bytes.old }
    requires plan { IsChangePlan key.now value.now (take len bytes.old) plan }
    requires room { length (changed key.now value.now (take len bytes.old)) ≤ length bytes.old }
    ensures { IsEdited key.now value.now len bytes.old bytes.new result }
{
    blank_keeps_length();
    match plan {
        Some(place) => {
            overwrite(&mut bytes[..len], place, value);
            len
        }
        None => replace(bytes, len, key, value),
    }
}
