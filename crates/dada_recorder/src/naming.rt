//! The names of recorded files.
ghost use Rattle.std.specs.Prelude.{◌≡◌, ◌+◌, ◌*◌, ◌≤◌, ◌++◌, None, Some, length};
ghost use Rattle.stream_model.specs.Recorded as model;
ghost use Rattle.stream_model.specs.Recorded.{start_time, time_refusal};
ghost use Rattle.stream_model.specs.RecordedLaws.{HasNumbers};
ghost use Rattle.dada_recorder.specs.Changes.{recording};

use crate::changes::padded_number;
use arrayvec::ArrayString;
use dada_header::Header;

// The UTC_START of a header.
fn start_text(header: &Header) -> &str
    requires time { time_refusal (start_time header.now) ≡ None }
    ensures is { start_time header.now ≡ Some result.now }
    ensures len { length result.now ≡ 19 }
{
    match header.get("UTC_START") {
        Some(time) => time,
        None => unreachable!(),
    }
}

// Appends a text to a name.
fn add(name: &mut ArrayString<64>, text: &str)
    requires room { length name.old.bytes + length text.now ≤ 64 }
    ensures bytes { name.new.bytes ≡ name.old.bytes ++ text.now }
    ensures len { length name.new.bytes ≡ length name.old.bytes + length text.now }
{
    name.push_str(text);
}

/// The name of file `number` of a transfer: the UTC_START of the transfer, the OBS_OFFSET of the file's first data
/// byte, and the file's number.
pub(crate) fn file_name(
    header: &Header,
    offset: u64,
    file_size: u64,
    number: u64,
) -> ArrayString<64>
    requires time { time_refusal (start_time header.now) ≡ None }
    requires numbers { HasNumbers
        (recording header.now offset file_size) number }
    ensures { result.bytes ≡ model.file_name (recording header.now offset file_size) number }
{
    let mut name = ArrayString::new();
    add(&mut name, start_text(header));
    add(&mut name, "_");
    add(
        &mut name,
        padded_number(offset + number * file_size, 16).as_str(),
    );
    add(&mut name, ".");
    add(&mut name, padded_number(number, 6).as_str());
    add(&mut name, ".dada");
    name
}
