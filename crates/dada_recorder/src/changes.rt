//! How the header of a transfer is changed for each of its files (PSRDADA manual: OBS_OFFSET, FILE_NUMBER, FILE_SIZE).
ghost use Rattle.std.specs.Prelude.{◌≡◌, ◌≢◌, ◌+◌, ◌*◌, ◌^◌, ◌<◌, ◌≤◌, length, None, Option, IfErr, OnOk, IsOk, codes};
ghost use Rattle.dada_model.specs.Change.{IsWord, changed};
ghost use Rattle.dada_header.specs.Changes.{IsSet};
ghost use Rattle.psr_base.specs.Fixed.{padded};
ghost use Rattle.stream_model.specs.Recorded.{RecordRefusal, room_refusal, start_time, time_refusal, stands_for, is_time, file_header, record_refusal};
ghost use Rattle.stream_model.specs.RecordedLaws.{HasNumbers, HeaderHasRoom};
ghost use Rattle.dada_recorder.specs.Changes.{recording, Explains, RefusesRecording, change_refusal};

use crate::answers::RecordFault;
use arrayvec::ArrayString;
use dada_header::{Header, SetFault};
use itoa::Buffer;

/// A number with zeros in front, so that it has `digits` digits.
pub(crate) fn padded_number(number: u64, digits: usize) -> ArrayString<16>
    requires some { (1 ≤ digits) × (digits ≤ 16) }
    requires fits { number < 10 ^ digits }
    ensures text { result.bytes ≡ padded digits number }
    ensures len { length result.bytes ≡ digits }
    ensures word { IsWord result.bytes }
{
    let mut buffer = Buffer::new();
    let text = buffer.format(number);
    let zeros = digits.saturating_sub(text.len());
    let mut padded = ArrayString::new();
    for _ in 0..zeros {
        padded.push('0');
    }
    padded.push_str(text);
    padded
}

// Gives a keyword a number of `digits` digits.
fn set_number(header: &mut Header, key: &str, number: u64, digits: usize) -> Result<(), RecordFault>
    requires key { IsWord key.now }
    requires other_than_size { key.now ≢ codes "HDR_SIZE" }
    requires some { (1 ≤ digits) × (digits ≤ 16) }
    requires fits { number < 10 ^ digits }
    ensures set { OnOk result (IsSet key.now (padded digits number) header.old header.new) }
    ensures fault { IfErr result (Explains (room_refusal header.old.size
        (changed key.now (padded digits number) header.old.text))) }
{
    let value = padded_number(number, digits);
    match header.set(key, value.as_str()) {
        Ok(()) => Ok(()),
        Err(SetFault::Overfull { need, size }) => Err(RecordFault::Overfull { need, size }),
    }
}

/// Changes the header of a transfer to that of file `number`.
pub(crate) fn change(
    header: &mut Header,
    offset: u64,
    file_size: u64,
    number: u64,
) -> Result<(), RecordFault>
    requires numbers { HasNumbers
        (recording header.old offset file_size) number }
    requires file_size { file_size < 10 ^ 16 }
    ensures header { let r = recording header.old offset file_size in
        OnOk result (header.new ≡ file_header r number) }
    ensures room { let r = recording header.old offset file_size in
        OnOk result (HeaderHasRoom r number) }
    ensures fault { let r = recording header.old offset file_size in
        IfErr result (λ fault. (later : Option RecordRefusal)
        → Explains (change_refusal r number later) fault) }
    ensures serves { let r = recording header.old offset file_size in
        HeaderHasRoom r number → IsOk result }
{
    match set_number(header, "OBS_OFFSET", offset + number * file_size, 16) {
        Ok(()) => {}
        Err(fault) => return Err(fault),
    }
    match set_number(header, "FILE_NUMBER", number, 6) {
        Ok(()) => {}
        Err(fault) => return Err(fault),
    }
    match set_number(header, "FILE_SIZE", file_size, 16) {
        Ok(()) => Ok(()),
        Err(fault) => Err(fault),
    }
}

// The form of a time in UTC, with a 0 in place of each digit.
const FORM: &[u8] = b"0000-00-00-00:00:00";

// Whether a byte may be at a place where the form has this character.
fn stands(form: u8, byte: u8) -> bool
    ensures { result ≡ stands_for form byte }
{
    if form == b'0' {
        byte.is_ascii_digit()
    } else {
        byte == form
    }
}

// Whether a text has the form of a time in UTC.
fn has_time_form(text: &[u8]) -> bool
    ensures { result ≡ is_time text.now }
{
    if text.len() != FORM.len() {
        return false;
    }
    for i in 0..FORM.len() {
        if !stands(FORM[i], text[i]) {
            return false;
        }
    }
    true
}

// Checks that a header has a UTC_START, and that it has the form of a time.
fn judge_time(header: &Header) -> Result<(), RecordFault>
    ensures ok { OnOk result (time_refusal (start_time header.now) ≡ None) }
    ensures fault { IfErr result (Explains (time_refusal (start_time header.now))) }
{
    match header.get("UTC_START") {
        None => Err(RecordFault::NoUtc),
        Some(time) => {
            if has_time_form(time.as_bytes()) {
                Ok(())
            } else {
                Err(RecordFault::BadUtc)
            }
        }
    }
}

/// Checks that a transfer can be recorded. It has at most `max_bytes` data bytes, the first of them at OBS_OFFSET
/// `offset`; a file has at most `file_size` data bytes. The error is the first cause in the order of `RecordFault`.
///
/// At `Ok`, `header` is changed to the header of file 0. After an error, it may have the changes before the one that
/// failed.
pub fn fits(
    header: &mut Header,
    offset: u64,
    file_size: u64,
    max_bytes: u64,
) -> Result<(), RecordFault>
    requires offset { offset ≤ 10 ^ 15 }
    requires file_size { (1 ≤ file_size) × (file_size ≤ 2 ^ 40) }
    requires limit { max_bytes ≤ 2 ^ 48 }
    ensures accepted { let r = recording header.old offset file_size in
        OnOk result (record_refusal r max_bytes ≡ None) }
    ensures header { let r = recording header.old offset file_size in
        OnOk result (header.new ≡ file_header r 0) }
    ensures refused { let r = recording header.old offset file_size in
        IfErr result (RefusesRecording r max_bytes) }
{
    match judge_time(header) {
        Ok(()) => {}
        Err(fault) => return Err(fault),
    }
    match change(header, offset, file_size, 0) {
        Ok(()) => {}
        Err(fault) => return Err(fault),
    }
    if max_bytes > file_size * 1_000_000 {
        return Err(RecordFault::TooManyFiles);
    }
    Ok(())
}
