// The numbers of a header, each checked against the row of its keyword.
ghost use Rattle.std.specs.Prelude.{◌≡◌, ℤ, ◌+◌, ◌*◌, ◌^◌, ◌<◌, ◌≤◌, ◌↔◌, IsTrue, Ok, pos, IfOk, IfErr, unsigned_abs};
ghost use Rattle.dada_model.specs.Edges.{top_khz, most_centre_hz};
ghost use Rattle.dada_model.specs.Fields.{fields_of};
ghost use Rattle.dada_model.specs.Observation.{outside as outside_of, number_of, is_in_row, is_within as is_within_of, Observation};
ghost use Rattle.obs_plan.specs.Faults.{IsObservationRefusal, IsRefusedAt};
ghost use Rattle.obs_plan.specs.Rows.{LargeIsOutside, IsTaken, IsBand};

use crate::fault::ObsFault;
use crate::found::{Found, find};
use dada_header::Header;
use dada_model::Key;
// A law: it does nothing when it runs, and the proofs use what it ensures.
use dada_model::bands_in_row;

// The highest edge of a band, in kHz.
const TOP_KHZ: u64 = 1 << 24;

// The fault of a number outside the row of its key.
fn outside(key: Key) -> ObsFault
    ensures { IsObservationRefusal (λ refusal. refusal ≡ outside_of key) result }
{
    match key {
        Key::Nbit | Key::Npol | Key::Ndim => ObsFault::OutOfProfile(key),
        _ => ObsFault::OutOfRange(key),
    }
}

// The number of a key, which may be outside the key's row.
fn number(header: &Header, key: Key) -> Result<i64, ObsFault>
    requires { LargeIsOutside (fields_of header.now.text) key }
    ensures number { IfOk result (λ z. number_of (fields_of header.now.text) key ≡ Ok z) }
    ensures fault { IfErr result (IsRefusedAt (fields_of header.now.text) key) }
{
    match find(header, key) {
        Found::Missing => Err(ObsFault::Missing(key)),
        Found::BadNumber => Err(ObsFault::BadNumber(key)),
        Found::TooLarge => Err(outside(key)),
        Found::Number(number) => Ok(number),
    }
}

/// Whether a number lies between `least` and `most`, both included.
pub(crate) fn is_within(least: i64, most: i64, number: i64) -> bool
    ensures { result ≡ is_within_of least most number }
{
    least <= number && number <= most
}

/// The number of a key whose row goes from `least` to `most`.
pub(crate) fn number_in(header: &Header, key: Key, least: u32, most: u64) -> Result<u64, ObsFault>
    requires row { (o : Observation) (z : ℤ) →
        is_in_row o key z ≡ is_within_of (pos least) (pos most) z }
    requires bound { most ≤ 10 ^ 17 }
    ensures taken { IfOk result (λ n. IsTaken (fields_of header.now.text) key (pos n)) }
    ensures bounds { IfOk result (λ n. (least ≤ n) × (n ≤ most)) }
    ensures fault { IfErr result (IsRefusedAt (fields_of header.now.text) key) }
{
    let number = number(header, key)?;
    if is_within(i64::from(least), most as i64, number) {
        Ok(number as u64)
    } else {
        Err(outside(key))
    }
}

/// The value of NBIT: 8 or 16.
pub(crate) fn bits(header: &Header) -> Result<u64, ObsFault>
    ensures taken { IfOk result (λ n. IsTaken (fields_of header.now.text) Key.Nbit (pos n)) }
    ensures bounds { IfOk result (λ n. (8 ≤ n) × (n ≤ 16)) }
    ensures fault { IfErr result (IsRefusedAt (fields_of header.now.text) Key.Nbit) }
{
    let number = number(header, Key::Nbit)?;
    if is_within(8, 8, number) || is_within(16, 16, number) {
        Ok(number as u64)
    } else {
        Err(outside(Key::Nbit))
    }
}

// Whether the foot of a band is at 1 kHz or above, and its top at the highest edge or below.
fn is_band(width_hz: u64, centre_hz: u64) -> bool
    requires width { width_hz ≤ 2 ^ 63 }
    requires centre { centre_hz ≤ most_centre_hz }
    ensures { IsTrue result ↔ IsBand width_hz centre_hz }
{
    0 < width_hz
        && width_hz + 2000 <= 2 * centre_hz
        && 2 * centre_hz + width_hz < 2000 * (TOP_KHZ + 1)
}

/// The value of BW in Hz, if the band is one that is accepted.
pub(crate) fn band(header: &Header, channels: u64, centre_hz: u64) -> Result<i64, ObsFault>
    requires channels { number_of (fields_of header.now.text) Key.Nchan ≡ Ok (pos channels) }
    requires some { 0 < channels }
    requires centre { number_of (fields_of header.now.text) Key.Freq ≡ Ok (pos centre_hz) }
    requires high { centre_hz ≤ most_centre_hz }
    ensures taken { IfOk result (λ z. IsTaken (fields_of header.now.text) Key.Bw z) }
    ensures narrow { IfOk result (λ z. unsigned_abs z < 2000 * (top_khz + 1)) }
    ensures fault { IfErr result (IsRefusedAt (fields_of header.now.text) Key.Bw) }
{
    bands_in_row();
    let width = number(header, Key::Bw)?;
    if is_band(width.unsigned_abs(), centre_hz) {
        Ok(width)
    } else {
        Err(outside(Key::Bw))
    }
}
