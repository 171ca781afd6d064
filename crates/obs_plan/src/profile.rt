// The values that the header of a later file is compared with.
ghost use Rattle.std.specs.Prelude.{◌≡◌};
ghost use Rattle.dada_model.specs.Fields.{fields_of};
ghost use Rattle.dada_model.specs.Observation.{number_of};
ghost use Rattle.obs_plan.specs.Offset.{has_value as has_value_of, offset_or_fault};

use crate::fault::ObsFault;
use crate::found::{Found, find};
use crate::rows::is_within;
use dada_header::Header;
use dada_model::Key;

/// The values that the headers of all files of an observation have in common. TSAMP is in ns, FREQ and BW are in Hz,
/// and BW has its sign.
#[derive(Clone, Copy, PartialEq, Eq, Debug)]
pub struct Profile {
    pub nchan: u32,
    pub nbit: u32,
    pub npol: u32,
    pub ndim: u32,
    pub tsamp_ns: u64,
    pub freq_hz: u64,
    pub bw_hz: i64,
}

// Whether a header has this value for a key. A number that is too large to be read differs from every value.
fn has_value(header: &Header, key: Key, value: i128) -> bool
    ensures { result ≡ has_value_of (number_of (fields_of header.now.text) key) value }
{
    match find(header, key) {
        Found::Number(number) => i128::from(number) == value,
        _ => false,
    }
}

// The OBS_OFFSET of a header, if it is in its range.
fn offset(header: &Header) -> Result<u64, ObsFault>
    ensures { result ≡ offset_or_fault (number_of (fields_of header.now.text) Key.ObsOffset) }
{
    match find(header, Key::ObsOffset) {
        Found::Missing | Found::BadNumber => Err(ObsFault::BadNumber(Key::ObsOffset)),
        Found::Number(number) if is_within(0, 1_000_000_000_000_000, number) => Ok(number as u64),
        _ => Err(ObsFault::OutOfRange(Key::ObsOffset)),
    }
}

impl Profile {
    ghost use Rattle.obs_plan.specs.Later.{profile_values, later_offset_of};

    // The values with their keywords, in the order in which they are compared.
    fn values(&self) -> [(Key, i128); 7]
        ensures { result ≡ profile_values self.now }
    {
        [
            (Key::Nchan, i128::from(self.nchan)),
            (Key::Nbit, i128::from(self.nbit)),
            (Key::Npol, i128::from(self.npol)),
            (Key::Ndim, i128::from(self.ndim)),
            (Key::Tsamp, i128::from(self.tsamp_ns)),
            (Key::Freq, i128::from(self.freq_hz)),
            (Key::Bw, i128::from(self.bw_hz)),
        ]
    }

    /// The OBS_OFFSET of a later header, in bytes, or 0 if it is missing.
    ///
    /// First the seven keywords are compared: `Differs` names the first one whose value is missing, no number or a
    /// different one. A missing NPOL or NDIM counts as 1. Then OBS_OFFSET may be no number or out of range. No other
    /// fault comes.
    pub fn later_offset(&self, later: &Header) -> Result<u64, ObsFault>
        ensures { result ≡ later_offset_of self.now (fields_of later.now.text) }
    {
        for (key, value) in self.values() {
            if !has_value(later, key, value) {
                return Err(ObsFault::Differs(key));
            }
        }
        offset(later)
    }
}
