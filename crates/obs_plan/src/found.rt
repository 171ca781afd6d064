// The value that a header has for a key.
ghost use Rattle.std.specs.Prelude.{◌≡◌, ◌≤◌};
ghost use Rattle.dada_model.specs.Fields.{fields_of};
ghost use Rattle.dada_model.specs.Observation.{default as default_of, decimals as decimals_of};
ghost use Rattle.obs_plan.specs.Found.{Says};

use dada_header::Header;
use dada_model::Key;
use psr_base::{Fixed, NumberFault};

/// The value that a header has for a key, in the units of the key's row.
#[derive(Clone, Copy)]
pub(crate) enum Found {
    /// There is no field with the key, and the key has no default.
    Missing,
    /// The value is no number.
    BadNumber,
    /// The value is a number that is too large to be read.
    TooLarge,
    /// The value, or the default of a key without a field.
    Number(i64),
}

// The number of decimals with which the value of a key is read.
fn decimals(key: Key) -> u32
    ensures value { result ≡ decimals_of key }
    ensures few { result ≤ 9 }
{
    match key {
        Key::Tsamp => 3,
        Key::Freq | Key::Bw => 6,
        _ => 0,
    }
}

// The value of a key that has no field, if there is a default.
fn default(key: Key) -> Option<i64>
    ensures { result ≡ default_of key }
{
    match key {
        Key::Npol | Key::Ndim => Some(1),
        Key::ObsOffset => Some(0),
        _ => None,
    }
}

/// The value that a header has for a key.
pub(crate) fn find(header: &Header, key: Key) -> Found
    ensures { Says (fields_of header.now.text) key result }
{
    let Some(text) = header.get(key.name()) else {
        return match default(key) {
            Some(number) => Found::Number(number),
            None => Found::Missing,
        };
    };
    match Fixed::read(text.as_bytes(), decimals(key)) {
        Ok(number) => Found::Number(number),
        Err(NumberFault::BadNumber { .. }) => Found::BadNumber,
        Err(NumberFault::TooLarge) => Found::TooLarge,
    }
}
