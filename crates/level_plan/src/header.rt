// The header of a levelled file.
ghost use Rattle.std.specs.Prelude.{◌≡◌, ◌≤◌, ◌*◌, ◌^◌, ℕ, Some, pos, IfOk, IfErr, OnOk};
ghost use Rattle.std.specs.Option.{ForSome};
ghost use Rattle.dada_model.specs.Number.{number_value};
ghost use Rattle.dada_model.specs.Change.{IsWord};
ghost use Rattle.dada_header.specs.Changes.{IsOverfull};
ghost use Rattle.psr_base.specs.Fixed.{fixed_text};
ghost use Rattle.level_plan.specs.Plans.{OptionsInRange};
ghost use Rattle.level_plan.specs.Headers.{if_count, told_count, new_count as new_count_of, new_number as new_number_of, with_number, level_header as level_header_of, FindsNoRoom, ExplainsHeader, HasRoom, HasRoomFor, field_name, field_decimals};

use crate::field::{FIELDS, Field};
use crate::plans::written_bits;
use arrayvec::ArrayString;
use dada_header::{Header, SetFault};
use level_words::LevelOptions;
use obs_plan::Observation;
use psr_base::{Fixed, Memory};
use std::alloc::Global;

/// Why a levelled file can't have a header.
#[derive(Clone, Copy, Debug, PartialEq, Eq)]
pub enum HeaderStop {
    /// The changed text doesn't fit into the header: the length that it needs, and the size of the header, both in
    /// bytes.
    Overfull { need: usize, size: usize },
    Memory,
}

// The number of bytes that a value gives, or `None` if it is no such number.
fn count_in(text: &str) -> Option<u64>
    ensures { result ≡ if_count (number_value 0 text.now) }
{
    match Fixed::read(text.as_bytes(), 0) {
        Ok(number) if number >= 0 => Some(number as u64),
        _ => None,
    }
}

// The number of bytes that a field gives, or `None`.
fn told(header: &Header, field: Field) -> Option<u64>
    ensures value { result ≡ told_count field header.now }
    ensures most { ForSome result (λ n. n ≤ 10 ^ 18) }
{
    match header.get(field.name()) {
        Some(text) => count_in(text),
        None => None,
    }
}

// The number of bytes that are written for `count` bytes that are read. `None` if both numbers are the same, or `count`
// is `None`.
fn new_count(options: LevelOptions, observation: &Observation, count: Option<u64>) -> Option<u64>
    requires options { OptionsInRange options }
    requires count { ForSome count (λ n. n ≤ 10 ^ 18) }
    ensures value { result ≡ new_count_of options observation.now count }
    ensures most { ForSome result (λ n. n ≤ 2 * 10 ^ 18) }
{
    observation.lies_in_range();
    let written = u64::from(written_bits(options, observation) / 8);
    let read = u64::from(options.average * (observation.nbit() / 8));
    if written == read {
        return None;
    }
    match count {
        Some(n) => Some(n * written / read),
        None => None,
    }
}

// The new number of a field, or `None` if it doesn't change.
fn new_number(
    options: LevelOptions,
    observation: &Observation,
    header: &Header,
    field: Field,
) -> Option<u64>
    requires { OptionsInRange options }
    ensures value { result ≡ new_number_of options observation.now header.now field }
    ensures most { ForSome result (λ n. n ≤ 2 * 10 ^ 18) }
{
    observation.lies_in_range();
    match field {
        Field::Tsamp => {
            if options.average == 1 {
                None
            } else {
                Some(observation.tsamp_ns() * u64::from(options.average))
            }
        }
        Field::Nbit => {
            let bits = written_bits(options, observation);
            if bits == observation.nbit() {
                None
            } else {
                Some(u64::from(bits))
            }
        }
        _ => new_count(options, observation, told(header, field)),
    }
}

// A number as text, with its last `decimals` digits behind the point.
fn number_text(number: u64, decimals: u32) -> ArrayString<32>
    requires number { number ≤ 2 * 10 ^ 18 }
    requires decimals { decimals ≤ 3 }
    ensures text { result.bytes ≡ fixed_text decimals (pos number) }
    ensures word { IsWord result.bytes }
{
    let mut text = ArrayString::new();
    Fixed::write(number as i64, decimals, &mut text);
    text
}

// Sets a field to its new number, if it has one.
fn set(header: &mut Header, field: Field, number: Option<u64>) -> Result<(), SetFault>
    requires { ForSome number (λ n. n ≤ 2 * 10 ^ 18) }
    ensures ok { OnOk result (header.new ≡ with_number field number header.old) }
    ensures full { IfErr result (λ fault. (n : ℕ) × (number ≡ Some n)
        × IsOverfull (field_name field) (fixed_text (field_decimals field) (pos n)) header.old
        fault) }
    ensures room { OnOk result (HasRoomFor field number header.old) }
{
    match number {
        Some(number) => {
            let text = number_text(number, field.decimals());
            header.set(field.name(), text.as_str())
        }
        None => Ok(()),
    }
}

// Sets each field of a header that changes to its new number. `first` is the header before any change.
fn set_all(
    options: LevelOptions,
    observation: &Observation,
    first: &Header,
    header: &mut Header,
) -> Result<(), SetFault>
    requires options { OptionsInRange options }
    requires same { header.old ≡ first.now }
    ensures ok { OnOk result (header.new ≡ level_header_of options observation.now first.now) }
    ensures full { IfErr result (λ fault.
        FindsNoRoom options observation.now first.now fault) }
    ensures room { OnOk result (HasRoom options observation.now first.now) }
{
    for field in FIELDS.iter() {
        let number = new_number(options, observation, first, *field);
        match set(header, *field, number) {
            Ok(()) => {}
            Err(fault) => return Err(fault),
        }
    }
    Ok(())
}

/// The header of the levelled file of an observation. `header` is the header of the observation.
pub fn level_header(
    alloc: Global,
    options: LevelOptions,
    observation: &Observation,
    header: &Header,
) -> Result<Header, HeaderStop>
    requires { OptionsInRange options }
    ensures ok { IfOk result (λ levelled.
        levelled ≡ level_header_of options observation.now header.now) }
    ensures full { IfErr result (λ stop.
        ExplainsHeader options observation.now header.now stop) }
    ensures room { OnOk result (HasRoom options observation.now header.now) }
{
    let mut levelled = match Header::blank(alloc) {
        Ok(levelled) => levelled,
        Err(_memory) => return Err(HeaderStop::Memory),
    };
    levelled.copy_from(header);
    match set_all(options, observation, header, &mut levelled) {
        Ok(()) => Ok(levelled),
        Err(SetFault::Overfull { need, size }) => Err(HeaderStop::Overfull { need, size }),
    }
}
