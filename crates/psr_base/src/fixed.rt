// Numbers with a fixed count of decimals, as headers and command lines have them.
ghost use Rattle.std.specs.Prelude.{◌≡◌, ◌↔◌, IsTrue, [], ℕ, ◌*◌, ◌/◌, ◌^◌, ◌+◌, ◌++◌, ◌≤◌, ◌<◌, All, length, if◌then◌else◌, Some, pos, neg_ℤ, unsigned_abs, IfOk, IfErr};
ghost use Rattle.std.specs.Char.{IsAsciiDigit, digit_value};
ghost use Rattle.std.specs.Str.Parse.{digits_value, digits_value_after};
ghost use Rattle.dada_model.specs.Number.{number_value};
ghost use Rattle.psr_base.specs.Fixed.{ExplainsNumber, fixed_text, padded, unsigned_text};
ghost use Rattle.psr_base.specs.Spelling.{BeginsWithoutDigit, SplitsSign, SplitsDigits, SplitsFraction, SplitsNumber, capped};

use arrayvec::ArrayString;
// A law: it does nothing when it runs, and the proofs use what it ensures.
use dada_model::numbers_are_spelled;
use itoa::Buffer;
use thiserror::Error;

/// The largest absolute value that is read, in units of the last decimal.
const MOST: u64 = 1_000_000_000_000_000_000;

/// Why a text isn't read as a number.
#[derive(Clone, Copy, Debug, PartialEq, Eq, Drop, Error)]
pub enum NumberFault {
    /// The text is no number. `place` is the first byte with which it stops being the beginning of a number, or its
    /// length if there is no such byte.
    #[error("no number from byte {place} on")]
    BadNumber { place: usize },
    /// The text is a number, but its absolute value is above 10^18 units of the last decimal.
    #[error("the number is too large")]
    TooLarge,
}

// Whether a text begins with a minus, and the rest of the text after its sign, if it has one.
fn split_sign(text: &[u8]) -> (bool, &[u8])
    ensures { SplitsSign text.now result.0 result.1.now }
{
    match text.first() {
        Some(b'-') => (true, &text[1..]),
        Some(b'+') => (false, &text[1..]),
        _ => (false, text),
    }
}

// The digits that a text begins with, and the rest of the text.
fn split_digits(text: &[u8]) -> (&[u8], &[u8])
    ensures { SplitsDigits text.now result.0.now result.1.now }
{
    let end = text.iter().position(|byte| !byte.is_ascii_digit());
    text.split_at(end.unwrap_or(text.len()))
}

// The digits after the point that a text begins with, and the rest of the text.
fn split_fraction(text: &[u8]) -> (&[u8], &[u8])
    requires { BeginsWithoutDigit text.now }
    ensures { SplitsFraction text.now result.0.now result.1.now }
{
    match text {
        [b'.', rest @ ..] => split_digits(rest),
        _ => text.split_at(0),
    }
}

// The parts of a text that may be a number: the digits before the point, the digits after it, and the rest.
#[derive(Clone, Copy)]
struct Parts<'a> {
    negative: bool,
    whole: &'a [u8],
    fraction: &'a [u8],
    rest: &'a [u8],
}

impl Parts<'_> {
    // Whether the parts are a number: there are digits, and there is no rest.
    fn are_number(&self) -> bool
        ensures { IsTrue result
            ↔ ((self.now.rest.now ≡ [])
            × (0 < length (self.now.whole.now ++ self.now.fraction.now))) }
    {
        self.rest.is_empty() && !(self.whole.is_empty() && self.fraction.is_empty())
    }
}

// Splits a text into its parts.
fn split_number(text: &[u8]) -> Parts<'_>
    ensures { SplitsNumber text.now result.negative result.whole.now result.fraction.now
        result.rest.now }
{
    let (negative, unsigned) = split_sign(text);
    let (whole, after_whole) = split_digits(unsigned);
    let (fraction, rest) = split_fraction(after_whole);
    Parts {
        negative,
        whole,
        fraction,
        rest,
    }
}

// `number` with one more digit, or `MOST + 1` if that is less.
fn append_digit(number: u64, digit: u8) -> u64
    requires bound { number ≤ MOST + 1 }
    requires digit { IsAsciiDigit digit }
    ensures { result ≡ capped (number * 10 + digit_value digit) }
{
    (number * 10 + u64::from(digit - b'0')).min(MOST + 1)
}

// `number` with more digits, or `MOST + 1` if that is less.
fn append_digits(mut number: u64, digits: &[u8]) -> u64
    requires bound { number ≤ MOST + 1 }
    requires digits { All IsAsciiDigit digits.now }
    ensures value { (n : ℕ) → number ≡ capped n
        → result ≡ capped (digits_value_after 10 n digits.now) }
    ensures bound { result ≤ MOST + 1 }
{
    for digit in digits {
        number = append_digit(number, *digit);
    }
    number
}

// `number` with `zeros` zeros after it, or `MOST + 1` if that is less.
fn append_zeros(number: u64, zeros: u32) -> u64
    requires { zeros ≤ 9 }
    ensures { (n : ℕ) → number ≡ capped n → result ≡ capped (n * 10 ^ zeros) }
{
    number.saturating_mul(10u64.pow(zeros)).min(MOST + 1)
}

// The number with the digits `whole` before the point and `fraction` after it, in units of the last of `decimals`
// decimals, or `MOST + 1` if that is less. Further digits are dropped.
fn magnitude(whole: &[u8], fraction: &[u8], decimals: u32) -> u64
    requires decimals { decimals ≤ 9 }
    requires whole { All IsAsciiDigit whole.now }
    requires fraction { All IsAsciiDigit fraction.now }
    ensures { result ≡ capped (digits_value 10 (whole.now ++ fraction.now) * 10 ^ decimals
        / 10 ^ length fraction.now) }
{
    let kept = fraction.len().min(decimals as usize);
    let number = append_digits(append_digits(0, whole), &fraction[..kept]);
    append_zeros(number, decimals - kept as u32)
}

// The number with this sign and this absolute value.
fn signed(negative: bool, magnitude: u64) -> i64
    requires { magnitude ≤ MOST }
    ensures value { result ≡ (if negative then neg_ℤ (pos magnitude) else pos magnitude) }
    ensures magnitude { unsigned_abs result ≡ magnitude }
{
    if negative {
        -(magnitude as i64)
    } else {
        magnitude as i64
    }
}

// Appends a number with zeros in front, so that it has `digits` digits.
fn push_padded(number: u64, digits: u32, into: &mut ArrayString<32>)
    requires digits { digits ≤ 9 }
    requires room { length into.old.bytes ≤ 22 }
    requires fits { number < 10 ^ digits }
    ensures { into.new.bytes ≡ into.old.bytes ++ padded digits number }
{
    let mut buffer = Buffer::new();
    let text = buffer.format(number);
    let zeros = (digits as usize).saturating_sub(text.len());
    for _ in 0..zeros {
        into.push('0');
    }
    into.push_str(text);
}

// How many units of the last of `decimals` decimals make 1.
fn units(decimals: u32) -> u64
    requires { decimals ≤ 9 }
    ensures value { result ≡ 10 ^ decimals }
    ensures bounds { (1 ≤ result) × (result ≤ 10 ^ 9) }
{
    10u64.pow(decimals)
}

// Appends a number without a sign, given in units of the last of `decimals` decimals.
fn push_unsigned(number: u64, decimals: u32, into: &mut ArrayString<32>)
    requires decimals { decimals ≤ 9 }
    requires room { length into.old.bytes ≤ 1 }
    ensures { into.new.bytes ≡ into.old.bytes ++ unsigned_text decimals number }
{
    let units = units(decimals);
    let mut buffer = Buffer::new();
    into.push_str(buffer.format(number / units));
    if decimals > 0 {
        into.push('.');
        push_padded(number % units, decimals, into);
    }
}

// Replaces what `into` holds by the text of `value`, given in units of the last of `decimals` decimals.
fn put(value: i64, decimals: u32, into: &mut ArrayString<32>)
    requires { decimals ≤ 9 }
    ensures { into.new.bytes ≡ fixed_text decimals value }
{
    into.clear();
    if value < 0 {
        into.push('-');
    }
    push_unsigned(value.unsigned_abs(), decimals, into);
}

/// Reads and writes numbers with a fixed count of decimals. A number is kept as a whole number of units of the last
/// decimal.
pub struct Fixed;

impl Fixed {
    /// Reads a number, in units of the last of `decimals` decimals: with 3 decimals, `1.5` is 1500. Further digits are
    /// dropped. A text that is no number is refused, and so is an absolute value above 10^18 of these units.
    pub fn read(text: &[u8], decimals: u32) -> Result<i64, NumberFault>
        requires { decimals ≤ 9 }
        ensures value { IfOk result (λ z. number_value decimals text.now ≡ Some z) }
        ensures bound { IfOk result (λ z. unsigned_abs z ≤ 10 ^ 18) }
        ensures fault { IfErr result (λ fault. ExplainsNumber decimals text.now fault) }
    {
        numbers_are_spelled();
        let parts = split_number(text);
        if !parts.are_number() {
            let place = text.len() - parts.rest.len();
            return Err(NumberFault::BadNumber { place });
        }
        let magnitude = magnitude(parts.whole, parts.fraction, decimals);
        if magnitude > MOST {
            return Err(NumberFault::TooLarge);
        }
        Ok(signed(parts.negative, magnitude))
    }

    /// Replaces what `into` holds by the text of `value`, given in units of the last of `decimals` decimals.
    pub fn write(value: i64, decimals: u32, into: &mut ArrayString<32>)
        requires { decimals ≤ 9 }
        ensures text { into.new.bytes ≡ fixed_text decimals value }
        ensures read_again { number_value decimals into.new.bytes ≡ Some value }
    {
        numbers_are_spelled();
        put(value, decimals, into);
    }
}
