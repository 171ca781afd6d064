// A row of a table of options.
ghost use Rattle.std.specs.Prelude.{◌≡◌, ◌≤◌, ◌^◌, pos, option_map, option_and_then};
ghost use Rattle.option_rows.specs.Rows.{number_read, limits_allow, value_in_row, greatest_of, if_allowed, FitsReader};

use dada_model::whole_number;
use psr_base::Fixed;

/// How a value is read.
#[derive(Clone, Copy)]
pub enum Reader {
    /// As 1 to 19 decimal digits.
    Whole,
    /// As a number with this many decimals, at most 9, in units of the last of them.
    Decimals(u32),
}

/// Which numbers are allowed as a value.
#[derive(Clone, Copy)]
pub enum Limits {
    /// Those from the first to the second, both included.
    Between(u64, u64),
    /// These two alone.
    Either(u64, u64),
    /// The widths of boxes: 1, 2, 4, 8, 16 and 32.
    BoxWidth,
}

/// The row of an option in a table.
#[derive(Clone, Copy)]
pub struct Row {
    /// How a value is read.
    pub reader: Reader,
    /// Which numbers are allowed.
    pub limits: Limits,
    /// The value if the option isn't given.
    pub default: u64,
}

// Whether the limits allow a number.
fn allows(limits: Limits, number: u64) -> bool
    ensures { result ≡ limits_allow limits number }
{
    match limits {
        Limits::Between(least, most) => least <= number && number <= most,
        Limits::Either(a, b) => number == a || number == b,
        Limits::BoxWidth => matches!(number, 1 | 2 | 4 | 8 | 16 | 32),
    }
}

// The number, if the limits allow it.
fn allowed(limits: Limits, number: u64) -> Option<u64>
    ensures { result ≡ if_allowed limits (pos number) }
{
    if allows(limits, number) {
        Some(number)
    } else {
        None
    }
}

// The value of a text of 1 to 19 digits, if the limits allow it.
fn whole_value(limits: Limits, text: &str) -> Option<u64>
    ensures { result ≡ value_in_row (record { reader = Reader.Whole; limits = limits; default = 0 })
        text.now }
{
    match whole_number(text, 19) {
        Some(number) => allowed(limits, number),
        None => None,
    }
}

// The value of a text with `decimals` decimals, if the limits allow it.
fn decimal_value(limits: Limits, decimals: u32, text: &str) -> Option<u64>
    requires decimals { decimals ≤ 9 }
    requires bound { greatest_of limits ≤ 10 ^ 18 }
    ensures { result ≡ option_and_then (if_allowed limits) (number_read (Reader.Decimals decimals)
        text.now) }
{
    match Fixed::read(text.as_bytes(), decimals) {
        Ok(number) if number >= 0 => allowed(limits, number as u64),
        _ => None,
    }
}

// The value of a text by a row, if it has one.
fn value_in(row: Row, text: &str) -> Option<u64>
    requires { FitsReader row }
    ensures { result ≡ value_in_row row text.now }
{
    match row.reader {
        Reader::Whole => whole_value(row.limits, text),
        Reader::Decimals(decimals) => decimal_value(row.limits, decimals, text),
    }
}

impl Row {
    ghost use Rattle.option_rows.specs.Rows.{row_between, value_of_word};

    /// The row of an option whose values are the numbers from `least` to `most`.
    pub fn between(reader: Reader, least: u64, most: u64, default: u64) -> Row
        ensures { result ≡ row_between reader least most default }
    {
        Row {
            reader,
            limits: Limits::Between(least, most),
            default,
        }
    }

    /// The value of an option: that of `word`, if it is one by this row, or the default if there is no `word`. `None`
    /// if `word` is no allowed value.
    pub fn value_of(self, word: Option<&str>) -> Option<u64>
        requires { FitsReader self }
        ensures { result ≡ value_of_word self (option_map (λ text. text.now) word.entry) }
    {
        match word {
            Some(text) => value_in(self, text),
            None => Some(self.default),
        }
    }
}
