// Reads the numbers of a search in parts, in decimal digits.
ghost use Rattle.std.specs.Prelude.{◌≡◌, ℕ, IfSome, IfNone};
ghost use Rattle.warm_restart.specs.Counts.{IsCount, IsUntil, until_of};

use dada_model::whole_number;
use std::str;
// A law: it does nothing when it runs, and the proofs use what it ensures.
use crate::laws::texts_say_one;

/// The maximum of a count: 2^48.
const GREATEST_COUNT: u64 = 281_474_976_710_656;

/// The maximum number of digits of a count.
const MOST_DIGITS: usize = 15;

/// Reads a count, at most 2^48. `None` if the text is not 1 to 15 digits, or the number is greater.
pub(crate) fn count(text: &str) -> Option<u64>
    ensures some { IfSome result (IsCount text.now) }
    ensures none { IfNone result ((n : ℕ) → ¬ IsCount text.now n) }
{
    match whole_number(text, MOST_DIGITS) {
        Some(number) if number <= GREATEST_COUNT => Some(number),
        _ => None,
    }
}

/// Reads a count from bytes as `count` does from a string.
pub(crate) fn count_in(text: &[u8]) -> Option<u64>
    ensures some { IfSome result (IsCount text.now) }
    ensures none { IfNone result ((n : ℕ) → ¬ IsCount text.now n) }
{
    match str::from_utf8(text) {
        Ok(text) => count(text),
        Err(_) => None,
    }
}

/// Reads the argument UNTIL of a command, the spectrum before which a part stops: a number from 1 to 2^48 with 1 to 15
/// decimal digits. `None` if and only if it is anything else.
pub fn until_of_word(word: &str) -> Option<u64>
    ensures value { result ≡ until_of word.now }
    ensures some { IfSome result (IsUntil word.now) }
    ensures none { IfNone result ((n : ℕ) → ¬ IsUntil word.now n) }
{
    texts_say_one();
    match count(word) {
        Some(number) if 1 <= number => Some(number),
        _ => None,
    }
}
