// The arguments.
ghost use Rattle.std.specs.Prelude.{◌≡◌, ℕ, map, string_bytes, None, IfSome};
ghost use Rattle.psr_demo.specs.Words.{IsNumber, AskFor};

use dada_model::whole_number;

/// The largest number from which an observation is made.
const MOST_NUMBER: u64 = 9_223_372_036_854_775_807;

// The number that a text writes, if it is one.
fn number_in(text: &str) -> Option<u64>
    ensures number { IfSome result (IsNumber text.now) }
    ensures none { result ≡ None → (number : ℕ) → ¬ IsNumber text.now number }
{
    match whole_number(text, 19) {
        Some(number) if number <= MOST_NUMBER => Some(number),
        _ => None,
    }
}

/// The number that the arguments ask for. The first word is the program's name.
pub(crate) fn asked(words: &[String]) -> Option<u64>
    ensures asked { IfSome result (AskFor (map string_bytes words.now)) }
    ensures refused { result ≡ None → (number : ℕ) → ¬ AskFor (map string_bytes words.now) number }
{
    if words.len() != 2 {
        return None;
    }
    number_in(words[1].as_str())
}
