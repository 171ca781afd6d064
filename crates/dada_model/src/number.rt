// Whole numbers in decimal digits.
ghost use Rattle.std.specs.Prelude.{◌≡◌, ℕ, ◌<◌, ◌≤◌, ◌*◌, ◌^◌, ◌↔◌, IsTrue, Some, IfSome, SomeIff, pos};
ghost use Rattle.std.specs.Str.Parse.{digits_value};
ghost use Rattle.dada_model.specs.Number.{IsWholeNumber, number_value};

// Whether a text is 1 to `most_digits` decimal digits and nothing else.
fn is_whole_number(text: &str, most_digits: usize) -> bool
    ensures { IsTrue result ↔ IsWholeNumber most_digits text.now }
{
    !text.is_empty() && text.len() <= most_digits && text.bytes().all(|byte| byte.is_ascii_digit())
}

/// The number that a text of 1 to `most_digits` decimal digits writes, or `None` if the text is anything else.
pub fn whole_number(text: &str, most_digits: usize) -> Option<u64>
    requires { most_digits ≤ 19 }
    ensures digits { SomeIff result (IsWholeNumber most_digits text.now)
        (digits_value 10 text.now) }
    ensures bound { IfSome result (λ n. n < 10 ^ most_digits) }
    ensures value { IfSome result (λ n. (k : ℕ)
        → number_value k text.now ≡ Some (pos (n * 10 ^ k))) }
{
    if is_whole_number(text, most_digits) {
        text.parse().ok()
    } else {
        None
    }
}
