// The lines and the numbers of a text of bytes.
ghost use Rattle.std.specs.Prelude.{◌≡◌, ◌<◌, ◌++◌, ◌∷◌, length, SomeIff, IfSome, IfNone};
ghost use Rattle.std.specs.Str.Parse.{digits_value};
ghost use Rattle.ring_trace.specs.Text.{Lacks, IsNumber, trace_lines};

/// The part of a text before the first `byte`, and the part after it. `None` if the text has no such byte.
pub(crate) fn split_at_first(text: &[u8], byte: u8) -> Option<(&[u8], &[u8])>
    ensures found { IfSome result (λ parts. text.now ≡ parts.0.now ++ byte ∷ parts.1.now) }
    ensures first { IfSome result (λ parts. Lacks byte parts.0.now) }
    ensures none { IfNone result (Lacks byte text.now) }
{
    for (i, b) in text.iter().enumerate() {
        if *b == byte {
            return Some((&text[..i], &text[i + 1..]));
        }
    }
    None
}

/// The first line of a text that is not empty, and what comes after it.
pub(crate) fn first_line(text: &[u8]) -> (&[u8], &[u8])
    requires { 0 < length text.now }
    ensures lines { trace_lines text.now ≡ result.0.now ∷ trace_lines result.1.now }
    ensures shorter { length result.1.now < length text.now }
{
    match split_at_first(text, b'\n') {
        Some(parts) => parts,
        None => (text, &[]),
    }
}

/// The largest number of digits of a number, with its leading zeros.
const MOST_DIGITS: usize = 20;

/// The number that a text of 1 to 20 decimal digits writes, if it fits 64 bits.
pub(crate) fn number(text: &[u8]) -> Option<u64>
    ensures { SomeIff result (IsNumber text.now) (digits_value 10 text.now) }
{
    if text.is_empty() || text.len() > MOST_DIGITS {
        return None;
    }
    let mut value: u64 = 0;
    for byte in text {
        let Some(digit) = char::from(*byte).to_digit(10) else {
            return None;
        };
        let Some(tens) = value.checked_mul(10) else {
            return None;
        };
        let Some(sum) = tens.checked_add(u64::from(digit)) else {
            return None;
        };
        value = sum;
    }
    Some(value)
}
