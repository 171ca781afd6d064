// Splits a CHECK line.
ghost use Rattle.std.specs.Prelude.{◌≡◌, ◌≢◌, ◌++◌, ◌∷◌, List, ℕ, IfSome, IfNone};
ghost use Rattle.warm_restart.specs.Checkpoint.{Lacks, check_text};

// What comes after `front`, or `None` if the text doesn't begin with it.
fn after<'a>(text: &'a [u8], front: &[u8]) -> Option<&'a [u8]>
    ensures some { IfSome result (λ rest. text.now ≡ front.now ++ rest.now) }
    ensures none { IfNone result ((rest : List ℕ) → text.now ≢ front.now ++ rest) }
{
    text.strip_prefix(front)
}

// What comes before `end`, or `None` if the text doesn't end with it.
fn before<'a>(text: &'a [u8], end: &[u8]) -> Option<&'a [u8]>
    ensures some { IfSome result (λ rest. text.now ≡ rest.now ++ end.now) }
    ensures none { IfNone result ((rest : List ℕ) → text.now ≢ rest ++ end.now) }
{
    text.strip_suffix(end)
}

// What comes before the first `byte`, and what comes after it; `None` if there is no such byte.
fn split_at_first(text: &[u8], byte: u8) -> Option<(&[u8], &[u8])>
    ensures found { IfSome result (λ parts. text.now ≡ parts.0.now ++ byte ∷ parts.1.now) }
    ensures first { IfSome result (λ parts. Lacks byte parts.0.now) }
    ensures none { IfNone result (Lacks byte text.now) }
{
    for (i, b) in text.iter().enumerate() {
        if *b == byte {
            return Some((&text[..i], &text[i + 1..]));
        }
    }
    None
}

/// The two arguments, place and number of pulses, of a CHECK line that ends in a line feed.
pub(crate) fn check_words(text: &[u8]) -> Option<(&[u8], &[u8])>
    ensures line { IfSome result (λ words. text.now ≡ check_text words.0.now words.1.now) }
    ensures first { IfSome result (λ words. Lacks 32 words.0.now) }
    ensures none { IfNone result ((place pulses : List ℕ) → Lacks 32 place
        → text.now ≢ check_text place pulses) }
{
    let Some(rest) = after(text, b"CHECK ") else {
        return None;
    };
    let Some(words) = before(rest, b"\n") else {
        return None;
    };
    split_at_first(words, b' ')
}
