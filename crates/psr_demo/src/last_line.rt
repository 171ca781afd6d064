// The last line of a text.
ghost use Rattle.std.specs.Prelude.{◌≡◌, ◌-◌, ◌≤◌, ◌⊎◌, ◌↔◌, IsTrue, length, drop, slice_index};
ghost use Rattle.psr_demo.specs.LastLine.{IsLastLine};

// Whether a line begins at `start`: at the front, or after a line feed.
fn begins_line(text: &[u8], start: usize) -> bool
    requires { start ≤ length text.now }
    ensures { IsTrue result ↔ ((start ≡ 0) ⊎ (slice_index text.now (start - 1) ≡ 10)) }
{
    start == 0 || text[start - 1] == b'\n'
}

// Where the last line begins.
fn last_start(text: &[u8]) -> usize
    ensures within { result ≤ length text.now }
    ensures last { IsLastLine text.now (drop result text.now) }
{
    let mut start = text.len().saturating_sub(1);
    while !begins_line(text, start) {
        start -= 1;
    }
    start
}

/// The last line.
pub(crate) fn last_line(text: &[u8]) -> &[u8]
    ensures { IsLastLine text.now result.now }
{
    &text[last_start(text)..]
}
