// The summary of what was found.
ghost use Rattle.std.specs.Prelude.{◌≡◌};
ghost use Rattle.psr_base.specs.Written.{Wrote};
ghost use Rattle.psr_demo.specs.Demo.{EndsAt, text_at, demo_line as line_of, summary};

use crate::last_line::last_line;
use psr_base::{Failed, Sink, write_all};
use text_line::Line;
// Laws: they do nothing when they run, and the proofs use what they ensure.
use psr_base::pieces_join;
use search_model::samples_of_bytes;

// The line of a search.
fn demo_line(number: u64, status: u8, count: usize) -> Line
    ensures { result ≡ line_of number status count }
{
    let mut line = Line::new();
    line.push_str("DEMO ");
    line.push_number(number);
    line.push_str(" ");
    line.push_number(u64::from(status));
    line.push_str(" ");
    line.push_number(count as u64);
    line.push_str("\n");
    line
}

/// Writes the summary of a search that ended with this status and this text.
pub(crate) fn write_summary<K: Sink>(
    number: u64,
    status: u8,
    text: &[u8],
    out: &mut K,
) -> Result<(), Failed>
    requires ends { EndsAt number status }
    requires text { text.now ≡ text_at number status }
    ensures { Wrote (summary number status) (K.seen out.old) (K.seen out.new) result }
{
    pieces_join();
    samples_of_bytes();
    match write_all(out, demo_line(number, status, text.len()).as_bytes()) {
        Ok(()) => write_all(out, last_line(text)),
        Err(failed) => Err(failed),
    }
}
