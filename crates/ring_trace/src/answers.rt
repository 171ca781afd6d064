// The lines of the answers.
ghost use Rattle.std.specs.Prelude.{◌≡◌, ◌+◌, ◌≤◌, ◌++◌, length, decimal, codes};
ghost use Rattle.ring_core.specs.State.{answer_of};
ghost use Rattle.ring_trace.specs.Events.{answer_line};

use ring_core::Answer;
use text_line::Line;

/// A line of a text alone.
fn word(text: &str) -> Line
    requires { length text.now ≤ 16 }
    ensures { result ≡ text.now }
{
    let mut line = Line::new();
    line.push_str(text);
    line
}

/// A line of a text, a number and an end.
fn with_number(text: &str, number: u64, end: &str) -> Line
    requires text { length text.now ≤ 16 }
    requires end { length end.now ≤ 16 }
    ensures line { result ≡ text.now ++ decimal number ++ end.now }
    ensures bound { length result ≤ 64 }
{
    let mut line = word(text);
    line.push_number(number);
    line.push_str(end);
    line
}

/// A line of a text and two numbers, with a line feed.
fn with_numbers(text: &str, first: u64, second: u64) -> Line
    requires { length text.now ≤ 16 }
    ensures { result ≡ text.now ++ decimal first ++ codes " " ++ decimal second ++ codes "\n" }
{
    let mut line = with_number(text, first, " ");
    line.push_number(second);
    line.push_str("\n");
    line
}

/// The line of an answer.
pub(crate) fn line_of(answer: Answer) -> Line
    ensures { result ≡ answer_line (answer_of answer) }
{
    match answer {
        Answer::Full { reader, cleared } => with_numbers("full ", u64::from(reader), cleared),
        Answer::Room { reader, cleared } => with_numbers("room ", u64::from(reader), cleared),
        Answer::RoomRetired { reader } => with_number("room ", u64::from(reader), " retired\n"),
        Answer::Taken { number } => with_number("taken ", number, "\n"),
        Answer::Spent { limit } => with_number("spent ", limit, "\n"),
        Answer::Sealed { number } => with_number("sealed ", number, "\n"),
        Answer::Got { number, label } => with_numbers("got ", number, label),
        Answer::Empty { number } => with_number("empty ", number, "\n"),
        Answer::Busy { number, reader } => with_numbers("busy ", number, u64::from(reader)),
        Answer::Given => word("given\n"),
        Answer::Cleared { count } => with_number("cleared ", count, "\n"),
        Answer::Retired => word("retired\n"),
        Answer::Detached => word("detached\n"),
        Answer::Attached { number } => with_number("attached ", number, "\n"),
        Answer::Refused => word("refused\n"),
    }
}
