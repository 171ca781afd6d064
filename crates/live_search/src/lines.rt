// The lines of the pulses of a part.
ghost use Rattle.std.specs.Prelude.{◌≡◌, List, All, IfOk};
ghost use Rattle.psr_base.specs.Written.{Wrote};
ghost use Rattle.search_model.specs.declared.candidate.Candidate.{Candidate};
ghost use Rattle.search_model.specs.Observed.{labels_of};
ghost use Rattle.candidate_book.specs.Book.{book_of};
ghost use Rattle.candidate_book.specs.Conditions.{IsSearched};
ghost use Rattle.live_search.specs.LiveText.{many_line as many_line_of, printed, pulse_lines};

use candidate_book::{Book, PlainLabels, SinkStop, write_lines};
use obs_plan::Observation;
use psr_base::{Sink, write_all};
use text_line::Line;

// MANY, the spectrum that a part stops before, and how many pulses it has.
fn many_line(until: u64, pulses: u64) -> Line
    ensures { result ≡ many_line_of until pulses }
{
    let mut line = Line::new();
    line.push_str("MANY ");
    line.push_number(until);
    line.push_str(" ");
    line.push_number(pulses);
    line.push_str("\n");
    line
}

// Writes that line.
fn write_many<K: Sink>(until: u64, pulses: u64, sink: &mut K) -> Result<(), SinkStop>
    ensures { Wrote (many_line_of until pulses) (K.seen sink.old) (K.seen sink.new) result }
{
    match write_all(sink, many_line(until, pulses).as_bytes()) {
        Ok(()) => Ok(()),
        Err(_) => Err(SinkStop::Fault),
    }
}

/// Writes the lines of the pulses of a part that stops before spectrum `until`, which a book has, or one MANY line
/// where the book doesn't keep all of them. Answers how many pulses it printed. After a fault the sink has taken the
/// front of these lines.
pub fn write_pulses<K: Sink>(
    book: &Book,
    obs: &Observation,
    until: u64,
    sink: &mut K,
) -> Result<u64, SinkStop>
    requires searched { All IsSearched book.now.kept }
    ensures lines { let limit = book.now.limit in (part : List Candidate)
        → book.now ≡ book_of limit part
        → Wrote (pulse_lines (labels_of obs.now) limit until part) (K.seen sink.old)
        (K.seen sink.new) result }
    ensures count { let limit = book.now.limit in (part : List Candidate)
        → book.now ≡ book_of limit part → IfOk result (λ n. n ≡ printed limit part) }
{
    let kept = book.kept();
    let all = kept.len() as u64;
    if all < book.count() {
        match write_many(until, book.count(), sink) {
            Ok(()) => Ok(0),
            Err(stop) => Err(stop),
        }
    } else {
        match write_lines(kept, obs, &PlainLabels::of(obs), sink) {
            Ok(_) => Ok(all),
            Err(stop) => Err(stop),
        }
    }
}
