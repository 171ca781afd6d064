// Writing the candidate lists of all transfers, one after another.
ghost use Rattle.std.specs.Prelude.{◌≡◌, ◌++◌, ◌≤◌, ◌<◌, List, Some, IsSome, length, map};
ghost use Rattle.psr_base.specs.Written.{Wrote};
ghost use Rattle.candidate_book.specs.Conditions.{CanBeMerged};
ghost use Rattle.transfer_text.specs.Text.{FoundList, transfer_line as transfer_line_of, list_text, run_text};
ghost use Rattle.transfer_text.specs.Books.{IsMerged, AreMerged, CanBeWritten};

use arrayvec::ArrayVec;
use candidate_book::{Book, write_merged};
use obs_plan::Observation;
use psr_base::{Failed, Sink, write_all};
use text_line::Line;
// A law: it does nothing when it runs, and the proofs use what it ensures.
use psr_base::pieces_join;
use search_model::MOST_SHARDS;

// The line before the candidate list of transfer `k`.
#[tactic(auto, unfolding(crate::specs::Text::transfer_line))]
fn transfer_line(k: u64) -> Line
    ensures { result ≡ transfer_line_of k }
{
    let mut line = Line::new();
    line.push_str("OBS ");
    line.push_number(k);
    line.push_str("\n");
    line
}

// Writes the candidate list of one transfer.
fn write_list<K: Sink>(
    observation: &Option<Observation>,
    books: &[Option<Book>],
    spectra: u64,
    out: &mut K,
) -> Result<(), Failed>
    requires there { IsSome observation.now }
    requires books { CanBeMerged books.now }
    ensures { (found : FoundList) → IsMerged found observation.now books.now spectra
        → Wrote (list_text found) (K.seen out.old) (K.seen out.new) result }
{
    match observation {
        Some(observation) => match write_merged(books, observation, spectra, out) {
            Ok(_totals) => Ok(()),
            Err(_fault) => Err(Failed),
        },
        None => unreachable!(),
    }
}

// Writes the line of transfer `k` and its candidate list.
fn write_numbered<K: Sink>(
    k: u64,
    observation: &Option<Observation>,
    books: &[Option<Book>],
    spectra: u64,
    out: &mut K,
) -> Result<(), Failed>
    requires there { IsSome observation.now }
    requires books { CanBeMerged books.now }
    ensures { (found : FoundList) → IsMerged found observation.now books.now spectra
        → Wrote (transfer_line_of k ++ list_text found) (K.seen out.old) (K.seen out.new) result }
{
    pieces_join();
    match write_all(out, transfer_line(k).as_bytes()) {
        Ok(()) => write_list(observation, books, spectra, out),
        Err(failed) => Err(failed),
    }
}

/// Writes the candidate lists of all transfers. If there are several, each comes after a line `OBS k`, with `k` counted
/// from 0. `books` has the books of each transfer, by shard. After a fault the sink has taken the front of this output.
pub fn write_texts<K: Sink>(
    observations: &[Option<Observation>],
    books: &[ArrayVec<Option<Book>, MOST_SHARDS>],
    spectra: &[u64],
    out: &mut K,
) -> Result<(), Failed>
    requires few { length books.now ≤ 8 }
    requires written { CanBeWritten observations.now
        (map (λ shards. shards.items) books.now) spectra.now }
    ensures { (lists : List FoundList)
        → AreMerged lists observations.now (map (λ shards. shards.items) books.now) spectra.now
        → Wrote (run_text lists) (K.seen out.old) (K.seen out.new) result }
{
    pieces_join();
    if books.len() == 1 {
        return write_list(&observations[0], books[0].as_slice(), spectra[0], out);
    }
    for k in 0..books.len() {
        write_numbered(
            k as u64,
            &observations[k],
            books[k].as_slice(),
            spectra[k],
            out,
        )?;
    }
    Ok(())
}
