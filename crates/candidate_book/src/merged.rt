// Writing the candidates of several books in one list.
ghost use Rattle.std.specs.Prelude.{◌≡◌, ◌+◌, ◌<◌, ◌^◌, [], List, if◌then◌else◌};
ghost use Rattle.search_model.specs.declared.candidate.Candidate.{Candidate};
ghost use Rattle.psr_base.specs.Written.{SinkSeen};
ghost use Rattle.search_model.specs.CandidateText.{Labels, candidate_lines, is_pulse, is_fold};
ghost use Rattle.search_model.specs.Order.{IsMergeOf};
ghost use Rattle.candidate_book.specs.Conditions.{kept_lists, CanBeMerged};
ghost use Rattle.search_model.specs.Observed.{labels_of};
ghost use Rattle.candidate_book.specs.Labelled.{labels_with};
ghost use Rattle.candidate_book.specs.Lines.{Pending};
ghost use Rattle.candidate_book.specs.Merged.{AreTotals, Listed, WroteText};

use crate::asked::Asked;
use crate::book::Book;
use crate::labels::{LineLabels, PlainLabels};
use crate::lines::{candidate_line, end_line};
use crate::merge::{MOST_BOOKS, advance, first};
use crate::page::Page;
use obs_plan::Observation;
use psr_base::{Failed, Sink};
use search_model::Candidate;
// Laws: they do nothing when they run, and the proofs use what they ensure.
use psr_base::pieces_join;
use search_model::order_is_strict;
use thiserror::Error;

/// The number of candidates of each kind.
#[derive(Clone, Copy, Debug, PartialEq, Eq)]
pub struct Totals {
    pub pulses: u64,
    pub folds: u64,
}

impl Totals {
    /// No candidates.
    pub(crate) fn none() -> Totals
        ensures pulses { result.pulses ≡ 0 }
        ensures folds { result.folds ≡ 0 }
    {
        Totals {
            pulses: 0,
            folds: 0,
        }
    }

    /// Counts a candidate.
    pub(crate) fn count(&mut self, candidate: &Candidate)
        requires { self.old.pulses + self.old.folds < 2 ^ 63 }
        ensures pulses { self.new.pulses
            ≡ self.old.pulses + (if is_pulse candidate.now then 1 else 0) }
        ensures folds { self.new.folds ≡ self.old.folds + (if is_fold candidate.now then 1 else 0) }
    {
        match candidate {
            Candidate::Pulse { .. } => self.pulses += 1,
            Candidate::Fold { .. } => self.folds += 1,
        }
    }
}

/// Why an output wasn't written completely.
#[derive(Clone, Copy, Debug, PartialEq, Eq, Error)]
pub enum SinkStop {
    /// The sink failed.
    #[error("the sink failed")]
    Fault,
}

impl From<Failed> for SinkStop {
    fn from(_failed: Failed) -> SinkStop {
        SinkStop::Fault
    }
}

// Adds the lines of all candidates that the books keep to the page, in the order of candidates.
fn pass_candidates<K: Sink, L: LineLabels>(
    books: &[Option<Book>],
    obs: &Observation,
    labels: &L,
    page: &mut Page,
    sink: &mut K,
) -> Result<Totals, Failed>
    requires books { CanBeMerged books.now }
    requires page { page.old ≡ [] }
    ensures { (merged : List Candidate) → IsMergeOf (kept_lists books.now) merged
        → Listed (labels_with obs.now (L.cells_of_delay labels.now) (L.word_at labels.now)) merged
        page.new (K.seen sink.old) (K.seen sink.new) result }
{
    pieces_join();
    order_is_strict();
    let mut places = [0; MOST_BOOKS];
    let mut totals = Totals::none();
    let mut asked = Asked::at(labels, 0);
    while let Some(next) = first(books, &places) {
        advance(&mut places, next.book);
        totals.count(&next.candidate);
        let word = asked.of(labels, &next.candidate);
        page.push(
            candidate_line(obs, labels, word, &next.candidate).as_bytes(),
            sink,
        )?;
    }
    Ok(totals)
}

/// Writes what waits on the page of the lines of a list with these totals, and then its END line.
pub(crate) fn end_text<K: Sink>(
    totals: Totals,
    spectra: u64,
    page: &mut Page,
    sink: &mut K,
) -> Result<Totals, SinkStop>
    ensures { (labels : Labels) (list : List Candidate) (first : SinkSeen)
        → AreTotals list totals
        → Pending (candidate_lines labels list) page.old first (K.seen sink.old)
        → WroteText labels spectra list first (K.seen sink.new) result }
{
    pieces_join();
    let line = end_line(totals.pulses, totals.folds, spectra);
    page.push(line.as_bytes(), sink)?;
    page.flush(sink)?;
    Ok(totals)
}

/// Writes the lines of all candidates that up to 7 books keep, in the order of candidates, and then the END line with
/// the number of pulses, of folds, and of spectra that were searched. Returns the number of pulses and of folds. After
/// a fault the sink has taken the front of this output.
pub fn write_merged<K: Sink>(
    books: &[Option<Book>],
    obs: &Observation,
    spectra: u64,
    sink: &mut K,
) -> Result<Totals, SinkStop>
    requires { CanBeMerged books.now }
    ensures { (merged : List Candidate) → IsMergeOf (kept_lists books.now) merged
        → WroteText (labels_of obs.now) spectra merged (K.seen sink.old) (K.seen sink.new) result }
{
    pieces_join();
    let mut page = Page::new();
    let labels = PlainLabels::of(obs);
    let totals = pass_candidates(books, obs, &labels, &mut page, sink)?;
    end_text(totals, spectra, &mut page, sink)
}
