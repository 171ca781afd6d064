// Writing the lines of a list of candidates.
ghost use Rattle.std.specs.Prelude.{◌≡◌, [], All};
ghost use Rattle.candidate_book.specs.Conditions.{IsSearched};
ghost use Rattle.candidate_book.specs.Labelled.{labels_with};
ghost use Rattle.candidate_book.specs.Merged.{Listed, WroteLines, WroteText};

use crate::asked::Asked;
use crate::labels::LineLabels;
use crate::lines::candidate_line;
use crate::merged::{SinkStop, Totals, end_text};
use crate::page::Page;
use obs_plan::Observation;
use psr_base::{Failed, Sink};
use search_model::Candidate;
// A law: it does nothing when it runs, and the proofs use what it ensures.
use psr_base::pieces_join;

// Adds the lines of a list to the page.
fn pass_list<K: Sink, L: LineLabels>(
    list: &[Candidate],
    obs: &Observation,
    labels: &L,
    page: &mut Page,
    sink: &mut K,
) -> Result<Totals, Failed>
    requires searched { All IsSearched list.now }
    requires page { page.old ≡ [] }
    ensures { Listed
        (labels_with obs.now (L.cells_of_delay labels.now) (L.word_at labels.now)) list.now
        page.new (K.seen sink.old) (K.seen sink.new) result }
{
    pieces_join();
    let mut totals = Totals::none();
    let mut asked = Asked::at(labels, 0);
    for candidate in list {
        totals.count(candidate);
        let word = asked.of(labels, candidate);
        page.push(
            candidate_line(obs, labels, word, candidate).as_bytes(),
            sink,
        )?;
    }
    Ok(totals)
}

/// Writes the lines of the candidates in the order of `list`, and returns the number of pulses and of folds. After a
/// fault the sink has taken the front of these lines.
pub fn write_lines<K: Sink, L: LineLabels>(
    list: &[Candidate],
    obs: &Observation,
    labels: &L,
    sink: &mut K,
) -> Result<Totals, SinkStop>
    requires { All IsSearched list.now }
    ensures { WroteLines
        (labels_with obs.now (L.cells_of_delay labels.now) (L.word_at labels.now)) list.now
        (K.seen sink.old) (K.seen sink.new) result }
{
    pieces_join();
    let mut page = Page::new();
    let totals = pass_list(list, obs, labels, &mut page, sink)?;
    page.flush(sink)?;
    Ok(totals)
}

/// Writes the lines of the candidates in the order of `list`, and then the END line with the number of pulses, of
/// folds, and of spectra that were searched. Returns the number of pulses and of folds. After a fault the sink has
/// taken the front of this output.
pub fn write_text<K: Sink, L: LineLabels>(
    list: &[Candidate],
    obs: &Observation,
    labels: &L,
    spectra: u64,
    sink: &mut K,
) -> Result<Totals, SinkStop>
    requires { All IsSearched list.now }
    ensures { WroteText
        (labels_with obs.now (L.cells_of_delay labels.now) (L.word_at labels.now)) spectra list.now
        (K.seen sink.old) (K.seen sink.new) result }
{
    pieces_join();
    let mut page = Page::new();
    let totals = pass_list(list, obs, labels, &mut page, sink)?;
    end_text(totals, spectra, &mut page, sink)
}
