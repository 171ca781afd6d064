// The texts of several beams, one after another.
ghost use Rattle.std.specs.Prelude.{◌≡◌, All, IsSome};
ghost use Rattle.psr_base.specs.Written.{Wrote};
ghost use Rattle.search_model.specs.Observed.{labels_of};
ghost use Rattle.candidate_book.specs.Conditions.{IsSearched};
ghost use Rattle.candidate_book.specs.Labelled.{labels_with};
ghost use Rattle.beam_set.specs.Text.{beam_line as beam_line_of, list_text, beam_text, beams_text};
ghost use Rattle.beam_set.specs.Beams.{found_at, found_in, CanBeWritten};

use crate::ended::BeamEnd;
use crate::labels::BeamLabels;
use candidate_book::{LineLabels, SinkStop, write_text};
use obs_plan::Observation;
use psr_base::{Sink, write_all};
use text_line::Line;
// A law: it does nothing when it runs, and the proofs use what it ensures.
use psr_base::pieces_join;

// The line before the text of beam b.
#[tactic(auto, unfolding(crate::specs::Text::beam_line))]
fn beam_line(b: u64) -> Line
    ensures { result ≡ beam_line_of b }
{
    let mut line = Line::new();
    line.push_str("BEAM ");
    line.push_number(b);
    line.push_str("\n");
    line
}

// Writes the text of the list of one beam.
fn write_list<K: Sink, L: LineLabels>(
    beam: &Option<BeamEnd>,
    obs: &Observation,
    labels: &L,
    sink: &mut K,
) -> Result<(), SinkStop>
    requires there { IsSome beam.now }
    requires searched { All IsSearched (found_at beam.now).list }
    ensures { let l = labels_with obs.now (L.cells_of_delay labels.now) (L.word_at labels.now) in
        Wrote (list_text l (found_at beam.now)) (K.seen sink.old) (K.seen sink.new) result }
{
    match beam {
        Some(beam) => match write_text(beam.book.kept(), obs, labels, beam.spectra, sink) {
            Ok(_totals) => Ok(()),
            Err(stop) => Err(stop),
        },
        None => unreachable!(),
    }
}

// Writes the line of beam b and the text of its list.
fn write_beam<K: Sink, L: LineLabels>(
    b: u64,
    beam: &Option<BeamEnd>,
    obs: &Observation,
    labels: &L,
    sink: &mut K,
) -> Result<(), SinkStop>
    requires there { IsSome beam.now }
    requires searched { All IsSearched (found_at beam.now).list }
    ensures { let l = labels_with obs.now (L.cells_of_delay labels.now) (L.word_at labels.now) in
        Wrote (beam_text l b (found_at beam.now)) (K.seen sink.old) (K.seen sink.new) result }
{
    pieces_join();
    match write_all(sink, beam_line(b).as_bytes()) {
        Ok(()) => write_list(beam, obs, labels, sink),
        Err(failed) => Err(failed.into()),
    }
}

/// Writes the text of what beams of an observation found: for each beam b, from 0 on, the line `BEAM b`, the lines of
/// the candidates that its book keeps, and the END line. The line of a pulse that is `marked` begins with `RFI` in
/// place of `PULSE`. After a fault the sink has taken the front of this text.
pub fn write_beams<K: Sink>(
    beams: &[Option<BeamEnd>],
    obs: &Observation,
    within: u32,
    more: u32,
    sink: &mut K,
) -> Result<(), SinkStop>
    requires { CanBeWritten beams.now }
    ensures { Wrote (beams_text (labels_of obs.now) within more (found_in beams.now))
        (K.seen sink.old) (K.seen sink.new) result }
{
    pieces_join();
    let labels = BeamLabels::of(obs, beams, within, more);
    for k in 0..beams.len() {
        write_beam(k as u64, &beams[k], obs, &labels, sink)?;
    }
    Ok(())
}
