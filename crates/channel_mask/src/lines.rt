// Writes the text of a search without the channels of a mask.
ghost use Rattle.std.specs.Prelude.{ℕ, ◌≤◌, All, Bool, List};
ghost use Rattle.search_model.specs.declared.search.Search.{Search as Settings};
ghost use Rattle.candidate_book.specs.Conditions.{IsSearched};
ghost use Rattle.channel_mask.specs.Masked.{HasFoundKept, WroteMasked};

use crate::engine::MaskEngine;
use candidate_book::{LineLabels, PulseWord, SinkStop, Totals, write_text};
use obs_plan::Observation;
use psr_base::Sink;
// A law: it does nothing when it runs, and the proofs use what it ensures.
use search_model::candidates_are_listed;

/// Labels of candidates: the cells that an engine counts for each delay, and `PULSE`.
#[derive(Drop)]
pub(crate) struct CountedLabels<'a> {
    engine: &'a MaskEngine,
}

impl LineLabels for CountedLabels<'_> {
    ghost use Rattle.shard_search.specs.Sought.{cells_in};
    ghost use Rattle.candidate_book.specs.declared.labels.PulseWord.TheVariants.{Pulse};
    ghost use Rattle.search_engine.specs.Engine.{scope_of};

    ghost cells_of_delay = { λ labels delay. cells_in (scope_of labels.engine.now).sought delay };

    ghost word_at = { λ labels end. Pulse };

    fn cells(&self, delay: u32) -> u64 {
        u64::from(self.engine.counted(delay))
    }

    fn word(&self, _end: u64) -> PulseWord {
        PulseWord::Pulse
    }
}

/// Writes the text of a search without the channels of a mask, which has ended and kept all candidates. Answers how
/// many there are of each kind. After a fault the sink has taken a beginning of the text.
pub fn write_masked<K: Sink>(
    engine: &MaskEngine,
    obs: &Observation,
    sink: &mut K,
) -> Result<Totals, SinkStop>
    requires { All IsSearched engine.now.book.kept }
    ensures { (s : Settings) (mask : List Bool) (bytes : List ℕ)
        → HasFoundKept obs.now s mask bytes engine.now
        → engine.now.book.count ≤ s.max_candidates
        → WroteMasked obs.now s mask bytes (K.seen sink.old) (K.seen sink.new) result }
{
    candidates_are_listed();
    let labels = CountedLabels { engine };
    write_text(engine.book().kept(), obs, &labels, engine.spectra(), sink)
}
