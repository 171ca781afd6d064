// The labels of the text of several beams.
ghost use Rattle.std.specs.Prelude.{◌≡◌, All};
ghost use Rattle.search_model.specs.Order.{IsRising};
ghost use Rattle.beam_set.specs.Ends.{EndsRise};
ghost use Rattle.beam_set.specs.Beams.{lists_in};

use crate::ended::BeamEnd;
use crate::marks::marked_among;
use candidate_book::{LineLabels, PulseWord};
use obs_plan::Observation;

/// Labels with as many cells as there are channels and spectra of delay together, and with `RFI` for a pulse that is
/// taken for interference.
#[derive(Drop)]
pub(crate) struct BeamLabels<'a> {
    channels: u32,
    beams: &'a [Option<BeamEnd>],
    within: u32,
    more: u32,
    ghost rise: { All EndsRise (lists_in beams.now) },
}

impl<'a> BeamLabels<'a> {
    /// The labels of an observation and its beams.
    pub(crate) fn of(
        obs: &Observation,
        beams: &'a [Option<BeamEnd>],
        within: u32,
        more: u32,
    ) -> BeamLabels<'a>
        requires { All IsRising (lists_in beams.now) }
        ensures channels { result.channels ≡ obs.now.channels }
        ensures beams { result.beams.now ≡ beams.now }
        ensures within { result.within ≡ within }
        ensures more { result.more ≡ more }
    {
        BeamLabels {
            channels: obs.channels(),
            beams,
            within,
            more,
        }
    }
}

impl LineLabels for BeamLabels<'_> {
    ghost use Rattle.search_model.specs.Candidates.{plain_cells};
    ghost use Rattle.beam_set.specs.Marks.{is_marked};
    ghost use Rattle.beam_set.specs.Text.{word_of};

    ghost cells_of_delay = { λ labels delay. plain_cells labels.channels delay };

    ghost word_at = { λ labels end.
        word_of (is_marked (lists_in labels.beams.now) labels.within labels.more end) };

    fn cells(&self, delay: u32) -> u64 {
        u64::from(self.channels) + u64::from(delay)
    }

    fn word(&self, end: u64) -> PulseWord {
        if marked_among(self.beams, end, self.within, self.more) {
            PulseWord::Rfi
        } else {
            PulseWord::Pulse
        }
    }
}
