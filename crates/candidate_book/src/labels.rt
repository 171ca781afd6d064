// What the lines of a search depend on, apart from their candidates.
ghost use Rattle.std.specs.Prelude.{◌≡◌, ℕ, ◌≤◌, ◌^◌};
ghost use Rattle.dada_model.specs.Bounds.{most_delay};
ghost use Rattle.search_model.specs.Candidates.{plain_cells};
ghost use Rattle.candidate_book.specs.Words.{word_text};
ghost use Rattle.candidate_book.specs.declared.labels.PulseWord.{PulseWord};

use obs_plan::Observation;

/// The first word of the line of a pulse.
#[derive(Clone, Copy, Debug, PartialEq, Eq)]
pub enum PulseWord {
    /// `PULSE`: an ordinary pulse.
    Pulse,
    /// `RFI`: a pulse that is taken for interference.
    Rfi,
}

impl PulseWord {
    /// The word as it is printed.
    pub(crate) fn text(self) -> &'static str
        ensures { result.now ≡ word_text self }
    {
        match self {
            PulseWord::Pulse => "PULSE",
            PulseWord::Rfi => "RFI",
        }
    }
}

/// What the lines of a search depend on, apart from their candidates and the dispersion measure: the number of cells of
/// a path sum, and the first word of the line of a pulse.
pub trait LineLabels {
    /// The number of cells that a path sum of a delay adds.
    ghost cells_of_delay: { Self → ℕ → ℕ };

    /// The first word of the line of a pulse that ends at a spectrum.
    ghost word_at: { Self → ℕ → PulseWord };

    /// The number of cells that a path sum of `delay` spectra adds: at most 2^40.
    fn cells(&self, delay: u32) -> u64
        requires { delay ≤ most_delay }
        ensures value { result ≡ cells_of_delay self.now delay }
        ensures bound { result ≤ 2 ^ 40 };

    /// The first word of the line of a pulse that ends at spectrum `end`. For pulses in a row that have one end, a call
    /// that writes their lines asks only once.
    fn word(&self, end: u64) -> PulseWord
        ensures { result ≡ word_at self.now end };
}

/// The labels of a search without a mask: a path sum has as many cells as there are channels and spectra of delay
/// together, and each line of a pulse begins with `PULSE`.
#[derive(Drop)]
pub struct PlainLabels {
    pub(crate) channels: u32,
}

impl PlainLabels {
    /// The labels of a search of an observation.
    pub fn of(obs: &Observation) -> PlainLabels
        ensures { result.channels ≡ obs.now.channels }
    {
        PlainLabels {
            channels: obs.channels(),
        }
    }
}

impl LineLabels for PlainLabels {
    ghost cells_of_delay = { λ labels delay. plain_cells labels.channels delay };

    ghost word_at = { λ labels end. PulseWord.Pulse };

    fn cells(&self, delay: u32) -> u64 {
        u64::from(self.channels) + u64::from(delay)
    }

    fn word(&self, _end: u64) -> PulseWord {
        PulseWord::Pulse
    }
}
