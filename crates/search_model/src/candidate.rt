// Candidates.
ghost use Rattle.std.specs.Prelude.{◌↔◌, IsTrue};
ghost use Rattle.search_model.specs.Order.{IsBelow};

/// What a search found: a sum of samples that stands out of the noise.
#[derive(Clone, Copy, PartialEq, Eq, Debug)]
pub enum Candidate {
    /// The box of `width` path sums of a delay, the last of which ends at spectrum `end`. `sum` is the box sum. `end`,
    /// `delay` and `width` are in spectra.
    Pulse {
        end: u64,
        delay: u32,
        width: u32,
        sum: u32,
    },
    /// The fold of the series of a delay by `2^halvings` rows of `period` spectra, at one trial and one phase. `sum` is
    /// the fold sum. `delay` and `period` are in spectra.
    Fold {
        delay: u32,
        period: u32,
        halvings: u32,
        trial: u32,
        phase: u32,
        sum: u32,
    },
}

impl Candidate {
    ghost use Rattle.std.specs.Prelude.{◌≡◌};
    ghost use Rattle.search_model.specs.Candidates.{delay_of};
    ghost use Rattle.search_model.specs.Order.{Precedes};

    /// The delay across the band, in spectra.
    pub fn delay(&self) -> u32
        ensures { result ≡ delay_of self.now }
    {
        match *self {
            Candidate::Pulse { delay, .. } => delay,
            Candidate::Fold { delay, .. } => delay,
        }
    }

    /// Whether this candidate comes before `other` in the candidate list. Pulses come before folds. Pulses are ordered
    /// by end, then delay, then width; folds by delay, period, trial and phase.
    pub fn precedes(&self, other: &Candidate) -> bool
        ensures { IsTrue result ↔ Precedes self.now other.now }
    {
        match (*self, *other) {
            (
                Candidate::Pulse {
                    end: e,
                    delay: d,
                    width: w,
                    ..
                },
                Candidate::Pulse {
                    end,
                    delay,
                    width,
                    ..
                },
            ) => { is_below(e, end, is_below_u32(d, delay, w < width)) }
            (Candidate::Pulse { .. }, Candidate::Fold { .. }) => true,
            (Candidate::Fold { .. }, Candidate::Pulse { .. }) => false,
            (
                Candidate::Fold {
                    delay: d,
                    period: p,
                    trial: j,
                    phase: f,
                    ..
                },
                Candidate::Fold {
                    delay,
                    period,
                    trial,
                    phase,
                    ..
                },
            ) => is_below_u32(
                d,
                delay,
                is_below_u32(p, period, is_below_u32(j, trial, f < phase)),
            ),
        }
    }
}

// Whether `a` is below `b`, or equal to it and `next` is true: `next` compares what comes after.
fn is_below(a: u64, b: u64, next: bool) -> bool
    ensures { IsTrue result ↔ IsBelow a b (IsTrue next) }
{
    a < b || (a == b && next)
}

// `is_below` for 32-bit numbers.
fn is_below_u32(a: u32, b: u32, next: bool) -> bool
    ensures { IsTrue result ↔ IsBelow a b (IsTrue next) }
{
    is_below(u64::from(a), u64::from(b), next)
}
