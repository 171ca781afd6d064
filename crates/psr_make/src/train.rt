// The pulses of a channel, as the runs of spectra at which they pass it.
ghost use Rattle.std.specs.Prelude.{◌≤◌};
ghost use Rattle.dada_model.specs.Bounds.{most_delay};
ghost use Rattle.psr_make.specs.Made.{SpecInRange};
ghost use Rattle.psr_make.specs.Runs.{IsNextRun};

use crate::spec::MakeSpec;

/// The spectra `start..end`: `end` is not among them.
#[derive(Clone, Copy)]
pub(crate) struct Run {
    pub(crate) start: usize,
    pub(crate) end: usize,
}

/// The next spectra within `from..to` at which a pulse passes a channel. A pulse enters the channel `enters` spectra
/// after the top of the band, and leaves it `leaves` spectra after. If there are none, the run is empty and stands at
/// `to`.
pub(crate) fn next_run(spec: &MakeSpec, enters: usize, leaves: usize, from: usize, to: usize) -> Run
    requires spec { SpecInRange spec.now }
    requires passage { enters ≤ leaves }
    requires delay { leaves ≤ most_delay }
    requires order { from ≤ to }
    requires end { to ≤ spec.now.spectra }
    ensures { IsNextRun spec.now enters leaves from to result }
{
    let period = spec.period as usize;
    let start = from.saturating_sub(leaves).div_ceil(period) * period;
    if spec.delay as usize + start >= spec.spectra as usize {
        return Run { start: to, end: to };
    }
    Run {
        start: from.max(enters + start).min(to),
        end: to.min(leaves + start + 1),
    }
}
