// Lines with other labels than those of a search without a mask.
use crate::checks::is_part;
use candidate_book::{Candidate, LineLabels, PulseWord, Totals, write_lines};
use obs_plan::Observation;
use psr_base::Sink;

// Labels of a search that leaves out the first of two channels, and takes pulses that end at spectrum 9 for
// interference.
#[derive(Drop)]
struct Marks;

impl LineLabels for Marks {
    ghost use Rattle.std.specs.Prelude.{◌+◌, nat_eq, if◌then◌else◌};
    ghost use Rattle.candidate_book.specs.declared.labels.PulseWord.{PulseWord};

    ghost cells_of_delay = { λ marks delay. 1 + delay };

    ghost word_at = { λ marks end. if nat_eq end 9 then PulseWord.Rfi else PulseWord.Pulse };

    fn cells(&self, delay: u32) -> u64 {
        1 + u64::from(delay)
    }

    fn word(&self, end: u64) -> PulseWord {
        if end == 9 {
            PulseWord::Rfi
        } else {
            PulseWord::Pulse
        }
    }
}

/// Writes the lines of a list with such labels, if the list is in order. Returns the number of pulses and of folds, or
/// `None` if it failed.
pub fn write_marked<K: Sink>(list: &[Candidate], obs: &Observation, out: &mut K) -> Option<Totals> {
    if !is_part(1, 0, list) {
        return None;
    }
    write_lines(list, obs, &Marks, out).ok()
}
