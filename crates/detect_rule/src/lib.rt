//! The detection rule: whether a sum of samples stands out of the noise, and the smallest sum that does.
#![tactic(auto)]

ghost use Rattle.std.specs.Prelude.{◌*◌, ◌^◌, ◌<◌, ◌≤◌, ◌↔◌, IsTrue};

// A law: it does nothing when it runs, and the proofs use what it ensures.
use search_model::detection_rises;
use std::marker::Model;

// Every sum of a search is below this.
const SUMS_END: u64 = 1 << 32;

/// What is known of the noise, and how far a sum has to stand out of it.
#[derive(Clone, Copy, PartialEq, Eq, Debug)]
pub struct Rule {
    /// The mean of a sample, in thousandths: at most 200 000 000.
    pub mean: u32,
    /// The standard deviation of a sample, in thousandths: at most 200 000 000.
    pub sd: u32,
    /// The threshold: the smallest signal-to-noise ratio that is detected, in hundredths, at most 100 000.
    pub snr: u32,
}

impl Model for Rule {
    ghost use Rattle.detect_rule.specs.Noise.{Noise, AreInRange};

    ghost Value = { Noise };

    ghost view = { λ rule. record { mean = rule.mean; sd = rule.sd; snr = rule.snr } };

    ghost inverse = { λ noise. record { mean = noise.mean; sd = noise.sd; snr = noise.snr } };

    ghost invariant = { λ rule. AreInRange rule.mean rule.sd rule.snr };
}

impl Rule {
    ghost use Rattle.detect_rule.specs.Noise.{StandsOut, StandOutFrom};

    /// Whether a sum of `cells` samples is above their mean, and at or above the threshold.
    pub fn detected(&self, sum: u64, cells: u64) -> bool
        requires sum_fits { sum < 2 ^ 32 }
        requires cells_fit { cells ≤ 2 ^ 26 }
        ensures { IsTrue result ↔ StandsOut self.now sum cells }
    {
        let scaled = 1000 * sum;
        let level = cells * u64::from(self.mean);
        if scaled <= level {
            return false;
        }
        let excess = u128::from(scaled - level);
        let snr = u128::from(self.snr);
        let sd = u128::from(self.sd);
        snr * snr * (sd * sd) * u128::from(cells) <= 10000 * (excess * excess)
    }

    /// The smallest sum of `cells` samples that is detected. Each greater one below 2^32 is detected too. `None` if no
    /// sum below 2^32 is detected.
    pub fn least(&self, cells: u64) -> Option<u32>
        requires { cells ≤ 2 ^ 26 }
        ensures { StandOutFrom self.now cells result }
    {
        detection_rises();
        let mut low = 0;
        let mut high = SUMS_END;
        while low < high {
            let middle = (low + high) / 2;
            if self.detected(middle, cells) {
                high = middle;
            } else {
                low = middle + 1;
            }
        }
        if low < SUMS_END {
            Some(low as u32)
        } else {
            None
        }
    }
}
