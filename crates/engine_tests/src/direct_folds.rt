// Detected folds by the fold sums of the definition.
ghost use Rattle.std.specs.Prelude.{◌≤◌};

use crate::direct_sums::is_detected;
use fold_phase::fold_sum;
use psr_base::Memory;
use search_model::{Candidate, Search};

/// Whether the series of a delay is folded.
pub fn is_folded(search: &Search, delay: u32) -> bool {
    for count in 0..8193_u64 {
        if u64::from(search.min_delay) + count * u64::from(search.fold_step) == u64::from(delay) {
            return true;
        }
    }
    false
}

// The greatest number of halvings, at most `most`, whose rows of `period` values fit into `room` values.
fn most_halvings(most: u32, period: u32, room: usize) -> u32
    ensures { result ≤ 12 }
{
    for less in 0..most.min(12) {
        let halvings = most.min(12) - less;
        if u64::from(period) << halvings <= room as u64 {
            return halvings;
        }
    }
    0
}

// The detected folds of a trial.
fn list_trial(
    list: &mut Vec<Candidate>,
    search: &Search,
    series: &[u32],
    cells: u32,
    of: (u32, u32, u32),
    trial: u32,
) -> Result<(), Memory> {
    let (delay, period, halvings) = of;
    if halvings < 1 || halvings > 12 || trial >= 1 << halvings {
        return Ok(());
    }
    if u64::from(period) << halvings > series.len() as u64 {
        return Ok(());
    }
    let cells = u64::from(cells) << halvings;
    for phase in 0..period {
        let sum = fold_sum(series, period, halvings, trial, phase);
        let sum = u32::try_from(sum).unwrap_or(0);
        if is_detected(search, sum, cells) {
            list.push(Candidate::Fold {
                delay,
                period,
                halvings,
                trial,
                phase,
                sum,
            })?;
        }
    }
    Ok(())
}

/// Lists the detected folds of the series of a delay. A path sum has `cells` cells.
pub fn list_delay(
    list: &mut Vec<Candidate>,
    search: &Search,
    series: &[u32],
    delay: u32,
    cells: u32,
) -> Result<(), Memory> {
    for period in search.fold_min..search.fold_max.min(1 << 20) + 1 {
        let halvings = most_halvings(search.fold_rows, period, series.len());
        if halvings > 0 {
            for trial in 0..1_u32 << halvings {
                let of = (delay, period, halvings);
                list_trial(list, search, series, cells, of, trial)?;
            }
        }
    }
    Ok(())
}
