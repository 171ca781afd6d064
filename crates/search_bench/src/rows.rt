//! Measures sums of rows and folds.

ghost use Rattle.std.specs.Prelude.{◌≡◌, ◌*◌, ◌^◌, ◌<◌, ◌≤◌, IfOk, vec_len};
ghost use Rattle.std.specs.List.{All};
ghost use Rattle.fast_fold.specs.Folding.{IsAt, HaveSameRoom};

use fast_fold::Folder;
use fdmt_rows::{add_rows, greatest};
use psr_base::Memory;
use std::alloc::Global;

// The maximum length of a row, of a period, and number of rows of a fold.
const LONGEST: u32 = 1 << 16;

/// Work that is done again and again. A length, period or number of halvings out of range is replaced by the nearest
/// one in range.
#[derive(Clone, Copy)]
pub enum Work {
    Sums {
        length: u32,
        repeats: u32,
    },
    Fold {
        period: u32,
        halvings: u32,
        repeats: u32,
    },
}

/// The work of the arguments LENGTH REPEATS, or `None` if they are not of this form.
pub fn sums_of(words: &[String]) -> Option<Work> {
    let [length, repeats] = words else {
        return None;
    };
    Some(Work::Sums {
        length: length.as_str().parse().ok()?,
        repeats: repeats.as_str().parse().ok()?,
    })
}

/// The work of the arguments PERIOD HALVINGS REPEATS, or `None` if they are not of this form.
pub fn fold_of(words: &[String]) -> Option<Work> {
    let [period, halvings, repeats] = words else {
        return None;
    };
    Some(Work::Fold {
        period: period.as_str().parse().ok()?,
        halvings: halvings.as_str().parse().ok()?,
        repeats: repeats.as_str().parse().ok()?,
    })
}

/// Does the work, and answers the greatest value that was made.
pub fn do_work(alloc: Global, work: Work) -> Result<u32, Memory> {
    match work {
        Work::Sums { length, repeats } => add_often(alloc, length.min(LONGEST) as usize, repeats),
        Work::Fold {
            period,
            halvings,
            repeats,
        } => fold_often(
            alloc,
            period.clamp(1, LONGEST),
            halvings.clamp(1, 6),
            repeats,
        ),
    }
}

// `count` values up to 31.
fn values(alloc: Global, count: usize) -> Result<Vec<u32>, Memory>
    ensures long { IfOk result (λ v. vec_len v ≡ count) }
    ensures small { IfOk result (λ v. All (λ x. x ≤ 31) v.items) }
{
    let mut state = 1_u32;
    let mut values = Vec::new(alloc);
    for done in 0..count {
        state = state.wrapping_mul(1664525).wrapping_add(1013904223);
        let value = (state >> 16) % 32;
        values.push(value)?;
    }
    Ok(values)
}

// Adds a row to another one, again and again.
fn add_often(alloc: Global, length: usize, repeats: u32) -> Result<u32, Memory> {
    let step = values(alloc, length)?;
    let mut here = values(alloc, length)?;
    let mut there = values(alloc, length)?;
    for done in 0..repeats {
        if done % 2 == 0 {
            add_rows(there.as_mut_slice(), here.as_slice(), step.as_slice());
        } else {
            add_rows(here.as_mut_slice(), there.as_slice(), step.as_slice());
        }
    }
    Ok(greatest(here.as_slice()))
}

// Folds a series again and again.
fn fold_often(alloc: Global, period: u32, halvings: u32, repeats: u32) -> Result<u32, Memory>
    requires phases { 1 ≤ period }
    requires short { period ≤ 2 ^ 16 }
    requires some { 1 ≤ halvings }
    requires few { halvings ≤ 6 }
{
    let series = values(alloc, period as usize * (1 << halvings))?;
    let mut folder = Folder::open(alloc, period, halvings)?;
    let mut most = 0;
    for done in 0..repeats {
        folder.load(series.as_slice(), period, halvings);
        most = most.max(greatest_of_fold(&mut folder, period, halvings));
    }
    Ok(most)
}

// Folds all that was loaded by halves, and answers the greatest sum.
fn greatest_of_fold(folder: &mut Folder, period: u32, halvings: u32) -> u32
    requires loaded { IsAt folder.old period halvings 0 }
    requires some { 1 ≤ halvings }
    requires few { halvings ≤ 6 }
    ensures { HaveSameRoom folder.new folder.old }
{
    for level in 0..halvings {
        folder.halve();
    }
    let mut most = 0;
    for trial in 0..1_u32 << halvings {
        most = most.max(greatest(folder.profile(0, trial)));
    }
    most
}
