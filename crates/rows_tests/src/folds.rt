// Folds by halves, against the fold sums of the definition.
ghost use Rattle.std.specs.Prelude.{◌≡◌, ◌*◌, ◌^◌, ◌<◌, ◌≤◌, length};
ghost use Rattle.std.specs.List.{All};
ghost use Rattle.fast_fold.specs.Folding.{IsAt};

use crate::values::values;
use fast_fold::Folder;
use fdmt_rows::greatest;
use fold_phase::{fold_sum, shift};
use psr_base::Memory;
use std::alloc::Global;

#[test]
fn rows_are_shifted_by_their_bits(rt: HostRuntime) {
    let first = [
        shift(2, 1, 0),
        shift(2, 1, 1),
        shift(2, 1, 2),
        shift(2, 1, 3),
    ];
    let third = [
        shift(2, 3, 0),
        shift(2, 3, 1),
        shift(2, 3, 2),
        shift(2, 3, 3),
    ];
    let are = first.as_slice() == [0, 0, 1, 1].as_slice();
    assert!(rt; are && third.as_slice() == [0, 1, 2, 3].as_slice());
}

#[test]
fn two_rows_are_folded(rt: HostRuntime) -> Result<(), Memory> {
    let series = [1_u32, 2, 3, 4];
    let first = [fold_sum(&series, 2, 1, 0, 0), fold_sum(&series, 2, 1, 0, 1)];
    let second = [fold_sum(&series, 2, 1, 1, 0), fold_sum(&series, 2, 1, 1, 1)];
    let mut folder = Folder::open(rt.alloc(), 2, 1)?;
    folder.load(&series, 2, 1);
    let are_loaded = folder.profile(0, 0) == [1_u32, 2].as_slice()
        && folder.profile(1, 0) == [3_u32, 4].as_slice();
    folder.halve();
    let are_halved = folder.level() == 1
        && folder.profile(0, 0) == [4_u32, 6].as_slice()
        && folder.profile(0, 1) == [5_u32, 5].as_slice();
    assert!(rt; first.as_slice() == [4_u64, 6].as_slice());
    assert!(rt; second.as_slice() == [5_u64, 5].as_slice());
    assert!(rt; are_loaded && are_halved);
    Ok(())
}

// Whether a profile has the fold sums of the definition; at level 0 whether it is the row itself.
fn is_profile(profile: &[u32], rows: &[u32], level: u32, trial: u32) -> bool
    requires short { length profile.now < 2 ^ 32 }
    requires some { 0 < length profile.now }
    requires few { level ≤ 6 }
    requires trial { trial < 2 ^ level }
    requires rows { 2 ^ level * length profile.now ≤ length rows.now }
{
    for phase in 0..profile.len() {
        let wanted = if level == 0 {
            u64::from(rows[phase])
        } else {
            fold_sum(rows, profile.len() as u32, level, trial, phase as u32)
        };
        if u64::from(profile[phase]) != wanted {
            return false;
        }
    }
    true
}

// Whether all profiles of a level have the fold sums of the definition.
fn is_level(folder: &Folder, series: &[u32], p: u32, m: u32, level: u32) -> bool
    requires at { IsAt folder.now p m level }
    requires phases { 1 ≤ p }
    requires some { 1 ≤ m }
    requires few { m ≤ 6 }
    requires level { level ≤ m }
    requires short { p ≤ 1000 }
    requires long { length series.now ≤ 4096 }
{
    let rows = 1_usize << level;
    let size = rows * p as usize;
    for block in 0..1_u32 << (m - level) {
        let start = block as usize * size;
        let Some(part) = series.get(start..start + size) else {
            return false;
        };
        for trial in 0..1_u32 << level {
            if !is_profile(folder.profile(block, trial), part, level, trial) {
                return false;
            }
        }
    }
    true
}

// Whether all profiles of all levels of a period have the fold sums of the definition.
fn are_levels(alloc: Global, series: &[u32], p: u32, m: u32) -> Result<bool, Memory>
    requires phases { 1 ≤ p }
    requires short { p ≤ 40 }
    requires some { 1 ≤ m }
    requires few { m ≤ 6 }
    requires long { length series.now ≡ 3000 }
    requires small { All (λ x. x ≤ 32) series.now }
{
    let mut folder = Folder::open(alloc, p, m)?;
    folder.load(series, p, m);
    let mut are = is_level(&folder, series, p, m, 0);
    for level in 0..m {
        folder.halve();
        are = is_level(&folder, series, p, m, level + 1) && are;
    }
    Ok(are)
}

#[test]
fn levels_are_folds(rt: HostRuntime) -> Result<(), Memory> {
    let series = values(rt.alloc(), 3000, 32, 7)?;
    for p in [2_u32, 7, 40] {
        for m in 1..7_u32 {
            let are = are_levels(rt.alloc(), series.as_slice(), p, m)?;
            assert!(rt; are, "period {p}, {m} halvings");
        }
    }
    Ok(())
}

// The greatest sum of all profiles of a period that was folded completely.
fn greatest_of(folder: &Folder, p: u32, m: u32) -> u32
    requires at { IsAt folder.now p m m }
    requires phases { 1 ≤ p }
    requires some { 1 ≤ m }
    requires few { m ≤ 8 }
{
    let mut most = 0;
    for trial in 0..1_u32 << m {
        most = greatest(folder.profile(0, trial)).max(most);
    }
    most
}

// Whether the greatest sum above a base is the greatest of the profiles of the values less that base.
fn is_greatest(alloc: Global, series: &[u32], base: u32, p: u32, m: u32) -> Result<bool, Memory>
    requires phases { 1 ≤ p }
    requires short { p ≤ 1000 }
    requires some { 1 ≤ m }
    requires few { m ≤ 8 }
    requires long { 2 ^ m * p ≤ length series.now }
    requires small { All (λ x. x ≤ 900) series.now }
{
    let mut above = Vec::new(alloc);
    for &value in series {
        above.push(value.saturating_sub(base))?;
    }
    let mut folder = Folder::open(alloc, p, m)?;
    folder.load(above.as_slice(), p, m);
    for _level in 0..m {
        folder.halve();
    }
    Ok(folder.greatest_excess(series, base, p, m) == greatest_of(&folder, p, m).min(65535))
}

#[test]
fn greatest_sums_are_those_of_profiles(rt: HostRuntime) -> Result<(), Memory> {
    let series = values(rt.alloc(), 6000, 900, 11)?;
    for base in [0_u32, 400, 1000] {
        for (p, m) in [
            (1_u32, 1_u32),
            (2, 3),
            (7, 8),
            (17, 7),
            (50, 5),
            (400, 3),
            (1000, 2),
        ] {
            let is = is_greatest(rt.alloc(), series.as_slice(), base, p, m)?;
            assert!(rt; is, "base {base}, period {p}, {m} halvings");
        }
    }
    Ok(())
}
