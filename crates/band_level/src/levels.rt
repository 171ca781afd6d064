// Rows of values, levelled and written.
ghost use Rattle.std.specs.Prelude.{◌≡◌, ℕ, ◌+◌, ◌-◌, ◌*◌, ◌/◌, ◌%◌, ◌^◌, ◌<◌, ◌≤◌, ◌⊎◌, ◌++◌, length, min, take, slice_index};
ghost use Rattle.std.specs.List.{flat_map};
ghost use Rattle.band_level.specs.Scales.{unit};
ghost use Rattle.band_level.specs.Levelled.{value_bytes};
ghost use Rattle.band_level.specs.Rows.{HasNarrow, HasScales, LevelsRow, AreLong, Narrows, RowsFit, ScalesFit, units_at};

use crate::cells::{CellScales, NarrowScales};
use crate::scale::UNIT;

// How many units a value has, in 32 bits.
const NARROW_UNIT: u32 = 1048576;

// Adds to what was carried on what a row comes to, in units.
fn add_units(row: &[u32], gains: &[u32], bases: &[u32], fractions: &mut [u32])
    requires gains { length gains.now ≡ length row.now }
    requires bases { length bases.now ≡ length row.now }
    requires fractions { length fractions.old ≡ length row.now }
    requires room { (i : ℕ) → i < length row.now
        → units_at row.now gains.now bases.now fractions.old i < 2 ^ 32 }
    ensures { (i : ℕ) → i < length row.now
        → slice_index fractions.new i ≡ units_at row.now gains.now bases.now fractions.old i }
{
    for i in 0..row.len() {
        fractions[i] += bases[i] + gains[i] * row[i];
    }
}

// The whole values of units, without their lift, cut at 0 and at the greatest.
fn set_levels(units: &[u32], lifts: &[u32], most: u32, levels: &mut [u32])
    requires lifts { length lifts.now ≡ length units.now }
    requires levels { length levels.old ≡ length units.now }
    ensures level { (i : ℕ) → i < length units.now → slice_index levels.new i
        ≡ min most (slice_index units.now i / unit - slice_index lifts.now i) }
    ensures most { (i : ℕ) → i < length units.now → slice_index levels.new i ≤ most }
{
    for i in 0..units.len() {
        levels[i] = (units[i] / NARROW_UNIT).saturating_sub(lifts[i]).min(most);
    }
}

// What units leave over of whole values.
fn keep_fractions(units: &mut [u32])
    ensures fraction { (i : ℕ) → i < length units.old
        → slice_index units.new i ≡ slice_index units.old i % unit }
    ensures carried { (i : ℕ) → slice_index units.new i < unit }
{
    for i in 0..units.len() {
        units[i] %= NARROW_UNIT;
    }
}

// Levels a row of values in 32 bits.
fn level_narrow(
    row: &[u32],
    gains: &[u32],
    bases: &[u32],
    lifts: &[u32],
    most: u32,
    fractions: &mut [u32],
    levels: &mut [u32],
)
    requires scales { AreLong (length row.now) gains.now bases.now lifts.now }
    requires rows { RowsFit (length row.now) fractions.old row.now levels.old }
    requires room { (i : ℕ) → i < length row.now → slice_index bases.now i
        + slice_index gains.now i * slice_index row.now i + unit ≤ 2 ^ 32 }
    ensures levels { LevelsRow most row.now gains.now bases.now lifts.now fractions.old
        levels.new fractions.new }
    ensures carried { (i : ℕ) → slice_index fractions.new i < unit }
    ensures most { (i : ℕ) → i < length row.now → slice_index levels.new i ≤ most }
{
    add_units(row, gains, bases, fractions);
    set_levels(fractions, lifts, most, levels);
    keep_fractions(fractions);
}

// Levels a row of values in 64 bits.
fn level_wide(
    row: &[u32],
    gains: &[u64],
    bases: &[u64],
    lifts: &[u64],
    most: u32,
    fractions: &mut [u32],
    levels: &mut [u32],
)
    requires scales { ScalesFit (length row.now) gains.now bases.now lifts.now }
    requires rows { RowsFit (length row.now) fractions.old row.now levels.old }
    requires values { (i : ℕ) → slice_index row.now i ≤ 4194303 }
    ensures levels { LevelsRow most row.now gains.now bases.now lifts.now fractions.old
        levels.new fractions.new }
    ensures carried { (i : ℕ) → slice_index fractions.new i < unit }
    ensures most { (i : ℕ) → i < length row.now → slice_index levels.new i ≤ most }
{
    for i in 0..row.len() {
        let units = bases[i] + gains[i] * u64::from(row[i]) + u64::from(fractions[i]);
        fractions[i] = (units % UNIT) as u32;
        levels[i] = (units / UNIT).saturating_sub(lifts[i]).min(u64::from(most)) as u32;
    }
}

/// Levels a row of values, none of which is greater than `most_value`.
pub fn level_row(
    row: &[u32],
    most_value: u32,
    scales: &CellScales,
    narrow: &NarrowScales,
    most: u32,
    fractions: &mut [u32],
    levels: &mut [u32],
)
    requires scales { HasScales (length row.now) scales.now }
    requires long { HasNarrow (length row.now) narrow.now }
    requires narrow { Narrows (length row.now) most_value scales.now narrow.now }
    requires rows { RowsFit (length row.now) fractions.old row.now levels.old }
    requires values { (i : ℕ) → slice_index row.now i ≤ most_value }
    requires most_value { most_value ≤ 4194303 }
    ensures levels { LevelsRow most row.now scales.now.gains.items scales.now.bases.items
        scales.now.lifts.items fractions.old levels.new fractions.new }
    ensures carried { (i : ℕ) → slice_index fractions.new i < unit }
    ensures most { (i : ℕ) → i < length row.now → slice_index levels.new i ≤ most }
{
    if narrow.fits {
        let gains = narrow.gains.as_slice();
        let bases = narrow.bases.as_slice();
        let lifts = narrow.lifts.as_slice();
        level_narrow(row, gains, bases, lifts, most, fractions, levels);
    } else {
        let gains = scales.gains.as_slice();
        let bases = scales.bases.as_slice();
        let lifts = scales.lifts.as_slice();
        level_wide(row, gains, bases, lifts, most, fractions, levels);
    }
}

// Writes values of 8 bits.
fn write_bytes(out: &mut [u8], at: usize, levels: &[u32])
    requires room { at + length levels.now ≤ length out.old }
    requires small { (i : ℕ) → i < length levels.now → slice_index levels.now i ≤ 255 }
    ensures { take (at + length levels.now) out.new
        ≡ take at out.old ++ flat_map (value_bytes 8) levels.now }
{
    for i in 0..levels.len() {
        out[at + i] = levels[i] as u8;
    }
}

// Writes values of 16 bits, the low byte first.
fn write_pairs(out: &mut [u8], at: usize, levels: &[u32])
    requires room { at + 2 * length levels.now ≤ length out.old }
    requires small { (i : ℕ) → i < length levels.now → slice_index levels.now i ≤ 65535 }
    ensures { take (at + 2 * length levels.now) out.new
        ≡ take at out.old ++ flat_map (value_bytes 16) levels.now }
{
    for i in 0..levels.len() {
        out[at + 2 * i] = (levels[i] % 256) as u8;
        out[at + 2 * i + 1] = (levels[i] / 256) as u8;
    }
}

/// Writes a row of levels from a place on.
pub fn write_levels(out: &mut [u8], at: usize, levels: &[u32], bits: u32)
    requires bits { (bits ≡ 8) ⊎ (bits ≡ 16) }
    requires room { at + length levels.now * (bits / 8) ≤ length out.old }
    requires bytes { bits ≡ 8 → (i : ℕ) → i < length levels.now
        → slice_index levels.now i ≤ 255 }
    requires pairs { (i : ℕ) → i < length levels.now → slice_index levels.now i ≤ 65535 }
    ensures { take (at + length levels.now * (bits / 8)) out.new
        ≡ take at out.old ++ flat_map (value_bytes bits) levels.now }
{
    if bits == 16 {
        write_pairs(out, at, levels);
    } else {
        write_bytes(out, at, levels);
    }
}
