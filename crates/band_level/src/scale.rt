// The scale of a cell, from its moments.
ghost use Rattle.std.specs.Prelude.{◌≡◌, ◌+◌, ◌*◌, ◌^◌, ◌<◌, ◌≤◌, ℕ};
ghost use Rattle.band_level.specs.Moments.{Moments, spread, is_near};
ghost use Rattle.band_level.specs.Scales.{root, unit, most_gain, gain_for, scale_for, scale_of};
ghost use Rattle.band_level.specs.Ranges.{PlanInRange};
ghost use Rattle.band_level.specs.Columns.{MomentsInRange, IsScaleOf, moments_of, is_between};

use crate::plan::Plan;

/// How many units a value has.
pub const UNIT: u64 = 1048576;

// The greatest gain.
const MOST_GAIN: u64 = 1099511627776;

/// How many values a cell has, their sum, and the sum of their squares.
#[derive(Clone, Copy, Drop)]
pub struct Moments {
    pub count: u32,
    pub total: u64,
    pub squares: u64,
}

/// The least and the greatest value that lies near the mean.
#[derive(Clone, Copy, Drop)]
pub struct Bounds {
    pub low: u32,
    pub high: u32,
}

/// A value x becomes base + gain * x units, less `lift` values.
#[derive(Clone, Copy, Drop)]
pub struct Scale {
    pub gain: u64,
    pub base: u64,
    pub lift: u64,
}

// The square of the deviation times that of the count.
fn spread_of(m: Moments) -> u128
    requires { MomentsInRange (moments_of m) }
    ensures spread { result ≡ spread (moments_of m) }
    ensures small { result < 2 ^ 84 }
{
    (m.count as u128 * m.squares as u128).saturating_sub(m.total as u128 * m.total as u128)
}

// The square root, rounded down.
fn root_of(v: u128) -> u64
    ensures root { result ≡ root v }
    ensures low { result * result ≤ v }
    ensures high { v < (result + 1) * (result + 1) }
{
    v.isqrt() as u64
}

/// The bounds of what lies within four deviations of the mean.
pub fn near_bounds(m: Moments) -> Bounds
    requires range { MomentsInRange (moments_of m) }
    requires some { 0 < m.count }
    ensures { (x : ℕ) → x < 2 ^ 32
        → is_between result.low result.high x ≡ is_near (moments_of m) x }
{
    let count = m.count as u64;
    let far = root_of(16 * spread_of(m));
    let low = m.total.saturating_sub(far).div_ceil(count);
    let high = ((m.total + far) / count).min(u64::from(u32::MAX));
    Bounds {
        low: low as u32,
        high: high as u32,
    }
}

// The gain of a cell that isn't masked.
fn gain_of(plan: Plan, m: Moments) -> u64
    requires plan { PlanInRange plan }
    requires range { MomentsInRange (moments_of m) }
    ensures gain { result ≡ gain_for plan (moments_of m) (root (spread (moments_of m))) }
    ensures most { result ≤ most_gain }
{
    let deviation = root_of(spread_of(m));
    if deviation == 0 {
        return 0;
    }
    (plan.deviation as u64 * m.count as u64 * UNIT / (1000 * deviation)).min(MOST_GAIN)
}

// The scale with a gain.
fn with_gain(plan: Plan, m: Moments, gain: u64) -> Scale
    requires plan { PlanInRange plan }
    requires range { MomentsInRange (moments_of m) }
    requires some { 0 < m.count }
    requires gain { gain ≤ most_gain }
    ensures { IsScaleOf result (scale_for plan (moments_of m) gain) }
{
    let count = m.count as u128;
    let unit = UNIT as u128;
    let mean = plan.mean as u128 * count * unit / 1000;
    let part = gain as u128 * m.total as u128;
    let lift = part / (count * unit) + 1;
    let base = (mean + count * unit * lift - part) / count;
    Scale {
        gain,
        base: base as u64,
        lift: lift as u64,
    }
}

/// The scale of a cell.
pub fn scale_of_cell(plan: Plan, is_masked: bool, m: Moments) -> Scale
    requires plan { PlanInRange plan }
    requires range { MomentsInRange (moments_of m) }
    requires some { 0 < m.count }
    ensures { IsScaleOf result (scale_of plan is_masked (moments_of m)) }
{
    let gain = if is_masked { 0 } else { gain_of(plan, m) };
    with_gain(plan, m, gain)
}
