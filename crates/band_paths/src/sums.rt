// Sums of samples along a delay path.
ghost use Rattle.std.specs.Prelude.{◌≡◌, ℕ, ◌+◌, ◌-◌, ◌*◌, ◌/◌, ◌<◌, ◌≤◌, length, slice_index, true, All, sum};
ghost use Rattle.search_model.specs.Samples.{filterbank, sample_before};
ghost use Rattle.search_model.specs.Sums.{channel_cells, path_sum_along};
ghost use Rattle.band_paths.specs.Edges.{AreDelays, most_sample};

/// The sum of the samples on a path that ends at spectrum `u`. `samples` are spectra of `n` values, the highest channel
/// first; an incomplete last spectrum is ignored. `delays` are those of the path at the `n + 1` edges. Before the first
/// spectrum all samples count 0.
pub fn path_sum(samples: &[u32], n: usize, delays: &[u32], u: usize) -> u64
    requires least { 2 ≤ n }
    requires most { n ≤ 4096 }
    requires end { u < length samples.now / n }
    requires delays { AreDelays n delays.now }
    requires small { All (λ x. x ≤ most_sample) samples.now }
    ensures value { result
        ≡ path_sum_along (filterbank n true samples.now) delays.now (slice_index delays.now n) u 0 }
    ensures bound { (m : ℕ) → All (λ x. x ≤ m) samples.now →
        result ≤ m * (n + slice_index delays.now n) }
{
    let mut total = 0;
    for c in 0..n {
        total += channel_sum(samples, n, c, delays, u);
    }
    total
}

// The sum of the cells of channel `c`.
fn channel_sum(samples: &[u32], n: usize, c: usize, delays: &[u32], u: usize) -> u64
    requires channel { c < n }
    requires most { n ≤ 4096 }
    requires end { u < length samples.now / n }
    requires delays { AreDelays n delays.now }
    requires small { All (λ x. x ≤ most_sample) samples.now }
    ensures value { result
        ≡ sum (channel_cells (filterbank n true samples.now) delays.now
        (slice_index delays.now n) u 0 c) }
    ensures bound { (m : ℕ) → All (λ x. x ≤ m) samples.now →
        result ≤ m * (slice_index delays.now (c + 1) + 1 - slice_index delays.now c) }
{
    let d = delays[n] as usize;
    let first = delays[c] as usize;
    let last = delays[c + 1] as usize;
    let mut total = 0;
    for k in first..last + 1 {
        total += u64::from(cell(samples, n, c, u + k, d));
    }
    total
}

// The sample of channel `c` in spectrum `s - d`, or 0 before the first spectrum.
fn cell(samples: &[u32], n: usize, c: usize, s: usize, d: usize) -> u32
    requires channel { c < n }
    requires end { s < length samples.now / n + d }
    requires small { All (λ x. x ≤ most_sample) samples.now }
    ensures value { result ≡ sample_before (filterbank n true samples.now) c s d }
    ensures bound { (m : ℕ) → All (λ x. x ≤ m) samples.now → result ≤ m }
{
    if s < d { 0 } else { samples[(s - d) * n + c] }
}
