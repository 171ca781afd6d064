// Whether a list has a pulse that ends near a spectrum.
ghost use Rattle.std.specs.Prelude.{◌≡◌, true, false};
ghost use Rattle.std.specs.List.{list_any};
ghost use Rattle.std.specs.List.Sorted.{IsPartitionPoint};
ghost use Rattle.beam_set.specs.Marks.{is_near};
ghost use Rattle.beam_set.specs.Ends.{is_before, EndsRise};

use candidate_book::Candidate;

// Whether a candidate is a pulse that ends before a spectrum.
fn ends_before(candidate: &Candidate, spectrum: u64) -> bool
    ensures { result ≡ is_before spectrum candidate.now }
{
    match *candidate {
        Candidate::Pulse { end, .. } => end < spectrum,
        Candidate::Fold { .. } => false,
    }
}

// Whether a candidate is a pulse whose end differs from a spectrum by at most `within`.
fn ends_near(candidate: &Candidate, spectrum: u64, within: u32) -> bool
    ensures { result ≡ is_near within spectrum candidate.now }
{
    match *candidate {
        Candidate::Pulse { end, .. } => spectrum.abs_diff(end) <= u64::from(within),
        Candidate::Fold { .. } => false,
    }
}

// How many pulses of a list end before a spectrum. They come before all other candidates.
fn count_before(list: &[Candidate], spectrum: u64) -> usize
    requires { EndsRise list.now }
    ensures { IsPartitionPoint (λ c. is_before spectrum c ≡ true)
        (λ c. is_before spectrum c ≡ false) list.now result }
{
    list.partition_point(|candidate| ends_before(candidate, spectrum))
}

/// Whether a list has a pulse whose end differs from a spectrum by at most `within`. The first pulse that does not end
/// too early decides.
pub(crate) fn has_near(list: &[Candidate], spectrum: u64, within: u32) -> bool
    requires { EndsRise list.now }
    ensures { result ≡ list_any (is_near within spectrum) list.now }
{
    let least = spectrum.saturating_sub(u64::from(within));
    match list.get(count_before(list, least)) {
        Some(candidate) => ends_near(candidate, spectrum, within),
        None => false,
    }
}
