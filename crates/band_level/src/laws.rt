// Laws of levelled bands.
ghost use Rattle.band_level.specs.Laws.{MeansAreKept, SpectraHaveTheMean};

/// Law: over a stretch of which no value was left out of the moments and nothing was cut, the levels of a channel and
/// polarisation sum up to that many means, but for less than two. The stretch is a whole one, or all data where these
/// are shorter. The levels are what is written if bursts aren't clipped and the means of spectra aren't taken out.
pub fn means_are_kept()
    ensures { MeansAreKept }
{}

/// Law: if the mean of each spectrum is taken out, and nothing is cut by that, the values of a spectrum in all channels
/// and polarisations that aren't masked sum up to that many means, rounded down.
pub fn spectra_have_the_mean()
    ensures { SpectraHaveTheMean }
{}
