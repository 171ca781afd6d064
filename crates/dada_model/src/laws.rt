// Laws of the definitions, which the contracts of functions that do nothing carry. A caller whose proof
// needs a law calls its function.
ghost use Rattle.dada_model.specs.Laws.{NumbersAreSpelled, AcceptedByRows, AcceptedIsInRange, BandsInRow, EdgesFall, EdgesAreQuotients, DispersionFits};

/// A text has a value exactly if it is a sign, digits, and optionally a point and digits.
pub fn numbers_are_spelled()
    ensures { NumbersAreSpelled }
{}

/// A header is accepted exactly if the number of each key is in the range of its row and each channel is at least 1 kHz
/// wide.
pub fn accepted_by_rows()
    ensures { AcceptedByRows }
{}

/// An accepted observation lies within its bounds.
pub fn accepted_is_in_range()
    ensures { AcceptedIsInRange }
{}

/// BW is in the range of its row exactly if it isn't 0 and the band lies between 1 kHz and 2^24 kHz.
pub fn bands_in_row()
    ensures { BandsInRow }
{}

/// The edges of an observation within its bounds are positive, fall strictly, and are at most 2^24 kHz.
pub fn edges_fall()
    ensures { EdgesFall }
{}

/// Each edge of an observation within its bounds is a quotient of natural numbers.
pub fn edges_are_quotients()
    ensures { EdgesAreQuotients }
{}

/// All numbers in the calculation of a dispersion measure are below 2^122.
pub fn dispersion_fits()
    ensures { DispersionFits }
{}
