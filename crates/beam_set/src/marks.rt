// Which pulses of several beams are taken for interference.
ghost use Rattle.std.specs.Prelude.{◌≡◌, All};
ghost use Rattle.std.specs.List.{list_any};
ghost use Rattle.search_model.specs.Order.{IsRising};
ghost use Rattle.beam_set.specs.Marks.{is_near, near_beams, is_marked};
ghost use Rattle.beam_set.specs.Ends.{EndsRise};
ghost use Rattle.beam_set.specs.Beams.{found_at, lists_in};

use crate::ended::BeamEnd;
use crate::near::has_near;

// Whether a beam keeps a pulse near a spectrum.
fn keeps_near(beam: &Option<BeamEnd>, spectrum: u64, within: u32) -> bool
    requires { EndsRise (found_at beam.now).list }
    ensures { result ≡ list_any (is_near within spectrum) (found_at beam.now).list }
{
    match beam {
        Some(beam) => has_near(beam.book.kept(), spectrum, within),
        None => false,
    }
}

// How many beams keep a pulse near a spectrum.
fn count_near(beams: &[Option<BeamEnd>], spectrum: u64, within: u32) -> usize
    requires { All EndsRise (lists_in beams.now) }
    ensures { result ≡ near_beams (lists_in beams.now) within spectrum }
{
    let mut count = 0;
    for k in 0..beams.len() {
        if keeps_near(&beams[k], spectrum, within) {
            count += 1;
        }
    }
    count
}

/// Whether a pulse is marked, as `marked` answers, if the pulses of each list come first and are ordered by their ends.
pub(crate) fn marked_among(beams: &[Option<BeamEnd>], end: u64, within: u32, more: u32) -> bool
    requires { All EndsRise (lists_in beams.now) }
    ensures { result ≡ is_marked (lists_in beams.now) within more end }
{
    count_near(beams, end, within) > more as usize
}

/// Whether a pulse that ends at the spectrum `end` is taken for interference: more than `more` of these beams keep a
/// pulse whose end differs from it by at most `within` spectra, and the beam that has it counts. Pulses of every delay
/// and width count, and folds don't. It takes no memory.
pub fn marked(beams: &[Option<BeamEnd>], end: u64, within: u32, more: u32) -> bool
    requires { All IsRising (lists_in beams.now) }
    ensures { result ≡ is_marked (lists_in beams.now) within more end }
{
    marked_among(beams, end, within, more)
}
