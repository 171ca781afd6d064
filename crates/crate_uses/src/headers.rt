//! From the first bytes of a file to a dispersion measure.
ghost use Rattle.std.specs.Prelude.{◌≤◌, IfOk, IfErr};
ghost use Rattle.dada_model.specs.Bounds.{most_delay};
ghost use Rattle.crate_uses.specs.Headers.{HasDispersion, IsRefused};

use dada_header::{Header, HeaderFault};
use obs_plan::{ObsFault, Observation};
use std::alloc::Global;

/// Why bytes have no observation.
#[derive(PartialEq, Eq, Drop)]
pub enum Refused {
    Header(HeaderFault),
    Observation(ObsFault),
}

/// The dispersion measure, in thousandths of pc/cm^3, of a pulse that reaches the bottom of the band `delay` spectra
/// after its top. The bytes begin with the header of the observation.
pub fn dispersion(alloc: Global, bytes: &[u8], delay: u32) -> Result<u64, Refused>
    requires { delay ≤ most_delay }
    ensures ok { IfOk result (HasDispersion bytes.now delay) }
    ensures fault { IfErr result (IsRefused bytes.now) }
{
    let header = match Header::read(alloc, bytes) {
        Ok(header) => header,
        Err(fault) => return Err(Refused::Header(fault)),
    };
    match Observation::of(alloc, &header) {
        Ok(observation) => Ok(observation.dm(delay)),
        Err(fault) => Err(Refused::Observation(fault)),
    }
}
