// What is levelled.
ghost use Rattle.std.specs.Prelude.{◌≡◌};
ghost use Rattle.band_level.specs.Sound.{FitsTask};
ghost use Rattle.band_level.specs.Spectra.{written_bytes};

use crate::format::Format;
use crate::plan::Plan;

/// How data are read, what they become, and the marks of the masked channels, in the order of the file.
#[derive(Drop)]
pub struct Task {
    pub format: Format,
    pub plan: Plan,
    pub masked: Vec<bool>,
}

impl Task {
    /// How many bytes of a levelled spectrum are written.
    pub fn written_bytes(&self) -> usize
        requires { FitsTask self.now }
        ensures { result ≡ written_bytes self.now.format self.now.plan }
    {
        (self.format.channels * self.format.polarisations) as usize * (self.plan.bits as usize / 8)
    }
}
