// The keys of an observation.
ghost use Rattle.std.specs.Prelude.{◌≡◌};

/// A header's keyword that an observation is read from, in the order in which the keywords are judged.
#[derive(Clone, Copy, PartialEq, Eq, Debug)]
pub enum Key {
    Nchan,
    Nbit,
    Npol,
    Ndim,
    Tsamp,
    Freq,
    Bw,
    ObsOffset,
}

impl Key {
    ghost use Rattle.dada_model.specs.Observation.{keyword};

    /// The keyword as it stands in a header.
    pub fn name(self) -> &'static str
        ensures { result.now ≡ keyword self }
    {
        match self {
            Key::Nchan => "NCHAN",
            Key::Nbit => "NBIT",
            Key::Npol => "NPOL",
            Key::Ndim => "NDIM",
            Key::Tsamp => "TSAMP",
            Key::Freq => "FREQ",
            Key::Bw => "BW",
            Key::ObsOffset => "OBS_OFFSET",
        }
    }
}
