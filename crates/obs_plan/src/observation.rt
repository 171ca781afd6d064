// The observation of a header.
ghost use Rattle.std.specs.Prelude.{◌≡◌, ◌≤◌, Ok, IfOk, IfErr};
ghost use Rattle.dada_model.specs.Fields.{fields_of};
ghost use Rattle.dada_model.specs.Observation.{Observation as Described, observation_of, edges as edges_of, dm as dm_of, max_sample as max_sample_of};
ghost use Rattle.dada_model.specs.Bounds.{most_delay, ObservationInRange};
ghost use Rattle.dada_model.specs.Edges.{AreEdges};
ghost use Rattle.obs_plan.specs.Faults.{ExplainsObservation};
ghost use Rattle.obs_plan.specs.Later.{profile_of};

use crate::fault::ObsFault;
use crate::numbers::Numbers;
use crate::profile::Profile;
use dada_header::Header;
// A law: it does nothing when it runs, and the proofs use what it ensures.
use dada_model::edges_fall;
use std::alloc::Global;
use std::marker::Model;

/// What a header says of its data, by keywords of the PSRDADA manual: the number of channels, how samples are written
/// and how long they last, the frequencies of the channels, and how many data bytes came before.
#[derive(Drop)]
pub struct Observation {
    numbers: Numbers,
    edges: Vec<u32>,
}

impl Model for Observation {
    ghost use Rattle.std.specs.Prelude.{◌≡◌};
    ghost use Rattle.dada_model.specs.Observation.{Observation as Described, edges as edges_of};

    ghost Value = { Described };

    ghost view = { λ o. o.numbers };

    ghost invariant = { λ o. o.edges.items ≡ edges_of o.numbers };
}

impl Observation {
    /// Reads the observation of a header, or the first reason to refuse it. For each keyword in turn it may be missing,
    /// no number, or outside its range; last, a channel may be narrower than 1 kHz. `Memory` may come instead.
    /// `Differs` never comes.
    pub fn of(alloc: Global, header: &Header) -> Result<Observation, ObsFault>
        ensures ok { IfOk result (λ o. observation_of (fields_of header.now.text) ≡ Ok o) }
        ensures bounds { IfOk result ObservationInRange }
        ensures fault { IfErr result (ExplainsObservation (fields_of header.now.text)) }
    {
        let numbers = Numbers::of(header)?;
        let edges = numbers.edges(alloc)?;
        Ok(Observation { numbers, edges })
    }

    /// A law: this observation lies within the bounds of an accepted one. It does nothing when it runs.
    pub fn lies_in_range(&self)
        ensures { ObservationInRange self.now }
    {
        self.numbers.lies_in_range();
    }

    /// The number of channels of a spectrum.
    pub fn channels(&self) -> u32
        ensures { result ≡ self.now.channels }
    {
        self.numbers.channels
    }

    /// The number of bits of each value: 8 or 16.
    pub fn nbit(&self) -> u32
        ensures { result ≡ self.now.nbit }
    {
        self.numbers.nbit
    }

    /// The number of polarisations that are added to a sample: 1 or 2.
    pub fn npol(&self) -> u32
        ensures { result ≡ self.now.npol }
    {
        self.numbers.npol
    }

    /// The time from one spectrum to the next, in ns.
    pub fn tsamp_ns(&self) -> u64
        ensures { result ≡ self.now.sample_ns }
    {
        self.numbers.sample_ns
    }

    /// The edges of the channels in kHz, from the top of the band down to its foot.
    pub fn edges(&self) -> &[u32]
        ensures value { result.now ≡ edges_of self.now }
        ensures falls { AreEdges self.now.channels result.now }
    {
        edges_fall();
        self.numbers.lies_in_range();
        self.edges.as_slice()
    }

    /// Whether channel 0 of the file has the highest frequency, which is so if BW is negative.
    pub fn falling(&self) -> bool
        ensures { result ≡ self.now.is_falling }
    {
        self.numbers.falling
    }

    /// How many bytes of data came before those of the file.
    pub fn obs_offset(&self) -> u64
        ensures { result ≡ self.now.obs_offset }
    {
        self.numbers.obs_offset
    }

    /// The greatest sample: 255 or 65535 for each polarisation.
    pub fn max_sample(&self) -> u32
        ensures { result ≡ max_sample_of self.now }
    {
        self.numbers.max_sample()
    }

    /// The values that the header of a later file is compared with.
    pub fn profile(&self) -> Profile
        ensures { result ≡ profile_of self.now }
    {
        self.numbers.profile()
    }

    /// The dispersion measure of a delay of `d` spectra across the band, in thousandths of pc/cm^3, rounded down.
    pub fn dm(&self, d: u32) -> u64
        requires { d ≤ most_delay }
        ensures { result ≡ dm_of self.now d }
    {
        self.numbers.dm(d)
    }
}
