// The numbers of an observation.
ghost use Rattle.std.specs.Prelude.{◌≡◌, ◌*◌, ◌+◌, ◌<◌, ◌≤◌, Ok, IfOk, IfErr};
ghost use Rattle.dada_model.specs.Fields.{fields_of};
ghost use Rattle.dada_model.specs.Observation.{Observation as Described, observation_of, edge as edge_of, edges as edges_of, dispersion_span as dispersion_span_of, dm as dm_of, max_sample as max_sample_of};
ghost use Rattle.dada_model.specs.Bounds.{most_delay, ObservationInRange};
ghost use Rattle.obs_plan.specs.Faults.{IsRefusedFirst};
ghost use Rattle.obs_plan.specs.Later.{profile_of};

use crate::fault::ObsFault;
use crate::profile::Profile;
use crate::rows::{band, bits, number_in};
use dada_header::Header;
use dada_model::Key;
// Laws: they do nothing when they run, and the proofs use what they ensure.
use dada_model::{
    accepted_by_rows, accepted_is_in_range, dispersion_fits, edges_are_quotients, edges_fall,
};
use std::alloc::{AllocError, Global};
use std::marker::Model;

// The largest number of channels of a band.
const MOST_CHANNELS: u64 = 4096;

// The highest centre of a band, in Hz.
const MOST_CENTRE_HZ: u64 = 16_000_000_000;

/// The numbers of an observation, in their units.
#[derive(Drop)]
pub(crate) struct Numbers {
    pub(crate) channels: u32,
    pub(crate) nbit: u32,
    pub(crate) npol: u32,
    pub(crate) sample_ns: u64,
    pub(crate) centre_hz: u64,
    pub(crate) width_hz: u64,
    pub(crate) falling: bool,
    pub(crate) obs_offset: u64,
}

impl Model for Numbers {
    ghost Value = { Described };

    ghost view = { λ n. record {
      channels = n.channels;
      nbit = n.nbit;
      npol = n.npol;
      sample_ns = n.sample_ns;
      centre_hz = n.centre_hz;
      width_hz = n.width_hz;
      is_falling = n.falling;
      obs_offset = n.obs_offset;
    } };

    ghost invariant = { λ n. ObservationInRange (record {
      channels = n.channels;
      nbit = n.nbit;
      npol = n.npol;
      sample_ns = n.sample_ns;
      centre_hz = n.centre_hz;
      width_hz = n.width_hz;
      is_falling = n.falling;
      obs_offset = n.obs_offset;
    }) };
}

impl Numbers {
    /// The numbers of a header, or the first reason to refuse it.
    pub(crate) fn of(header: &Header) -> Result<Numbers, ObsFault>
        ensures ok { IfOk result (λ n. observation_of (fields_of header.now.text) ≡ Ok n) }
        ensures fault { IfErr result (IsRefusedFirst (fields_of header.now.text)) }
    {
        accepted_by_rows();
        accepted_is_in_range();
        let channels = number_in(header, Key::Nchan, 2, MOST_CHANNELS)?;
        let nbit = bits(header)?;
        let npol = number_in(header, Key::Npol, 1, 2)?;
        number_in(header, Key::Ndim, 1, 1)?;
        let sample_ns = number_in(header, Key::Tsamp, 1, 1 << 30)?;
        let centre_hz = number_in(header, Key::Freq, 1000, MOST_CENTRE_HZ)?;
        let bw_hz = band(header, channels, centre_hz)?;
        let obs_offset = number_in(header, Key::ObsOffset, 0, 1_000_000_000_000_000)?;
        let width_hz = bw_hz.unsigned_abs();
        if width_hz < 1000 * channels {
            return Err(ObsFault::TooNarrow {
                bw: width_hz,
                nchan: channels as u32,
            });
        }
        Ok(Numbers {
            channels: channels as u32,
            nbit: nbit as u32,
            npol: npol as u32,
            sample_ns,
            centre_hz,
            width_hz,
            falling: bw_hz < 0,
            obs_offset,
        })
    }

    /// A law: the numbers lie within the bounds of an accepted observation. It does nothing when it runs.
    pub(crate) fn lies_in_range(&self)
        ensures { ObservationInRange self.now }
    {
        let _ = &self.channels;
    }

    // Edge `k` in kHz. Edge 0 is the top of the band.
    fn edge(&self, k: u32) -> u32
        requires { k ≤ self.now.channels }
        ensures { result ≡ edge_of self.now k }
    {
        edges_are_quotients();
        let channels = u64::from(self.channels);
        let top = (2 * self.centre_hz + self.width_hz) * channels;
        let below = 2 * self.width_hz * u64::from(k);
        ((top - below) / (2000 * channels)) as u32
    }

    /// The edges of the channels in kHz, from the top of the band down to its foot.
    pub(crate) fn edges(&self, alloc: Global) -> Result<Vec<u32>, AllocError>
        ensures { IfOk result (λ edges. edges.items ≡ edges_of self.now) }
    {
        let mut edges = Vec::new(alloc);
        for k in 0..self.channels + 1 {
            edges.push(self.edge(k))?;
        }
        Ok(edges)
    }

    // The factor that the band gives to a dispersion measure: 1 / (1/foot^2 - 1/top^2) in kHz^2, rounded down.
    fn dispersion_span(&self) -> u128
        ensures { result ≡ dispersion_span_of self.now }
    {
        edges_fall();
        let top = u128::from(self.edge(0));
        let foot = u128::from(self.edge(self.channels));
        top * top * (foot * foot) / (top * top - foot * foot)
    }

    /// The dispersion measure of a delay of `d` spectra across the band, in thousandths of pc/cm^3, rounded down.
    pub(crate) fn dm(&self, d: u32) -> u64
        requires { d ≤ most_delay }
        ensures { result ≡ dm_of self.now d }
    {
        dispersion_fits();
        let whole = u128::from(d) * u128::from(self.sample_ns) * 241 * self.dispersion_span();
        (whole / 1_000_000_000_000_000_000) as u64
    }

    /// The greatest sample.
    pub(crate) fn max_sample(&self) -> u32
        ensures { result ≡ max_sample_of self.now }
    {
        self.npol * ((1 << self.nbit) - 1)
    }

    /// The values that the header of a later file is compared with.
    pub(crate) fn profile(&self) -> Profile
        ensures { result ≡ profile_of self.now }
    {
        let width = self.width_hz as i64;
        Profile {
            nchan: self.channels,
            nbit: self.nbit,
            npol: self.npol,
            ndim: 1,
            tsamp_ns: self.sample_ns,
            freq_hz: self.centre_hz,
            bw_hz: if self.falling { -width } else { width },
        }
    }
}
