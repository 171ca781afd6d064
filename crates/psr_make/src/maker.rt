// Making the data of an observation, from the first spectrum on.
ghost use Rattle.std.specs.Prelude.{◌≡◌, ◌+◌, ◌*◌, ◌<◌, ◌≤◌, All, length, IfOk};
ghost use Rattle.band_paths.specs.Edges.{AreDelays};
ghost use Rattle.psr_make.specs.Draws.{state_after};
ghost use Rattle.psr_make.specs.Made.{SpecInRange, made_path, spectrum_bytes, data_part};
ghost use Rattle.psr_make.specs.Raised.{Raises, most_low, by_train};
ghost use Rattle.psr_make.specs.Making.{Making, MakerIsSound, values_before};

use crate::band::delays_of;
use crate::draws::fill_noise;
use crate::raised::raise_channel;
use crate::spec::MakeSpec;
use psr_base::Memory;
use rand_core::SeedableRng;
use rand_xoshiro::SplitMix64;
use std::alloc::Global;
use std::marker::Model;

// Adds the pulses to the bytes of `count` spectra, of which the first has the number `first`.
fn raise_train(spec: &MakeSpec, delays: &[u32], first: usize, count: usize, bytes: &mut [u8])
    requires spec { SpecInRange spec.now }
    requires path { delays.now ≡ made_path spec.now }
    requires delays { AreDelays spec.now.channels delays.now }
    requires spectra { first + count ≤ spec.now.spectra }
    requires whole { count * spectrum_bytes spec.now ≡ length bytes.old }
    requires low { All (λ x. x ≤ most_low) bytes.old }
    ensures { Raises spec.now bytes.old bytes.new (by_train spec.now spec.now.channels first) }
{
    for channel in 0..spec.channels as usize {
        let enters = delays[channel] as usize;
        let leaves = delays[channel + 1] as usize;
        raise_channel(spec, channel, enters, leaves, first, count, bytes);
    }
}

// Overwrites `bytes` with `count` spectra, of which the first has the number `first`. `draws` must stand at the draws
// of that spectrum.
fn write_spectra(
    spec: &MakeSpec,
    delays: &[u32],
    draws: &mut SplitMix64,
    first: usize,
    count: usize,
    bytes: &mut [u8],
)
    requires spec { SpecInRange spec.now }
    requires path { delays.now ≡ made_path spec.now }
    requires delays { AreDelays spec.now.channels delays.now }
    requires draws { draws.old ≡ state_after spec.now.number (values_before spec.now first) }
    requires spectra { first + count ≤ spec.now.spectra }
    requires whole { count * spectrum_bytes spec.now ≡ length bytes.old }
    ensures data { bytes.new
        ≡ data_part spec.now (first * spectrum_bytes spec.now) (length bytes.old) }
    ensures draws { draws.new
        ≡ state_after spec.now.number (values_before spec.now (first + count)) }
{
    fill_noise(draws, spec.value_bytes(), bytes);
    raise_train(spec, delays, first, count, bytes);
}

/// Makes the data of an observation: how far it has come.
#[derive(Drop)]
pub(crate) struct Maker {
    spec: MakeSpec,
    delays: Vec<u32>,
    draws: SplitMix64,
    made: usize,
}

impl Model for Maker {
    ghost Value = { Making };

    ghost view = { λ m. record { spec = m.spec; made = m.made } };

    ghost invariant = { λ m. MakerIsSound m.spec m.delays.items m.draws m.made };
}

impl Maker {
    /// A maker that has made no spectrum yet.
    pub(crate) fn open(alloc: Global, spec: &MakeSpec) -> Result<Maker, Memory>
        requires { SpecInRange spec.now }
        ensures { IfOk result (λ m. m ≡ record { spec = spec.now; made = 0 }) }
    {
        let delays = delays_of(alloc, spec)?;
        Ok(Maker {
            spec: *spec,
            delays,
            draws: SplitMix64::seed_from_u64(spec.number),
            made: 0,
        })
    }

    /// What the observation is made from.
    pub(crate) fn spec(&self) -> &MakeSpec
        ensures spec { result.now ≡ self.now.spec }
        ensures in_range { SpecInRange self.now.spec }
        ensures within { self.now.made ≤ self.now.spec.spectra }
    {
        &self.spec
    }

    /// The number of spectra that are left to make.
    pub(crate) fn left(&self) -> usize
        ensures { self.now.made + result ≡ self.now.spec.spectra }
    {
        self.spec.spectra as usize - self.made
    }

    /// Overwrites `bytes` with the next `count` spectra.
    pub(crate) fn write(&mut self, count: usize, bytes: &mut [u8])
        requires left { self.old.made + count ≤ self.old.spec.spectra }
        requires whole { count * spectrum_bytes self.old.spec ≡ length bytes.old }
        ensures data { bytes.new ≡ data_part self.old.spec
            (self.old.made * spectrum_bytes self.old.spec) (length bytes.old) }
        ensures made { self.new
            ≡ record { spec = self.old.spec; made = self.old.made + count } }
    {
        write_spectra(
            &self.spec,
            self.delays.as_slice(),
            &mut self.draws,
            self.made,
            count,
            bytes,
        );
        self.made += count;
    }
}
