// How the data of an observation are levelled.
ghost use Rattle.std.specs.Prelude.{◌≡◌, ◌*◌, ◌↔◌, IsTrue};
ghost use Rattle.band_level.specs.Ranges.{FormatInRange, PlanInRange};
ghost use Rattle.level_plan.specs.Plans.{OptionsInRange, written_bits as written_bits_of, usual_mean as usual_mean_of, usual_deviation as usual_deviation_of, usual_most as usual_most_of, format_of as format_for, plan_of as plan_for, FitsTime};

use band_level::{Format, Plan};
use level_words::LevelOptions;
use obs_plan::Observation;

/// The maximum time between two spectra that a search takes, in ns.
const MOST_TSAMP: u64 = 1 << 30;

/// How many bits a written value has: 8 or 16.
pub(crate) fn written_bits(options: LevelOptions, observation: &Observation) -> u32
    ensures { result ≡ written_bits_of options observation.now }
{
    if options.is_fast {
        8
    } else {
        observation.nbit()
    }
}

// The mean to which data are levelled by default, in thousandths.
fn usual_mean(options: LevelOptions, observation: &Observation) -> u32
    ensures { result ≡ usual_mean_of options observation.now }
{
    if options.is_fast {
        14000
    } else if observation.nbit() == 16 {
        1_000_000
    } else {
        64000
    }
}

// The standard deviation to which data are levelled by default, in thousandths.
fn usual_deviation(options: LevelOptions, observation: &Observation) -> u32
    ensures { result ≡ usual_deviation_of options observation.now }
{
    if options.is_fast {
        2800
    } else if observation.nbit() == 16 {
        50000
    } else {
        8000
    }
}

// The maximum of a written value by default.
fn usual_most(options: LevelOptions, observation: &Observation) -> u32
    ensures { result ≡ usual_most_of options observation.now }
{
    if options.is_fast {
        40
    } else if observation.nbit() == 16 {
        65535
    } else {
        255
    }
}

/// How the data are read.
pub fn format_of(options: LevelOptions, observation: &Observation) -> Format
    requires { OptionsInRange options }
    ensures format { result ≡ format_for options observation.now }
    ensures range { FormatInRange result }
{
    observation.lies_in_range();
    Format {
        channels: observation.channels(),
        polarisations: observation.npol(),
        bits: observation.nbit(),
        signed: options.signed,
        high_byte_first: options.high_byte_first,
        average: options.average,
    }
}

/// How the data are levelled and written. The maximum is no greater than a written value can be.
pub fn plan_of(options: LevelOptions, observation: &Observation) -> Plan
    requires { OptionsInRange options }
    ensures plan { result ≡ plan_for options observation.now }
    ensures range { PlanInRange result }
{
    observation.lies_in_range();
    let bits = written_bits(options, observation);
    let most = options.most.unwrap_or(usual_most(options, observation));
    Plan {
        spectra: options.spectra,
        mean: options.mean.unwrap_or(usual_mean(options, observation)),
        deviation: options
            .deviation
            .unwrap_or(usual_deviation(options, observation)),
        most: most.min(if bits == 16 { 65535 } else { 255 }),
        bits,
        clip: options.clip,
        zero_dm: options.zero_dm,
    }
}

/// Whether a search accepts the time between two averaged spectra.
pub fn takes_time(options: LevelOptions, observation: &Observation) -> bool
    requires { OptionsInRange options }
    ensures { IsTrue result ↔ FitsTime options observation.now }
{
    observation.lies_in_range();
    observation.tsamp_ns() * u64::from(options.average) <= MOST_TSAMP
}
