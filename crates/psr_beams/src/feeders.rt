// The feeders of all beams, each of which reads the header of its file.
ghost use Rattle.std.specs.Prelude.{◌≡◌, ◌<◌, ◌≤◌, length, IfOk, IfErr, OnOk};
ghost use Rattle.search_words.specs.Settings.{AllInRange, settings_seen};
ghost use Rattle.run_outcome.specs.Lone.{IsOfOne};
ghost use Rattle.psr_beams.specs.Files.{beam_name};
ghost use Rattle.psr_beams.specs.Feeders.{HasBegun, ReadsHeader, FailsHeader, AreRead, AreBegun, StopsReading, stop_of_header_at};

use arrayvec::ArrayVec;
use beam_set::MOST_BEAMS;
use disk_feeder::{FeedFault, FeederSpace};
use psr_base::Inputs;
use run_outcome::Stop;
use search_words::Settings;
use std::alloc::Global;

// The stop of a beam whose header could not be read.
fn stop_of(beam: u32, fault: FeedFault) -> Stop
    ensures { result ≡ stop_of_header_at beam fault }
{
    match fault {
        FeedFault::ReadFault => Stop::ReadFault,
        FeedFault::BadHeader { file: _, cause } => Stop::of_header(beam, cause),
    }
}

// Takes the space of the feeder of a beam, and reads the header of its file.
fn begin_beam<'a, I: Inputs>(
    alloc: Global,
    settings: &'a Settings,
    beam: usize,
    inputs: &mut I,
) -> Result<FeederSpace<'a>, Stop>
    requires range { AllInRange (settings_seen settings.now) }
    requires one { IsOfOne (settings_seen settings.now) }
    requires there { beam < length settings.now.run.names.items }
    requires few { length settings.now.run.names.items ≤ 7 }
    ensures begun { IfOk result (HasBegun I.told I.is_open (settings_seen settings.now)
        (beam_name (settings_seen settings.now) beam) inputs.old inputs.new) }
    ensures read { OnOk result (ReadsHeader I.told I.is_calm I.faults
        (beam_name (settings_seen settings.now) beam) inputs.old inputs.new) }
    ensures stopped { IfErr result (FailsHeader I.told I.is_calm I.faults
        (beam_name (settings_seen settings.now) beam) beam inputs.old inputs.new) }
{
    let mut space = match FeederSpace::reserve(
        alloc,
        &settings.run.names[beam..beam + 1],
        settings.run.starts.as_slice(),
        settings.run.size,
        settings.run.max_bytes,
    ) {
        Ok(space) => space,
        Err(_memory) => return Err(Stop::Memory),
    };
    space.rests();
    match space.begin(inputs) {
        Ok(()) => Ok(space),
        Err(fault) => Err(stop_of(beam as u32, fault)),
    }
}

/// Takes the spaces of the feeders of all beams, and reads the header of each file, in the order of the beams; at `Err`
/// the first that can't be read. Each beam reads from the inputs at its place; others are not touched.
pub(crate) fn begin_all<'a, I: Inputs>(
    alloc: Global,
    settings: &'a Settings,
    inputs: &mut [I],
) -> Result<ArrayVec<Option<FeederSpace<'a>>, MOST_BEAMS>, Stop>
    requires range { AllInRange (settings_seen settings.now) }
    requires one { IsOfOne (settings_seen settings.now) }
    requires few { length settings.now.run.names.items ≤ 7 }
    requires lent { length inputs.old ≡ 7 }
    ensures read { OnOk result (AreRead I.told I.is_calm I.faults (settings_seen settings.now)
        (length settings.now.run.names.items) inputs.old inputs.new) }
    ensures begun { IfOk result (λ slots. AreBegun I.told I.is_open (settings_seen settings.now)
        (length settings.now.run.names.items) inputs.old inputs.new slots.items) }
    ensures stopped { IfErr result (StopsReading I.told I.is_calm I.faults
        (settings_seen settings.now) inputs.old inputs.new) }
{
    let mut slots = ArrayVec::new();
    for beam in 0..settings.run.names.len() {
        match begin_beam(alloc, settings, beam, &mut inputs[beam]) {
            Ok(space) => slots.push(Some(space)),
            Err(stop) => return Err(stop),
        }
    }
    Ok(slots)
}
