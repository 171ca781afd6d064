// Checks that the data of all transfers can be recorded.
ghost use Rattle.std.specs.Prelude.{◌≡◌, ◌^◌, ◌≤◌, Some, IsSome, IfErr, OnOk, length};
ghost use Rattle.dada_model.specs.ChangeLaws.{IsReadBack};
ghost use Rattle.dada_model.specs.Observation.{Observation as Described};
ghost use Rattle.disk_feeder.specs.Feeder.{headers_of};
ghost use Rattle.dada_recorder.specs.Changes.{recording, RefusesRecording};
ghost use Rattle.stream_model.specs.Walk.{FileStream};
ghost use Rattle.run_outcome.specs.Runs.{CanRecordFirst};
ghost use Rattle.search_opening.specs.First.{AreObserved, AreFirsts, AreHeadersOf};
ghost use Rattle.search_opening.specs.Recordings.{RecordingFits, RecordingsFit, AreReadBack, RefusesTransfer, IsOfRecording, StopsRecording};

use dada_header::Header;
use dada_recorder::{RecordFault, fits};
use disk_feeder::Feeder;
use obs_plan::Observation;
use psr_base::Inputs;
use run_outcome::Stop;

// Checks that the data of a transfer can be recorded under its header, from the observation's OBS_OFFSET on.
fn fits_one(
    header: &Header,
    observation: &Option<Observation>,
    space: &mut Header,
    file_size: u64,
    max_bytes: u64,
) -> Result<(), RecordFault>
    requires there { IsSome observation.now }
    requires file_size { (1 ≤ file_size) × (file_size ≤ 2 ^ 40) }
    requires limit { max_bytes ≤ 2 ^ 48 }
    ensures fits { (o : Described) → observation.now ≡ Some o
        → OnOk result (RecordingFits file_size max_bytes header.now o) }
    ensures refused { (o : Described) → observation.now ≡ Some o
        → IfErr result (RefusesRecording (recording header.now o.obs_offset file_size) max_bytes) }
    ensures read_back { IsReadBack header.now }
{
    let Some(observation) = observation else {
        unreachable!()
    };
    observation.lies_in_range();
    // The contract of `bytes` is needed here: they are read back as the header.
    let _bytes = header.bytes();
    space.copy_from(header);
    fits(space, observation.obs_offset(), file_size, max_bytes)
}

// Checks in order that each transfer can be recorded. The error is the first refusal.
fn judge_recordings<'a, I: Inputs>(
    feeder: &Feeder<'a, I>,
    observations: &[Option<Observation>],
    space: &mut Header,
    file_size: u64,
    max_bytes: u64,
) -> Result<(), RecordFault>
    requires observed { AreObserved (headers_of feeder.now) observations.now }
    requires file_size { (1 ≤ file_size) × (file_size ≤ 2 ^ 40) }
    requires limit { max_bytes ≤ 2 ^ 48 }
    ensures fit { OnOk result (RecordingsFit file_size max_bytes (headers_of feeder.now)
        observations.now (length observations.now)) }
    ensures read_back { OnOk result (AreReadBack (headers_of feeder.now)) }
    ensures refused { IfErr result (RefusesTransfer file_size max_bytes (headers_of feeder.now)
        observations.now) }
{
    for k in 0..observations.len() {
        let header = feeder.header(k);
        match fits_one(header, &observations[k], space, file_size, max_bytes) {
            Ok(()) => {}
            Err(fault) => return Err(fault),
        }
    }
    Ok(())
}

/// Checks in order that the data of each transfer, up to `max_bytes` bytes of each, can be recorded in files of
/// `file_size` data bytes. The error is the first refusal. The headers are judged in `space`.
pub fn fit_all<'a, I: Inputs>(
    feeder: &Feeder<'a, I>,
    observations: &[Option<Observation>],
    space: &mut Header,
    file_size: u64,
    max_bytes: u64,
) -> Result<(), Stop>
    requires observed { AreObserved (headers_of feeder.now) observations.now }
    requires file_size { (1 ≤ file_size) × (file_size ≤ 2 ^ 40) }
    requires limit { max_bytes ≤ 2 ^ 48 }
    ensures fit { OnOk result (RecordingsFit file_size max_bytes (headers_of feeder.now)
        observations.now (length observations.now)) }
    ensures read_back { OnOk result (AreReadBack (headers_of feeder.now)) }
    ensures recorded { OnOk result ((w : FileStream) → AreFirsts w observations.now
        → AreHeadersOf w (headers_of feeder.now) → w.max_bytes ≡ max_bytes
        → CanRecordFirst file_size w (length w.starts)) }
    ensures kind { IfErr result IsOfRecording }
    ensures refused { IfErr result (StopsRecording file_size max_bytes (headers_of feeder.now)
        observations.now) }
{
    match judge_recordings(feeder, observations, space, file_size, max_bytes) {
        Ok(()) => Ok(()),
        Err(fault) => Err(Stop::of_recording(fault)),
    }
}
