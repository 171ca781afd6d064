//! What comes before the data.
ghost use Rattle.std.specs.Prelude.{◌≡◌, ◌≢◌, ◌≤◌, ℕ, min, List, [], ◌∷◌, length, Some, Err, IfOk, IfErr, OnOk};
ghost use Rattle.psr_base.specs.Inputs.{HasReadFrom};
ghost use Rattle.psr_base.specs.Told.{Told};
ghost use Rattle.dada_model.specs.Bounds.{ObservationInRange};
ghost use Rattle.dada_model.specs.Observation.{Observation as Described};
ghost use Rattle.search_words.specs.Settings.{run_seen};
ghost use Rattle.disk_feeder.specs.Feeder.{FeederRead, HasPlan, IsBegun, IsFresh, block_size, headers_of};
ghost use Rattle.disk_feeder.specs.Filling.{HoldsAll};
ghost use Rattle.run_outcome.specs.declared.stop.Stop.{Stop as Stopped};
ghost use Rattle.run_outcome.specs.declared.stop.Stop.TheVariants.{Memory};
ghost use Rattle.search_opening.specs.Begun.{HasFirsts};
ghost use Rattle.search_opening.specs.First.{AreObserved};
ghost use Rattle.drive_stream.specs.Outcome.{SaysBefore};
ghost use Rattle.drive_stream.specs.Opening.{HasSize, IsOfOne, IsOpened, IsOpenedSince, IsReady, LeavesBefore, StopsOpening};

use crate::faults::OpenFault;
use crate::stop::StreamStop;
use crate::streaming::Streaming;
use arrayvec::ArrayVec;
use dada_header::Header;
use disk_feeder::Feeder;
use obs_plan::Observation;
use psr_base::Inputs;
use run_outcome::Stop;
use search_model::MOST_TRANSFERS;
use search_opening::{accept_all, begin_run};
use search_words::RunSettings;
use std::alloc::Global;
// Laws: they do nothing when they run, and the proofs use what they ensure.
use search_opening::{early_stops_stand, firsts_stay_told};

/// A stream that is opened, and its observation.
pub(crate) struct Opened<S> {
    pub(crate) observation: Observation,
    pub(crate) stream: S,
}

// Opens the stream of an observation, which has this header.
fn open_for<T: Streaming>(
    alloc: Global,
    task: &T,
    observation: &Observation,
    header: &Header,
) -> Result<T::Stream, StreamStop<T::Refusal>>
    requires { T.holds task.now }
    ensures takes { OnOk result (T.takes task.now observation.now header.now) }
    ensures opened { IfOk result (T.opens task.now observation.now header.now) }
    ensures stopped { IfErr result (StopsOpening (T.refuses task.now) observation.now header.now) }
    ensures range { ObservationInRange observation.now }
{
    observation.lies_in_range();
    match task.open(alloc, observation, header) {
        Ok(stream) => Ok(stream),
        Err(OpenFault::Refused(refusal)) => Err(StreamStop::Refused(refusal)),
        Err(OpenFault::Memory) => Err(StreamStop::Run(Stop::Memory)),
    }
}

// The same for the only observation of a list.
fn open_first<T: Streaming>(
    alloc: Global,
    task: &T,
    observations: &[Option<Observation>],
    header: &Header,
) -> Result<T::Stream, StreamStop<T::Refusal>>
    requires task { T.holds task.now }
    requires one { (o : Described) × (observations.now ≡ Some o ∷ []) }
    ensures takes { OnOk result ((o : Described) → observations.now ≡ Some o ∷ []
        → T.takes task.now o header.now) }
    ensures opened { IfOk result (λ stream. (o : Described) → observations.now ≡ Some o ∷ []
        → T.opens task.now o header.now stream) }
    ensures stopped { IfErr result (λ stop. (o : Described) → observations.now ≡ Some o ∷ []
        → StopsOpening (T.refuses task.now) o header.now stop) }
    ensures range { (o : Described) → observations.now ≡ Some o ∷ [] → ObservationInRange o }
{
    let Some(observation) = &observations[0] else {
        unreachable!()
    };
    match open_for(alloc, task, observation, header) {
        Ok(stream) => Ok(stream),
        Err(stop) => Err(stop),
    }
}

// How many bytes a block has of that observation, where it is to have `most` at most.
fn size_for<T: Streaming>(task: &T, observations: &[Option<Observation>], most: u32) -> u32
    requires one { (o : Described) × (observations.now ≡ Some o ∷ []) }
    requires most { 1 ≤ most }
    ensures fits { HasSize result most }
    ensures cut { (o : Described) → observations.now ≡ Some o ∷ []
        → result ≡ min (T.block task.now o) most }
{
    let Some(observation) = &observations[0] else {
        unreachable!()
    };
    task.block_size(observation).min(most)
}

// The only observation of a list.
fn only_one(mut observations: ArrayVec<Option<Observation>, MOST_TRANSFERS>) -> Observation
    requires { (o : Described) × (observations.items ≡ Some o ∷ []) }
    ensures { (o : Described) → observations.items ≡ Some o ∷ [] → result ≡ o }
{
    let Some(Some(observation)) = observations.pop_at(0) else {
        unreachable!()
    };
    observation
}

// Lets a feeder whose first header was read hand out blocks of this size, and go on to the data.
fn go_on<'a, I: Inputs>(feeder: &mut Feeder<'a, I>, observations: &[Option<Observation>], size: u32)
    requires size { HasSize size (block_size feeder.old) }
    requires some { 1 ≤ length observations.now }
    requires begun { IsBegun (I.told feeder.old.inputs.now) feeder.old }
    requires observed { AreObserved (headers_of feeder.old) observations.now }
    ensures same_reference { feeder.new.inputs.ghost_name ≡ feeder.old.inputs.ghost_name }
    ensures inputs { feeder.new.inputs.now ≡ feeder.old.inputs.now }
    ensures plan { (names : List (List ℕ)) (starts : List ℕ) (most max_bytes : ℕ)
        → HasPlan feeder.old names starts most max_bytes
        → HasPlan feeder.new names starts size max_bytes }
    ensures ready { IsReady I.told feeder.old feeder.new }
{
    feeder.cut_blocks(size);
    accept_all(feeder, observations);
}

// Opens the stream of the observation whose header was read, and lets the feeder go on to its data.
fn open_begun<'a, I: Inputs, T: Streaming>(
    alloc: Global,
    run: &RunSettings,
    task: &T,
    feeder: &mut Feeder<'a, I>,
    observations: &[Option<Observation>],
) -> Result<T::Stream, StreamStop<T::Refusal>>
    requires run { IsOfOne (run_seen run.now) }
    requires task { T.holds task.now }
    requires begun { HasFirsts I.told I.is_open (run_seen run.now) feeder.old
        observations.now }
    ensures same_reference { feeder.new.inputs.ghost_name ≡ feeder.old.inputs.ghost_name }
    ensures inputs { feeder.new.inputs.now ≡ feeder.old.inputs.now }
    ensures opened { IfOk result (λ stream. (o : Described) → observations.now ≡ Some o ∷ []
        → IsOpened I.told I.is_open (T.block task.now) (T.takes task.now) (T.opens task.now)
        (run_seen run.now) feeder.new o stream) }
    ensures stopped { IfErr result (SaysBefore (T.refuses task.now) (run_seen run.now)
        (I.told feeder.old.inputs.now)) }
    ensures memory { (stop : Stopped) → result ≡ Err (StreamStop.Run stop) → stop ≡ Memory }
    ensures reads_on { (before told : Told) → FeederRead before told feeder.old
        → FeederRead before told feeder.new }
{
    match open_first(alloc, task, observations, feeder.header(0)) {
        Ok(stream) => {
            go_on(feeder, observations, size_for(task, observations, run.size));
            Ok(stream)
        }
        Err(stop) => Err(stop),
    }
}

// The same for observations that are given.
fn open_given<'a, I: Inputs, T: Streaming>(
    alloc: Global,
    run: &RunSettings,
    task: &T,
    feeder: &mut Feeder<'a, I>,
    observations: ArrayVec<Option<Observation>, MOST_TRANSFERS>,
) -> Result<Opened<T::Stream>, StreamStop<T::Refusal>>
    requires run { IsOfOne (run_seen run.now) }
    requires task { T.holds task.now }
    requires begun { HasFirsts I.told I.is_open (run_seen run.now) feeder.old
        observations.items }
    ensures same_reference { feeder.new.inputs.ghost_name ≡ feeder.old.inputs.ghost_name }
    ensures inputs { feeder.new.inputs.now ≡ feeder.old.inputs.now }
    ensures opened { IfOk result (λ r. IsOpened I.told I.is_open (T.block task.now)
        (T.takes task.now) (T.opens task.now) (run_seen run.now) feeder.new r.observation
        r.stream) }
    ensures stopped { IfErr result (SaysBefore (T.refuses task.now) (run_seen run.now)
        (I.told feeder.old.inputs.now)) }
    ensures memory { (stop : Stopped) → result ≡ Err (StreamStop.Run stop) → stop ≡ Memory }
    ensures reads_on { (before told : Told) → FeederRead before told feeder.old
        → FeederRead before told feeder.new }
{
    match open_begun(alloc, run, task, feeder, observations.as_slice()) {
        Ok(stream) => Ok(Opened {
            observation: only_one(observations),
            stream,
        }),
        Err(stop) => Err(stop),
    }
}

/// Reads the first header, judges it, and takes all memory.
pub(crate) fn open<'a, I: Inputs, T: Streaming>(
    alloc: Global,
    run: &RunSettings,
    task: &T,
    feeder: &mut Feeder<'a, I>,
) -> Result<Opened<T::Stream>, StreamStop<T::Refusal>>
    requires run { IsOfOne (run_seen run.now) }
    requires plan { HasPlan feeder.old (run_seen run.now).names run.now.starts.items run.now.size
        run.now.max_bytes }
    requires fresh { IsFresh feeder.old }
    requires task { T.holds task.now }
    ensures same_reference { feeder.new.inputs.ghost_name ≡ feeder.old.inputs.ghost_name }
    ensures inputs { HasReadFrom I.told I.is_calm I.faults
        (result ≡ Err (StreamStop.Run Stop.ReadFault)) feeder.old.inputs.now
        feeder.new.inputs.now }
    ensures serves { I.is_calm feeder.old.inputs.now
        → HoldsAll (I.told feeder.old.inputs.now) (run_seen run.now).names
        → result ≢ Err (StreamStop.Run Stop.ReadFault) }
    ensures opened { IfOk result (λ r. IsOpenedSince I.told I.is_open (T.block task.now)
        (T.takes task.now) (T.opens task.now) (run_seen run.now) (I.told feeder.old.inputs.now)
        feeder.new r.observation r.stream) }
    ensures stopped { IfErr result (SaysBefore (T.refuses task.now) (run_seen run.now)
        (I.told feeder.old.inputs.now)) }
    ensures leaves { IfErr result (LeavesBefore (run_seen run.now)
        (I.is_calm feeder.old.inputs.now) (I.told feeder.old.inputs.now)
        (I.told feeder.new.inputs.now)) }
{
    early_stops_stand();
    firsts_stay_told();
    match begin_run(alloc, run, feeder) {
        Ok(observations) => open_given(alloc, run, task, feeder, observations),
        Err(stop) => Err(StreamStop::Run(stop)),
    }
}
