//! What a search is asked to do that prints its parts while the data come, and what it does with them.
ghost use Rattle.std.specs.Prelude.{◌≡◌, ◌≤◌, [], None, Option};
ghost use Rattle.search_model.specs.Plan.{PlanRefusal, plan_refusal};
ghost use Rattle.search_engine.specs.Plan.{Explains};
ghost use Rattle.drive_stream.specs.Endings.{ExplainsOpen};
ghost use Rattle.live_search.specs.Live.{IsTask, WasFed};
ghost use Rattle.psr_live.specs.Task.{IsRefusal, LeavesLive, RefusesLive, Streams, live_block, task_of};

use dada_header::Header;
use drive_stream::{FinishFault, OpenFault, Streaming};
use live_search::{LiveSearch, STEP};
use obs_plan::Observation;
use psr_base::{Failed, Sink};
use run_outcome::PlanCause;
use search_engine::PlanFault;
use search_model::Search;
use std::alloc::Global;
use warm_restart::Checkpoint;
// Laws: they do nothing when they run, and the proofs use what they ensure.
use live_search::live_data_grow;
use psr_base::pieces_join;

/// Why a search is not begun, or its data are refused at their end.
#[derive(Clone, Copy, Debug, PartialEq, Eq)]
pub(crate) enum LiveRefusal {
    /// The search of the observation is refused.
    Plan(PlanCause),
    /// The checkpoint stands at `place`, after the last of the data's spectra, of which there are so many.
    Beyond { place: u64, spectra: u64 },
}

/// A search of one observation from a checkpoint on, in parts of `every` spectra.
#[derive(Drop)]
pub(crate) struct LiveTask {
    pub(crate) search: Search,
    pub(crate) every: u64,
    pub(crate) from: Checkpoint,
}

// Why it is not opened.
fn open_fault(fault: PlanFault) -> OpenFault<LiveRefusal>
    ensures { (first : Option PlanRefusal) → Explains first fault
        → ExplainsOpen (IsRefusal first) result }
{
    match fault {
        PlanFault::SumBound {
            max_sample,
            cells,
            factor,
        } => OpenFault::Refused(LiveRefusal::Plan(PlanCause::SumBound {
            max_sample,
            cells,
            factor,
        })),
        PlanFault::FoldTooLarge { pmax, mmax } => {
            OpenFault::Refused(LiveRefusal::Plan(PlanCause::FoldTooLarge {
                longest: pmax,
                halvings: mmax,
            }))
        }
        PlanFault::TooManyFolds { count } => {
            OpenFault::Refused(LiveRefusal::Plan(PlanCause::TooManyFolds { count }))
        }
        PlanFault::TooManyShards { count, delays } => {
            OpenFault::Refused(LiveRefusal::Plan(PlanCause::TooManyShards {
                shards: count,
                delays,
            }))
        }
        PlanFault::Memory => OpenFault::Memory,
    }
}

// How many bytes one step of spectra has.
fn step_bytes(observation: &Observation) -> u32
    ensures least { 1 ≤ result }
    ensures size { result ≡ live_block observation.now }
{
    observation.lies_in_range();
    let sample = observation.npol() * observation.nbit() / 8;
    STEP * (observation.channels() * sample)
}

impl Streaming for LiveTask {
    type Stream = LiveSearch;

    type Refusal = LiveRefusal;

    ghost holds = { λ t. IsTask (task_of t) };

    ghost block = { λ t o. live_block o };

    ghost takes = { λ t o header. plan_refusal o t.search ≡ None };

    ghost refuses = { λ t o header refusal. RefusesLive t.search o refusal };

    ghost opens = { λ t o header w. WasFed o (task_of t) [] w };

    ghost streams = { λ t o header bytes w start now. Streams o (task_of t) bytes w start now };

    ghost leaves = { λ t o header bytes ending start now.
        LeavesLive o (task_of t) bytes ending start now };

    fn taken_is_not_refused(&self) {}

    fn block_size(&self, observation: &Observation) -> u32 {
        step_bytes(observation)
    }

    fn open(
        &self,
        alloc: Global,
        observation: &Observation,
        _header: &Header,
    ) -> Result<LiveSearch, OpenFault<LiveRefusal>> {
        match LiveSearch::open(alloc, observation, &self.search, self.every, self.from) {
            Ok(search) => Ok(search),
            Err(fault) => Err(open_fault(fault)),
        }
    }

    fn begin<K: Sink>(
        &self,
        _stream: &mut LiveSearch,
        observation: &Observation,
        _out: &mut K,
    ) -> Result<(), Failed> {
        live_data_grow(observation);
        pieces_join();
        Ok(())
    }

    fn feed<K: Sink>(
        &self,
        stream: &mut LiveSearch,
        observation: &Observation,
        bytes: &[u8],
        out: &mut K,
    ) -> Result<usize, Failed> {
        live_data_grow(observation);
        pieces_join();
        match stream.feed(observation, bytes, out) {
            Ok(()) => Ok(bytes.len()),
            Err(_) => Err(Failed),
        }
    }

    fn finish<K: Sink>(
        &self,
        stream: &mut LiveSearch,
        observation: &Observation,
        out: &mut K,
    ) -> Result<(), FinishFault<LiveRefusal>> {
        live_data_grow(observation);
        let spectra = stream.spectra();
        let place = self.from.place;
        if spectra < place {
            return Err(FinishFault::Refused(LiveRefusal::Beyond { place, spectra }));
        }
        match stream.finish(observation, out) {
            Ok(()) => Ok(()),
            Err(_) => Err(FinishFault::Failed),
        }
    }

    fn stop<K: Sink>(
        &self,
        stream: &mut LiveSearch,
        observation: &Observation,
        out: &mut K,
    ) -> Result<(), Failed> {
        match stream.stop(observation, out) {
            Ok(()) => Ok(()),
            Err(_) => Err(Failed),
        }
    }
}
