// The first headers of all transfers, and their observations.
ghost use Rattle.std.specs.Prelude.{◌≡◌, ◌≢◌, ◌≤◌, Err, IfOk, IfErr, length};
ghost use Rattle.psr_base.specs.Inputs.{HasReadFrom};
ghost use Rattle.disk_feeder.specs.Feeder.{SamePlan, headers_of, names_at};
ghost use Rattle.disk_feeder.specs.Filling.{HoldsAll};
ghost use Rattle.search_opening.specs.First.{AreObserved, RefusesTransferHeader};
ghost use Rattle.search_opening.specs.Feeders.{CanReadFirsts, HasReadFirsts, StopsReadingFirsts};

use arrayvec::ArrayVec;
use disk_feeder::Feeder;
use obs_plan::{ObsFault, Observation};
use psr_base::Inputs;
use run_outcome::Stop;
use search_model::MOST_TRANSFERS;
use std::alloc::Global;
// A law: it does nothing when it runs, and the proofs use what it ensures.
use dada_model::accepted_by_rows;

// A transfer, counted from 0, whose first header has no observation.
#[derive(Clone, Copy)]
pub(crate) struct RefusedHeader {
    transfer: usize,
    cause: ObsFault,
}

// The observations of the first headers of all transfers, in order. The error is the first one that is refused.
fn observe_all<'a, I: Inputs>(
    alloc: Global,
    feeder: &Feeder<'a, I>,
    transfers: usize,
) -> Result<ArrayVec<Option<Observation>, MOST_TRANSFERS>, RefusedHeader>
    requires few { transfers ≤ 8 }
    requires all { transfers ≡ length (headers_of feeder.now) }
    ensures observed { IfOk result (λ observations.
        AreObserved (headers_of feeder.now) observations.items) }
    ensures refused { IfErr result (RefusesTransferHeader (headers_of feeder.now)) }
{
    let mut observations = ArrayVec::new();
    for transfer in 0..transfers {
        match Observation::of(alloc, feeder.header(transfer)) {
            Ok(observation) => observations.push(Some(observation)),
            Err(cause) => return Err(RefusedHeader { transfer, cause }),
        }
    }
    Ok(observations)
}

/// Reads the first headers of all transfers, and answers their observations in order. Transfer k begins with file
/// `starts[k]`. All headers are read, and each is judged by its text as it is read, before the fields of the first are
/// judged. The error is the first refused header, a fault of the inputs, or `Memory`.
pub fn begin_feed<'a, I: Inputs>(
    alloc: Global,
    feeder: &mut Feeder<'a, I>,
    starts: &[u32],
) -> Result<ArrayVec<Option<Observation>, MOST_TRANSFERS>, Stop>
    requires { CanReadFirsts feeder.old starts.now }
    ensures same_reference { feeder.new.inputs.ghost_name ≡ feeder.old.inputs.ghost_name }
    ensures plan { SamePlan feeder.old feeder.new }
    ensures inputs { HasReadFrom I.told I.is_calm I.faults (result ≡ Err Stop.ReadFault)
        feeder.old.inputs.now feeder.new.inputs.now }
    ensures serves { I.is_calm feeder.old.inputs.now
        → HoldsAll (I.told feeder.old.inputs.now) (names_at feeder.old)
        → result ≢ Err Stop.ReadFault }
    ensures read { IfOk result (λ observations.
        HasReadFirsts I.told I.is_open feeder.old feeder.new observations.items) }
    ensures stopped { IfErr result
        (StopsReadingFirsts I.told I.is_calm feeder.old feeder.new) }
{
    accepted_by_rows();
    match feeder.begin() {
        Ok(()) => match observe_all(alloc, feeder, starts.len()) {
            Ok(observations) => Ok(observations),
            Err(refused) => Err(Stop::of_observation(starts[refused.transfer], refused.cause)),
        },
        Err(fault) => Err(Stop::of_begin(fault)),
    }
}
