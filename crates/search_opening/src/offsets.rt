// Where the data of each transfer begin.
ghost use Rattle.std.specs.Prelude.{◌≡◌, ◌≤◌, ◌^◌, Some, All, IsSome, length};
ghost use Rattle.dada_model.specs.Observation.{Observation as Described};
ghost use Rattle.search_opening.specs.Offsets.{AreOffsetsOf};

use arrayvec::ArrayVec;
use obs_plan::Observation;
use search_model::MOST_TRANSFERS;

// The OBS_OFFSET of an observation, in bytes.
fn offset_of(observation: &Option<Observation>) -> u64
    requires { IsSome observation.now }
    ensures is { (o : Described) → observation.now ≡ Some o → result ≡ o.obs_offset }
    ensures bound { result ≤ 10 ^ 15 }
{
    let Some(observation) = observation else {
        unreachable!()
    };
    observation.lies_in_range();
    observation.obs_offset()
}

/// The OBS_OFFSET of the first data byte of each transfer, in order, in bytes.
pub fn first_offsets(observations: &[Option<Observation>]) -> ArrayVec<u64, MOST_TRANSFERS>
    requires few { length observations.now ≤ 8 }
    requires there { All IsSome observations.now }
    ensures { AreOffsetsOf observations.now result.items }
{
    let mut offsets = ArrayVec::new();
    for k in 0..observations.len() {
        offsets.push(offset_of(&observations[k]));
    }
    offsets
}
