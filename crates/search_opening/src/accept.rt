// Gives the observations of all transfers to the feeder.
ghost use Rattle.std.specs.Prelude.{◌≡◌, ◌≤◌, length};
ghost use Rattle.disk_feeder.specs.Feeder.{IsBegun, headers_of};
ghost use Rattle.search_opening.specs.Feeders.{HasAcceptedFirsts};
ghost use Rattle.search_opening.specs.First.{AreObserved};

use disk_feeder::Feeder;
use obs_plan::Observation;
use psr_base::Inputs;

/// Gives the feeder the observation of each first header, by which it judges the later headers of that transfer. Its
/// next turn goes on after the first header and before any data: the caller must seal that header.
pub fn accept_all<'a, I: Inputs>(feeder: &mut Feeder<'a, I>, observations: &[Option<Observation>])
    requires some { 1 ≤ length observations.now }
    requires begun { IsBegun (I.told feeder.old.inputs.now) feeder.old }
    requires observed { AreObserved (headers_of feeder.old) observations.now }
    ensures same_reference { feeder.new.inputs.ghost_name ≡ feeder.old.inputs.ghost_name }
    ensures accepted { HasAcceptedFirsts I.told feeder.old feeder.new }
{
    for k in 0..observations.len() {
        let Some(observation) = &observations[k] else {
            unreachable!()
        };
        feeder.accept(k, observation);
    }
}
