//! The search of data bytes without the channels that a text names.
ghost use Rattle.std.specs.Prelude.{◌≡◌, ◌≤◌, IfOk, IfErr, length};
ghost use Rattle.search_model.specs.Plan.{plan_refusal};
ghost use Rattle.search_model.specs.Search.{SettingsInRange};
ghost use Rattle.search_engine.specs.Engine.{most_fed};
ghost use Rattle.search_engine.specs.Plan.{Explains};
ghost use Rattle.channel_mask.specs.Masked.{HasFoundKept};

use channel_mask::{Mask, MaskEngine};
use obs_plan::{Observation, Search};
use search_engine::PlanFault;
use std::alloc::Global;

/// Searches all data bytes of an observation in the channels that a mask keeps. The engine's book has their candidates.
pub fn found_without(
    alloc: Global,
    observation: &Observation,
    search: &Search,
    mask: &Mask,
    bytes: &[u8],
) -> Result<MaskEngine, PlanFault>
    requires range { SettingsInRange search.now }
    requires mask { length mask.now ≡ observation.now.channels }
    requires few { length bytes.now ≤ most_fed }
    ensures ok { IfOk result (HasFoundKept observation.now search.now mask.now bytes.now) }
    ensures refused { IfErr result (Explains (plan_refusal observation.now search.now)) }
{
    let mut engine = MaskEngine::open(alloc, observation, search, mask)?;
    engine.feed(bytes);
    engine.end();
    Ok(engine)
}
