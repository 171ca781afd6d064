// The scope of a search without the channels of a mask.
ghost use Rattle.std.specs.Prelude.{◌≡◌, ◌≤◌, length, not, IfOk};
ghost use Rattle.std.specs.List.{list_all};
ghost use Rattle.dada_model.specs.Bounds.{most_delay};
ghost use Rattle.search_model.specs.declared.search.Search.{Search as Settings};
ghost use Rattle.search_engine.specs.Scope.{FitsObservation};
ghost use Rattle.channel_mask.specs.Masked.{IsScopeOf};

use crate::mask::Mask;
use obs_plan::Observation;
use psr_base::Memory;
use search_engine::Scope;
use std::alloc::Global;
// Laws: they do nothing when they run, and the proofs use what they ensure.
use dada_model::edges_fall;
use search_model::plain_is_unmasked;

impl Mask {
    /// The scope of a search of delays up to `max_delay` in the observation that the mask was read for: the channels
    /// that the mask keeps, and how many of their cells each delay path has. If the mask is `none`, nothing is counted.
    pub fn scope(&self, alloc: Global, obs: &Observation, max_delay: u32) -> Result<Scope, Memory>
        requires channels { length self.now ≡ obs.now.channels }
        requires delay { max_delay ≤ most_delay }
        ensures kept { IfOk result (IsScopeOf obs.now max_delay self.now) }
        ensures fits { IfOk result (λ scope. (s : Settings) → s.max_delay ≡ max_delay
            → FitsObservation obs.now s scope) }
    {
        obs.lies_in_range();
        edges_fall();
        plain_is_unmasked();
        if are_none(self.masked.as_slice()) {
            return Ok(Scope::whole(obs.channels()));
        }
        let counts = self.count_cells(alloc, obs, max_delay)?;
        let mut masked = Vec::new(alloc);
        masked.extend_from_slice(self.masked.as_slice())?;
        Ok(Scope::of_channels(masked, counts))
    }
}

// Whether no channel is marked.
fn are_none(marks: &[bool]) -> bool
    ensures { result ≡ list_all (λ mark. not mark) marks.now }
{
    marks.iter().all(|mark| !*mark)
}
