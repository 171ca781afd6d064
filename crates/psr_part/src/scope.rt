// What is searched for a part.
ghost use Rattle.std.specs.Prelude.{◌≡◌, ◌≤◌, ◌^◌};
ghost use Rattle.warm_restart.specs.Warm.{part_scope as part_scope_of};

use drive_lone::{ScopeFault, Scoping};
use obs_plan::Observation;
use psr_base::Memory;
use search_engine::Scope;
use search_model::Search;
use std::alloc::Global;
use std::convert::Infallible;
use warm_restart::part_scope;

/// The ends from spectrum `place` on and before spectrum `until`. No observation is refused.
#[derive(Drop)]
pub(crate) struct PartScope {
    place: u64,
    until: u64,
    ghost early: { place ≤ 2 ^ 48 },
    ghost few: { until ≤ 2 ^ 48 },
}

impl PartScope {
    /// The scope of a part.
    pub(crate) fn of(place: u64, until: u64) -> PartScope
        requires early { place ≤ 2 ^ 48 }
        requires few { until ≤ 2 ^ 48 }
        ensures place { result.place ≡ place }
        ensures until { result.until ≡ until }
    {
        PartScope { place, until }
    }
}

impl Scoping for PartScope {
    ghost use Rattle.std.specs.Prelude.{⊤};

    type Refusal = Infallible;

    type Accepted = ();

    ghost accepts = { λ part o. ⊤ };

    ghost refuses = { λ part o refusal. ⊥ };

    ghost keeps = { λ part o nothing. ⊤ };

    ghost scopes = { λ part o s scope. scope ≡ part_scope_of o s part.place part.until };

    fn judge(
        &self,
        _alloc: Global,
        _observation: &Observation,
    ) -> Result<(), ScopeFault<Infallible>> {
        Ok(())
    }

    fn scope(
        &self,
        _alloc: Global,
        observation: &Observation,
        search: &Search,
        _accepted: (),
    ) -> Result<Scope, Memory> {
        Ok(part_scope(observation, search, self.place, self.until))
    }
}
