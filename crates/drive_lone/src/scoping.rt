//! What a program that searches alone makes of an observation.
ghost use Rattle.std.specs.Prelude.{◌≡◌, IfOk, IfErr, None, OnOk};
ghost use Rattle.dada_model.specs.Observation.{Observation as Described};
ghost use Rattle.search_model.specs.Plan.{plan_refusal};
ghost use Rattle.search_model.specs.Search.{SettingsInRange};
ghost use Rattle.search_model.specs.declared.search.Search.{Search as Settings};
ghost use Rattle.search_engine.specs.Scope.{Scope as Sought, FitsObservation};
ghost use Rattle.drive_lone.specs.Scopes.{ExplainsScope};

use obs_plan::Observation;
use psr_base::Memory;
use search_engine::Scope;
use search_model::Search;
use std::alloc::Global;

/// Why a program doesn't accept an observation: a refusal of its own, or want of memory.
#[derive(Clone, Copy, Debug, PartialEq, Eq)]
pub enum ScopeFault<F> {
    /// A refusal of the program's own.
    Refused(F),
    /// There was no memory.
    Memory,
}

/// A program that says what of an observation is searched. It judges the observation once the first header is accepted.
/// What is searched it finds after the plan of the search is judged, since that may take much memory.
pub trait Scoping {
    /// Why the program refuses an observation.
    type Refusal: Copy;

    /// What it keeps of its judgement of an observation that it accepts.
    type Accepted: Drop;

    /// It accepts an observation.
    ghost accepts: { Self → Described → Type 0 };

    /// Why an observation is refused.
    ghost refuses: { Self → Described → Self.Refusal → Type 0 };

    /// This is what it keeps of an observation.
    ghost keeps: { Self → Described → Self.Accepted → Type 0 };

    /// What is searched of an observation with these settings.
    ghost scopes: { Self → Described → Settings → Sought → Type 0 };

    /// Whether it accepts an observation.
    fn judge(
        &self,
        alloc: Global,
        observation: &Observation,
    ) -> Result<Self::Accepted, ScopeFault<Self::Refusal>>
        ensures accepted { OnOk result (accepts self.now observation.now) }
        ensures kept { IfOk result (keeps self.now observation.now) }
        ensures refused { IfErr result (ExplainsScope (refuses self.now) observation.now) };

    /// What is searched of an observation that it accepts, with a search that fits.
    fn scope(
        &self,
        alloc: Global,
        observation: &Observation,
        search: &Search,
        accepted: Self::Accepted,
    ) -> Result<Scope, Memory>
        requires kept { keeps self.now observation.now accepted }
        requires range { SettingsInRange search.now }
        requires planned { plan_refusal observation.now search.now ≡ None }
        ensures scoped { IfOk result (scopes self.now observation.now search.now) }
        ensures fits { IfOk result (FitsObservation observation.now search.now) };
}
