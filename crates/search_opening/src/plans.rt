// Checks the search of all transfers.
ghost use Rattle.std.specs.Prelude.{◌≡◌, Some, None, IfSome, IfErr, OnOk, length};
ghost use Rattle.dada_model.specs.Observation.{Observation as Described};
ghost use Rattle.search_model.specs.Search.{SettingsInRange};
ghost use Rattle.search_model.specs.Plan.{plan_refusal};
ghost use Rattle.search_engine.specs.Plan.{IsRefusedFirst};
ghost use Rattle.stream_model.specs.Walk.{FileStream};
ghost use Rattle.run_outcome.specs.Runs.{CanSearchFirst};
ghost use Rattle.search_opening.specs.First.{AreFirsts};
ghost use Rattle.search_opening.specs.Plans.{PlansFit, RefusesPlan, IsOfPlan, StopsSearch};

use obs_plan::Observation;
use run_outcome::Stop;
use search_engine::{PlanFault, check_plan};
use search_model::Search;

// Checks that the search of an observation fits, if there is one.
fn check_at(observation: &Option<Observation>, search: &Search) -> Result<(), PlanFault>
    requires { SettingsInRange search.now }
    ensures fits { OnOk result (IfSome observation.now (λ o. plan_refusal o search.now ≡ None)) }
    ensures refused { IfErr result (λ fault. (o : Described) × (observation.now ≡ Some o)
        × IsRefusedFirst (plan_refusal o search.now) fault) }
{
    match observation {
        Some(observation) => check_plan(observation, search),
        None => Ok(()),
    }
}

// Checks in order that the search of each observation fits. The error is the first fault.
fn judge_plans(observations: &[Option<Observation>], search: &Search) -> Result<(), PlanFault>
    requires { SettingsInRange search.now }
    ensures fit { OnOk result (PlansFit search.now observations.now) }
    ensures refused { IfErr result (RefusesPlan search.now observations.now) }
{
    for k in 0..observations.len() {
        check_at(&observations[k], search)?;
    }
    Ok(())
}

/// Checks in order that the search of each observation fits. The error is the first refusal.
pub fn check_plans(observations: &[Option<Observation>], search: &Search) -> Result<(), Stop>
    requires { SettingsInRange search.now }
    ensures fit { OnOk result (PlansFit search.now observations.now) }
    ensures searched { OnOk result ((w : FileStream) → AreFirsts w observations.now
        → CanSearchFirst search.now w (length w.starts)) }
    ensures kind { IfErr result IsOfPlan }
    ensures refused { IfErr result (StopsSearch search.now observations.now) }
{
    match judge_plans(observations, search) {
        Ok(()) => Ok(()),
        Err(fault) => Err(Stop::of_plan(fault)),
    }
}
