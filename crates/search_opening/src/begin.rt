// Begins a run: reads the first headers of all transfers, by its settings.
ghost use Rattle.std.specs.Prelude.{◌≡◌, ◌≢◌, Err, IfOk, IfErr};
ghost use Rattle.psr_base.specs.Inputs.{HasReadFrom};
ghost use Rattle.search_words.specs.Settings.{RunInRange, with_search, run_seen};
ghost use Rattle.disk_feeder.specs.Feeder.{HasPlan, IsFresh};
ghost use Rattle.disk_feeder.specs.Filling.{HoldsAll};
ghost use Rattle.run_outcome.specs.Runs.{Task, SearchFor};
ghost use Rattle.search_opening.specs.Early.{StopsEarly, LeavesEarly};
ghost use Rattle.search_opening.specs.Begun.{HasBegun};
ghost use Rattle.search_opening.specs.First.{ComesFirst};

use crate::first::begin_feed;
use arrayvec::ArrayVec;
use disk_feeder::Feeder;
use obs_plan::Observation;
use psr_base::Inputs;
use run_outcome::Stop;
use search_model::MOST_TRANSFERS;
use search_words::RunSettings;
use std::alloc::Global;

/// The observations of all transfers of a run, in order, as `begin_feed` answers them; here the clauses speak of the
/// files that the settings name. The error is the first refused header, a fault of the inputs, or `Memory`.
pub fn begin_run<'a, I: Inputs>(
    alloc: Global,
    run: &RunSettings,
    feeder: &mut Feeder<'a, I>,
) -> Result<ArrayVec<Option<Observation>, MOST_TRANSFERS>, Stop>
    requires range { RunInRange (run_seen run.now) }
    requires plan { HasPlan feeder.old (run_seen run.now).names
        run.now.starts.items run.now.size run.now.max_bytes }
    requires fresh { IsFresh feeder.old }
    ensures same_reference { feeder.new.inputs.ghost_name ≡ feeder.old.inputs.ghost_name }
    ensures inputs { HasReadFrom I.told I.is_calm I.faults (result ≡ Err Stop.ReadFault)
        feeder.old.inputs.now feeder.new.inputs.now }
    ensures serves { I.is_calm feeder.old.inputs.now
        → HoldsAll (I.told feeder.old.inputs.now) (run_seen run.now).names
        → result ≢ Err Stop.ReadFault }
    ensures begun { IfOk result (λ observations. HasBegun I.told I.is_open
        (run_seen run.now) feeder.old feeder.new observations.items) }
    ensures kind { IfErr result ComesFirst }
    ensures stopped { IfErr result (λ stop. (task : Task) (search : SearchFor task)
        → StopsEarly task (with_search search (run_seen run.now))
        (I.told feeder.old.inputs.now) stop) }
    ensures leaves { IfErr result (LeavesEarly (run_seen run.now)
        (I.is_calm feeder.old.inputs.now) (I.told feeder.old.inputs.now)
        (I.told feeder.new.inputs.now)) }
{
    begin_feed(alloc, feeder, run.starts.as_slice())
}
