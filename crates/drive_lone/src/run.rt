// A lone run from its settings to the end of its session.
ghost use Rattle.std.specs.Prelude.{◌≡◌, Err, IfOk, IfErr};
ghost use Rattle.psr_base.specs.Inputs.{HasReadFrom};
ghost use Rattle.search_words.specs.Settings.{AllInRange, settings_seen};
ghost use Rattle.disk_feeder.specs.Filling.{HoldsAll};
ghost use Rattle.run_outcome.specs.Lone.{LoneSearch, IsOfOne};
ghost use Rattle.run_outcome.specs.Runs.{Alone};
ghost use Rattle.run_outcome.specs.Ends.{IsRunFed};
ghost use Rattle.run_outcome.specs.Outcomes.{blocks_of, LeavesAtFault};
ghost use Rattle.search_opening.specs.Settings.{ForWords};
ghost use Rattle.drive_lone.specs.Stops.{FailsReading, ReadsBefore, StopsAlone};
ghost use Rattle.drive_lone.specs.Found.{IsFoundAlone};

use crate::found::LoneFound;
use crate::lent::{Lent, give_back};
use crate::open::open_alone;
use crate::scoping::Scoping;
use crate::session::go_on;
use crate::stop::LoneStop;
use disk_feeder::{Feeder, FeederSpace, Lent as Parted};
use psr_base::Inputs;
use run_outcome::Stop;
use search_words::Settings;
use std::alloc::Global;
use std::sync::Wait;
// Laws: they do nothing when they run, and the proofs use what they ensure.
use run_outcome::words_say_once;
use search_opening::early_stops_are_said;

// Drives a run as `drive_alone` does, with one lifetime for all borrows, so that their final values are known.
fn within<'a, I: Inputs, S: Scoping, R: Wait>(
    rt: &R,
    alloc: Global,
    settings: &'a Settings,
    scoping: &S,
    inputs: &'a mut I,
) -> Lent<'a, I, Result<LoneFound, LoneStop<S::Refusal>>>
    requires range { AllInRange (settings_seen settings.now) }
    requires one { IsOfOne (settings_seen settings.now) }
    ensures same_inputs { result.inputs.ghost_name ≡ inputs.entry.ghost_name }
    ensures inputs { HasReadFrom I.told I.is_calm I.faults (FailsReading result.done) inputs.old
        result.inputs.now }
    ensures serves { I.is_calm inputs.old
        → HoldsAll (I.told inputs.old) (settings_seen settings.now).names
        → FailsReading result.done → ⊥ }
    ensures stopped { IfErr result.done (λ stop. (lone : LoneSearch)
        → ForWords (Alone lone) (settings_seen settings.now) (λ words.
        StopsAlone (S.accepts scoping.now) (S.refuses scoping.now) lone words
        (I.told inputs.old) stop)) }
    ensures unread { IfErr result.done (λ stop. (lone : LoneSearch)
        → ForWords (Alone lone) (settings_seen settings.now) (λ words.
        ReadsBefore lone words (I.told inputs.old) (I.told result.inputs.now) stop)) }
    ensures broken { FailsReading result.done → (lone : LoneSearch)
        → ForWords (Alone lone) (settings_seen settings.now) (λ words.
        LeavesAtFault (Alone lone) words (I.is_calm inputs.old) (I.told inputs.old)
        (I.told result.inputs.now)
        (blocks_of (λ (found : LoneFound). found.blocks) result.done)) }
    ensures fed { IfOk result.done (λ found. (lone : LoneSearch)
        → ForWords (Alone lone) (settings_seen settings.now) (λ words.
        IsRunFed (Alone lone) words (I.told inputs.old) found.blocks found.feed)) }
    ensures found { IfOk result.done (IsFoundAlone (S.scopes scoping.now)
        (settings_seen settings.now) (I.told inputs.old)) }
{
    words_say_once();
    early_stops_are_said::<I>();
    let space = match FeederSpace::reserve(
        alloc,
        settings.run.names.as_slice(),
        settings.run.starts.as_slice(),
        settings.run.size,
        settings.run.max_bytes,
    ) {
        Ok(space) => space,
        Err(_memory) => {
            return Lent {
                inputs,
                done: Err(LoneStop::Run(Stop::Memory)),
            };
        }
    };
    let mut feeder = Feeder::over(inputs, space);
    match open_alone(alloc, settings, scoping, &mut feeder) {
        Ok(opened) => {
            let Parted { inputs, space } = feeder.part();
            let found = go_on(rt, opened, space, inputs);
            Lent {
                inputs,
                done: Ok(found),
            }
        }
        Err(stop) => Lent {
            inputs: feeder.close(),
            done: Err(stop),
        },
    }
}

/// Drives a run of a program that searches one transfer, from its settings to the end of its session, on this thread.
/// At `Ok` the session went to its end; its `feed` says whether all data were read. At `Err` the run stopped before its
/// session: the first header, the observation or the search is refused, in this order, the inputs failed, or there was
/// no memory. It may not end.
pub fn drive_alone<I: Inputs, S: Scoping, R: Wait>(
    rt: &R,
    alloc: Global,
    settings: &Settings,
    scoping: &S,
    inputs: &mut I,
) -> Result<LoneFound, LoneStop<S::Refusal>>
    requires range { AllInRange (settings_seen settings.now) }
    requires one { IsOfOne (settings_seen settings.now) }
    ensures inputs { HasReadFrom I.told I.is_calm I.faults (FailsReading result) inputs.old
        inputs.new }
    ensures serves { I.is_calm inputs.old
        → HoldsAll (I.told inputs.old) (settings_seen settings.now).names
        → FailsReading result → ⊥ }
    ensures stopped { IfErr result (λ stop. (lone : LoneSearch)
        → ForWords (Alone lone) (settings_seen settings.now) (λ words.
        StopsAlone (S.accepts scoping.now) (S.refuses scoping.now) lone words
        (I.told inputs.old) stop)) }
    ensures unread { IfErr result (λ stop. (lone : LoneSearch)
        → ForWords (Alone lone) (settings_seen settings.now) (λ words.
        ReadsBefore lone words (I.told inputs.old) (I.told inputs.new) stop)) }
    ensures broken { FailsReading result → (lone : LoneSearch)
        → ForWords (Alone lone) (settings_seen settings.now) (λ words.
        LeavesAtFault (Alone lone) words (I.is_calm inputs.old) (I.told inputs.old)
        (I.told inputs.new) (blocks_of (λ (found : LoneFound). found.blocks) result)) }
    ensures fed { IfOk result (λ found. (lone : LoneSearch)
        → ForWords (Alone lone) (settings_seen settings.now) (λ words.
        IsRunFed (Alone lone) words (I.told inputs.old) found.blocks found.feed)) }
    ensures found { IfOk result (IsFoundAlone (S.scopes scoping.now)
        (settings_seen settings.now) (I.told inputs.old)) }
{
    give_back(within(rt, alloc, settings, scoping, inputs))
}
