// The session of a lone run.
ghost use Rattle.std.specs.Prelude.{◌≡◌};
ghost use Rattle.psr_base.specs.Inputs.{HasReadFrom};
ghost use Rattle.search_words.specs.Settings.{SettingsSeen};
ghost use Rattle.search_engine.specs.Scope.{Scope};
ghost use Rattle.search_engine.specs.Engine.{EngineState};
ghost use Rattle.disk_feeder.specs.declared.answers.FeedEnd.TheVariants.{ReadFault};
ghost use Rattle.disk_feeder.specs.Resting.{feeder_over};
ghost use Rattle.session_readers.specs.Banks.{HasEngine, engines_of};
ghost use Rattle.search_opening.specs.Ended.{HasReadSince, HasFedFiles};
ghost use Rattle.drive_lone.specs.Openings.{IsOpenedAlone};
ghost use Rattle.drive_lone.specs.Found.{GoesAlone};

use crate::found::LoneFound;
use crate::open::OpenedAlone;
use arrayvec::ArrayVec;
use disk_feeder::FeederSpace;
use psr_base::Inputs;
use search_engine::Engine;
use search_model::MOST_TRANSFERS;
use search_session::{Bank, NoGate, run_alone};
use std::sync::Wait;
// Laws: they do nothing when they run, and the proofs use what they ensure.
use search_opening::{firsts_stay_told, sessions_feed_files};

// The first engine of a list.
fn first_of(engines: &mut ArrayVec<Option<Engine>, MOST_TRANSFERS>) -> Engine
    requires { (e : EngineState) × HasEngine engines.old.items 0 e }
    ensures { (e : EngineState) → HasEngine engines.old.items 0 e → result ≡ e }
{
    let Some(Some(engine)) = engines.pop_at(0) else {
        unreachable!()
    };
    engine
}

// The engine of a bank that has one.
fn engine_of(bank: Bank) -> Engine
    requires { (e : EngineState) × HasEngine (engines_of bank) 0 e }
    ensures { (e : EngineState) → HasEngine (engines_of bank) 0 e → result ≡ e }
{
    let Bank { mut engines } = bank;
    first_of(&mut engines)
}

/// Drives the session of an opened lone run.
pub(crate) fn go_on<'a, I: Inputs, R: Wait>(
    rt: &R,
    opened: OpenedAlone,
    feeder: FeederSpace<'a>,
    inputs: &mut I,
) -> LoneFound
    requires opened { (s : SettingsSeen) × (scope : Scope) × IsOpenedAlone I.told I.is_open s
        (feeder_over inputs.old feeder) opened.observation scope opened.space }
    ensures inputs { HasReadFrom I.told I.is_calm I.faults (result.feed ≡ ReadFault) inputs.old
        inputs.new }
    ensures fed { HasFedFiles I.told I.is_calm (feeder_over inputs.old feeder.entry) inputs.new
        result.blocks result.feed }
    ensures went { (s : SettingsSeen) (scope : Scope) (before : I) → IsOpenedAlone I.told I.is_open
        s (feeder_over inputs.old feeder.entry) opened.observation scope opened.space
        → HasReadSince I.told I.is_calm before (feeder_over inputs.old feeder.entry)
        → GoesAlone s (I.told before) opened.observation scope result }
{
    sessions_feed_files::<I, ()>();
    firsts_stay_told();
    let OpenedAlone { observation, space } = opened;
    observation.lies_in_range();
    let session = space.session(feeder);
    let end = run_alone(rt, session, inputs, &NoGate, 0);
    LoneFound {
        feed: end.feed,
        observation,
        engine: engine_of(end.bank),
        blocks: end.blocks,
    }
}
