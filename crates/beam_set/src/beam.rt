// A beam and its turns.
ghost use Rattle.std.specs.Prelude.{◌≡◌, ◌↔◌, Some, IsTrue};
ghost use Rattle.psr_base.specs.Told.{Told};
ghost use Rattle.search_engine.specs.Engine.{EngineState};
ghost use Rattle.session_readers.specs.Banks.{HasEngine, engines_of};
ghost use Rattle.beam_set.specs.Beam.{BeamOn, BeamMoved, HasBeamEnded, HasBeamFile, engines_in};
ghost use Rattle.beam_set.specs.Answers.{IsBeamEnd};

use crate::ended::BeamEnd;
use arrayvec::ArrayVec;
use psr_base::Inputs;
use search_engine::Engine;
use search_model::MOST_TRANSFERS;
use search_session::{Bank, Gate, LoneEnd, LoneSession};

/// The largest number of beams of a set.
pub const MOST_BEAMS: usize = 7;

/// A beam of a set: its feeder and the reader of its one engine, over rings of its own. It holds no inputs: they are
/// lent to it at each turn, always the same inputs.
#[derive(Drop)]
pub struct Beam<'a> {
    pub(crate) lone: LoneSession<'a>,
}

// The first engine of a list.
fn first_of(engines: &mut ArrayVec<Option<Engine>, MOST_TRANSFERS>) -> Engine
    requires { (e : EngineState) × HasEngine engines.old.items 0 e }
    ensures { (e : EngineState) → HasEngine engines.old.items 0 e → result ≡ e }
{
    let Some(Some(engine)) = engines.pop_at(0) else {
        unreachable!()
    };
    engine
}

// The first engine of a bank.
fn engine_of(bank: Bank) -> Engine
    requires { (e : EngineState) × HasEngine (engines_of bank) 0 e }
    ensures { (e : EngineState) → HasEngine (engines_of bank) 0 e → result ≡ e }
{
    let Bank { mut engines } = bank;
    first_of(&mut engines)
}

impl<'a> Beam<'a> {
    /// Takes one turn: the feeder seals one block from the inputs, or finds the ring full, and then the reader takes
    /// one block and feeds it to the engine, each unless it ended. The gate is called with the beam's number. Answers
    /// whether both ended. It takes no memory, and does not wait.
    pub fn turn<I: Inputs, G: Gate>(&mut self, inputs: &mut I, gate: &G, number: u32) -> bool
        requires on { BeamOn (I.told inputs.old) self.old }
        requires file { HasBeamFile I.is_open inputs.old self.old }
        ensures on { BeamOn (I.told inputs.new) self.new }
        ensures file { HasBeamFile I.is_open inputs.new self.new }
        ensures moved { BeamMoved I.told I.is_calm I.faults 1 inputs.old self.old
            inputs.new self.new }
        ensures ended { IsTrue result ↔ HasBeamEnded self.new }
    {
        self.lone.turn(inputs, gate, number)
    }

    /// Takes `turns` turns, or fewer if both ended.
    pub(crate) fn drive<I: Inputs, G: Gate>(
        &mut self,
        inputs: &mut I,
        gate: &G,
        number: u32,
        turns: u32,
    )
        requires on { BeamOn (I.told inputs.old) self.old }
        requires file { HasBeamFile I.is_open inputs.old self.old }
        ensures on { BeamOn (I.told inputs.new) self.new }
        ensures file { HasBeamFile I.is_open inputs.new self.new }
        ensures moved { BeamMoved I.told I.is_calm I.faults turns inputs.old self.old
            inputs.new self.new }
    {
        self.lone.drive(inputs, gate, number, turns);
    }

    /// Whether both the feeder and the reader ended.
    pub fn has_ended(&self) -> bool
        ensures { IsTrue result ↔ HasBeamEnded self.now }
    {
        self.lone.has_ended()
    }

    /// Ends a beam whose feeder and reader have ended.
    pub(crate) fn close(self) -> BeamEnd
        requires on { (told : Told) × BeamOn told self }
        requires ended { HasBeamEnded self }
        requires engine { (e : EngineState) × HasEngine (engines_in self) 0 e }
        ensures { IsBeamEnd self.entry result }
    {
        let LoneEnd {
            feed,
            bank,
            blocks: _,
        } = self.lone.close();
        let engine = engine_of(bank);
        let spectra = engine.spectra();
        BeamEnd {
            feed,
            book: engine.into_book(),
            spectra,
        }
    }
}
