// Beams that are driven as a set.
ghost use Rattle.std.specs.Prelude.{◌≡◌, ◌∷◌, [], IfOk, length, map, string_bytes};
ghost use Rattle.psr_base.specs.InMemory.{told_of, IsOpen};
ghost use Rattle.psr_base.specs.Told.{Told};
ghost use Rattle.disk_feeder.specs.Feeder.{HasPlan, IsBegun, HasOpenFile};
ghost use Rattle.disk_feeder.specs.Resting.{at_rest};
ghost use Rattle.beam_set.specs.Beam.{BeamBegins, HasBeamFile, feeder_in};

use arrayvec::ArrayVec;
use beam_set::{Beam, BeamEnd, BeamSpace, MOST_BEAMS, run_set};
use disk_feeder::FeederSpace;
use obs_plan::Observation;
use psr_base::{Inputs, MemInputs};
use ring_words::RingShape;
use search_engine::Engine;
use search_model::Search;
use search_session::Gate;
use std::alloc::Global;
use std::sync::Wait;
use std::test::Fail;
use std::thread::Threads;

// A search of boxes of one spectrum, for the delays 0 and 1.
const SEARCH: Search = Search {
    min_delay: 0,
    max_delay: 1,
    widest: 1,
    fold_min: 2,
    fold_max: 0,
    fold_rows: 6,
    fold_step: 1,
    chunk: 256,
    shards: 1,
    max_candidates: 8,
    mean: 1000,
    sd: 2000,
    snr: 700,
};

// How many data bytes a beam may have.
const MOST_BYTES: u64 = 100;

// Rings of blocks of one byte.
const SHAPE: RingShape = RingShape {
    buffers: 2,
    size: 1,
    readers: 1,
    max_blocks: 102,
};

// The feeder of a file, whose header was read.
fn feeder_of<'a, I: Inputs>(
    alloc: Global,
    names: &'a [String],
    starts: &'a [u32],
    inputs: &mut I,
) -> Result<FeederSpace<'a>, Fail>
    requires name { length names.now ≡ 1 }
    requires transfer { starts.now ≡ 0 ∷ [] }
    ensures plan { IfOk result (λ f.
        HasPlan (at_rest f) (map string_bytes names.now) starts.now 1 100) }
    ensures begun { IfOk result (λ f. IsBegun (I.told inputs.new) (at_rest f)) }
    ensures file { IfOk result (λ f. HasOpenFile (at_rest f) → I.is_open inputs.new) }
{
    let mut feeder = FeederSpace::reserve(alloc, names, starts, 1, MOST_BYTES)?;
    feeder.rests();
    match feeder.begin(inputs) {
        Ok(()) => Ok(feeder),
        Err(_) => Err("no header".into()),
    }
}

// The beam of a feeder.
fn beam_of<'a>(alloc: Global, mut feeder: FeederSpace<'a>) -> Result<Beam<'a>, Fail>
    requires plan { (names : _) × HasPlan (at_rest feeder) names (0 ∷ []) 1 100 }
    requires begun { (told : Told) × IsBegun told (at_rest feeder) }
    ensures begins { (told : Told) → IsBegun told (at_rest feeder.entry)
        → IfOk result (BeamBegins told) }
    ensures file { IfOk result (λ b. HasOpenFile (at_rest (feeder_in b))
        → HasOpenFile (at_rest feeder.entry)) }
{
    if !SEARCH.in_range() {
        return Err("a setting out of range".into());
    }
    let Ok(observation) = Observation::of(alloc, feeder.header(0)) else {
        return Err("no observation".into());
    };
    let Ok(engine) = Engine::open(alloc, &observation, &SEARCH, 0) else {
        return Err("no engine".into());
    };
    let space = BeamSpace::reserve(alloc, engine, SHAPE, feeder.header(0))?;
    feeder.accept(0, &observation);
    Ok(space.beam(feeder))
}

// The beam of a file, before its first turn.
fn begin<'a>(
    alloc: Global,
    names: &'a [String],
    starts: &'a [u32],
    inputs: &mut MemInputs,
) -> Result<Beam<'a>, Fail>
    requires name { length names.now ≡ 1 }
    requires transfer { starts.now ≡ 0 ∷ [] }
    ensures begins { IfOk result (BeamBegins (told_of inputs.new)) }
    ensures file { IfOk result (HasBeamFile IsOpen inputs.new) }
{
    let feeder = feeder_of(alloc, names, starts, inputs)?;
    beam_of(alloc, feeder)
}

/// How three beams with a file of one name end, which are driven at the same time over these inputs.
pub(crate) fn run_three<G: Gate + Sync, R: Threads + Wait + Sync>(
    rt: &R,
    alloc: Global,
    names: &[String],
    mut one: MemInputs,
    mut two: MemInputs,
    mut three: MemInputs,
    gate: &G,
) -> Result<ArrayVec<Option<BeamEnd>, MOST_BEAMS>, Fail>
    requires { length names.now ≡ 1 }
{
    let starts = [0_u32];
    let first = begin(alloc, names, &starts, &mut one)?;
    let second = begin(alloc, names, &starts, &mut two)?;
    let third = begin(alloc, names, &starts, &mut three)?;
    let mut beams = ArrayVec::new();
    beams.push(Some(first));
    beams.push(Some(second));
    beams.push(Some(third));
    let mut inputs = [one, two, three];
    Ok(run_set(rt, beams, &mut inputs, 1, gate))
}
