// A loop over one feeder and one reader: what was sealed, and how it ended.
ghost use Rattle.std.specs.Prelude.{◌≡◌, ◌≤◌, ◌<◌, ◌+◌, ◌/◌, ◌^◌, map, string_bytes, length, None, true, false, Ok, [], take, IsTrue};
ghost use Rattle.stream_model.specs.WalkLaws.{AreStarts};
ghost use Rattle.dada_hdu.specs.Passes.{WritesBoth, ReadsBoth, data_shape};
ghost use Rattle.disk_feeder.specs.Feeder.{FeederFeeds, HasPlan, IsBegun, IsFresh, IsSpaceFor, KeepsBegun, headers_of, has_end};
ghost use Rattle.disk_feeder.specs.Feeding.{header_entries};
ghost use Rattle.disk_feeder.specs.Resting.{FeederStands};
ghost use Rattle.disk_feeder.specs.Turns.{sealed_headers, sealed_blocks};

use crate::files::put_files;
use crate::rings::{Rings, open_rings};
use dada_hdu::{Hdu, HduReader, HduWriter, Mark, RingShape, Taken};
use disk_feeder::{FeedEnd, FeedFault, FeedTurn, Feeder, FeederSpace};
use obs_plan::Observation;
use psr_base::{Failed, Inputs, MemInputs};
use std::alloc::Global;
use std::test::Fail;

/// How a feeder ended, and what was read of its rings: for a header `H`; for a block of data its bytes and then `.`,
/// `E` or `C` for its mark. Its turns are `M` for Moved, `E` for Ended, and for Waiting the last digit of the count.
#[derive(Drop)]
pub(crate) struct Fed {
    pub(crate) begun: Result<(), FeedFault>,
    pub(crate) end: Option<FeedEnd>,
    pub(crate) trace: Vec<u8>,
    pub(crate) turns: Vec<u8>,
    in_transfer: bool,
}

impl Fed {
    fn new(alloc: Global) -> Fed {
        Fed {
            begun: Ok(()),
            end: None,
            trace: Vec::new(alloc),
            turns: Vec::new(alloc),
            in_transfer: false,
        }
    }

    // Notes what a turn did.
    fn note_turn(&mut self, turn: FeedTurn) -> Result<(), Fail> {
        self.turns.push(match turn {
            FeedTurn::Moved => b'M',
            FeedTurn::Waiting { cleared, .. } => b'0' + (cleared % 10) as u8,
            FeedTurn::Ended(end) => {
                self.end = Some(end);
                b'E'
            }
        })?;
        Ok(())
    }

    // Notes what a read took of the data ring.
    fn note(&mut self, bytes: &[u8], mark: Mark) -> Result<(), Fail> {
        self.trace.extend_from_slice(bytes)?;
        self.trace.push(match mark {
            Mark::More => b'.',
            Mark::End => b'E',
            Mark::Cut => b'C',
        })?;
        self.in_transfer = mark != Mark::End;
        Ok(())
    }

    // Reads and clears the next block, if there is one: a header before the data of each transfer.
    fn drain(&mut self, hdu: &Hdu, reader: &mut HduReader, space: &mut [u8]) -> Result<(), Fail>
        requires ring { ReadsBoth hdu.now reader.old }
        requires room { 65537 ≤ length space.old }
        requires size { (data_shape hdu.now).size ≤ length space.old }
        ensures ring { ReadsBoth hdu.now reader.new }
    {
        if !self.in_transfer {
            if let Ok(Taken { .. }) = hdu.read_header(reader, space) {
                hdu.clear_header(reader);
                self.trace.push(b'H')?;
                self.in_transfer = true;
            }
            return Ok(());
        }
        if let Ok(Taken { used, mark, .. }) = hdu.read(reader, space) {
            hdu.clear(reader);
            self.note(&space[..used as usize], mark)?;
        }
        Ok(())
    }

    // Reads and clears the next block after each third turn.
    fn drain_after(
        &mut self,
        turn: u32,
        hdu: &Hdu,
        reader: &mut HduReader,
        space: &mut [u8],
    ) -> Result<(), Fail>
        requires ring { ReadsBoth hdu.now reader.old }
        requires room { 65537 ≤ length space.old }
        requires size { (data_shape hdu.now).size ≤ length space.old }
        ensures ring { ReadsBoth hdu.now reader.new }
    {
        if turn % 3 != 2 {
            return Ok(());
        }
        self.drain(hdu, reader, space)
    }

    // Reads and clears all blocks that are left.
    fn drain_all(&mut self, hdu: &Hdu, reader: &mut HduReader, space: &mut [u8]) -> Result<(), Fail>
        requires ring { ReadsBoth hdu.now reader.old }
        requires room { 65537 ≤ length space.old }
        requires size { (data_shape hdu.now).size ≤ length space.old }
    {
        for _rest in 0..40 {
            self.drain(hdu, reader, space)?;
        }
        Ok(())
    }
}

// Accepts the observation of each first header, if they have one.
fn accept_all<I: Inputs>(
    alloc: Global,
    feeder: &mut Feeder<'_, I>,
    transfers: usize,
) -> Result<bool, Fail>
    requires begun { IsBegun (I.told feeder.old.inputs.now) feeder.old }
    requires count { length (headers_of feeder.old) ≡ transfers }
    requires some { 0 < transfers }
    ensures same_reference { feeder.new.inputs.ghost_name ≡ feeder.old.inputs.ghost_name }
    ensures inputs { feeder.new.inputs.now ≡ feeder.old.inputs.now }
    ensures kept { KeepsBegun feeder.old feeder.new }
    ensures feeds { result ≡ Ok true → FeederFeeds (I.told feeder.new.inputs.now) feeder.new
        (header_entries (take 1 (headers_of feeder.new))) [] }
{
    for k in 0..transfers {
        let Ok(observation) = Observation::of(alloc, feeder.header(k)) else {
            return Ok(false);
        };
        feeder.accept(k, &observation);
    }
    Ok(true)
}

// Takes a turn, and answers whether the feeder ended.
fn take_turn<I: Inputs>(
    feeder: &mut Feeder<'_, I>,
    hdu: &Hdu,
    pass: &mut HduWriter,
    fed: &mut Fed,
) -> Result<bool, Fail>
    requires writes { WritesBoth hdu.now pass.old }
    requires running { has_end feeder.old ≡ None }
    requires stands { FeederStands I.told I.is_open hdu.now feeder.old pass.old }
    ensures writes { WritesBoth hdu.now pass.new }
    ensures same_reference { feeder.new.inputs.ghost_name ≡ feeder.old.inputs.ghost_name }
    ensures running { result ≡ Ok false → has_end feeder.new ≡ None }
    ensures stands { FeederStands I.told I.is_open hdu.now feeder.new pass.new }
{
    let turn = feeder.turn(hdu, pass);
    fed.note_turn(turn)?;
    Ok(matches!(turn, FeedTurn::Ended(_)))
}

// Takes turns until the feeder ended, up to a limit of turns. The reader reads after each third turn.
fn take_turns<I: Inputs>(
    feeder: &mut Feeder<'_, I>,
    hdu: &Hdu,
    pass: &mut HduWriter,
    reader: &mut HduReader,
    space: &mut [u8],
    fed: &mut Fed,
) -> Result<(), Fail>
    requires writes { WritesBoth hdu.now pass.old }
    requires reads { ReadsBoth hdu.now reader.old }
    requires room { 65537 ≤ length space.old }
    requires size { (data_shape hdu.now).size ≤ length space.old }
    requires running { has_end feeder.old ≡ None }
    requires stands { FeederStands I.told I.is_open hdu.now feeder.old pass.old }
{
    for turn in 0..200 {
        if take_turn(feeder, hdu, pass, fed)? {
            return fed.drain_all(hdu, reader, space);
        }
        fed.drain_after(turn, hdu, reader, space)?;
    }
    Ok(())
}

// Seals the first header, and answers whether it did.
fn write_first<I: Inputs>(feeder: &Feeder<'_, I>, hdu: &Hdu, pass: &mut HduWriter) -> bool
    requires writes { WritesBoth hdu.now pass.old }
    requires no_header { sealed_headers pass.old ≡ [] }
    requires no_block { sealed_blocks pass.old ≡ [] }
    requires there { 0 < length (headers_of feeder.now) }
    requires feeds { FeederFeeds (I.told feeder.now.inputs.now) feeder.now
        (header_entries (take 1 (headers_of feeder.now))) [] }
    ensures writes { WritesBoth hdu.now pass.new }
    ensures feeding { result ≡ true → FeederFeeds (I.told feeder.now.inputs.now) feeder.now
        (sealed_headers pass.new) (sealed_blocks pass.new) }
{
    match hdu.write_header(pass, feeder.header(0)) {
        Ok(_number) => true,
        Err(_) => false,
    }
}

/// Whether these are the starts of one transfer or of two, among `count` files.
pub(crate) fn are_starts(starts: &[u32], count: usize) -> bool
    ensures starts { IsTrue result → AreStarts starts.now count }
    ensures few { IsTrue result → length starts.now ≤ 2 }
{
    match starts {
        [first] => *first == 0 && 0 < count,
        [first, second] => *first == 0 && 0 < *second && (*second as usize) < count,
        _ => false,
    }
}

/// Inputs that give one byte at a time.
#[derive(Drop)]
struct Trickle<I>(I);

impl<I: Inputs> Inputs for Trickle<I> {
    ghost use Rattle.psr_base.specs.Told.{nothing_told};

    ghost told = { λ _. nothing_told };

    ghost is_open = { λ inputs. I.is_open inputs.0 };

    ghost is_calm = { λ _. ⊥ };

    ghost faults = { λ inputs. I.faults inputs.0 };

    fn open(&mut self, name: &str) -> Result<(), Failed> {
        self.0.open(name)
    }

    fn read(&mut self, into: &mut [u8]) -> Result<usize, Failed> {
        self.0.read(&mut into[..1])
    }
}

// The inputs of a feeder that is done, with its count of faults.
fn give_back<'a, I: Inputs>(feeder: Feeder<'a, I>) -> &'a mut I
    ensures { I.faults result.now ≡ I.faults feeder.entry.inputs.now }
{
    feeder.close()
}

/// The names of the files that are read, the starts of transfers, the size of a block, the limit of data bytes, the
/// calls that fail, and whether bytes come one at a time.
#[derive(Clone, Copy)]
pub(crate) struct Case<'a> {
    pub(crate) names: &'a [String],
    pub(crate) starts: &'a [u32],
    pub(crate) size: u32,
    pub(crate) max_bytes: u64,
    pub(crate) fail: &'a [u64],
    pub(crate) slowly: bool,
}

// Whether a feeder takes the settings of a case.
fn is_fed(case: Case<'_>) -> bool
    ensures names { IsTrue result → length case.entry.names.now ≤ 65535 }
    ensures starts { IsTrue result → AreStarts case.entry.starts.now (length case.entry.names.now) }
    ensures few { IsTrue result → length case.entry.starts.now ≤ 2 }
    ensures size { IsTrue result → (1 ≤ case.entry.size) × (case.entry.size ≤ 65536) }
    ensures limit { IsTrue result → case.entry.max_bytes ≤ 2 ^ 40 }
{
    case.names.len() <= 65535
        && are_starts(case.starts, case.names.len())
        && 1 <= case.size
        && case.size <= 1 << 16
        && case.max_bytes <= 1 << 40
}

// A data ring of two buffers for a case.
fn shape_of(case: Case<'_>) -> RingShape
    requires size { 1 ≤ case.size }
    requires few { length case.starts.now ≤ 2 }
    requires limit { case.max_bytes ≤ 2 ^ 40 }
    ensures size { result.size ≡ case.entry.size }
    ensures most { result.max_blocks
        ≡ case.entry.max_bytes / case.entry.size + length case.entry.starts.now + 1 }
{
    RingShape {
        buffers: 2,
        size: case.size,
        readers: 1,
        max_blocks: case.max_bytes / case.size as u64 + case.starts.len() as u64 + 1,
    }
}

// The feeder of a case, over its space.
fn feeder_of<'a, I: Inputs>(
    inputs: &'a mut I,
    space: FeederSpace<'a>,
    case: Case<'_>,
) -> Feeder<'a, I>
    requires { IsSpaceFor space (map string_bytes case.names.now) case.starts.now case.size
        case.max_bytes }
    ensures plan { HasPlan result (map string_bytes case.entry.names.now) case.entry.starts.now
        case.entry.size case.entry.max_bytes }
    ensures fresh { IsFresh result }
{
    Feeder::over(inputs, space)
}

// Feeds the files of a case from inputs that hold them.
fn feed_from<I: Inputs>(alloc: Global, inputs: &mut I, case: Case<'_>) -> Result<Fed, Fail> {
    if !is_fed(case) {
        return Err("a case".into());
    }
    let shape = shape_of(case);
    if shape.check().is_err() {
        return Err("a shape".into());
    }
    let Some(
        Rings {
            hdu,
            mut pass,
            mut reader,
        },
    ) = open_rings(alloc, shape)
    else {
        return Err("rings".into());
    };
    let mut space = vec![in alloc; 0u8; 65537]?;
    let mut fed = Fed::new(alloc);
    let room = FeederSpace::reserve(alloc, case.names, case.starts, case.size, case.max_bytes)?;
    let mut feeder = feeder_of(inputs, room, case);
    match feeder.begin() {
        Ok(()) => {}
        Err(fault) => {
            fed.begun = Err(fault);
            return Ok(fed);
        }
    }
    if !accept_all(alloc, &mut feeder, case.starts.len())? {
        return Err("an observation".into());
    }
    if !write_first(&feeder, &hdu, &mut pass) {
        return Err("the first header".into());
    }
    take_turns(
        &mut feeder,
        &hdu,
        &mut pass,
        &mut reader,
        space.as_mut_slice(),
        &mut fed,
    )?;
    give_back(feeder);
    Ok(fed)
}

/// Feeds the files of a case.
pub(crate) fn feed(alloc: Global, case: Case<'_>) -> Result<Fed, Fail> {
    let mut inputs = MemInputs::open(alloc, case.fail)?;
    put_files(alloc, &mut inputs)?;
    if case.slowly {
        feed_from(alloc, &mut Trickle(inputs), case)
    } else {
        feed_from(alloc, &mut inputs, case)
    }
}
