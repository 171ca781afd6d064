//! The blocks of the files' data: one is filled, and kept until it is sealed.
ghost use Rattle.std.specs.Prelude.{◌≡◌, ◌≢◌, ◌≤◌, ◌<◌, ◌+◌, ◌-◌, true, false, length, take, Some, None, Ok, Err, IfOk, IfErr, OnOk, ◌^◌, slice_get};
ghost use Rattle.psr_base.specs.Inputs.{HasReadFrom};
ghost use Rattle.disk_feeder.specs.Sources.{plan_of, FailsToOpen, IsWithin, HasMore, Advances};
ghost use Rattle.dada_hdu.specs.Passes.{WritesBoth};
ghost use Rattle.disk_feeder.specs.Turns.{CanSeal, HasHeaderRoom, TurnAnswers, sealed_headers, sealed_blocks};
ghost use Rattle.disk_feeder.specs.Filling.{FillsBehind, HoldsAll};

use crate::answers::{FeedEnd, FeedFault, FeedTurn};
use crate::due::Due;
use crate::source::Source;
use crate::writing::{LateReader, write_block, write_header};
use dada_hdu::{Hdu, HduWriter, Mark};
use dada_header::Header;
use obs_plan::Observation;
use psr_base::{Inputs, Memory};
use std::alloc::Global;
// Laws: they do nothing when they run, and the proofs use what they ensure.
use stream_model::{data_none, no_stop_is_whole, streams_are_short, streams_grow};

mod handing;

// Reads on into a block, behind the bytes that it holds.
fn read_behind<I: Inputs>(
    source: &mut Source,
    inputs: &mut I,
    block: &mut [u8],
    held: usize,
) -> Result<usize, FeedEnd>
    requires room { held < length block.old }
    requires more { HasMore source.old }
    requires is_open { source.old.place.is_open ≡ true → I.is_open inputs.old }
    ensures on { Advances source.old source.new result }
    ensures bound { IfOk result (λ n. held + n ≤ length block.new) }
    ensures front { take held block.new ≡ take held block.old }
    ensures read { FillsBehind (plan_of source.old) source.old.place (I.told inputs.old)
        source.new.place (I.told inputs.new) held block.old block.new result }
    ensures is_open { source.new.place.is_open ≡ true → I.is_open inputs.new }
    ensures inputs { HasReadFrom I.told I.is_calm I.faults (result ≡ Err FeedEnd.ReadFault)
        inputs.old inputs.new }
    ensures serves { I.is_calm inputs.old → result ≡ Err FeedEnd.ReadFault
        → FailsToOpen source.old (I.told inputs.old) (I.told inputs.new) }
{
    source.advance(inputs, &mut block[held..])
}

// A list of `size` zeros.
fn zeros(alloc: Global, size: usize) -> Result<Vec<u8>, Memory>
    ensures { IfOk result (λ space. length space.items ≡ size) }
{
    Ok(vec![in alloc; 0u8; size]?)
}

/// The files' data in blocks. One block is filled at a time, and kept until it is sealed.
#[derive(Drop)]
pub(crate) struct Stream<'a> {
    source: Source<'a>,
    block: Vec<u8>,
    held: usize,
    due: Option<Due>,
    /// Whether the header of the transfer is to be sealed before its data.
    header_due: bool,
    end: Option<FeedEnd>,
    ghost some: { 0 < length block.items },
    ghost within: { held ≤ length block.items },
    ghost unfilled: { due ≡ None → held < length block.items },
}

impl<'a> Stream<'a> {
    ghost use Rattle.stream_model.specs.WalkLaws.{AreStarts};
    ghost use Rattle.disk_feeder.specs.Beginning.{IsFreshStream, IsBegunStream, BreaksFirst, RefusesSome, KeepsFiles, AcceptsIn};
    ghost use Rattle.disk_feeder.specs.Streams.{work_left, KeepsStream, Fills, IsIdle, IsFilling, HoldsLast, StreamRead, StreamReadsFirsts};
    ghost use Rattle.psr_base.specs.Told.{Told};
    ghost use Rattle.disk_feeder.specs.Feeding.{KeepsPlan, Feeds, AfterSeal, IsUntold, IsUnopened, GoesOn, IsFeeding, KeepsInputs, StreamStands};

    /// Nothing was read. The space for a block of `size` bytes, and for all headers, is taken here.
    pub(crate) fn open(
        alloc: Global,
        names: &'a [String],
        starts: &'a [u32],
        size: usize,
        max_bytes: u64,
    ) -> Result<Stream<'a>, Memory>
        requires files { length names.now ≤ 65535 }
        requires transfers { length starts.now ≤ 8 }
        requires begin { AreStarts starts.now (length names.now) }
        requires size { (1 ≤ size) × (size ≤ 2 ^ 24) }
        requires limit { max_bytes ≤ 2 ^ 48 }
        ensures names { IfOk result (λ s. s.source.names.now ≡ names.now) }
        ensures starts { IfOk result (λ s. s.source.starts.now ≡ starts.now) }
        ensures limit { IfOk result (λ s. s.source.max_bytes ≡ max_bytes) }
        ensures size { IfOk result (λ s. length s.block.items ≡ size) }
        ensures fresh { IfOk result IsFreshStream }
    {
        let source = Source::open(alloc, names, starts, max_bytes)?;
        let block = zeros(alloc, size)?;
        Ok(Stream {
            source,
            block,
            held: 0,
            due: None,
            header_due: false,
            end: None,
        })
    }

    /// Reads the first header of each transfer.
    pub(crate) fn begin<I: Inputs>(&mut self, inputs: &mut I) -> Result<(), FeedFault>
        requires { IsFreshStream self.old }
        ensures plan { KeepsFiles self.old self.new }
        ensures begun { OnOk result (IsBegunStream (I.told inputs.new) self.new) }
        ensures reads { OnOk result
            (StreamReadsFirsts (I.told inputs.old) self.old (I.told inputs.new) self.new) }
        ensures broke { result ≡ Err FeedFault.ReadFault
            → BreaksFirst (I.told inputs.old) (I.is_calm inputs.old) self.old.source
            (I.told inputs.new) }
        ensures refused { IfErr result (RefusesSome (I.told inputs.old) self.old.source) }
        ensures is_open { OnOk result
            (self.new.source.place.is_open ≡ true → I.is_open inputs.new) }
        ensures inputs { HasReadFrom I.told I.is_calm I.faults (result ≡ Err FeedFault.ReadFault)
            inputs.old inputs.new }
        ensures serves { I.is_calm inputs.old
            → HoldsAll (I.told inputs.old) (plan_of self.old.source).names
            → result ≢ Err FeedFault.ReadFault }
    {
        data_none();
        match self.source.read_headers(inputs) {
            Ok(()) => {
                self.source.start();
                Ok(())
            }
            Err(fault) => Err(fault),
        }
    }

    /// The first header of a transfer.
    pub(crate) fn header_of(&self, transfer: usize) -> &Header
        requires { transfer < length self.now.source.headers.items }
        ensures { slice_get self.now.source.headers.items transfer ≡ Some result.now }
    {
        self.source.header_of(transfer)
    }

    /// Keeps the observation of a transfer's first header.
    pub(crate) fn accept(&mut self, transfer: usize, observation: &Observation)
        requires there { transfer < length self.old.source.headers.items }
        ensures source { AcceptsIn self.old.source transfer observation.now self.new.source }
        ensures block { self.new.block ≡ self.old.block }
        ensures held { self.new.held ≡ self.old.held }
        ensures due { self.new.due ≡ self.old.due }
        ensures header_due { self.new.header_due ≡ self.old.header_due }
        ensures end { self.new.end ≡ self.old.end }
    {
        self.source.accept(transfer, observation);
    }

    /// Makes the block shorter, to `size` bytes, while it holds nothing.
    pub(crate) fn cut_blocks(&mut self, size: usize)
        requires size { (1 ≤ size) × (size ≤ length self.old.block.items) }
        requires held { self.old.held ≡ 0 }
        ensures size { length self.new.block.items ≡ size }
        ensures source { self.new.source ≡ self.old.source }
        ensures held { self.new.held ≡ self.old.held }
        ensures due { self.new.due ≡ self.old.due }
        ensures header_due { self.new.header_due ≡ self.old.header_due }
        ensures end { self.new.end ≡ self.old.end }
    {
        self.block.truncate(size);
    }

    // Counts `n` bytes behind those that the block held.
    fn hold(&mut self, n: usize)
        requires { self.old.held + n ≤ length self.old.block.items }
        ensures source { self.new.source ≡ self.old.source }
        ensures block { self.new.block ≡ self.old.block }
        ensures held { self.new.held ≡ self.old.held + n }
        ensures full { self.new.held ≡ length self.old.block.items → self.new.due ≡ Some Due.Full }
        ensures more { self.new.held ≢ length self.old.block.items
            → self.new.due ≡ self.old.due }
        ensures kept { KeepsStream self.old self.new }
    {
        let held = self.held + n;
        if held == self.block.len() {
            self.due = Some(Due::Full);
        }
        self.held = held;
    }

    // Opens a file or reads a piece, if the transfer has more data.
    fn step<I: Inputs>(&mut self, inputs: &mut I)
        requires idle { IsIdle self.old }
        requires within { IsWithin self.old.source }
        requires is_open { self.old.source.place.is_open ≡ true → I.is_open inputs.old }
        ensures kept { KeepsStream self.old self.new }
        ensures filled { Fills self.old (I.told inputs.old) self.new (I.told inputs.new) }
        ensures reads_on { (before : Told) → StreamRead before (I.told inputs.old) self.old
            → StreamRead before (I.told inputs.new) self.new }
        ensures progress { self.new.due ≡ None → work_left self.new < work_left self.old }
        ensures is_open { self.new.source.place.is_open ≡ true → I.is_open inputs.new }
        ensures inputs { HasReadFrom I.told I.is_calm I.faults
            (self.new.due ≡ Some (Due.Stopped FeedEnd.ReadFault)) inputs.old inputs.new }
        ensures missing { I.is_calm inputs.old
            → self.new.due ≡ Some (Due.Stopped FeedEnd.ReadFault)
            → IsUntold (I.told inputs.old) self.new.source
            × ((before : Told) → StreamRead before (I.told inputs.old) self.old
            → IsUnopened before (I.told inputs.new) self.new.source) }
    {
        streams_grow();
        if self.source.is_transfer_over() {
            self.due = Some(Due::Last);
            return;
        }
        let block = self.block.as_mut_slice();
        match read_behind(&mut self.source, inputs, block, self.held) {
            Ok(n) => self.hold(n),
            Err(end) => self.due = Some(Due::Stopped(end)),
        }
    }

    // Fills the block until it is to be sealed, and answers why it is.
    fn fill<I: Inputs>(&mut self, inputs: &mut I) -> Due
        requires running { self.old.end ≡ None }
        requires within { IsWithin self.old.source }
        requires is_open { self.old.source.place.is_open ≡ true → I.is_open inputs.old }
        ensures due { self.new.due ≡ Some result }
        ensures kept { KeepsStream self.old self.new }
        ensures filled { Fills self.old (I.told inputs.old) self.new (I.told inputs.new) }
        ensures reads_on { (before : Told) → StreamRead before (I.told inputs.old) self.old
            → StreamRead before (I.told inputs.new) self.new }
        ensures is_open { self.new.source.place.is_open ≡ true → I.is_open inputs.new }
        ensures inputs { KeepsInputs I.told I.is_calm I.faults self.old self.new inputs.old
            inputs.new }
    {
        loop {
            if let Some(due) = self.due {
                return due;
            }
            self.step(inputs);
        }
    }

    // Empties the block.
    fn empty(&mut self)
        ensures source { self.new.source ≡ self.old.source }
        ensures block { self.new.block ≡ self.old.block }
        ensures held { self.new.held ≡ 0 }
        ensures due { self.new.due ≡ None }
        ensures kept { KeepsStream self.old self.new }
    {
        self.held = 0;
        self.due = None;
    }

    // Seals the full block.
    fn seal_full(&mut self, hdu: &Hdu, pass: &mut HduWriter) -> FeedTurn
        requires block { CanSeal hdu.now (length self.old.block.items) pass.old }
        requires due { self.old.due ≡ Some Due.Full }
        requires running { self.old.end ≡ None }
        ensures ring { WritesBoth hdu.now pass.new }
        ensures after { AfterSeal self.old self.new }
        ensures feeds { Feeds self.old pass.old self.new pass.new }
        ensures reads_on { (before told : Told) → StreamRead before told self.old
            → StreamRead before told self.new }
        ensures answer { TurnAnswers pass.old pass.new self.new.end result }
    {
        let size = self.block.len();
        match write_block(hdu, pass, &mut self.block, size, Mark::More) {
            Ok(()) => {
                self.empty();
                FeedTurn::Moved
            }
            Err(LateReader { reader, cleared }) => FeedTurn::Waiting { reader, cleared },
        }
    }

    // Seals the rest of a transfer's data.
    fn seal_last(&mut self, hdu: &Hdu, pass: &mut HduWriter) -> FeedTurn
        requires block { CanSeal hdu.now (length self.old.block.items) pass.old }
        requires due { self.old.due ≡ Some Due.Last }
        requires filling { IsFilling self.old }
        requires last { HoldsLast self.old }
        ensures ring { WritesBoth hdu.now pass.new }
        ensures after { AfterSeal self.old self.new }
        ensures feeds { Feeds self.old pass.old self.new pass.new }
        ensures reads_on { (before told : Told) → StreamRead before told self.old
            → StreamRead before told self.new }
        ensures answer { TurnAnswers pass.old pass.new self.new.end result }
    {
        streams_grow();
        no_stop_is_whole();
        match write_block(hdu, pass, &mut self.block, self.held, Mark::End) {
            Ok(()) => {
                self.source.next_transfer();
                self.empty();
                self.after_transfer()
            }
            Err(LateReader { reader, cleared }) => FeedTurn::Waiting { reader, cleared },
        }
    }

    // After all data of a transfer were sealed: the header of the next one is due, or the stream ends.
    fn after_transfer(&mut self) -> FeedTurn
        requires { self.old.end ≡ None }
        ensures source { self.new.source ≡ self.old.source }
        ensures block { self.new.block ≡ self.old.block }
        ensures held { self.new.held ≡ self.old.held }
        ensures due { self.new.due ≡ self.old.due }
        ensures next { GoesOn self.old self.new result }
    {
        if self.source.is_over() {
            let end = FeedEnd::Whole {
                bytes: self.source.total(),
            };
            self.end = Some(end);
            FeedTurn::Ended(end)
        } else {
            self.header_due = true;
            FeedTurn::Moved
        }
    }

    // Seals that the stream ends early.
    fn seal_cut(&mut self, hdu: &Hdu, pass: &mut HduWriter, end: FeedEnd) -> FeedTurn
        requires block { CanSeal hdu.now (length self.old.block.items) pass.old }
        requires due { self.old.due ≡ Some (Due.Stopped end) }
        requires running { self.old.end ≡ None }
        requires header { self.old.header_due ≡ false }
        ensures ring { WritesBoth hdu.now pass.new }
        ensures after { AfterSeal self.old self.new }
        ensures feeds { Feeds self.old pass.old self.new pass.new }
        ensures reads_on { (before told : Told) → StreamRead before told self.old
            → StreamRead before told self.new }
        ensures answer { TurnAnswers pass.old pass.new self.new.end result }
    {
        match write_block(hdu, pass, &mut self.block, 0, Mark::Cut) {
            Ok(()) => {
                self.end = Some(end);
                FeedTurn::Ended(end)
            }
            Err(LateReader { reader, cleared }) => FeedTurn::Waiting { reader, cleared },
        }
    }

    // After the header of the transfer was sealed: its data are read next.
    fn begin_transfer(&mut self)
        ensures source { self.new.source ≡ self.old.source }
        ensures block { self.new.block ≡ self.old.block }
        ensures held { self.new.held ≡ self.old.held }
        ensures due { self.new.due ≡ self.old.due }
        ensures header_due { self.new.header_due ≡ false }
        ensures end { self.new.end ≡ self.old.end }
    {
        self.header_due = false;
    }

    // Seals the header of the transfer.
    fn seal_header(&mut self, hdu: &Hdu, pass: &mut HduWriter) -> FeedTurn
        requires ring { WritesBoth hdu.now pass.old }
        requires room { HasHeaderRoom hdu.now pass.old }
        requires running { self.old.end ≡ None }
        requires header { self.old.header_due ≡ true }
        requires there { self.old.source.place.transfer < length self.old.source.starts.now }
        ensures ring { WritesBoth hdu.now pass.new }
        ensures after { AfterSeal self.old self.new }
        ensures feeds { Feeds self.old pass.old self.new pass.new }
        ensures reads_on { (before told : Told) → StreamRead before told self.old
            → StreamRead before told self.new }
        ensures answer { TurnAnswers pass.old pass.new self.new.end result }
    {
        match write_header(hdu, pass, self.source.header()) {
            Ok(()) => {
                self.begin_transfer();
                FeedTurn::Moved
            }
            Err(LateReader { reader, cleared }) => FeedTurn::Waiting { reader, cleared },
        }
    }

    // Seals what is due.
    fn seal(&mut self, hdu: &Hdu, pass: &mut HduWriter, due: Due) -> FeedTurn
        requires block { CanSeal hdu.now (length self.old.block.items) pass.old }
        requires due { self.old.due ≡ Some due }
        requires filling { IsFilling self.old }
        requires last { due ≡ Due.Last → HoldsLast self.old }
        ensures ring { WritesBoth hdu.now pass.new }
        ensures after { AfterSeal self.old self.new }
        ensures feeds { Feeds self.old pass.old self.new pass.new }
        ensures reads_on { (before told : Told) → StreamRead before told self.old
            → StreamRead before told self.new }
        ensures answer { TurnAnswers pass.old pass.new self.new.end result }
    {
        match due {
            Due::Full => self.seal_full(hdu, pass),
            Due::Last => self.seal_last(hdu, pass),
            Due::Stopped(end) => self.seal_cut(hdu, pass, end),
        }
    }

    /// Fills a block and seals it, or seals a header if one is due.
    pub(crate) fn turn<I: Inputs>(
        &mut self,
        inputs: &mut I,
        hdu: &Hdu,
        pass: &mut HduWriter,
    ) -> FeedTurn
        requires ring { WritesBoth hdu.now pass.old }
        requires running { self.old.end ≡ None }
        requires stands { StreamStands (I.told inputs.old) (I.is_open inputs.old) hdu.now self.old
            pass.old }
        ensures ring { WritesBoth hdu.now pass.new }
        ensures kept { KeepsPlan self.old self.new }
        ensures is_open { self.new.source.place.is_open ≡ true → I.is_open inputs.new }
        ensures feeding { IsFeeding self.new (I.told inputs.new) (sealed_headers pass.new)
            (sealed_blocks pass.new) }
        ensures reads_on { (before : Told) → StreamRead before (I.told inputs.old) self.old
            → StreamRead before (I.told inputs.new) self.new }
        ensures answer { TurnAnswers pass.old pass.new self.new.end result }
        ensures inputs { KeepsInputs I.told I.is_calm I.faults self.old self.new inputs.old
            inputs.new }
    {
        streams_are_short();
        if self.header_due {
            return self.seal_header(hdu, pass);
        }
        let due = self.fill(inputs);
        self.seal(hdu, pass, due)
    }
}
