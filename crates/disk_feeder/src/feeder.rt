//! The feeder.
ghost use Rattle.std.specs.Prelude.{◌≡◌, ◌≢◌, ℕ, ◌^◌, ◌<◌, ◌≤◌, ◌++◌, ◌∷◌, List, length, map, string_bytes, None, Some, Ok, Err, [], take, IfOk, IfErr, OnOk, slice_get};
ghost use Rattle.dada_model.specs.Fields.{fields_of};
ghost use Rattle.dada_model.specs.Observation.{observation_of};
ghost use Rattle.psr_base.specs.Inputs.{HasReadFrom};
ghost use Rattle.stream_model.specs.WalkLaws.{AreStarts};
ghost use Rattle.dada_hdu.specs.Passes.{WritesBoth};
ghost use Rattle.disk_feeder.specs.Filling.{HoldsAll};
ghost use Rattle.disk_feeder.specs.Turns.{TurnAnswers, sealed_headers, sealed_blocks};

use crate::answers::{FeedFault, FeedTurn, Handed};
use crate::laws::{feeders_begin, headers_are_first};
use crate::stream::Stream;
use dada_hdu::{Hdu, HduWriter};
use dada_header::Header;
use obs_plan::Observation;
use psr_base::{Inputs, Memory};
use std::alloc::Global;
// Laws: they do nothing when they run, and the proofs use what they ensure.
use stream_model::{data_grow, data_none, first_files_continue};

/// The space of a feeder: for the first header of each transfer, and for a block. It has all memory that a feeder
/// needs.
#[derive(Drop)]
pub struct FeederSpace<'a> {
    stream: Stream<'a>,
}

impl<'a> FeederSpace<'a> {
    ghost use Rattle.disk_feeder.specs.Feeder.{HasPlan, SamePlan, IsSpaceFor, IsFresh, IsBegun, ReadsFirstHeaders, BreaksFirstHeaders, RefusesAt, HasOpenFile, has_end, headers_of, names_at, KeepsBegun, AcceptsAt, AllAccepted, FeederFeeds};
    ghost use Rattle.disk_feeder.specs.Feeding.{header_entries};
    ghost use Rattle.disk_feeder.specs.Resting.{feeder_over, at_rest, FeederStands, FeederKept};
    ghost use Rattle.psr_base.specs.Told.{Told};

    /// Takes all space, for blocks of `block` bytes. Transfer k begins with file `starts[k]`; all files together may
    /// have at most `max_bytes` data bytes.
    pub fn reserve(
        alloc: Global,
        names: &'a [String],
        starts: &'a [u32],
        block: u32,
        max_bytes: u64,
    ) -> Result<FeederSpace<'a>, Memory>
        requires files { length names.now ≤ 65535 }
        requires transfers { length starts.now ≤ 8 }
        requires begin { AreStarts starts.now (length names.now) }
        requires block { (1 ≤ block) × (block ≤ 2 ^ 24) }
        requires limit { max_bytes ≤ 2 ^ 48 }
        ensures { IfOk result (λ space.
            IsSpaceFor space (map string_bytes names.now) starts.now block max_bytes) }
    {
        let stream = Stream::open(alloc, names, starts, block as usize, max_bytes)?;
        Ok(FeederSpace { stream })
    }

    /// A law: the plan of the feeder at rest, if its space was taken for these files and nothing was read. It does
    /// nothing when it runs.
    pub fn rests(&self)
        ensures { (names : List (List ℕ)) (starts : List ℕ) (size max_bytes : ℕ)
            → IsSpaceFor self.now names starts size max_bytes
            → HasPlan (at_rest self.now) names starts size max_bytes
            × IsFresh (at_rest self.now) }
    {
        let _ = &self.stream;
    }

    /// Opens the first file of each transfer in order and reads its header, from inputs that are lent for this call, as
    /// `Feeder::begin` does.
    pub fn begin<I: Inputs>(&mut self, inputs: &mut I) -> Result<(), FeedFault>
        requires fresh { IsFresh (at_rest self.old) }
        ensures plan { SamePlan (at_rest self.old) (at_rest self.new) }
        ensures begun { OnOk result (IsBegun (I.told inputs.new) (at_rest self.new)) }
        ensures open { OnOk result (HasOpenFile (at_rest self.new) → I.is_open inputs.new) }
        ensures reads { OnOk result (ReadsFirstHeaders (I.told inputs.old) (at_rest self.old)
            (I.told inputs.new) (at_rest self.new)) }
        ensures broke { result ≡ Err FeedFault.ReadFault → BreaksFirstHeaders (I.told inputs.old)
            (I.is_calm inputs.old) (at_rest self.old) (I.told inputs.new) }
        ensures refused { IfErr result (RefusesAt (I.told inputs.old) (at_rest self.old)) }
        ensures inputs { HasReadFrom I.told I.is_calm I.faults (result ≡ Err FeedFault.ReadFault)
            inputs.old inputs.new }
        ensures serves { I.is_calm inputs.old
            → HoldsAll (I.told inputs.old) (names_at (at_rest self.old))
            → result ≢ Err FeedFault.ReadFault }
    {
        self.stream.begin(inputs)
    }

    /// The first header of a transfer.
    pub fn header(&self, transfer: usize) -> &Header
        requires { transfer < length (headers_of (at_rest self.now)) }
        ensures { slice_get (headers_of (at_rest self.now)) transfer ≡ Some result.now }
    {
        self.stream.header_of(transfer)
    }

    /// Keeps the observation of a transfer's first header, as `Feeder::accept` does. It needs no inputs.
    pub fn accept(&mut self, transfer: usize, observation: &Observation)
        requires there { transfer < length (headers_of (at_rest self.old)) }
        requires begun { (told : Told) × IsBegun told (at_rest self.old) }
        requires accepted { (header : _) → slice_get (headers_of (at_rest self.old)) transfer
            ≡ Some header → observation_of (fields_of header.text) ≡ Ok observation.now }
        ensures kept { KeepsBegun (at_rest self.old) (at_rest self.new) }
        ensures feeds { (told : Told) → IsBegun told (at_rest self.old)
            → AllAccepted (at_rest self.new) → FeederFeeds told (at_rest self.new)
            (header_entries (take 1 (headers_of (at_rest self.new)))) [] }
        ensures accepts { AcceptsAt (at_rest self.old) transfer (at_rest self.new) }
    {
        first_files_continue();
        data_grow();
        data_none();
        self.stream.accept(transfer, observation);
    }

    /// Takes a turn of the feeder at rest, from inputs that are lent for this call, as `Feeder::turn` does. The inputs
    /// must be as the feeder left them.
    pub fn turn<I: Inputs>(&mut self, inputs: &mut I, hdu: &Hdu, pass: &mut HduWriter) -> FeedTurn
        requires ring { WritesBoth hdu.now pass.old }
        requires running { has_end (feeder_over inputs.old self.old) ≡ None }
        requires stands { FeederStands I.told I.is_open hdu.now (feeder_over inputs.old self.old)
            pass.old }
        ensures ring { WritesBoth hdu.now pass.new }
        ensures stands { FeederStands I.told I.is_open hdu.now (feeder_over inputs.new self.new)
            pass.new }
        ensures kept { FeederKept I.told I.is_calm I.faults (feeder_over inputs.old self.old)
            (feeder_over inputs.new self.new) }
        ensures answer { TurnAnswers pass.old pass.new
            (has_end (feeder_over inputs.new self.new)) result }
    {
        self.stream.turn(inputs, hdu, pass)
    }
}

/// Inputs that were borrowed, and the space of a feeder that read from them: what a feeder was made of.
#[derive(Drop)]
pub struct Lent<'a, I, S> {
    /// The inputs.
    pub inputs: &'a mut I,
    /// The space of the feeder, as it stopped.
    pub space: S,
}

/// Reads the files of one or more transfers from borrowed inputs, and seals their headers and their data.
///
/// It is opened over its space, begun, and given the observation of each transfer's first header; then it takes turns
/// until it ends. None of these calls takes memory.
#[derive(Drop)]
pub struct Feeder<'a, I> {
    inputs: &'a mut I,
    stream: Stream<'a>,
}

impl<'a, I: Inputs> Feeder<'a, I> {
    ghost use Rattle.disk_feeder.specs.Feeder.{stream_at, HasPlan, SamePlan, IsSpaceFor, IsFresh, IsBegun, ReadsFirstHeaders, BreaksFirstHeaders, HasOpenFile, has_end, FeederFeeds, FeederFaultless, headers_of, KeepsBegun, AcceptsAt, AllAccepted, names_at, FeederBegins, RefusesAt, IsCutTo, block_size};
    ghost use Rattle.disk_feeder.specs.Feeding.{header_entries, HeadersKeepUp};
    ghost use Rattle.disk_feeder.specs.Resting.{stream_in, FeederStands, FeederKept};
    ghost use Rattle.disk_feeder.specs.Handing.{FeederHands, handed_entry, block_of};
    ghost use Rattle.psr_base.specs.Told.{Told};
    ghost use Rattle.ring_blocks.specs.declared.Entry.{Entry};

    /// The feeder of a space, over borrowed inputs. Nothing is read.
    pub fn over(inputs: &'a mut I, space: FeederSpace<'a>) -> Feeder<'a, I>
        ensures inputs { result.inputs.now ≡ inputs.old }
        ensures same_reference { result.inputs.ghost_name ≡ inputs.entry.ghost_name }
        ensures opened { (names : List (List ℕ)) (starts : List ℕ) (size max_bytes : ℕ)
            → IsSpaceFor space.entry names starts size max_bytes
            → HasPlan result names starts size max_bytes × IsFresh result }
        ensures stream { stream_at result ≡ stream_in space.entry }
    {
        let FeederSpace { stream } = space;
        Feeder { inputs, stream }
    }

    /// Opens the first file of each transfer in order and reads its header.
    pub fn begin(&mut self) -> Result<(), FeedFault>
        requires fresh { IsFresh self.old }
        ensures same_reference { self.new.inputs.ghost_name ≡ self.old.inputs.ghost_name }
        ensures plan { SamePlan self.old self.new }
        ensures begun { OnOk result (IsBegun (I.told self.new.inputs.now) self.new) }
        ensures open { OnOk result (HasOpenFile self.new → I.is_open self.new.inputs.now) }
        ensures reads { OnOk result (ReadsFirstHeaders (I.told self.old.inputs.now) self.old
            (I.told self.new.inputs.now) self.new) }
        ensures broke { result ≡ Err FeedFault.ReadFault → BreaksFirstHeaders
            (I.told self.old.inputs.now) (I.is_calm self.old.inputs.now) self.old
            (I.told self.new.inputs.now) }
        ensures refused { IfErr result (RefusesAt (I.told self.old.inputs.now) self.old) }
        ensures inputs { HasReadFrom I.told I.is_calm I.faults (result ≡ Err FeedFault.ReadFault)
            self.old.inputs.now self.new.inputs.now }
        ensures serves { I.is_calm self.old.inputs.now
            → HoldsAll (I.told self.old.inputs.now) (names_at self.old)
            → result ≢ Err FeedFault.ReadFault }
    {
        self.stream.begin(self.inputs)
    }

    /// The first header of a transfer.
    pub fn header(&self, transfer: usize) -> &Header
        requires { transfer < length (headers_of self.now) }
        ensures { slice_get (headers_of self.now) transfer ≡ Some result.now }
    {
        self.stream.header_of(transfer)
    }

    /// Makes the blocks of a feeder that has begun shorter, to `block` bytes. Nothing is read, and what was read and
    /// accepted stays.
    pub fn cut_blocks(&mut self, block: u32)
        requires begun { (told : Told) × IsBegun told self.old }
        requires block { (1 ≤ block) × (block ≤ block_size self.old) }
        ensures same_reference { self.new.inputs.ghost_name ≡ self.old.inputs.ghost_name }
        ensures inputs { self.new.inputs.now ≡ self.old.inputs.now }
        ensures plan { (names : List (List ℕ)) (starts : List ℕ) (size max_bytes : ℕ)
            → HasPlan self.old names starts size max_bytes
            → HasPlan self.new names starts block max_bytes }
        ensures cut { IsCutTo block self.old self.new }
    {
        self.stream.cut_blocks(block as usize);
    }

    /// Keeps the observation of a transfer's first header: the headers of its files are judged by it.
    pub fn accept(&mut self, transfer: usize, observation: &Observation)
        requires there { transfer < length (headers_of self.old) }
        requires begun { IsBegun (I.told self.old.inputs.now) self.old }
        requires accepted { (header : _) → slice_get (headers_of self.old) transfer ≡ Some header
            → observation_of (fields_of header.text) ≡ Ok observation.now }
        ensures same_reference { self.new.inputs.ghost_name ≡ self.old.inputs.ghost_name }
        ensures inputs { self.new.inputs.now ≡ self.old.inputs.now }
        ensures kept { KeepsBegun self.old self.new }
        ensures feeds { AllAccepted self.new → FeederFeeds (I.told self.new.inputs.now) self.new
            (header_entries (take 1 (headers_of self.new))) [] }
        ensures begun { IsBegun (I.told self.new.inputs.now) self.new }
        ensures accepts { AcceptsAt self.old transfer self.new }
    {
        first_files_continue();
        data_grow();
        data_none();
        self.stream.accept(transfer, observation);
    }

    /// Reads until a block is full, the transfer's data end or the stream stops, and seals the block; or seals the
    /// header of a further transfer. If the ring is full, the block is tried again in the next turn.
    pub fn turn(&mut self, hdu: &Hdu, pass: &mut HduWriter) -> FeedTurn
        requires ring { WritesBoth hdu.now pass.old }
        requires running { has_end self.old ≡ None }
        requires stands { FeederStands I.told I.is_open hdu.now self.old pass.old }
        ensures ring { WritesBoth hdu.now pass.new }
        ensures same_reference { self.new.inputs.ghost_name ≡ self.old.inputs.ghost_name }
        ensures stands { FeederStands I.told I.is_open hdu.now self.new pass.new }
        ensures kept { FeederKept I.told I.is_calm I.faults self.old self.new }
        ensures begins { has_end self.new ≡ None → FeederBegins (I.told self.new.inputs.now)
            self.new (sealed_blocks pass.new) }
        ensures headers { HeadersKeepUp (headers_of self.new) (sealed_headers pass.new)
            (sealed_blocks pass.new) }
        ensures answer { TurnAnswers pass.old pass.new (has_end self.new) result }
    {
        feeders_begin::<I>();
        headers_are_first::<I>();
        self.stream.turn(self.inputs, hdu, pass)
    }

    /// Reads until a block is full, the transfer's data end or the stream stops, and hands the block out without a
    /// ring. `block` has its bytes.
    pub fn next(&mut self) -> Handed
        requires running { has_end self.old ≡ None }
        requires file { HasOpenFile self.old → I.is_open self.old.inputs.now }
        requires stands { (blocks : List Entry)
            × FeederHands (I.told self.old.inputs.now) self.old blocks }
        ensures same_reference { self.new.inputs.ghost_name ≡ self.old.inputs.ghost_name }
        ensures file { HasOpenFile self.new → I.is_open self.new.inputs.now }
        ensures hands { (blocks : List Entry)
            → FeederHands (I.told self.old.inputs.now) self.old blocks
            → FeederHands (I.told self.new.inputs.now) self.new
            (blocks ++ handed_entry result (block_of self.new) ∷ []) }
        ensures within { result.used ≤ length (block_of self.new) }
        ensures kept { FeederKept I.told I.is_calm I.faults self.old self.new }
        ensures end { result.end ≡ has_end self.new }
        ensures idle { has_end self.new ≡ None → FeederFaultless self.new }
    {
        self.stream.next(self.inputs)
    }

    /// The space of the block that was handed out last. It begins with the block's bytes.
    pub fn block(&self) -> &[u8]
        ensures { result.now ≡ block_of self.now }
    {
        self.stream.block()
    }

    /// Gives the inputs and the space back. The feeder can go on from there.
    pub fn part(self) -> Lent<'a, I, FeederSpace<'a>>
        ensures inputs { result.inputs.now ≡ self.entry.inputs.now }
        ensures same_reference { result.inputs.ghost_name ≡ self.entry.inputs.ghost_name }
        ensures stream { stream_in result.space ≡ stream_at self.entry }
    {
        let Feeder { inputs, stream } = self;
        Lent {
            inputs,
            space: FeederSpace { stream },
        }
    }

    /// Gives the inputs back.
    pub fn close(self) -> &'a mut I
        ensures inputs { result.now ≡ self.entry.inputs.now }
        ensures same_reference { result.ghost_name ≡ self.entry.inputs.ghost_name }
    {
        let Feeder { inputs, stream: _ } = self;
        inputs
    }
}
