//! Blocks that are handed out one by one, in place of being sealed in a ring.
ghost use Rattle.std.specs.Prelude.{◌≡◌, ◌≤◌, ◌++◌, [], ◌∷◌, true, false, length, List, None, Some};
ghost use Rattle.psr_base.specs.Told.{Told};
ghost use Rattle.ring_blocks.specs.declared.Entry.{Entry};

use crate::answers::{FeedEnd, Handed};
use crate::due::Due;
use crate::stream::Stream;
use dada_hdu::Mark;
use psr_base::Inputs;
// Laws: they do nothing when they run, and the proofs use what they ensure.
use stream_model::{no_stop_is_whole, streams_grow};

impl<'a> Stream<'a> {
    ghost use Rattle.disk_feeder.specs.Streams.{IsFilling, HoldsLast, StreamRead};
    ghost use Rattle.disk_feeder.specs.Feeding.{KeepsPlan, AfterSeal, KeepsInputs};
    ghost use Rattle.disk_feeder.specs.Handing.{Hands, IsHanding, handed_entry};

    // Passes over the header of another transfer.
    fn pass_header(&mut self)
        requires running { self.old.end ≡ None }
        ensures source { self.new.source ≡ self.old.source }
        ensures block { self.new.block ≡ self.old.block }
        ensures held { self.new.held ≡ self.old.held }
        ensures due { self.new.due ≡ self.old.due }
        ensures header_due { self.new.header_due ≡ false }
        ensures end { self.new.end ≡ self.old.end }
        ensures after { AfterSeal self.old self.new }
        ensures hands { (told : Told) (blocks : List Entry) → IsHanding self.old told blocks
            → IsHanding self.new told blocks }
        ensures reads_on { (before told : Told) → StreamRead before told self.old
            → StreamRead before told self.new }
    {
        self.header_due = false;
    }

    // Hands out the full block.
    fn hand_full(&mut self) -> Handed
        requires due { self.old.due ≡ Some Due.Full }
        requires running { self.old.end ≡ None }
        ensures after { AfterSeal self.old self.new }
        ensures within { result.used ≤ length self.new.block.items }
        ensures end { result.end ≡ self.new.end }
        ensures idle { self.new.end ≡ None → self.new.due ≡ None }
        ensures hands { Hands self.old self.new result }
        ensures reads_on { (before told : Told) → StreamRead before told self.old
            → StreamRead before told self.new }
    {
        let used = self.block.len();
        self.empty();
        Handed {
            mark: Mark::More,
            used,
            end: None,
        }
    }

    // Hands out the rest of a transfer's data.
    fn hand_last(&mut self) -> Handed
        requires due { self.old.due ≡ Some Due.Last }
        requires filling { IsFilling self.old }
        requires last { HoldsLast self.old }
        ensures after { AfterSeal self.old self.new }
        ensures within { result.used ≤ length self.new.block.items }
        ensures end { result.end ≡ self.new.end }
        ensures idle { self.new.end ≡ None → self.new.due ≡ None }
        ensures hands { Hands self.old self.new result }
        ensures reads_on { (before told : Told) → StreamRead before told self.old
            → StreamRead before told self.new }
    {
        streams_grow();
        no_stop_is_whole();
        let used = self.held;
        self.source.next_transfer();
        self.empty();
        self.after_transfer();
        Handed {
            mark: Mark::End,
            used,
            end: self.end,
        }
    }

    // Hands out that the stream ends early.
    fn hand_cut(&mut self, end: FeedEnd) -> Handed
        requires due { self.old.due ≡ Some (Due.Stopped end) }
        requires running { self.old.end ≡ None }
        requires header { self.old.header_due ≡ false }
        ensures after { AfterSeal self.old self.new }
        ensures within { result.used ≤ length self.new.block.items }
        ensures end { result.end ≡ self.new.end }
        ensures idle { self.new.end ≡ None → self.new.due ≡ None }
        ensures hands { Hands self.old self.new result }
        ensures reads_on { (before told : Told) → StreamRead before told self.old
            → StreamRead before told self.new }
    {
        self.end = Some(end);
        Handed {
            mark: Mark::Cut,
            used: 0,
            end: Some(end),
        }
    }

    // Hands out what is due.
    fn hand(&mut self, due: Due) -> Handed
        requires due { self.old.due ≡ Some due }
        requires filling { IsFilling self.old }
        requires last { due ≡ Due.Last → HoldsLast self.old }
        ensures after { AfterSeal self.old self.new }
        ensures within { result.used ≤ length self.new.block.items }
        ensures end { result.end ≡ self.new.end }
        ensures idle { self.new.end ≡ None → self.new.due ≡ None }
        ensures hands { Hands self.old self.new result }
        ensures reads_on { (before told : Told) → StreamRead before told self.old
            → StreamRead before told self.new }
    {
        match due {
            Due::Full => self.hand_full(),
            Due::Last => self.hand_last(),
            Due::Stopped(end) => self.hand_cut(end),
        }
    }

    /// Fills a block and hands it out. The headers of further transfers are passed over.
    pub(crate) fn next<I: Inputs>(&mut self, inputs: &mut I) -> Handed
        requires running { self.old.end ≡ None }
        requires is_open { self.old.source.place.is_open ≡ true → I.is_open inputs.old }
        requires stands { (blocks : List Entry) × IsHanding self.old (I.told inputs.old) blocks }
        ensures kept { KeepsPlan self.old self.new }
        ensures is_open { self.new.source.place.is_open ≡ true → I.is_open inputs.new }
        ensures within { result.used ≤ length self.new.block.items }
        ensures end { result.end ≡ self.new.end }
        ensures idle { self.new.end ≡ None → self.new.due ≡ None }
        ensures hands { (blocks : List Entry) → IsHanding self.old (I.told inputs.old) blocks
            → IsHanding self.new (I.told inputs.new)
            (blocks ++ handed_entry result self.new.block.items ∷ []) }
        ensures reads_on { (before : Told) → StreamRead before (I.told inputs.old) self.old
            → StreamRead before (I.told inputs.new) self.new }
        ensures inputs { KeepsInputs I.told I.is_calm I.faults self.old self.new inputs.old
            inputs.new }
    {
        self.pass_header();
        let due = self.fill(inputs);
        self.hand(due)
    }

    /// The space of the block that was handed out last.
    pub(crate) fn block(&self) -> &[u8]
        ensures { result.now ≡ self.now.block.items }
    {
        self.block.as_slice()
    }
}
