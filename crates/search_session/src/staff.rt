//! The actors of a session come to their hands.
ghost use Rattle.std.specs.Prelude.{◌≡◌, ℕ, ◌+◌, ◌*◌, ◌%◌, ◌<◌, ◌≤◌, All, IfSome, IsSomeAnd, length, drop, vec_len};
ghost use Rattle.dada_hdu.specs.Passes.{data_shape};
ghost use Rattle.search_engine.specs.Engine.{most_fed};
ghost use Rattle.session_readers.specs.Shards.{ShardOn};
ghost use Rattle.search_session.specs.Hands.{HandOn};
ghost use Rattle.session_readers.specs.Records.{RecordOn};
ghost use Rattle.search_session.specs.Stages.{IsUnread, IsUnfed, IsEmptyHand, IsFreshRecorder, IsShardOf, IsRecorderOf, IsFirstReader, TakesShard, TakesFeeder, TakesRecorder, PartsOn, AreStaffed, StageOn, HasFeeder, HasShard, RecorderPlaced, RecorderWorks, AreOfBanks, feeder_of};

use crate::feed::FeedActor;
use crate::hand::Hand;
use crate::stage::Stage;
use arrayvec::ArrayVec;
use dada_hdu::{Hdu, HduEnded, HduReader};
use dada_recorder::Recorder;
use psr_base::{Files, Inputs};
use ring_words::MOST_READERS;
use search_model::MOST_SHARDS;
use session_readers::{Bank, RecordActor, ShardActor};
use std::mem;

// The shard of a bank before its first turn.
pub(crate) fn shard_of(
    hdu: &Hdu,
    bank: Bank,
    reader: HduReader,
    space: Vec<u8>,
    number: u32,
) -> ShardActor
    requires few { (data_shape hdu.now).max_blocks * (data_shape hdu.now).size ≤ most_fed }
    requires reader { IsUnread hdu.now number reader }
    requires bank { (transfers : _) × (0 < transfers) × IsUnfed transfers bank }
    requires space { 65537 ≤ vec_len space }
    ensures on { ShardOn hdu.now result }
    ensures new { IsShardOf bank number result }
{
    ShardActor {
        part: bank,
        pass: HduEnded::Here(reader),
        space,
        turns: 0,
        done: 0,
        ended: false,
    }
}

// The recorder before its first turn.
fn recorder_of<'a, F: Files>(
    hdu: &Hdu,
    part: Recorder<'a, F>,
    reader: HduReader,
    number: u32,
) -> RecordActor<'a, F>
    requires part { IsFreshRecorder F.is_open hdu.now part }
    requires reader { IsUnread hdu.now number reader }
    ensures on { RecordOn F.is_open hdu.now result }
    ensures new { IsRecorderOf part.entry number result }
{
    RecordActor {
        part,
        pass: HduEnded::Here(reader),
        turns: 0,
        end: None,
    }
}

// Puts the feeder into its hand, the first.
fn place_feeder<'a, I, F>(hands: &mut [Hand<'a, I, F>], feeder: FeedActor<'a, I>)
    requires { 0 < length hands.old }
    ensures { TakesFeeder hands.old feeder.entry hands.new }
{
    let _none = mem::replace(&mut hands[0].feeder, Some(feeder));
}

// Puts a shard into its hand.
fn place_shard<I, F>(hands: &mut [Hand<'_, I, F>], actor: usize, shard: ShardActor)
    requires some { 0 < length hands.old }
    requires room { All (λ h. length h.shards.items < 7) hands.old }
    ensures { TakesShard hands.old (actor % length hands.old) shard hands.new }
{
    let place = actor % hands.len();
    hands[place].shards.push(Some(shard));
}

// Puts the recorder into its hand.
fn place_recorder<'a, I, F>(hands: &mut [Hand<'a, I, F>], recorder: RecordActor<'a, F>)
    requires { 0 < length hands.old }
    ensures { TakesRecorder hands.old (8 % length hands.old) recorder.entry hands.new }
{
    let place = 8 % hands.len();
    let _none = mem::replace(&mut hands[place].recorder, Some(recorder));
}

// Puts the recorder, if there is one, into its hand, with the first of these readers.
fn place_any_recorder<'a, I, F: Files>(
    hdu: &Hdu,
    hands: &mut [Hand<'a, I, F>],
    recorder: Option<Recorder<'a, F>>,
    mut readers: ArrayVec<Option<HduReader>, MOST_READERS>,
    number: u32,
)
    requires recorder { IfSome recorder (IsFreshRecorder F.is_open hdu.now) }
    requires reader { IfSome recorder (λ _. IsFirstReader hdu.now number readers.items) }
    requires some { 0 < length hands.old }
    ensures { RecorderPlaced F.is_open hdu.now recorder.entry number hands.old hands.new }
{
    let Some(part) = recorder else { return };
    let Some(reader) = readers.remove(0) else {
        unreachable!()
    };
    place_recorder(hands, recorder_of(hdu, part, reader, number));
}

// Puts the shards into their hands, in order. The readers that are left are those of no shard.
fn place_shards<I: Inputs, F: Files>(
    hdu: &Hdu,
    hands: &mut [Hand<'_, I, F>],
    mut banks: ArrayVec<Option<Bank>, MOST_SHARDS>,
    readers: &mut ArrayVec<Option<HduReader>, MOST_READERS>,
    mut spaces: ArrayVec<Option<Vec<u8>>, MOST_SHARDS>,
)
    requires few { (data_shape hdu.now).max_blocks * (data_shape hdu.now).size ≤ most_fed }
    requires parts { (transfers : _) × PartsOn hdu.now transfers banks.items readers.old.items }
    requires count { length banks.items ≤ length readers.old.items }
    requires spaces_count { length spaces.items ≡ length banks.items }
    requires spaces { All (λ slot. IsSomeAnd slot (λ space. 65537 ≤ vec_len space)) spaces.items }
    requires some { 0 < length hands.old }
    requires empty { All IsEmptyHand hands.old }
    ensures staffed { AreStaffed I.told I.is_open F.is_open hdu.now banks.items
        (length banks.items) (length hands.old) hands.new }
    ensures readers { readers.new.items ≡ drop (length banks.items) readers.old.items }
{
    for s in 0..banks.len() {
        let Some(bank) = banks.remove(0) else {
            unreachable!()
        };
        let Some(reader) = readers.remove(0) else {
            unreachable!()
        };
        let Some(space) = spaces.remove(0) else {
            unreachable!()
        };
        place_shard(hands, s + 1, shard_of(hdu, bank, reader, space, s as u32));
    }
}

/// Puts all actors into their hands.
pub(crate) fn staff<'a, I: Inputs, F: Files>(stage: Stage<'a, I, F>) -> (Hdu, Vec<Hand<'a, I, F>>)
    requires { StageOn I.told I.is_open F.is_open stage }
    ensures hdu { result.0 ≡ stage.entry.hdu }
    ensures on { All (HandOn I.told I.is_open F.is_open result.0) result.1.items }
    ensures some { 0 < length result.1.items }
    ensures feeder { HasFeeder I.told I.is_calm I.faults (feeder_of stage.entry) result.1.items }
    ensures shards { (s : ℕ) → s < length stage.entry.banks.items → HasShard result.1.items s }
    ensures banks { AreOfBanks stage.entry.banks.items result.1.items }
    ensures recorder { RecorderWorks F.seen stage.entry.recorder
        (length stage.entry.banks.items) result.1.items }
{
    let Stage {
        feeder,
        banks,
        recorder,
        hdu,
        writer,
        mut readers,
        spaces,
        mut hands,
    } = stage;
    let number = banks.len() as u32;
    place_shards(&hdu, hands.as_mut_slice(), banks, &mut readers, spaces);
    place_any_recorder(&hdu, hands.as_mut_slice(), recorder, readers, number);
    place_feeder(
        hands.as_mut_slice(),
        FeedActor {
            part: feeder,
            pass: writer,
            turns: 0,
            end: None,
        },
    );
    (hdu, hands)
}
