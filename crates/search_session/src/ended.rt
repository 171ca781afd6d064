//! The end of a session.
ghost use Rattle.std.specs.Prelude.{◌≡◌, ◌++◌, ◌<◌, ℕ, IsSome, Some, None, length, option_map, slice_get};
ghost use Rattle.std.specs.Borrow.{MutBor};
ghost use Rattle.dada_hdu.specs.Passes.{WritesBoth};
ghost use Rattle.disk_feeder.specs.Turns.{sealed_headers};
ghost use Rattle.session_readers.specs.declared.shard.ShardActor.{ShardActor as Shard};
ghost use Rattle.session_readers.specs.declared.record.RecordActor.{RecordActor as Recording};
ghost use Rattle.search_session.specs.Books.{AreCounted};
ghost use Rattle.search_session.specs.Ends.{AreDone, as_passes};
ghost use Rattle.search_session.specs.Recorded.{HasNoRecording};
ghost use Rattle.search_session.specs.Sessions.{IsEndOfFeeder, IsEndOf, IsEndOfRecorder};

use crate::books::{books_of, part_shards, spectra_of};
use crate::feed::FeedActor;
use arrayvec::ArrayVec;
use candidate_book::Book;
use dada_hdu::{Hdu, HduEnded, HduFinished, order_is_enough};
use dada_recorder::RecordEnd;
use disk_feeder::FeedEnd;
use psr_base::{Files, Inputs};
use ring_ends::Finished;
use ring_words::MOST_READERS;
use search_model::{MOST_SHARDS, MOST_TRANSFERS};
use session_readers::{RecordActor, ShardActor};

/// How a session ended. The inputs and the recorder's files come back.
#[derive(Drop)]
pub struct SessionEnd<'a, I, F> {
    /// How the feeder ended.
    pub feed: FeedEnd,
    /// The books, by transfer and then by shard. Each slot is `Some`.
    pub books: ArrayVec<ArrayVec<Option<Book>, MOST_SHARDS>, MOST_TRANSFERS>,
    /// How many spectra of each transfer were searched, if there is a shard.
    pub spectra: ArrayVec<u64, MOST_TRANSFERS>,
    /// How the recorder ended, if there is one.
    pub recorded: Option<RecordEnd>,
    /// What went through the data ring.
    pub blocks: Finished,
    /// The inputs.
    pub inputs: &'a mut I,
    /// The recorder's files, if there is a recorder.
    pub files: Option<&'a mut F>,
}

// The parts of a recorder that ended, if there is one.
struct RecorderParts<'a, F> {
    pass: Option<HduEnded>,
    end: Option<RecordEnd>,
    files: Option<&'a mut F>,
}

// Takes a recorder apart, and gives its files back.
fn part_recorder<'a, F: Files>(recorder: Option<RecordActor<'a, F>>) -> RecorderParts<'a, F>
    ensures pass { result.pass ≡ option_map (λ x. x.pass) recorder.entry }
    ensures none { recorder.entry ≡ None → (result.end ≡ None) × (result.files ≡ None) }
    ensures some { (x : Recording F) → recorder.entry ≡ Some x → (result.end ≡ x.end)
        × ((files : MutBor F) × (result.files ≡ Some files)
        × (files.now ≡ x.part.files.now) × (files.ghost_name ≡ x.part.files.ghost_name)) }
{
    match recorder {
        Some(actor) => {
            let RecordActor {
                part,
                pass,
                turns: _,
                end,
            } = actor;
            RecorderParts {
                pass: Some(pass),
                end,
                files: Some(part.close()),
            }
        }
        None => RecorderParts {
            pass: None,
            end: None,
            files: None,
        },
    }
}

// The passes, and one more after them, if there is one.
fn with_pass(
    mut passes: ArrayVec<Option<HduEnded>, MOST_READERS>,
    last: Option<HduEnded>,
) -> ArrayVec<Option<HduEnded>, MOST_READERS>
    requires { length passes.items < 8 }
    ensures { result.items ≡ passes.items ++ as_passes last }
{
    if let Some(pass) = last {
        passes.push(Some(pass));
    }
    passes
}

// Ends the rings, takes the books out of the engines, and gives back the inputs and the files.
pub(crate) fn finish<'a, I: Inputs, F: Files>(
    hdu: Hdu,
    feeder: FeedActor<'a, I>,
    shards: ArrayVec<Option<ShardActor>, MOST_SHARDS>,
    recorder: Option<RecordActor<'a, F>>,
) -> SessionEnd<'a, I, F>
    requires writer { WritesBoth hdu feeder.pass }
    requires ended { IsSome feeder.end }
    requires done { (transfers : ℕ) × AreDone hdu transfers shards.items recorder }
    ensures feeder { IsEndOfFeeder result feeder.entry }
    ensures shards { (s : ℕ) (x : Shard) → slice_get shards.items s ≡ Some (Some x)
        → IsEndOf result s x }
    ensures counted { (transfers : ℕ) → AreDone hdu transfers shards.items recorder.entry
        → AreCounted (length shards.items) transfers result.books.items result.spectra.items }
    ensures recorder { (x : Recording F) → recorder.entry ≡ Some x
        → IsEndOfRecorder result (length shards.items) (sealed_headers feeder.entry.pass) x }
    ensures no_recorder { recorder.entry ≡ None → HasNoRecording result }
{
    order_is_enough();
    let FeedActor {
        part,
        pass,
        turns: _,
        end,
    } = feeder;
    let Some(feed) = end else { unreachable!() };
    let RecorderParts {
        pass: last,
        end: recorded,
        files,
    } = part_recorder(recorder);
    let (passes, banks) = part_shards(shards);
    let HduFinished { header: _, blocks } = hdu.finish(pass, with_pass(passes, last));
    let spectra = spectra_of(banks.as_slice());
    let books = books_of(banks);
    SessionEnd {
        feed,
        books,
        spectra,
        recorded,
        blocks,
        inputs: part.close(),
        files,
    }
}
