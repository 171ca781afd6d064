// The text of what was found.
ghost use Rattle.std.specs.Prelude.{◌≡◌, ◌≢◌, ℕ, ◌<◌, List, Some, IfSome};
ghost use Rattle.disk_feeder.specs.declared.answers.FeedEnd.TheVariants.{Whole, ReadFault};
ghost use Rattle.warm_restart.specs.Warm.{HasFound, SearchedPart};
ghost use Rattle.run_outcome.specs.Conversions.{stop_of_feed};
ghost use Rattle.psr_part.specs.declared.stop.PartStop.TheVariants.{Run};
ghost use Rattle.psr_part.specs.Ends.{EndsText, EndsFed};

use crate::stop::{CheckpointRefusal, PartStop};
use disk_feeder::FeedEnd;
use drive_lone::LoneFound;
use obs_plan::Observation;
use psr_base::Sink;
use ring_ends::Finished;
use run_outcome::Stop;
use search_model::Search;
use warm_restart::{Checkpoint, Warm};

/// How a search of a part ended: its stop, or none if it went to its end; and what went through its data ring, if there
/// was one.
#[derive(Drop)]
pub(crate) struct Ended {
    pub(crate) stop: Option<PartStop>,
    pub(crate) blocks: Option<Finished>,
}

// Writes the text of a part that is found, which begins at spectrum `place` and keeps at most `limit` pulses.
fn write_text<K: Sink>(
    warm: &Warm,
    observation: &Observation,
    place: u64,
    limit: u32,
    out: &mut K,
) -> Option<PartStop>
    requires found { (bytes : List ℕ) × HasFound observation.now bytes warm.now }
    requires place { place ≡ warm.now.checkpoint.place }
    requires limit { limit ≡ warm.now.search.max_candidates }
    ensures ended { let w = warm.now in (bytes : List ℕ) → HasFound observation.now bytes w
        → EndsText observation.now w.search w.checkpoint w.until bytes (K.seen out.old)
        (K.seen out.new) result }
    ensures no_read_fault { result ≢ Some (Run Stop.ReadFault) }
    ensures no_memory { result ≢ Some (Run Stop.Memory) }
{
    let spectra = warm.spectra();
    if spectra < place {
        return Some(PartStop::Refused(CheckpointRefusal::Beyond { place, spectra }));
    }
    let count = warm.book().count();
    if u64::from(limit) < count {
        return Some(PartStop::Run(Stop::TooMany { count, limit }));
    }
    match warm.write(observation, out) {
        Ok(()) => None,
        Err(_) => Some(PartStop::Run(Stop::SinkFault)),
    }
}

// Writes the text of a part if all data were searched; otherwise answers what stopped the feeder.
fn write_end<K: Sink>(
    warm: &Warm,
    observation: &Observation,
    place: u64,
    limit: u32,
    feed: FeedEnd,
    out: &mut K,
) -> Option<PartStop>
    requires found { (count : ℕ) → feed ≡ Whole count
        → (bytes : List ℕ) × HasFound observation.now bytes warm.now }
    requires place { place ≡ warm.now.checkpoint.place }
    requires limit { limit ≡ warm.now.search.max_candidates }
    ensures stopped { IfSome (stop_of_feed feed) (λ fed. (result ≡ Some (Run fed))
        × (K.seen out.new ≡ K.seen out.old)) }
    ensures read_fault { result ≡ Some (Run Stop.ReadFault) → feed ≡ ReadFault }
    ensures no_memory { result ≢ Some (Run Stop.Memory) }
    ensures ended { let w = warm.now in (bytes : List ℕ) → HasFound observation.now bytes w
        → EndsFed (stop_of_feed feed) observation.now w.search w.checkpoint w.until bytes
        (K.seen out.old) (K.seen out.new) result }
{
    match Stop::of_feed(feed) {
        Some(stop) => Some(PartStop::Run(stop)),
        None => write_text(warm, observation, place, limit, out),
    }
}

/// Writes the text of the part that begins at a checkpoint and stops before spectrum `until`, if all data were
/// searched, and answers how the search ended.
pub(crate) fn finish<K: Sink>(
    search: &Search,
    checkpoint: Checkpoint,
    until: u64,
    found: LoneFound,
    out: &mut K,
) -> Ended
    requires found { (count : ℕ) → found.feed ≡ Whole count → (bytes : List ℕ)
        × SearchedPart found.observation search.now checkpoint until bytes found.engine }
    ensures blocks { result.blocks ≡ Some found.blocks }
    ensures stopped { IfSome (stop_of_feed found.feed) (λ fed. (result.stop ≡ Some (Run fed))
        × (K.seen out.new ≡ K.seen out.old)) }
    ensures read_fault { result.stop ≡ Some (Run Stop.ReadFault) → found.feed ≡ ReadFault }
    ensures no_memory { result.stop ≢ Some (Run Stop.Memory) }
    ensures ended { (bytes : List ℕ)
        → SearchedPart found.observation search.now checkpoint until bytes found.engine
        → EndsFed (stop_of_feed found.feed) found.observation search.now checkpoint until bytes
        (K.seen out.old) (K.seen out.new) result.stop }
{
    let LoneFound {
        feed,
        observation,
        engine,
        blocks,
    } = found;
    let warm = Warm::of_engine(search, checkpoint, until, engine);
    let stop = write_end(
        &warm,
        &observation,
        checkpoint.place,
        search.max_candidates,
        feed,
        out,
    );
    Ended {
        stop,
        blocks: Some(blocks),
    }
}
