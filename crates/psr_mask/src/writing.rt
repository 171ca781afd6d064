// The text of what was found.
ghost use Rattle.std.specs.Prelude.{◌≡◌, ◌≢◌, ℕ, Bool, List, Some, IfSome};
ghost use Rattle.disk_feeder.specs.declared.answers.FeedEnd.TheVariants.{Whole, ReadFault};
ghost use Rattle.run_outcome.specs.Conversions.{stop_of_feed};
ghost use Rattle.channel_mask.specs.Masked.{HasFoundKept};
ghost use Rattle.psr_mask.specs.Ends.{HoldsKept, EndsFed, EndsMasked};

use candidate_book::SinkStop;
use channel_mask::{MaskEngine, write_masked};
use disk_feeder::FeedEnd;
use obs_plan::Observation;
use psr_base::Sink;
use run_outcome::Stop;
use search_engine::Engine;
use search_model::Search;

// Writes the text of all data.
fn write_text<K: Sink>(
    search: &Search,
    observation: &Observation,
    engine: &MaskEngine,
    out: &mut K,
) -> Option<Stop>
    requires { (mask : List Bool) × (bytes : List ℕ)
        × HasFoundKept observation.now search.now mask bytes engine.now }
    ensures ended { (mask : List Bool) (bytes : List ℕ)
        → HasFoundKept observation.now search.now mask bytes engine.now
        → EndsMasked observation.now search.now mask bytes (K.seen out.old) (K.seen out.new)
        result }
    ensures no_read_fault { result ≢ Some Stop.ReadFault }
{
    let count = engine.book().count();
    if count > u64::from(search.max_candidates) {
        return Some(Stop::TooMany {
            count,
            limit: search.max_candidates,
        });
    }
    match write_masked(engine, observation, out) {
        Ok(_totals) => None,
        Err(SinkStop::Fault) => Some(Stop::SinkFault),
    }
}

/// Writes the text of what was found, if all data were searched, and answers how the search ended.
pub(crate) fn write_end<K: Sink>(
    search: &Search,
    feed: FeedEnd,
    observation: &Observation,
    engine: Engine,
    out: &mut K,
) -> Option<Stop>
    requires { (count : ℕ) → feed ≡ Whole count → (mask : List Bool) × (bytes : List ℕ)
        × HoldsKept observation.now search.now mask bytes engine }
    ensures stopped { IfSome (stop_of_feed feed) (λ fed. (result ≡ Some fed)
        × (K.seen out.new ≡ K.seen out.old)) }
    ensures read_fault { result ≡ Some Stop.ReadFault → feed ≡ ReadFault }
    ensures ended { (mask : List Bool) (bytes : List ℕ)
        → HoldsKept observation.now search.now mask bytes engine
        → EndsFed (stop_of_feed feed) observation.now search.now mask bytes (K.seen out.old)
        (K.seen out.new) result }
{
    match Stop::of_feed(feed) {
        Some(stop) => Some(stop),
        None => write_text(search, observation, &MaskEngine::of_engine(engine), out),
    }
}
