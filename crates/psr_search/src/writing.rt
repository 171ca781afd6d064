// The text of what was found.
ghost use Rattle.std.specs.Prelude.{◌≡◌, ◌≢◌, ◌<◌, ◌^◌, ℕ, List, Some, None, IfSome, map};
ghost use Rattle.search_model.specs.Search.{SettingsInRange};
ghost use Rattle.transfer_text.specs.Searched.{ObservedTransfer, candidate_total};
ghost use Rattle.transfer_text.specs.Found.{HoldTransfers};
ghost use Rattle.disk_feeder.specs.declared.answers.FeedEnd.TheVariants.{Whole, ReadFault};
ghost use Rattle.dada_recorder.specs.declared.answers.RecordEnd.TheVariants.{FileFault};
ghost use Rattle.run_outcome.specs.Conversions.{stop_of_feed};
ghost use Rattle.psr_search.specs.Ends.{EndsSearch, EndsFed};

use drive_session::Found;
use psr_base::Sink;
use run_outcome::Stop;
use search_model::Search;
use transfer_text::{TextStop, write_found};

// Writes the text of all data.
fn write_text<K: Sink>(search: &Search, found: &Found, out: &mut K) -> Option<Stop>
    requires range { SettingsInRange search.now }
    requires found { (transfers : List ObservedTransfer)
        × HoldTransfers search.now transfers found.now.observations.items
        (map (λ row. row.items) found.now.books.items) found.now.spectra.items
        × (candidate_total search.now transfers < 2 ^ 64) }
    ensures ended { (transfers : List ObservedTransfer) → HoldTransfers search.now transfers
        found.now.observations.items (map (λ row. row.items) found.now.books.items)
        found.now.spectra.items → EndsSearch search.now transfers found.now.recorded
        (K.seen out.old) (K.seen out.new) result }
    ensures no_read_fault { result ≢ Some Stop.ReadFault }
    ensures quiet { result ≡ None → found.now.recorded ≢ Some FileFault }
{
    match write_found(
        search,
        found.observations.as_slice(),
        found.books.as_slice(),
        found.spectra.as_slice(),
        out,
    ) {
        Ok(()) => Stop::of_recorder(found.recorded),
        Err(TextStop::TooMany { count, limit }) => Some(Stop::TooMany { count, limit }),
        Err(TextStop::SinkFault) => Some(Stop::SinkFault),
    }
}

/// Writes the text of what was found, if all data were searched, and answers how the search ended.
pub(crate) fn write_end<K: Sink>(search: &Search, found: &Found, out: &mut K) -> Option<Stop>
    requires range { SettingsInRange search.now }
    requires found { (bytes : ℕ) → found.now.feed ≡ Whole bytes
        → (transfers : List ObservedTransfer)
        × HoldTransfers search.now transfers found.now.observations.items
        (map (λ row. row.items) found.now.books.items) found.now.spectra.items
        × (candidate_total search.now transfers < 2 ^ 64) }
    ensures stopped { IfSome (stop_of_feed found.now.feed) (λ fed. (result ≡ Some fed)
        × (K.seen out.new ≡ K.seen out.old)) }
    ensures read_fault { result ≡ Some Stop.ReadFault → found.now.feed ≡ ReadFault }
    ensures quiet { result ≡ None → found.now.recorded ≢ Some FileFault }
    ensures ended { (transfers : List ObservedTransfer) → HoldTransfers search.now transfers
        found.now.observations.items (map (λ row. row.items) found.now.books.items)
        found.now.spectra.items → EndsFed (stop_of_feed found.now.feed) search.now transfers
        found.now.recorded (K.seen out.old) (K.seen out.new) result }
{
    match Stop::of_feed(found.feed) {
        Some(stop) => Some(stop),
        None => write_text(search, found, out),
    }
}
