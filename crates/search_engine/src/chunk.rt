// How many spectra are searched at a time.
ghost use Rattle.std.specs.Prelude.{◌≡◌, ◌≤◌};
ghost use Rattle.search_model.specs.Search.{SettingsInRange};
ghost use Rattle.search_engine.specs.Engine.{chunk_of as chunk_of_search};

use search_model::Search;

/// The maximum number of spectra that are searched at a time. A block of 524288 bytes has 512, 256 or 128 spectra of
/// 1024, 2048 or 4096 channels of 8 bits, so a chunk of 512 spectra ends where a block does. This is tuning; no clause
/// asks for this number.
pub const MOST_CHUNK: u32 = 512;

/// How many spectra of a search are searched at a time.
pub(crate) fn chunk_of(search: &Search) -> u32
    requires { SettingsInRange search.now }
    ensures value { result ≡ chunk_of_search search.now }
    ensures some { 1 ≤ result }
    ensures short { result ≤ search.now.chunk }
{
    search.chunk.min(MOST_CHUNK)
}
