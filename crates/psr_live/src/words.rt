// The words of a search that prints its parts while the data come.
ghost use Rattle.std.specs.Prelude.{◌≡◌, ◌%◌, ◌<◌, ◌≤◌, true, false, length, map, string_bytes, IfSome, IfNone, IfOk, IfErr};
ghost use Rattle.search_words.specs.Settings.{AllInRange, settings_seen};
ghost use Rattle.warm_restart.specs.Counts.{greatest_count};
ghost use Rattle.run_outcome.specs.Lone.{SayAlone, ExplainsAlone};
ghost use Rattle.live_search.specs.Live.{IsEvery};
ghost use Rattle.psr_live.specs.Words.{every_in, has_form, live_alone};

use drive_lone::settings_after;
use live_search::STEP;
use psr_part::is_unfolded;
use search_words::{Settings, WordFault};
use std::alloc::Global;
use warm_restart::until_of_word;

/// What the words say: how many spectra a part has, and the settings of the search.
#[derive(Drop)]
pub(crate) struct LiveWords {
    pub(crate) every: u64,
    pub(crate) settings: Settings,
}

// How many spectra a part has, by words of their form.
fn every_said(words: &[String]) -> Option<u64>
    ensures form { IfSome result (λ every. has_form (map string_bytes words.now) ≡ true) }
    ensures there { IfSome result (λ every. 2 < length words.now) }
    ensures every { IfSome result (λ every. every_in (map string_bytes words.now) ≡ every) }
    ensures is { IfSome result IsEvery }
    ensures none { IfNone result (has_form (map string_bytes words.now) ≡ false) }
{
    if words.len() < 3 {
        return None;
    }
    match until_of_word(words[1].as_str()) {
        Some(every) => whole_steps(every),
        None => None,
    }
}

// A number of spectra, if it is a number of steps.
fn whole_steps(every: u64) -> Option<u64>
    requires range { (1 ≤ every) × (every ≤ greatest_count) }
    ensures some { IfSome result (λ n. (n ≡ every) × (every % 512 ≡ 0)) }
    ensures is { IfSome result IsEvery }
    ensures none { IfNone result (every % 512 ≡ 0 → ⊥) }
{
    if every % u64::from(STEP) == 0 {
        Some(every)
    } else {
        None
    }
}

/// What the words say: EVERY and its form are judged first, and last that nothing is folded.
pub(crate) fn live_words(alloc: Global, words: &[String]) -> Result<LiveWords, WordFault>
    ensures there { IfOk result (λ said. 2 < length words.now) }
    ensures every { IfOk result (λ said. every_in (map string_bytes words.now) ≡ said.every) }
    ensures is { IfOk result (λ said. IsEvery said.every) }
    ensures unfolded { IfOk result (λ said.
        said.settings.search.fold_max < said.settings.search.fold_min) }
    ensures in_range { IfOk result (λ said. AllInRange (settings_seen said.settings)) }
    ensures says { IfOk result (λ said. SayAlone live_alone (map string_bytes words.now)
        (settings_seen said.settings)) }
    ensures fault { IfErr result (ExplainsAlone live_alone (map string_bytes words.now)) }
{
    let Some(every) = every_said(words) else {
        return Err(WordFault::Refused);
    };
    match settings_after(alloc, words, 2) {
        Ok(settings) => {
            if is_unfolded(&settings.search) {
                Ok(LiveWords { every, settings })
            } else {
                Err(WordFault::Refused)
            }
        }
        Err(fault) => Err(fault),
    }
}
