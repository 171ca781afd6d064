// The arguments of a search of a part.
ghost use Rattle.std.specs.Prelude.{◌≡◌, ◌<◌, ◌≤◌, true, false, Some, length, map, string_bytes, IfSome, IfNone, IfOk, IfErr};
ghost use Rattle.search_words.specs.Settings.{AllInRange, settings_seen};
ghost use Rattle.warm_restart.specs.declared.checkpoint.Checkpoint.{Checkpoint};
ghost use Rattle.warm_restart.specs.Counts.{greatest_count, until_of};
ghost use Rattle.run_outcome.specs.Lone.{SayAlone, ExplainsAlone};
ghost use Rattle.psr_part.specs.Part.{until_word, check_word, has_form, part_search};

use drive_lone::settings_after;
use search_model::Search;
use search_words::{Settings, WordFault};
use std::alloc::Global;
use warm_restart::until_of_word;

/// What the arguments give: the spectrum before which the part stops, and the settings of its search.
#[derive(Drop)]
pub(crate) struct PartWords {
    pub(crate) until: u64,
    pub(crate) settings: Settings,
}

// The spectrum before which a part stops, if the argument UNTIL has its form.
fn until_said(words: &[String]) -> Option<u64>
    ensures form { IfSome result (λ until. has_form (map string_bytes words.now) ≡ true) }
    ensures there { IfSome result (λ until. 2 < length words.now) }
    ensures until { IfSome result (λ until.
        until_of (until_word (map string_bytes words.now)) ≡ Some until) }
    ensures bound { IfSome result (λ until. until ≤ greatest_count) }
    ensures none { IfNone result (has_form (map string_bytes words.now) ≡ false) }
{
    if words.len() < 3 {
        return None;
    }
    until_of_word(words[1].as_str())
}

/// Whether nothing is folded.
pub fn is_unfolded(search: &Search) -> bool
    ensures unfolded { result ≡ true → search.now.fold_max < search.now.fold_min }
    ensures folded { result ≡ false → search.now.fold_min ≤ search.now.fold_max }
{
    search.fold_max < search.fold_min
}

/// The argument CHECK.
pub fn check_of(words: &[String]) -> &str
    requires { 2 < length words.now }
    ensures { result.now ≡ check_word (map string_bytes words.now) }
{
    words[2].as_str()
}

/// What the arguments of a search of a part give. The form of UNTIL is judged first, and last that nothing is folded.
pub(crate) fn part_words(alloc: Global, words: &[String]) -> Result<PartWords, WordFault>
    ensures there { IfOk result (λ said. 2 < length words.now) }
    ensures until { IfOk result (λ said.
        until_of (until_word (map string_bytes words.now)) ≡ Some said.until) }
    ensures bound { IfOk result (λ said. said.until ≤ greatest_count) }
    ensures unfolded { IfOk result (λ said.
        said.settings.search.fold_max < said.settings.search.fold_min) }
    ensures in_range { IfOk result (λ said. AllInRange (settings_seen said.settings)) }
    ensures says { IfOk result (λ said. (from : Checkpoint)
        → SayAlone (part_search (map string_bytes words.now) from) (map string_bytes words.now)
        (settings_seen said.settings)) }
    ensures fault { IfErr result (λ fault. (from : Checkpoint)
        → ExplainsAlone (part_search (map string_bytes words.now) from)
        (map string_bytes words.now) fault) }
{
    let Some(until) = until_said(words) else {
        return Err(WordFault::Refused);
    };
    match settings_after(alloc, words, 2) {
        Ok(settings) => {
            if is_unfolded(&settings.search) {
                Ok(PartWords { until, settings })
            } else {
                Err(WordFault::Refused)
            }
        }
        Err(fault) => Err(fault),
    }
}
