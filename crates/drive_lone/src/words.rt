// The arguments of a program that searches one transfer.
ghost use Rattle.std.specs.Prelude.{◌≡◌, true, false, drop, map, string_bytes, IfOk, IfErr};
ghost use Rattle.search_words.specs.Settings.{AllInRange, settings_seen};
ghost use Rattle.run_outcome.specs.Lone.{IsOfOne, IsOfOther, SayOneSearch, ExplainsOneSearch};

use search_words::{Settings, WordFault};
use std::alloc::Global;

// The words from `before` on.
fn words_after(words: &[String], before: usize) -> &[String]
    ensures { map string_bytes result.now ≡ drop before (map string_bytes words.now) }
{
    &words[before.min(words.len())..]
}

// Whether the settings are those of one transfer that is not recorded.
fn is_of_one(settings: &Settings) -> bool
    ensures one { result ≡ true → IsOfOne (settings_seen settings.now) }
    ensures other { result ≡ false → IsOfOther (settings_seen settings.now) }
{
    if settings.run.recording {
        return false;
    }
    settings.run.starts.len() == 1
}

/// Reads search settings from `words[before..]`, whose first word takes the place of a program's name and is ignored.
/// Refuses several transfers and `--record`, after all other refusals.
pub fn settings_after(alloc: Global, words: &[String], before: usize) -> Result<Settings, WordFault>
    ensures says { IfOk result (λ s.
        SayOneSearch before (map string_bytes words.now) (settings_seen s)) }
    ensures in_range { IfOk result (λ s. AllInRange (settings_seen s)) }
    ensures fault { IfErr result (ExplainsOneSearch before (map string_bytes words.now)) }
{
    match Settings::of(alloc, words_after(words, before)) {
        Ok(settings) => {
            if is_of_one(&settings) {
                Ok(settings)
            } else {
                Err(WordFault::Refused)
            }
        }
        Err(fault) => Err(fault),
    }
}
