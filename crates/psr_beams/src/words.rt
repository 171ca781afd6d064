// The arguments of a search of several beams.
ghost use Rattle.std.specs.Prelude.{◌≡◌, ◌≤◌, Some, map, string_bytes, length, IfOk, IfErr};
ghost use Rattle.search_words.specs.Settings.{AllInRange, settings_seen};
ghost use Rattle.run_outcome.specs.Lone.{ExplainsAlone};
ghost use Rattle.psr_beams.specs.Words.{number_between, word_at, within_of, more_of, is_beam_count as is_beam_count_of, beam_search, SayBeams};

use dada_model::whole_number;
use drive_lone::settings_after;
use search_words::{Settings, WordFault};
use std::alloc::Global;

/// What the arguments give: the settings of a search, whose names are the beams; the largest difference, in spectra,
/// between the ends of pulses that are near each other; and the largest number of beams of a pulse that is not marked.
#[derive(Drop)]
pub(crate) struct BeamWords {
    pub(crate) settings: Settings,
    pub(crate) within: u32,
    pub(crate) more: u32,
}

// The number that a text of 1 to 5 digits gives, if it lies from `least` to `most`.
fn number(word: &str, least: u32, most: u32) -> Option<u32>
    requires { most ≤ 65536 }
    ensures { result ≡ number_between least most word.now }
{
    match whole_number(word, 5) {
        Some(number) if u64::from(least) <= number && number <= u64::from(most) => {
            Some(number as u32)
        }
        _ => None,
    }
}

// The number that the word at `place` gives, if it lies from `least` to `most`.
fn number_at(words: &[String], place: usize, least: u32, most: u32) -> Option<u32>
    requires { most ≤ 65536 }
    ensures { result ≡ number_between least most (word_at (map string_bytes words.now) place) }
{
    if place < words.len() {
        number(words[place].as_str(), least, most)
    } else {
        number("", least, most)
    }
}

// Whether a search can have this number of beams.
fn is_beam_count(settings: &Settings) -> bool
    ensures { result ≡ is_beam_count_of (length (settings_seen settings.now).names) }
{
    2 <= settings.run.names.len() && settings.run.names.len() <= 7
}

/// What the arguments give, or why they are refused.
pub(crate) fn read_words(alloc: Global, words: &[String]) -> Result<BeamWords, WordFault>
    ensures says { IfOk result (λ r.
        SayBeams (map string_bytes words.now) (settings_seen r.settings)) }
    ensures in_range { IfOk result (λ r. AllInRange (settings_seen r.settings)) }
    ensures within { IfOk result (λ r. within_of (map string_bytes words.now) ≡ Some r.within) }
    ensures more { IfOk result (λ r. more_of (map string_bytes words.now) ≡ Some r.more) }
    ensures fault { IfErr result (ExplainsAlone beam_search (map string_bytes words.now)) }
{
    let Some(within) = number_at(words, 1, 0, 65536) else {
        return Err(WordFault::Refused);
    };
    let Some(more) = number_at(words, 2, 1, 6) else {
        return Err(WordFault::Refused);
    };
    match settings_after(alloc, words, 2) {
        Ok(settings) => {
            if is_beam_count(&settings) {
                Ok(BeamWords {
                    settings,
                    within,
                    more,
                })
            } else {
                Err(WordFault::Refused)
            }
        }
        Err(fault) => Err(fault),
    }
}
