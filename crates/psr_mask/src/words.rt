// The arguments of a search without masked channels.
ghost use Rattle.std.specs.Prelude.{◌≡◌, ◌≤◌, map, string_bytes, length, IfOk, IfErr, OnOk};
ghost use Rattle.search_words.specs.Settings.{AllInRange, settings_seen};
ghost use Rattle.run_outcome.specs.Lone.{SayAlone, ExplainsAlone};
ghost use Rattle.psr_mask.specs.Masking.{mask_search, mask_word as mask_word_of};

use crate::masking::MaskWord;
use drive_lone::settings_after;
use search_words::{Settings, WordFault};
use std::alloc::Global;

/// The settings of the search that the arguments give. The first argument is the mask text: it takes the place of
/// another program's name, and is not read here.
pub(crate) fn settings_of(alloc: Global, words: &[String]) -> Result<Settings, WordFault>
    ensures says { IfOk result (λ s.
        SayAlone (mask_search (map string_bytes words.now)) (map string_bytes words.now)
        (settings_seen s)) }
    ensures in_range { IfOk result (λ s. AllInRange (settings_seen s)) }
    ensures long { OnOk result (2 ≤ length words.now) }
    ensures fault { IfErr result (ExplainsAlone (mask_search (map string_bytes words.now))
        (map string_bytes words.now)) }
{
    if words.len() < 2 {
        return Err(WordFault::Refused);
    }
    match settings_after(alloc, words, 1) {
        Ok(settings) => Ok(settings),
        Err(fault) => Err(fault),
    }
}

/// The mask text among the arguments.
pub(crate) fn mask_word(words: &[String]) -> MaskWord<'_>
    requires { 2 ≤ length words.now }
    ensures { result.text.now ≡ mask_word_of (map string_bytes words.now) }
{
    MaskWord {
        text: words[1].as_bytes(),
    }
}
