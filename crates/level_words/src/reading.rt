// Reading the settings from the arguments.
ghost use Rattle.std.specs.Prelude.{◌≡◌, [], ◌∷◌, map, string_bytes, IfOk, IfErr, None};
ghost use Rattle.clap.specs.Walk.{texts};
ghost use Rattle.clap.specs.Words.{found_of, rows_of};
ghost use Rattle.level_words.specs.Values.{files_of, mask_text as mask_text_of};
ghost use Rattle.level_words.specs.Settings.{LevelInRange, level_seen, options_of as options_of_found, run_of, settings_of, ExplainsLevel, SayLevel};
ghost use Rattle.search_words.specs.Settings.{run_seen};

use crate::command::matches_of;
use crate::fault::LevelFault;
use crate::opt::{Flag, Opt};
use crate::settings::{LevelOptions, LevelSettings};
use crate::values::{files, first_out_of_range, given, has, number, small_number, text};
use clap::ArgMatches;
use search_words::RunSettings;
use std::alloc::{AllocError, Global};
// Laws: they do nothing when they run, and the proofs use what they ensure.
use option_rows::{none_fails, values_are_allowed};

// The settings of the levelling.
fn options_of(matches: &ArgMatches<'_>) -> LevelOptions
    ensures { result ≡ options_of_found (rows_of (found_of matches.now)) }
{
    LevelOptions {
        spectra: small_number(matches, Opt::Spectra),
        average: small_number(matches, Opt::Average),
        clip: given(matches, Opt::Clip),
        zero_dm: has(matches, Flag::ZeroDm),
        mean: given(matches, Opt::Mean),
        deviation: given(matches, Opt::Deviation),
        most: given(matches, Opt::Most),
        is_fast: has(matches, Flag::Fast),
        signed: has(matches, Flag::Signed),
        high_byte_first: has(matches, Flag::HighByteFirst),
    }
}

// The text that was given as the mask.
fn mask_text(alloc: Global, matches: &ArgMatches<'_>) -> Result<String, AllocError>
    ensures { IfOk result (λ mask.
        string_bytes mask ≡ mask_text_of (rows_of (found_of matches.now))) }
{
    match text(matches, Opt::Mask.name()) {
        Some(text) => String::from_str(alloc, text),
        None => String::from_str(alloc, "none"),
    }
}

// A copy of each name.
fn copies(alloc: Global, files: &[&str]) -> Result<Vec<String>, AllocError>
    ensures { IfOk result (λ names. map string_bytes names.items ≡ texts files.now) }
{
    let mut names = Vec::new(alloc);
    for word in files {
        names.push(String::from_str(alloc, word)?)?;
    }
    Ok(names)
}

// The names of the files.
fn names_of(alloc: Global, matches: &ArgMatches<'_>) -> Result<Vec<String>, AllocError>
    ensures { IfOk result (λ names.
        map string_bytes names.items ≡ files_of (rows_of (found_of matches.now))) }
{
    match files(matches) {
        Some(files) => copies(alloc, files),
        None => Ok(Vec::new(alloc)),
    }
}

// The starts of a single transfer, which begins with the first file.
fn one_start(alloc: Global) -> Result<Vec<u32>, AllocError>
    ensures { IfOk result (λ starts. starts.items ≡ 0 ∷ []) }
{
    let mut starts = Vec::new(alloc);
    starts.push(0)?;
    Ok(starts)
}

// The settings of the run that reads the files.
fn run_settings(alloc: Global, matches: &ArgMatches<'_>) -> Result<RunSettings, AllocError>
    ensures { IfOk result (λ s. run_seen s ≡ run_of (rows_of (found_of matches.now))) }
{
    let names = names_of(alloc, matches)?;
    let starts = one_start(alloc)?;
    Ok(RunSettings {
        buffers: 2,
        size: 65536,
        hands: 1,
        turns: 1,
        recording: false,
        file_size: 1,
        max_bytes: number(matches, Opt::MaxBytes),
        names,
        starts,
    })
}

// All settings.
fn settings(alloc: Global, matches: &ArgMatches<'_>) -> Result<LevelSettings, AllocError>
    ensures { IfOk result (λ s. level_seen s ≡ settings_of (rows_of (found_of matches.now))) }
{
    let mask = mask_text(alloc, matches)?;
    let run = run_settings(alloc, matches)?;
    Ok(LevelSettings {
        options: options_of(matches),
        mask,
        run,
    })
}

/// The settings that the arguments `words` give. The first of them is the program's name.
pub(crate) fn read(alloc: Global, words: &[String]) -> Result<LevelSettings, LevelFault>
    ensures says { IfOk result (λ s. SayLevel (map string_bytes words.now) (level_seen s)) }
    ensures in_range { IfOk result (λ s. LevelInRange (level_seen s)) }
    ensures fault { IfErr result (ExplainsLevel (map string_bytes words.now)) }
{
    none_fails::<Opt>();
    values_are_allowed();
    let matches = match matches_of(alloc, words) {
        Ok(matches) => matches,
        Err(fault) => return Err(fault),
    };
    match first_out_of_range(&matches) {
        Some(opt) => Err(LevelFault::OutOfRange(opt)),
        None => match settings(alloc, &matches) {
            Ok(settings) => Ok(settings),
            Err(_) => Err(LevelFault::Memory),
        },
    }
}
