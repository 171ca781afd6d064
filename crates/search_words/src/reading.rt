// Reading the settings from the arguments.
ghost use Rattle.std.specs.Prelude.{◌≡◌, ◌≢◌, codes, map, string_bytes, Err, IfOk, IfErr, None, true, false};
ghost use Rattle.std.specs.Option.{option_map_or};
ghost use Rattle.std.specs.Str.{bytes_eq};
ghost use Rattle.clap.specs.Words.{found_of, rows_of};
ghost use Rattle.search_words.specs.Command.{IsSimpleLine};
ghost use Rattle.search_words.specs.Values.{first_out_of_range as first_out_of_range_of, files_of};
ghost use Rattle.search_words.specs.Transfers.{files_fit, file_names, starts_in};
ghost use Rattle.search_words.specs.Settings.{AllInRange, RunInRange, settings_seen, run_seen, search_of, no_search, settings_of, is_recording as is_recording_of, SaySettings, SaySearch, SayRecord, ExplainsWords, ExplainsSearch, ExplainsRecord};
ghost use Rattle.search_words.specs.Command.{matches_on};
ghost use Rattle.search_words.specs.declared.table.Program.TheVariants.{PsrSearch, PsrRecord};

use crate::command::matches_of;
use crate::fault::WordFault;
use crate::opt::Opt;
use crate::settings::{RunSettings, Settings};
use crate::table::Program;
use crate::transfers::part;
use crate::values::{files, first_out_of_range, number, small_number, text};
use clap::ArgMatches;
use search_model::Search;
use std::alloc::{AllocError, Global};
// Laws: they do nothing when they run, and the proofs use what they ensure.
use option_rows::{none_fails, values_are_allowed};

// The settings of the search.
fn search(matches: &ArgMatches<'_>) -> Search
    ensures { result ≡ search_of (rows_of (found_of matches.now)) }
{
    let program = Program::PsrSearch;
    Search {
        min_delay: small_number(program, matches, Opt::MinDelay),
        max_delay: small_number(program, matches, Opt::MaxDelay),
        widest: small_number(program, matches, Opt::Widths),
        fold_min: small_number(program, matches, Opt::FoldMin),
        fold_max: small_number(program, matches, Opt::FoldMax),
        fold_rows: small_number(program, matches, Opt::FoldRows),
        fold_step: small_number(program, matches, Opt::FoldStep),
        chunk: small_number(program, matches, Opt::Chunk),
        shards: small_number(program, matches, Opt::Shards),
        max_candidates: small_number(program, matches, Opt::MaxCandidates),
        mean: small_number(program, matches, Opt::Mean),
        sd: small_number(program, matches, Opt::Sd),
        snr: small_number(program, matches, Opt::Snr),
    }
}

// Whether the text that clap found under a flag says that the flag was given.
fn is_true(text: Option<&str>) -> bool
    ensures { result ≡ option_map_or (λ word. bytes_eq word.now (codes "true")) text.entry false }
{
    match text {
        Some(text) => text == "true",
        None => false,
    }
}

// Whether the data are recorded.
fn is_recording(program: Program, matches: &ArgMatches<'_>) -> bool
    ensures { result ≡ is_recording_of program (rows_of (found_of matches.now)) }
{
    match program {
        Program::PsrSearch => is_true(text(matches, "record")),
        Program::PsrRecord => true,
    }
}

// The names of the files, and how many of them stand before each transfer.
fn parts(alloc: Global, matches: &ArgMatches<'_>) -> Result<(Vec<String>, Vec<u32>), AllocError>
    requires { files_fit (files_of (rows_of (found_of matches.now))) ≡ true }
    ensures { IfOk result (λ parts.
        (map string_bytes parts.0.items ≡ file_names (files_of (rows_of (found_of matches.now))))
        × (parts.1.items ≡ starts_in (files_of (rows_of (found_of matches.now))))) }
{
    match files(matches) {
        Some(files) => part(alloc, files),
        None => part(alloc, &[]),
    }
}

// The settings of a run, if each value is in its range.
fn run_settings(
    alloc: Global,
    program: Program,
    matches: &ArgMatches<'_>,
) -> Result<RunSettings, AllocError>
    requires { first_out_of_range_of program (rows_of (found_of matches.now)) ≡ None }
    ensures { IfOk result (λ s.
        run_seen s ≡ settings_of no_search program (rows_of (found_of matches.now))) }
{
    none_fails::<Opt>();
    let (names, starts) = parts(alloc, matches)?;
    Ok(RunSettings {
        buffers: small_number(program, matches, Opt::Buffers),
        size: small_number(program, matches, Opt::Size),
        hands: small_number(program, matches, Opt::Hands),
        turns: small_number(program, matches, Opt::Turns),
        recording: is_recording(program, matches),
        file_size: number(program, matches, Opt::FileSize),
        max_bytes: number(program, matches, Opt::MaxBytes),
        names,
        starts,
    })
}

// What clap finds in the arguments `words` of a program, and the settings of a run that they give.
fn read<'a>(
    alloc: Global,
    program: Program,
    words: &'a [String],
) -> Result<(ArgMatches<'a>, RunSettings), WordFault>
    ensures says { IfOk result (λ read.
        SaySettings no_search program (map string_bytes words.now) (run_seen read.1)) }
    ensures found { IfOk result (λ read.
        rows_of (found_of read.0) ≡ matches_on program (map string_bytes words.now)) }
    ensures in_range { IfOk result (λ read. RunInRange (run_seen read.1)) }
    ensures fault { IfErr result (ExplainsWords program (map string_bytes words.now)) }
    ensures simple { IsSimpleLine program (map string_bytes words.now)
        → result ≢ Err WordFault.Refused }
{
    none_fails::<Opt>();
    values_are_allowed();
    let matches = match matches_of(alloc, program, words) {
        Ok(matches) => matches,
        Err(fault) => return Err(fault),
    };
    match first_out_of_range(program, &matches) {
        Some(opt) => Err(WordFault::OutOfRange(opt)),
        None => match run_settings(alloc, program, &matches) {
            Ok(settings) => Ok((matches, settings)),
            Err(_) => Err(WordFault::Memory),
        },
    }
}

/// The settings that the arguments of `psr_search` give. The first of `words` is the program's name.
pub(crate) fn read_search(alloc: Global, words: &[String]) -> Result<Settings, WordFault>
    ensures says { IfOk result (λ s. SaySearch (map string_bytes words.now) (settings_seen s)) }
    ensures in_range { IfOk result (λ s. AllInRange (settings_seen s)) }
    ensures fault { IfErr result (ExplainsSearch (map string_bytes words.now)) }
    ensures simple { IsSimpleLine PsrSearch (map string_bytes words.now)
        → result ≢ Err WordFault.Refused }
{
    none_fails::<Opt>();
    values_are_allowed();
    match read(alloc, Program::PsrSearch, words) {
        Ok((matches, run)) => Ok(Settings {
            search: search(&matches),
            run,
        }),
        Err(fault) => Err(fault),
    }
}

/// The settings that the arguments of `psr_record` give. The first of `words` is the program's name.
pub(crate) fn read_record(alloc: Global, words: &[String]) -> Result<RunSettings, WordFault>
    ensures says { IfOk result (λ s. SayRecord (map string_bytes words.now) (run_seen s)) }
    ensures in_range { IfOk result (λ s. RunInRange (run_seen s)) }
    ensures fault { IfErr result (ExplainsRecord (map string_bytes words.now)) }
    ensures simple { IsSimpleLine PsrRecord (map string_bytes words.now)
        → result ≢ Err WordFault.Refused }
{
    match read(alloc, Program::PsrRecord, words) {
        Ok((_matches, run)) => Ok(run),
        Err(fault) => Err(fault),
    }
}
