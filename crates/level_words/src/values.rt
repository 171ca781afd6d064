// The values of the options.
ghost use Rattle.std.specs.Prelude.{◌≡◌, ◌<◌, ◌^◌, ◌&&◌, nat_le, length, option_map, codes, true, false};
ghost use Rattle.std.specs.Option.{option_map_or};
ghost use Rattle.std.specs.Str.{bytes_eq};
ghost use Rattle.clap.specs.Words.{found_of, rows_of, first_of};
ghost use Rattle.clap.specs.Walk.{texts, all_of};
ghost use Rattle.option_rows.specs.Rows.{greatest_of};
ghost use Rattle.level_words.specs.Table.{option_name, option_row};
ghost use Rattle.level_words.specs.Values.{option_value, option_number, given_number, is_given, is_in_range as is_in_range_of, first_out_of_range as first_out_of_range_of};

use crate::opt::{Flag, OPTIONS, Opt};
use clap::ArgMatches;

/// The first text that clap found under a name.
pub(crate) fn text<'a>(matches: &ArgMatches<'a>, name: &str) -> Option<&'a str>
    ensures { option_map (λ text. text.now) result
        ≡ first_of name.now (rows_of (found_of matches.now)) }
{
    matches.get_str(name)
}

// The value of an option, or `None` if it is out of its range.
fn value(matches: &ArgMatches<'_>, opt: Opt) -> Option<u64>
    ensures { result ≡ option_value (rows_of (found_of matches.now)) opt }
{
    opt.row().value_of(text(matches, opt.name()))
}

/// The value of an option, or 0 if it is out of its range.
pub(crate) fn number(matches: &ArgMatches<'_>, opt: Opt) -> u64
    ensures { result ≡ option_number (rows_of (found_of matches.now)) opt }
{
    value(matches, opt).unwrap_or(0)
}

/// The value of an option as a number of 32 bits, or 0 if it is out of its range.
pub(crate) fn small_number(matches: &ArgMatches<'_>, opt: Opt) -> u32
    requires { greatest_of (option_row opt).limits < 2 ^ 32 }
    ensures { result ≡ option_number (rows_of (found_of matches.now)) opt }
{
    number(matches, opt) as u32
}

/// The value of an option, or `None` if the option wasn't given.
pub(crate) fn given(matches: &ArgMatches<'_>, opt: Opt) -> Option<u32>
    requires { greatest_of (option_row opt).limits < 2 ^ 32 }
    ensures { result ≡ given_number (rows_of (found_of matches.now)) opt }
{
    match text(matches, opt.name()) {
        Some(_text) => Some(small_number(matches, opt)),
        None => None,
    }
}

// Whether the text that clap found under a flag says that the flag was given.
fn is_true(text: Option<&str>) -> bool
    ensures { result ≡ option_map_or (λ word. bytes_eq word.now (codes "true")) text.entry false }
{
    match text {
        Some(text) => text == "true",
        None => false,
    }
}

/// Whether a flag was given.
pub(crate) fn has(matches: &ArgMatches<'_>, flag: Flag) -> bool
    ensures { result ≡ is_given (rows_of (found_of matches.now)) flag }
{
    is_true(text(matches, flag.name()))
}

/// The names of the files, or `None` if there are none.
pub(crate) fn files<'m, 'a>(matches: &'m ArgMatches<'a>) -> Option<&'m [&'a str]>
    ensures { option_map (λ files. texts files.now) result
        ≡ all_of (option_name Opt.File) (rows_of (found_of matches.now)) }
{
    matches.get_raw(Opt::File.name())
}

// Whether there are no more names than allowed.
fn are_few(files: Option<&[&str]>) -> bool
    ensures { result ≡ option_map_or (λ files. nat_le 1 (length files.now)
        && nat_le (length files.now) 65535) files.entry false }
{
    match files {
        Some(files) => 1 <= files.len() && files.len() <= 65535,
        None => false,
    }
}

// Whether the value of an option is in its range.
fn is_in_range(matches: &ArgMatches<'_>, opt: Opt) -> bool
    ensures { result ≡ is_in_range_of (rows_of (found_of matches.now)) opt }
{
    match opt {
        Opt::Mask => true,
        Opt::File => are_few(files(matches)),
        _ => value(matches, opt).is_some(),
    }
}

/// The first option, in the table's order, whose value is out of its range.
pub(crate) fn first_out_of_range(matches: &ArgMatches<'_>) -> Option<Opt>
    ensures { result ≡ first_out_of_range_of (rows_of (found_of matches.now)) }
{
    OPTIONS
        .iter()
        .copied()
        .find(|opt| !is_in_range(matches, *opt))
}
