// The values of the options.
ghost use Rattle.std.specs.Prelude.{◌≡◌, ◌<◌, ◌^◌, option_map};
ghost use Rattle.clap.specs.Words.{found_of, rows_of, first_of};
ghost use Rattle.clap.specs.Walk.{texts, all_of};
ghost use Rattle.option_rows.specs.Rows.{greatest_of};
ghost use Rattle.search_words.specs.Table.{option_name, option_row};
ghost use Rattle.search_words.specs.Values.{given_word, option_value, option_number, is_in_range as is_in_range_of, first_out_of_range as first_out_of_range_of};

use crate::opt::Opt;
use crate::table::{OPTIONS, Program};
use crate::transfers::files_fit;
use clap::ArgMatches;

/// The first text that clap found under a name.
pub(crate) fn text<'a>(matches: &ArgMatches<'a>, name: &str) -> Option<&'a str>
    ensures { option_map (λ text. text.now) result
        ≡ first_of name.now (rows_of (found_of matches.now)) }
{
    matches.get_str(name)
}

// The text that was given for an option.
fn given<'a>(program: Program, matches: &ArgMatches<'a>, opt: Opt) -> Option<&'a str>
    ensures { option_map (λ text. text.now) result
        ≡ given_word program (rows_of (found_of matches.now)) opt }
{
    if program.offers(opt) {
        text(matches, opt.name())
    } else {
        None
    }
}

// The value of an option, or `None` if it is out of its range.
fn value(program: Program, matches: &ArgMatches<'_>, opt: Opt) -> Option<u64>
    ensures { result ≡ option_value program (rows_of (found_of matches.now)) opt }
{
    opt.row().value_of(given(program, matches, opt))
}

/// The value of an option, or 0 if it is out of its range.
pub(crate) fn number(program: Program, matches: &ArgMatches<'_>, opt: Opt) -> u64
    ensures { result ≡ option_number program (rows_of (found_of matches.now)) opt }
{
    value(program, matches, opt).unwrap_or(0)
}

/// The value of an option as a number of 32 bits, or 0 if it is out of its range.
pub(crate) fn small_number(program: Program, matches: &ArgMatches<'_>, opt: Opt) -> u32
    requires { greatest_of (option_row opt).limits < 2 ^ 32 }
    ensures { result ≡ option_number program (rows_of (found_of matches.now)) opt }
{
    number(program, matches, opt) as u32
}

/// The names of the files and the `+` between transfers, or `None` if there are none.
pub(crate) fn files<'m, 'a>(matches: &'m ArgMatches<'a>) -> Option<&'m [&'a str]>
    ensures { option_map (λ files. texts files.now) result
        ≡ all_of (option_name Opt.File) (rows_of (found_of matches.now)) }
{
    matches.get_raw(Opt::File.name())
}

// Whether the value of an option is in its range.
fn is_in_range(program: Program, matches: &ArgMatches<'_>, opt: Opt) -> bool
    ensures { result ≡ is_in_range_of program (rows_of (found_of matches.now)) opt }
{
    match opt {
        Opt::MinDelay => {
            value(program, matches, opt).is_some()
                && number(program, matches, opt) <= number(program, matches, Opt::MaxDelay)
        }
        Opt::File => match files(matches) {
            Some(files) => files_fit(files),
            None => false,
        },
        _ => value(program, matches, opt).is_some(),
    }
}

/// The first option, in the table's order, whose value is out of its range.
pub(crate) fn first_out_of_range(program: Program, matches: &ArgMatches<'_>) -> Option<Opt>
    ensures { result ≡ first_out_of_range_of program (rows_of (found_of matches.now)) }
{
    OPTIONS
        .iter()
        .copied()
        .find(|opt| !is_in_range(program, matches, *opt))
}
