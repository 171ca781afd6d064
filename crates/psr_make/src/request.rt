// What the arguments ask for.
ghost use Rattle.std.specs.Prelude.{◌≡◌, map, string_bytes, option_map, None, IfOk, IfErr};
ghost use Rattle.clap.specs.Words.{found_of, rows_of, first_of};
ghost use Rattle.psr_make.specs.Made.{SpecInRange};
ghost use Rattle.psr_make.specs.Request.{option_value, option_number, first_out_of_range as first_out_of_range_of, spec_of as spec_of_found, Asks};
ghost use Rattle.psr_make.specs.Stop.{ExplainsStop, IsReadingStop};

use crate::command::matches_of;
use crate::opt::{OPTIONS, Opt};
use crate::spec::MakeSpec;
use crate::stop::Stop;
use clap::ArgMatches;
use std::alloc::Global;
// Laws: they do nothing when they run, and the proofs use what they ensure.
use option_rows::{none_fails, values_are_allowed};

/// An observation, and the name of its file.
#[derive(Clone, Copy)]
pub(crate) struct Request<'a> {
    pub(crate) spec: MakeSpec,
    pub(crate) name: &'a str,
}

// The first text that clap found under a name.
fn text<'a>(matches: &ArgMatches<'a>, name: &str) -> Option<&'a str>
    ensures { option_map (λ text. text.now) result
        ≡ first_of name.now (rows_of (found_of matches.now)) }
{
    matches.get_str(name)
}

// The value of an option, or `None` if it is out of its range.
fn value(matches: &ArgMatches<'_>, opt: Opt) -> Option<u64>
    ensures { result ≡ option_value (rows_of (found_of matches.now)) opt }
{
    opt.row().value_of(text(matches, opt.name()))
}

// The value of an option, or 0 if it is out of its range.
fn number(matches: &ArgMatches<'_>, opt: Opt) -> u64
    ensures { result ≡ option_number (rows_of (found_of matches.now)) opt }
{
    value(matches, opt).unwrap_or(0)
}

// The first option, in the order of the table, whose value is out of its range.
fn first_out_of_range(matches: &ArgMatches<'_>) -> Option<Opt>
    ensures { result ≡ first_out_of_range_of (rows_of (found_of matches.now)) }
{
    OPTIONS
        .iter()
        .copied()
        .find(|opt| value(matches, *opt).is_none())
}

// What the observation is made from, by the values of the options.
fn spec_of(matches: &ArgMatches<'_>) -> MakeSpec
    requires { first_out_of_range_of (rows_of (found_of matches.now)) ≡ None }
    ensures values { result ≡ spec_of_found (rows_of (found_of matches.now)) }
    ensures in_range { SpecInRange result }
{
    none_fails::<Opt>();
    values_are_allowed();
    MakeSpec {
        number: number(matches, Opt::Number),
        channels: number(matches, Opt::Nchan) as u32,
        spectra: number(matches, Opt::Spectra) as u32,
        delay: number(matches, Opt::Delay) as u32,
        period: number(matches, Opt::Period) as u32,
        height: number(matches, Opt::Height) as u32,
        nbit: number(matches, Opt::Nbit) as u32,
        npol: number(matches, Opt::Npol) as u32,
    }
}

impl<'a> Request<'a> {
    /// Reads the arguments `words`, of which the first is the program's name.
    pub(crate) fn of(alloc: Global, words: &'a [String]) -> Result<Request<'a>, Stop>
        ensures asks { IfOk result (λ r. Asks (map string_bytes words.now) r.spec r.name.now) }
        ensures in_range { IfOk result (λ r. SpecInRange r.spec) }
        ensures cause { IfErr result (ExplainsStop (map string_bytes words.now)) }
        ensures kind { IfErr result IsReadingStop }
    {
        let matches = match matches_of(alloc, words) {
            Ok(matches) => matches,
            Err(stop) => return Err(stop),
        };
        let name = match text(&matches, "NAME") {
            Some(name) => name,
            None => return Err(Stop::Words),
        };
        match first_out_of_range(&matches) {
            Some(opt) => Err(Stop::Value(opt)),
            None => Ok(Request {
                spec: spec_of(&matches),
                name,
            }),
        }
    }
}
