// The command line of psr_make, read by clap.
ghost use Rattle.std.specs.Prelude.{◌≡◌, ◌≢◌, map, string_bytes, Err, IfOk, IfErr, false};
ghost use Rattle.clap.specs.Words.{app_of, found_of, rows_of, rule_of, kind_of};
ghost use Rattle.psr_make.specs.Command.{option_rule, name_rule, make_command, matches_on, TakesWords, IsSimpleLine};
ghost use Rattle.psr_make.specs.Stop.{ExplainsClap, stop_of_kind};

use crate::opt::{OPTIONS, Opt};
use crate::stop::Stop;
use clap::error::ErrorKind;
use clap::{Arg, ArgMatches, Command, Error};
use std::alloc::{AllocError, Global};

// An option, which takes a value.
fn option<'a>(alloc: Global, opt: Opt) -> Arg<'a>
    ensures rule { rule_of result ≡ option_rule opt }
    ensures here { result.global ≡ false }
{
    let name: &'a str = opt.name();
    Arg::new(alloc, name).long(name)
}

// The argument for the name of the file.
fn file_name<'a>(alloc: Global) -> Arg<'a>
    ensures rule { rule_of result ≡ name_rule }
    ensures here { result.global ≡ false }
{
    Arg::new(alloc, "NAME").required(true)
}

// The command with all options and the name of the file.
fn command<'a>(alloc: Global) -> Result<Command<'a>, AllocError>
    ensures { IfOk result (λ c. app_of c ≡ make_command) }
{
    let mut command: Command<'a> = Command::new(alloc, "psr_make").disable_help_flag(true);
    for opt in OPTIONS.iter() {
        command = command.arg(option(alloc, *opt))?;
    }
    command.arg(file_name(alloc))
}

// The stop that an error of clap stands for.
fn stop_of(error: Error) -> Stop
    ensures { result ≡ stop_of_kind (kind_of error) }
{
    match error.kind() {
        ErrorKind::OutOfMemory => Stop::Memory,
        _ => Stop::Words,
    }
}

/// What clap finds in the arguments `words`, of which the first is the program's name.
pub(crate) fn matches_of<'a>(alloc: Global, words: &'a [String]) -> Result<ArgMatches<'a>, Stop>
    ensures taken { IfOk result (λ m. TakesWords (map string_bytes words.now)) }
    ensures found { IfOk result (λ m.
        rows_of (found_of m) ≡ matches_on (map string_bytes words.now)) }
    ensures fault { IfErr result (ExplainsClap (map string_bytes words.now)) }
    ensures simple { IsSimpleLine (map string_bytes words.now) → result ≢ Err Stop.Words }
{
    let command = match command(alloc) {
        Ok(command) => command,
        Err(_) => return Err(Stop::Memory),
    };
    match command.try_get_matches_from(words) {
        Ok(matches) => Ok(matches),
        Err(error) => Err(stop_of(error)),
    }
}
