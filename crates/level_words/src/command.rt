// The command line of psr_level, read by clap.
ghost use Rattle.std.specs.Prelude.{◌≡◌, List, [], ◌∷◌, ◌++◌, map, string_bytes, IfOk, IfErr, false};
ghost use Rattle.clap.specs.Words.{Rule, app_of, found_of, rows_of, rule_of, kind_of};
ghost use Rattle.level_words.specs.Command.{option_rule, flag_rule, file_rule, command_with, level_command, matches_on, TakesWords};
ghost use Rattle.level_words.specs.Settings.{ExplainsClap, fault_of_kind};
ghost use Rattle.level_words.specs.Table.{valued_options};

use crate::fault::LevelFault;
use crate::opt::{Flag, Opt};
use clap::error::ErrorKind;
use clap::{Arg, ArgAction, ArgMatches, Command, Error};
use std::alloc::{AllocError, Global};

// The options that take a value.
const VALUED: [Opt; 8] = [
    Opt::Spectra,
    Opt::Average,
    Opt::Mask,
    Opt::Clip,
    Opt::Mean,
    Opt::Deviation,
    Opt::Most,
    Opt::MaxBytes,
];

// An option that takes a value.
fn option<'a>(alloc: Global, opt: Opt) -> Arg<'a>
    ensures rule { rule_of result ≡ option_rule opt }
    ensures here { result.global ≡ false }
{
    let name: &'a str = opt.name();
    Arg::new(alloc, name).long(name)
}

// An option that takes no value.
fn flag<'a>(alloc: Global, flag: Flag) -> Arg<'a>
    ensures rule { rule_of result ≡ flag_rule flag }
    ensures here { result.global ≡ false }
{
    let name: &'a str = flag.name();
    Arg::new(alloc, name).long(name).action(ArgAction::SetTrue)
}

// The argument for the names of files.
fn file<'a>(alloc: Global) -> Arg<'a>
    ensures rule { rule_of result ≡ file_rule }
    ensures here { result.global ≡ false }
{
    Arg::new(alloc, "FILE")
        .action(ArgAction::Append)
        .num_args(1..)
        .required(true)
}

// The command with one more argument.
fn with_arg<'a>(command: Command<'a>, arg: Arg<'a>) -> Result<Command<'a>, AllocError>
    requires { arg.global ≡ false }
    ensures { IfOk result (λ c. (rules : List Rule)
        → app_of command.entry ≡ command_with rules
        → app_of c ≡ command_with (rules ++ rule_of arg.entry ∷ [])) }
{
    command.arg(arg)
}

// The command with the options that take a value.
fn with_options<'a>(alloc: Global) -> Result<Command<'a>, AllocError>
    ensures { IfOk result (λ c. app_of c ≡ command_with (map option_rule valued_options)) }
{
    let mut command: Command<'a> = Command::new(alloc, "psr_level").disable_help_flag(true);
    for opt in VALUED.iter() {
        command = with_arg(command, option(alloc, *opt))?;
    }
    Ok(command)
}

// The command with all options and the names of files.
fn command<'a>(alloc: Global) -> Result<Command<'a>, AllocError>
    ensures { IfOk result (λ c. app_of c ≡ level_command) }
{
    let command = with_options(alloc)?;
    let command = with_arg(command, flag(alloc, Flag::Fast))?;
    let command = with_arg(command, flag(alloc, Flag::ZeroDm))?;
    let command = with_arg(command, flag(alloc, Flag::Signed))?;
    let command = with_arg(command, flag(alloc, Flag::HighByteFirst))?;
    with_arg(command, file(alloc))
}

// The fault that an error of clap stands for.
fn fault_of(error: Error) -> LevelFault
    ensures { result ≡ fault_of_kind (kind_of error) }
{
    match error.kind() {
        ErrorKind::OutOfMemory => LevelFault::Memory,
        _ => LevelFault::Refused,
    }
}

/// What clap finds in the arguments `words`, of which the first is the program's name.
pub(crate) fn matches_of<'a>(
    alloc: Global,
    words: &'a [String],
) -> Result<ArgMatches<'a>, LevelFault>
    ensures taken { IfOk result (λ m. TakesWords (map string_bytes words.now)) }
    ensures found { IfOk result (λ m.
        rows_of (found_of m) ≡ matches_on (map string_bytes words.now)) }
    ensures fault { IfErr result (ExplainsClap (map string_bytes words.now)) }
{
    let command = match command(alloc) {
        Ok(command) => command,
        Err(_) => return Err(LevelFault::Memory),
    };
    match command.try_get_matches_from(words) {
        Ok(matches) => Ok(matches),
        Err(error) => Err(fault_of(error)),
    }
}
