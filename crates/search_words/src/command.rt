// The command lines of the programs, read by clap.
ghost use Rattle.std.specs.Prelude.{◌≡◌, ◌≢◌, List, [], ◌∷◌, ◌++◌, map, string_bytes, Err, IfOk, IfErr, false};
ghost use Rattle.clap.specs.Words.{Rule, app_of, found_of, rows_of, rule_of, kind_of};
ghost use Rattle.search_words.specs.Command.{option_rule, option_rules, flag_rules, command_with, record_rule, file_rule, command_of, matches_on, TakesWords, IsSimpleLine};
ghost use Rattle.search_words.specs.Settings.{ExplainsWords, fault_of_kind};

use crate::fault::WordFault;
use crate::opt::Opt;
use crate::table::{OPTIONS, Program};
use clap::error::ErrorKind;
use clap::{Arg, ArgAction, ArgMatches, Command, Error};
use std::alloc::{AllocError, Global};

// An option that takes a value.
fn option<'a>(alloc: Global, name: &'a str, is_demanded: bool) -> Arg<'a>
    ensures rule { rule_of result ≡ option_rule name.entry.now is_demanded }
    ensures here { result.global ≡ false }
{
    Arg::new(alloc, name).long(name).required(is_demanded)
}

// The flag that asks for a recording.
fn record_flag<'a>(alloc: Global) -> Arg<'a>
    ensures rule { rule_of result ≡ record_rule }
    ensures here { result.global ≡ false }
{
    Arg::new(alloc, "record")
        .long("record")
        .action(ArgAction::SetTrue)
}

// The argument for the names of files.
fn file<'a>(alloc: Global) -> Arg<'a>
    ensures rule { rule_of result ≡ file_rule }
    ensures here { result.global ≡ false }
{
    Arg::new(alloc, "FILE")
        .action(ArgAction::Append)
        .num_args(1..)
        .required(true)
}

// The command with one more option, if the program has it.
fn with_option<'a>(
    alloc: Global,
    program: Program,
    command: Command<'a>,
    opt: Opt,
) -> Result<Command<'a>, AllocError>
    ensures { IfOk result (λ c. (rules : List Rule)
        → app_of command.entry ≡ command_with program rules
        → app_of c ≡ command_with program (rules ++ option_rules program (opt ∷ []))) }
{
    if program.offers(opt) {
        let name: &'a str = opt.name();
        command.arg(option(alloc, name, program.demands(opt)))
    } else {
        Ok(command)
    }
}

// The command with the flag, if the program has it.
fn with_flag<'a>(
    alloc: Global,
    program: Program,
    command: Command<'a>,
) -> Result<Command<'a>, AllocError>
    ensures { IfOk result (λ c. (rules : List Rule)
        → app_of command.entry ≡ command_with program rules
        → app_of c ≡ command_with program (rules ++ flag_rules program)) }
{
    match program {
        Program::PsrSearch => command.arg(record_flag(alloc)),
        Program::PsrRecord => Ok(command),
    }
}

// The command of a program, with all its options.
fn command<'a>(alloc: Global, program: Program) -> Result<Command<'a>, AllocError>
    ensures { IfOk result (λ c. app_of c ≡ command_of program) }
{
    let name: &'a str = program.name();
    let mut command: Command<'a> = Command::new(alloc, name).disable_help_flag(true);
    for opt in OPTIONS.iter() {
        command = with_option(alloc, program, command, *opt)?;
    }
    with_flag(alloc, program, command)?.arg(file(alloc))
}

/// What clap finds in the arguments `words`, of which the first is the program's name.
pub(crate) fn matches_of<'a>(
    alloc: Global,
    program: Program,
    words: &'a [String],
) -> Result<ArgMatches<'a>, WordFault>
    ensures taken { IfOk result (λ m. TakesWords program (map string_bytes words.now)) }
    ensures found { IfOk result (λ m.
        rows_of (found_of m) ≡ matches_on program (map string_bytes words.now)) }
    ensures fault { IfErr result (ExplainsWords program (map string_bytes words.now)) }
    ensures simple { IsSimpleLine program (map string_bytes words.now)
        → result ≢ Err WordFault.Refused }
{
    let command = command(alloc, program)?;
    match command.try_get_matches_from(words) {
        Ok(matches) => Ok(matches),
        Err(error) => Err(fault_of(error)),
    }
}

// The fault that an error of clap stands for.
fn fault_of(error: Error) -> WordFault
    ensures { result ≡ fault_of_kind (kind_of error) }
{
    match error.kind() {
        ErrorKind::OutOfMemory => WordFault::Memory,
        _ => WordFault::Refused,
    }
}
