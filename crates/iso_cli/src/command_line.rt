// The command line as `clap` is told of it, and what it makes of the words.
ghost use Rattle.std.specs.Prelude.{◌≡◌, IfOk};
ghost use Rattle.clap.specs.Walk.{rows_of};
ghost use Rattle.clap.specs.Simple.{app_of, matches_of, new_rule, with_rule};
ghost use Rattle.clap.specs.Faults.{fault_of};
ghost use Rattle.clap.specs.Kinds.{FailsBy};
ghost use Rattle.clap.specs.Matches.{found_of};
ghost use Rattle.iso_cli.specs.CommandLine.{bare, flag_rule, option_rule, program, with_options};
ghost use Rattle.iso_cli.specs.JobOf.{texts_of};

use clap::{Arg, ArgAction, ArgMatches, Command, Error};
use std::alloc::{AllocError, Global};

// The command with `--name`, which takes a text.
fn with_option<'a>(
    alloc: Global,
    command: Command<'a>,
    name: &'a str,
) -> Result<Command<'a>, AllocError>
    ensures { IfOk result (λ c. app_of c ≡ with_rule (app_of command.entry) (option_rule name.now)) }
{
    let option = Arg::new(alloc, name).long(name).action(ArgAction::Set);
    command.arg(option)
}

// The command with `--name`, which stands alone.
fn with_flag<'a>(
    alloc: Global,
    command: Command<'a>,
    name: &'a str,
) -> Result<Command<'a>, AllocError>
    ensures { IfOk result (λ c. app_of c ≡ with_rule (app_of command.entry) (flag_rule name.now)) }
{
    let flag = Arg::new(alloc, name).long(name).action(ArgAction::SetTrue);
    command.arg(flag)
}

// The command with one positional word.
fn with_word<'a>(
    alloc: Global,
    command: Command<'a>,
    name: &'a str,
) -> Result<Command<'a>, AllocError>
    ensures { IfOk result (λ c. app_of c ≡ with_rule (app_of command.entry) (new_rule name.now)) }
{
    command.arg(Arg::new(alloc, name))
}

// One simple command without arguments. It has no subcommand, no help and no version flag.
fn bare<'a>(alloc: Global) -> Command<'a>
    ensures { app_of result ≡ bare }
{
    Command::new(alloc, "isodist")
        .disable_help_flag(true)
        .no_binary_name(true)
}

// The options that take a text.
static OPTIONS: [&str; 6] = ["irrep", "direction", "after", "count", "number", "with"];

// The command with options that take a text.
fn with_options<'a>(
    alloc: Global,
    command: Command<'a>,
    names: &'a [&'a str],
) -> Result<Command<'a>, AllocError>
    ensures { IfOk result (λ c. app_of c ≡ with_options (app_of command.entry) (texts_of names.now)) }
{
    let mut command = command;
    for name in names {
        command = with_option(alloc, command, name)?;
    }
    Ok(command)
}

// The options, and one positional word.
#[tactic(auto, unfolding(crate::specs::CommandLine::program))]
fn program<'a>(alloc: Global) -> Result<Command<'a>, AllocError>
    ensures { IfOk result (λ c. app_of c ≡ program) }
{
    let program = with_options(alloc, bare(alloc), OPTIONS.as_slice())?;
    let program = with_flag(alloc, program, "tally")?;
    with_word(alloc, program, "command")
}

/// What `clap` finds in the words.
pub(crate) fn find_matches<'a>(alloc: Global, words: &'a [&'a str]) -> Result<ArgMatches<'a>, Error>
    ensures fails { FailsBy (fault_of program (texts_of words.now)) result }
    ensures rows { IfOk result (λ m. rows_of (found_of m) ≡ matches_of program (texts_of words.now)) }
{
    let program = program(alloc)?;
    program.try_get_matches_from(words)
}
