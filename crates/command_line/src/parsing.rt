//! The words are read as one simple command.

ghost use Rattle.std.specs.Option.{option_copied};
ghost use Rattle.std.specs.Prelude.{◌≡◌, IfOk, IfErr, true, false};
ghost use Rattle.clap.specs.Words.{app_of, found_of, kind_of, rows_of, rule_of, with_rule};
ghost use Rattle.command_line.specs.Commands.{are_taken, command as command_by, flag_rule, given, is_set as is_set_by, mode_rule, option_rule, plain_command, value_of as value_of_by, with_every_flag as with_every_flag_by, with_every_option as with_every_option_by, with_flags_for_more as with_flags_for_more_by};
ghost use Rattle.command_line.specs.Grammar.{texts_of};

use clap::error::ErrorKind;
use clap::{Arg, ArgAction, ArgMatches, Command, Error};
use std::alloc::{AllocError, Global};

/// An option of this name, whose value is the next word or follows `=`.
fn option<'a>(alloc: Global, name: &'a str) -> Arg<'a>
    ensures rule { rule_of result ≡ option_rule name.entry.now }
    ensures local { result.global ≡ false }
{
    Arg::new(alloc, name).long(name).action(ArgAction::Set)
}

/// A flag of this name.
fn flag<'a>(alloc: Global, name: &'a str) -> Arg<'a>
    ensures rule { rule_of result ≡ flag_rule name.entry.now }
    ensures local { result.global ≡ false }
{
    Arg::new(alloc, name).long(name).action(ArgAction::SetTrue)
}

/// The word that stands alone.
fn mode<'a>(alloc: Global) -> Arg<'a>
    ensures rule { rule_of result ≡ mode_rule }
    ensures local { result.global ≡ false }
{
    Arg::new(alloc, "mode")
        .required(true)
        .action(ArgAction::Set)
}

/// The command without words of its own.
fn plain<'a>(alloc: Global) -> Command<'a>
    ensures { app_of result ≡ plain_command }
{
    Command::new(alloc, "aerie")
        .no_binary_name(true)
        .disable_help_flag(true)
}

/// The command with a word more.
fn add<'a>(command: Command<'a>, arg: Arg<'a>) -> Result<Command<'a>, AllocError>
    requires local { arg.global ≡ false }
    ensures { IfOk result (λ more. app_of more ≡ with_rule (app_of command.entry) (rule_of arg.entry)) }
{
    command.arg(arg)
}

/// The command with the options besides.
fn with_every_option<'a>(alloc: Global, command: Command<'a>) -> Result<Command<'a>, AllocError>
    ensures { IfOk result (λ more. app_of more ≡ with_every_option_by (app_of command.entry)) }
{
    let command = add(command, option(alloc, "limit"))?;
    let command = add(command, option(alloc, "pieces"))?;
    add(command, option(alloc, "number"))
}

/// The command with the flags besides that say more, of a refusal and of runs.
fn with_flags_for_more<'a>(alloc: Global, command: Command<'a>) -> Result<Command<'a>, AllocError>
    ensures { IfOk result (λ more. app_of more ≡ with_flags_for_more_by (app_of command.entry)) }
{
    let command = add(command, flag(alloc, "explain"))?;
    add(command, flag(alloc, "detail"))
}

/// The command with the flags besides.
fn with_every_flag<'a>(alloc: Global, command: Command<'a>) -> Result<Command<'a>, AllocError>
    ensures { IfOk result (λ more. app_of more ≡ with_every_flag_by (app_of command.entry)) }
{
    let command = add(command, flag(alloc, "serial"))?;
    let command = add(command, flag(alloc, "stats"))?;
    let command = add(command, flag(alloc, "text"))?;
    with_flags_for_more(alloc, command)
}

/// The whole command.
fn command<'a>(alloc: Global) -> Result<Command<'a>, AllocError>
    ensures { IfOk result (λ whole. app_of whole ≡ command_by) }
{
    let command = add(plain(alloc), mode(alloc))?;
    let command = with_every_option(alloc, command)?;
    with_every_flag(alloc, command)
}

/// What the words give, or that they are not in the form of the command. Only where they are in it, want of memory is told.
pub(crate) fn parse<'a>(alloc: Global, words: &'a [String]) -> Result<ArgMatches<'a>, Error>
    ensures taken { IfOk result (λ matches. are_taken (texts_of words.entry.now) ≡ true) }
    ensures given { IfOk result (λ matches. rows_of (found_of matches) ≡ given (texts_of words.entry.now)) }
    ensures refused { IfErr result (λ e. are_taken (texts_of words.entry.now) ≡ true → kind_of e ≡ ErrorKind.OutOfMemory) }
{
    command(alloc)?.try_get_matches_from(words)
}

/// The value that a name was given.
pub(crate) fn value_of<'a>(matches: &ArgMatches<'a>, name: &str) -> Option<&'a str>
    ensures { option_copied result ≡ value_of_by (rows_of (found_of matches.now)) name.now }
{
    matches.get_str(name)
}

/// Whether a flag was given.
pub(crate) fn is_set(matches: &ArgMatches<'_>, name: &str) -> bool
    ensures { result ≡ is_set_by (rows_of (found_of matches.now)) name.now }
{
    match value_of(matches, name) {
        Some(text) => text == "true",
        None => false,
    }
}
