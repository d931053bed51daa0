//! What the words ask for.

ghost use Rattle.std.specs.Option.{option_copied};
ghost use Rattle.std.specs.Prelude.{◌≡◌, IfOk, IfSome};
ghost use Rattle.clap.specs.Words.{found_of, rows_of};
ghost use Rattle.command_line.specs.Commands.{requested, value_of as value_in};
ghost use Rattle.command_line.specs.Grammar.{texts_of};
ghost use Rattle.command_line.specs.Invocations.{IsModeWithin, HasNumbersWithin, allowed as allowed_by, is_allowed as is_allowed_by, make_mode as make_mode_by, mode_by as mode_by_values, mode_named as mode_named_by, mode_of as mode_of_by, plain_mode as plain_mode_by, invocation_of};

use crate::invocation::{Invocation, Mode};
use crate::numbers::{number_or, number_up_to};
use crate::parsing::{is_set, parse, value_of};
use aerie_base::OutOfMemory;
use clap::ArgMatches;
use clap::error::ErrorKind;
use std::alloc::Global;

/// How many statements a simulation runs at most, usually and ever.
const USUAL_LIMIT: u64 = 1_000_000;

const MOST_LIMIT: u64 = 100_000_000;

/// Into how many pieces a batch is cut at most, usually and ever.
const USUAL_PIECES: u64 = 4;

const MOST_PIECES: u64 = 64;

/// How many directives a generated session has at most.
const MOST_DIRECTIVES: u64 = 20_000;

/// A mode that takes neither a number nor a text.
fn plain_mode(mode: Mode, number: Option<&str>, text: bool) -> Option<Mode>
    requires within { IsModeWithin mode }
    ensures exact { result ≡ plain_mode_by mode (option_copied number.entry) text }
    ensures within { IfSome result IsModeWithin }
{
    match number {
        None if !text => Some(mode),
        _ => None,
    }
}

/// To make a session of this number.
fn make_mode(number: Option<&str>, text: bool) -> Option<Mode>
    ensures exact { result ≡ make_mode_by (option_copied number.entry) text }
    ensures within { IfSome result IsModeWithin }
{
    let number = number_up_to(number?, MOST_DIRECTIVES)?;
    Some(Mode::Make {
        number: number as u32,
        text,
    })
}

/// The mode of this word.
fn mode_named(word: &str, number: Option<&str>, text: bool) -> Option<Mode>
    ensures exact { result ≡ mode_named_by word.now (option_copied number.entry) text }
    ensures within { IfSome result IsModeWithin }
{
    match word {
        "run" => plain_mode(Mode::Run, number, text),
        "check" => plain_mode(Mode::Check, number, text),
        "make" => make_mode(number, text),
        _ => None,
    }
}

/// The mode that was given.
fn mode_of(word: Option<&str>, number: Option<&str>, text: bool) -> Option<Mode>
    ensures exact { result ≡ mode_of_by (option_copied word.entry) (option_copied number.entry) text }
    ensures within { IfSome result IsModeWithin }
{
    mode_named(word?, number, text)
}

/// Whether the mode goes with these flags.
fn is_allowed(mode: Mode, explain: bool, detail: bool) -> bool
    ensures { result ≡ is_allowed_by explain detail mode }
{
    match mode {
        Mode::Run => true,
        Mode::Check => !detail,
        Mode::Make { .. } => !explain && !detail,
    }
}

/// The mode, where it goes with these flags.
fn allowed(mode: Option<Mode>, explain: bool, detail: bool) -> Option<Mode>
    requires within { IfSome mode IsModeWithin }
    ensures exact { result ≡ allowed_by explain detail mode }
    ensures within { IfSome result IsModeWithin }
{
    match mode {
        Some(mode) if is_allowed(mode, explain, detail) => Some(mode),
        _ => None,
    }
}

/// The mode that the values name, where it goes with their flags.
fn mode_by(matches: &ArgMatches<'_>) -> Option<Mode>
    ensures exact { result ≡ mode_by_values (λ name. value_in (rows_of (found_of matches.now)) name) }
    ensures within { IfSome result IsModeWithin }
{
    let number = value_of(matches, "number");
    let mode = mode_of(value_of(matches, "mode"), number, is_set(matches, "text"));
    allowed(mode, is_set(matches, "explain"), is_set(matches, "detail"))
}

/// What the values ask for.
fn invocation(matches: &ArgMatches<'_>) -> Option<Invocation>
    ensures exact { result ≡ requested (rows_of (found_of matches.now)) }
    ensures within { IfSome result HasNumbersWithin }
{
    let mode = mode_by(matches)?;
    let limit = number_or(value_of(matches, "limit"), USUAL_LIMIT, MOST_LIMIT)?;
    let pieces = number_or(value_of(matches, "pieces"), USUAL_PIECES, MOST_PIECES)?;
    Some(Invocation {
        mode,
        limit,
        pieces: pieces as u32,
        serial: is_set(matches, "serial"),
        stats: is_set(matches, "stats"),
        explain: is_set(matches, "explain"),
        detail: is_set(matches, "detail"),
    })
}

/// What the words after the program's name ask for, or `None` where they are not in the grammar of the command line.
pub fn read_words(alloc: Global, words: &[String]) -> Result<Option<Invocation>, OutOfMemory>
    ensures exact { IfOk result (λ invocation. invocation ≡ invocation_of (texts_of words.now)) }
    ensures within { IfOk result (λ invocation. IfSome invocation HasNumbersWithin) }
{
    match parse(alloc, words) {
        Ok(matches) => Ok(invocation(&matches)),
        Err(error) if error.kind() == ErrorKind::OutOfMemory => Err(OutOfMemory),
        Err(_) => Ok(None),
    }
}
