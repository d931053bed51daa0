//! Rules that are all of some tokens of a text.

ghost use Rattle.std.specs.Prelude.{◌≡◌, ◌<◌, length};
ghost use Rattle.std.specs.Str.{IsCharBoundary};
ghost use Rattle.aerie_text.specs.Marks.{AreTokensWithin};
ghost use Rattle.readers.specs.Parsed.{parsed};
ghost use Rattle.rule_grammar.specs.RuleAnswers.{IsAnswerOf, IsErrorOf, UnlessOutOfMemory, answer_of, place_left, end_of};
ghost use Rattle.rule_grammar.specs.reading.Constraints.{constraints_at};
ghost use Rattle.rule_grammar.specs.reading.Goals.{goals_at};
ghost use Rattle.rule_grammar.specs.reading.Sequences.{sequence_at};
ghost use Rattle.rule_grammar.specs.reading.ToTheEnd.{to_the_end};

use crate::raw::{RawConstraint, RawGoal, RawSequenceItem};
use crate::reading::{constraint_list, goal_list, sequence};
use crate::rule_form_error::RuleFormError;
use aerie_base::{List, Place};
use aerie_text::{Token, place_of};
use readers::{Reader, Refusal};
use std::alloc::Global;

/// Reads the constraints that these tokens of a text are, all of them: those of the text, or some of them in a row. It takes
/// time linear in the text up to the last of them.
pub fn read_raw_constraints(
    alloc: Global,
    text: &str,
    tokens: &[Token],
) -> Result<List<RawConstraint>, RuleFormError>
    requires short { length text.now < 4_294_967_295 }
    requires tokens { AreTokensWithin text.now tokens.now }
    ensures exact { IsAnswerOf constraints_at text.now tokens.now result }
{
    let mut reader = Reader::new(text, tokens, 0);
    match constraint_list(alloc, &mut reader) {
        Ok(rules) => all_read(text, tokens, &reader, rules),
        Err(refusal) => Err(refused(text, tokens, &reader, refusal)),
    }
}

/// Reads the goals that these tokens of a text are, all of them: those of the text, or some of them in a row. It takes time
/// linear in the text up to the last of them.
pub fn read_raw_goals(
    alloc: Global,
    text: &str,
    tokens: &[Token],
) -> Result<List<RawGoal>, RuleFormError>
    requires short { length text.now < 4_294_967_295 }
    requires tokens { AreTokensWithin text.now tokens.now }
    ensures exact { IsAnswerOf goals_at text.now tokens.now result }
{
    let mut reader = Reader::new(text, tokens, 0);
    match goal_list(alloc, &mut reader) {
        Ok(rules) => all_read(text, tokens, &reader, rules),
        Err(refusal) => Err(refused(text, tokens, &reader, refusal)),
    }
}

/// Reads the rules of a sequence that these tokens of a text are, all of them: those of the text, or some of them in a row. It
/// takes time linear in the text up to the last of them.
pub fn read_raw_sequence(
    alloc: Global,
    text: &str,
    tokens: &[Token],
) -> Result<List<RawSequenceItem>, RuleFormError>
    requires short { length text.now < 4_294_967_295 }
    requires tokens { AreTokensWithin text.now tokens.now }
    ensures exact { IsAnswerOf sequence_at text.now tokens.now result }
{
    let mut reader = Reader::new(text, tokens, 0);
    match sequence(alloc, &mut reader) {
        Ok(rules) => all_read(text, tokens, &reader, rules),
        Err(refusal) => Err(refused(text, tokens, &reader, refusal)),
    }
}

/// The rules that were read, where no token is left.
fn all_read<T: Drop>(
    text: &str,
    tokens: &[Token],
    reader: &Reader,
    rules: T,
) -> Result<T, RuleFormError>
    ensures { UnlessOutOfMemory (answer_of text.now tokens.now (to_the_end (parsed rules reader.now))) result }
{
    match reader.place() {
        None => Ok(rules),
        Some(place) => Err(RuleFormError::Syntax(place)),
    }
}

/// The error of a refusal, at the first token that is left.
fn refused(text: &str, tokens: &[Token], reader: &Reader, refusal: Refusal) -> RuleFormError
    requires short { length text.now < 4_294_967_295 }
    requires tokens { AreTokensWithin text.now tokens.now }
    ensures { IsErrorOf text.now tokens.now reader.now refusal result }
{
    match refusal {
        Refusal::Syntax => RuleFormError::Syntax(place_left(text, tokens, reader)),
        Refusal::TooMany(limit) => RuleFormError::TooMany {
            limit,
            place: place_left(text, tokens, reader),
        },
        Refusal::OutOfMemory => RuleFormError::OutOfMemory,
    }
}

/// The place of the first token that is left, or that directly behind the last token.
fn place_left(text: &str, tokens: &[Token], reader: &Reader) -> Place
    requires short { length text.now < 4_294_967_295 }
    requires tokens { AreTokensWithin text.now tokens.now }
    ensures { result ≡ place_left text.now tokens.now reader.now }
{
    match reader.place() {
        Some(at) => at,
        None => place_of(text, end_of(text, tokens)),
    }
}

/// Where the last of the tokens ends.
fn end_of(text: &str, tokens: &[Token]) -> usize
    requires { AreTokensWithin text.now tokens.now }
    ensures is { result ≡ end_of tokens.now }
    ensures edge { IsCharBoundary text.now result }
{
    match tokens.split_last() {
        Some((token, _)) => token.to,
        None => 0,
    }
}
