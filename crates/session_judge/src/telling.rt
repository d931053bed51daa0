//! How refusals are told.

ghost use Rattle.std.specs.Prelude.{◌≡◌, ◌<◌, All, IfOk, length};
ghost use Rattle.aerie_text.specs.Cut.{IsTokenOf};
ghost use Rattle.rule_check.specs.declared.rule_error.RuleError.TheVariants.{OutOfMemory as NoMemoryForRules};
ghost use Rattle.session_reader.specs.declared.session_error.SessionError.TheVariants.{OutOfMemory as NoMemoryForSession};
ghost use Rattle.session_judge.specs.Telling.{told_check as told_check_by, told_dataset as told_dataset_by, told_directive as told_directive_by, told_limit as told_limit_by, told_name as told_name_by, told_offset as told_offset_by, told_place as told_place_by, told_rule as told_rule_by, told_session as told_session_by, told_word, word_standing_at as word_standing_at_by};

use crate::words::word_standing_at;
use aerie_base::{OutOfMemory, Place, Text};
use aerie_text::Token;
use dataset_in::DatasetError;
use model_check::CheckError;
use plan_edit::EditError;
use refusal_text::Refusal;
use rule_check::RuleError;
use session_reader::SessionError;
use std::alloc::Global;

/// A refusal that is told by its name alone.
pub fn named_refusal(alloc: Global, name: &str) -> Result<Refusal, OutOfMemory>
    ensures { IfOk result (λ refusal. refusal ≡ told_name_by name.now) }
{
    let name = Text::new(alloc, name)?;
    Ok(Refusal {
        name,
        place: None,
        word: None,
        what: None,
        at: None,
        number: None,
        edit: None,
        fault: None,
    })
}

/// A refusal that is told by its name and a place.
fn told_place(alloc: Global, name: &str, place: Place) -> Result<Refusal, OutOfMemory>
    ensures { IfOk result (λ refusal. refusal ≡ told_place_by name.now place) }
{
    let mut refusal = named_refusal(alloc, name)?;
    refusal.place = Some(place);
    Ok(refusal)
}

/// A refusal that is told by its name, a place and the token there.
fn told_at(
    alloc: Global,
    name: &str,
    text: &str,
    tokens: &[Token],
    place: Place,
) -> Result<Refusal, OutOfMemory>
    requires short { length text.now < 4_294_967_295 }
    requires tokens { All (IsTokenOf text.now) tokens.now }
    ensures { IfOk result (λ refusal. refusal ≡ told_word name.now place (word_standing_at_by text.now place tokens.now)) }
{
    let mut refusal = told_place(alloc, name, place)?;
    refusal.word = Some(word_standing_at(alloc, text, place, tokens)?);
    Ok(refusal)
}

/// That a limit is passed.
fn told_limit(alloc: Global, what: Text, place: Place) -> Result<Refusal, OutOfMemory>
    ensures { IfOk result (λ refusal. refusal ≡ told_limit_by what place) }
{
    let mut refusal = told_place(alloc, "TooMany", place)?;
    refusal.what = Some(what);
    Ok(refusal)
}

/// That bytes are no text.
pub(crate) fn told_offset(alloc: Global, at: usize) -> Result<Refusal, OutOfMemory>
    ensures { IfOk result (λ refusal. refusal ≡ told_offset_by at) }
{
    let mut refusal = named_refusal(alloc, "NotText")?;
    refusal.at = Some(at);
    Ok(refusal)
}

/// That a directive is refused.
fn told_directive(alloc: Global, number: u32, edit: EditError) -> Result<Refusal, OutOfMemory>
    ensures { IfOk result (λ refusal. refusal ≡ told_directive_by number edit) }
{
    let mut refusal = named_refusal(alloc, "Directive")?;
    refusal.number = Some(number);
    refusal.edit = Some(edit);
    Ok(refusal)
}

/// That a dataset is refused.
fn told_dataset(alloc: Global, number: u32, fault: DatasetError) -> Result<Refusal, OutOfMemory>
    ensures { IfOk result (λ refusal. refusal ≡ told_dataset_by number fault) }
{
    let mut refusal = named_refusal(alloc, "Dataset")?;
    refusal.number = Some(number);
    refusal.fault = Some(fault);
    Ok(refusal)
}

/// A refusal of a model, or of the names of a session.
fn told_check(
    alloc: Global,
    text: &str,
    tokens: &[Token],
    error: CheckError,
) -> Result<Refusal, OutOfMemory>
    requires short { length text.now < 4_294_967_295 }
    requires tokens { All (IsTokenOf text.now) tokens.now }
    ensures { IfOk result (λ refusal. refusal ≡ told_check_by text.now tokens.now error) }
{
    match error {
        CheckError::Unknown(place) => told_at(alloc, "Unknown", text, tokens, place),
        CheckError::Duplicate(place) => told_at(alloc, "Duplicate", text, tokens, place),
        CheckError::WrongType(place) => told_at(alloc, "WrongType", text, tokens, place),
        CheckError::NotLinear(place) => told_at(alloc, "NotLinear", text, tokens, place),
        CheckError::OutOfRange(place) => told_at(alloc, "OutOfRange", text, tokens, place),
        CheckError::TooMany { what, place } => told_limit(alloc, what, place),
        CheckError::OutOfMemory => Err(OutOfMemory),
    }
}

/// A refusal of a session.
pub(crate) fn told_session(
    alloc: Global,
    text: &str,
    tokens: &[Token],
    error: SessionError,
) -> Result<Refusal, OutOfMemory>
    requires short { length text.now < 4_294_967_295 }
    requires tokens { All (IsTokenOf text.now) tokens.now }
    ensures told { IfOk result (λ refusal. refusal ≡ told_session_by text.now tokens.now error) }
    ensures memory { IfOk result (λ refusal. ¬ (error ≡ NoMemoryForSession)) }
{
    match error {
        SessionError::TooLarge => named_refusal(alloc, "TooLarge"),
        SessionError::NotText { at } => told_offset(alloc, at),
        SessionError::Syntax(place) => told_place(alloc, "Syntax", place),
        SessionError::TooMany { what, place } => told_limit(alloc, what, place),
        SessionError::Check(error) => told_check(alloc, text, tokens, error),
        SessionError::Start(place) => told_place(alloc, "Start", place),
        SessionError::Directive { number, edit } => told_directive(alloc, number, edit),
        SessionError::Client(place) => told_place(alloc, "Client", place),
        SessionError::Dataset { number, fault } => told_dataset(alloc, number, fault),
        SessionError::OutOfMemory => Err(OutOfMemory),
    }
}

/// A refusal of rules.
pub(crate) fn told_rule(
    alloc: Global,
    text: &str,
    tokens: &[Token],
    error: RuleError,
) -> Result<Refusal, OutOfMemory>
    requires short { length text.now < 4_294_967_295 }
    requires tokens { All (IsTokenOf text.now) tokens.now }
    ensures told { IfOk result (λ refusal. refusal ≡ told_rule_by text.now tokens.now error) }
    ensures memory { IfOk result (λ refusal. ¬ (error ≡ NoMemoryForRules)) }
{
    match error {
        RuleError::Syntax(place) => told_place(alloc, "Syntax", place),
        RuleError::Unknown(place) => told_at(alloc, "Unknown", text, tokens, place),
        RuleError::Duplicate(place) => told_at(alloc, "Duplicate", text, tokens, place),
        RuleError::WrongType(place) => told_at(alloc, "WrongType", text, tokens, place),
        RuleError::OutOfRange(place) => told_at(alloc, "OutOfRange", text, tokens, place),
        RuleError::TooMany { what, place } => told_limit(alloc, what, place),
        RuleError::Invalid(place) => told_at(alloc, "Invalid", text, tokens, place),
        RuleError::OutOfMemory => Err(OutOfMemory),
    }
}
