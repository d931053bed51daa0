//! Models in a text that is cut into tokens.

ghost use Rattle.std.specs.Prelude.{◌≡◌, ◌≤◌, ◌<◌, ◌-◌, IfOk, length};
ghost use Rattle.aerie_text.specs.Marks.{AreTokensWithin};
ghost use Rattle.readers.specs.Places.{place_left};
ghost use Rattle.readers.specs.Words.{word_of};
ghost use Rattle.model_reader.specs.declared.read_error.ReadError.TheVariants.{TooMany};
ghost use Rattle.model_reader.specs.Limits.{IsWithinLimits};
ghost use Rattle.model_reader.specs.reading.Models.{model_at};
ghost use Rattle.model_reader.specs.ModelAnswers.{marks_from, answer_of, IsReadErrorOf, UnlessOutOfMemory, IsFirstRefused, IsReadThrough, IsAnswer, IfSyntax, IfTooMany, AreModel, NoModelBegins};

use crate::laws::{models_are_within_limits, models_conform};
use crate::raw::RawModel;
use crate::read_error::ReadError;
use crate::reading::model;
use aerie_base::{OutOfMemory, Place, Text};
use aerie_text::{Token, place_of};
use readers::{Limit, Reader, Refusal};
use std::alloc::Global;

/// Reads the model that begins with the token of this number, and answers the number of the token behind it too. The
/// tokens are those of the text, or some of them in a row. It takes time linear in the text up to where reading ends: a mark
/// is made when the reader comes to its token.
pub fn read_model(
    alloc: Global,
    text: &str,
    tokens: &[Token],
    from: usize,
) -> Result<(RawModel, usize), ReadError>
    requires short { length text.now < 4_294_967_295 }
    requires tokens { AreTokensWithin text.now tokens.now }
    requires from { from ≤ length tokens.now }
    ensures exact { IsAnswer text.now tokens.now from result }
    ensures behind { IfOk result (λ answer. (from < answer.1) × (answer.1 ≤ length tokens.now)) }
    ensures read { IfOk result (λ answer. AreModel text.now tokens.now from answer.1) }
    ensures limits { IfOk result (λ answer. IsWithinLimits answer.0) }
    ensures refused { IfSyntax result (IsFirstRefused text.now (marks_from text.now tokens.now from)) }
    ensures no_model { IfSyntax result (λ place. NoModelBegins text.now tokens.now from) }
    ensures too_many { IfTooMany result (IsReadThrough (marks_from text.now tokens.now from)) }
{
    models_conform();
    models_are_within_limits();
    let mut reader = Reader::new(text, tokens, from);
    read_marks(alloc, text, &mut reader, tokens.len())
}

/// Reads a model from the last ones of so many tokens.
#[tactic(auto, using(crate::proofs::Answered::error_answers))]
fn read_marks(
    alloc: Global,
    text: &str,
    reader: &mut Reader,
    count: usize,
) -> Result<(RawModel, usize), ReadError>
    requires short { length text.now < 4_294_967_295 }
    requires last { length reader.old ≤ count }
    ensures exact { UnlessOutOfMemory (answer_of text.now count (model_at reader.old)) result }
    ensures behind { IfOk result (λ answer. (count - length reader.old < answer.1) × (answer.1 ≤ count)) }
{
    match model(alloc, reader) {
        Ok(model) => Ok((model, count - reader.left())),
        Err(refusal) => Err(error_of(alloc, text, reader, refusal)?),
    }
}

/// The error of a refusal by a reader of the text, with the place of the first token that is left, or of the end.
pub fn error_of(
    alloc: Global,
    text: &str,
    reader: &Reader,
    refusal: Refusal,
) -> Result<ReadError, OutOfMemory>
    requires { length text.now < 4_294_967_295 }
    ensures { IfOk result (λ error. IsReadErrorOf text.now reader.now refusal error) }
{
    match refusal {
        Refusal::Syntax => Ok(ReadError::Syntax(place_left(text, reader))),
        Refusal::TooMany(limit) => too_many(alloc, limit, place_left(text, reader)),
        Refusal::OutOfMemory => Ok(ReadError::OutOfMemory),
    }
}

/// The place of the first token that is left, or of the end.
fn place_left(text: &str, reader: &Reader) -> Place
    requires { length text.now < 4_294_967_295 }
    ensures { result ≡ place_left text.now reader.now }
{
    match reader.place() {
        Some(at) => at,
        None => place_of(text, text.len()),
    }
}

/// The error where a limit is passed.
fn too_many(alloc: Global, limit: Limit, place: Place) -> Result<ReadError, OutOfMemory>
    ensures { IfOk result (λ error. error ≡ TooMany (word_of limit) place) }
{
    let what = Text::new(alloc, limit.word())?;
    Ok(ReadError::TooMany { what, place })
}
