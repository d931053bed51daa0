//! Why rules are refused.

ghost use Rattle.std.specs.Prelude.{◌≡◌};
ghost use Rattle.readers.specs.Words.{word_of};
ghost use Rattle.rule_check.specs.declared.rule_error.RuleError.TheVariants.{OutOfMemory as NoMemory, TooMany};
ghost use Rattle.rule_check.specs.RuleErrors.{rule_error_at, error_of_form, IsThisError};

use crate::causes::WrongRule;
use aerie_base::{OutOfMemory, Place, Text};
use diagnostics::Diagnostic;
use readers::Limit;
use rule_grammar::RuleFormError;
use std::alloc::Global;
use thiserror::Error;

/// Why the tokens of a section are no rules of a model: bad syntax and too great a depth before all others, the first of them
/// in the text; then what is refused first in the text, and at one place what has the smaller number in this order.
#[derive(Debug, Drop, Error)]
pub enum RuleError {
    /// The first token that no rules go on with, or directly behind the last token where rules are not yet over.
    #[error("no rules go on at line {}, column {}", .0.line, .0.column)]
    Syntax(Place),
    /// A name that names nothing of the sort that may stand there.
    #[error("unknown name at line {}, column {}", .0.line, .0.column)]
    Unknown(Place),
    /// The later of two equal names.
    #[error("name used before at line {}, column {}", .0.line, .0.column)]
    Duplicate(Place),
    /// A resource or dataset of another type than is needed, or an argument of the wrong type.
    #[error("wrong type at line {}, column {}", .0.line, .0.column)]
    WrongType(Place),
    /// A coefficient above 1,000,000 in magnitude, or a number of a goal out of its range.
    #[error("out of range at line {}, column {}", .0.line, .0.column)]
    OutOfRange(Place),
    /// The first token of what is one too many, or the token that opens the level that is one too deep.
    #[error("too many {} at line {}, column {}", .what.as_str(), .place.line, .place.column)]
    TooMany {
        /// The limit.
        what: Text,
        /// Where the token stands.
        place: Place,
    },
    /// A template whose arguments do not meet what its activity type requires.
    #[error("invalid arguments at line {}, column {}", .0.line, .0.column)]
    Invalid(Place),
    /// Memory was wanted.
    #[error("out of memory")]
    OutOfMemory,
}

impl From<OutOfMemory> for RuleError {
    ghost from_gives = { λ _ e. e ≡ NoMemory };

    fn from(_error: OutOfMemory) -> RuleError {
        RuleError::OutOfMemory
    }
}

/// The error of tokens that are not read as rules.
pub fn form_error(alloc: Global, cause: RuleFormError) -> RuleError
    ensures { IsThisError (error_of_form cause) result }
{
    match cause {
        RuleFormError::Syntax(place) => RuleError::Syntax(place),
        RuleFormError::TooMany { limit, place } => too_many(alloc, limit, place),
        RuleFormError::OutOfMemory => RuleError::OutOfMemory,
    }
}

/// The error where a limit is passed, or that memory was wanted.
fn too_many(alloc: Global, limit: Limit, place: Place) -> RuleError
    ensures { IsThisError (TooMany (word_of limit) place) result }
{
    match Text::new(alloc, limit.word()) {
        Ok(what) => RuleError::TooMany { what, place },
        Err(_) => RuleError::OutOfMemory,
    }
}

/// The error of what is refused, or that memory was wanted.
pub fn refusal_error(alloc: Global, refusal: Diagnostic<WrongRule>) -> RuleError
    ensures { IsThisError (rule_error_at refusal.cause refusal.place) result }
{
    let place = refusal.place;
    match refusal.cause {
        WrongRule::Unknown => RuleError::Unknown(place),
        WrongRule::Duplicate => RuleError::Duplicate(place),
        WrongRule::WrongType => RuleError::WrongType(place),
        WrongRule::OutOfRange => RuleError::OutOfRange(place),
        WrongRule::TooMany(limit) => too_many(alloc, limit, place),
        WrongRule::Invalid => RuleError::Invalid(place),
    }
}
