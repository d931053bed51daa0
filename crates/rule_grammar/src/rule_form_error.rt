ghost use Rattle.std.specs.Prelude.{◌≡◌};
ghost use Rattle.rule_grammar.specs.declared.rule_form_error.RuleFormError.TheVariants.{OutOfMemory as NoMemory};

use aerie_base::{OutOfMemory, Place};
use readers::Limit;
use thiserror::Error;

/// Why tokens are not read as rules.
#[derive(Clone, Copy, Debug, Drop, Error)]
pub enum RuleFormError {
    /// The first token that no rules go on with, or directly behind the last token where rules are not yet over.
    #[error("no rules go on at line {}, column {}", .0.line, .0.column)]
    Syntax(Place),
    /// The token that opens the level that is one too deep.
    #[error("too many {} at line {}, column {}", .limit.word(), .place.line, .place.column)]
    TooMany {
        /// The limit: that of depth.
        limit: Limit,
        /// Where the token stands.
        place: Place,
    },
    /// Memory was wanted.
    #[error("out of memory")]
    OutOfMemory,
}

impl From<OutOfMemory> for RuleFormError {
    ghost from_gives = { λ _ e. e ≡ NoMemory };

    fn from(_error: OutOfMemory) -> RuleFormError {
        RuleFormError::OutOfMemory
    }
}
