//! Why a model is refused.

ghost use Rattle.std.specs.Prelude.{◌≡◌};
ghost use Rattle.model_check.specs.declared.check_error.CheckError.TheVariants.{OutOfMemory as NoMemory};

use aerie_base::{OutOfMemory, Place, Text};
use thiserror::Error;

/// Why a model as it is written means no valid model: what of it is refused first in the text, and at one place what has
/// the smaller number in this order.
#[derive(Debug, Drop, Error)]
pub enum CheckError {
    /// A name that names nothing of the sort that may stand there.
    #[error("unknown name at line {}, column {}", .0.line, .0.column)]
    Unknown(Place),
    /// The later of two equal names, or an argument that is given twice.
    #[error("name used before at line {}, column {}", .0.line, .0.column)]
    Duplicate(Place),
    /// The first token of what has another type than is needed, or a name of another kind than may stand there.
    #[error("wrong type at line {}, column {}", .0.line, .0.column)]
    WrongType(Place),
    /// The first token of a part that may not stand in a condition or in a linear form.
    #[error("not linear at line {}, column {}", .0.line, .0.column)]
    NotLinear(Place),
    /// The first token of a coefficient above 1,000,000 in magnitude, or of an initial rate above 10^12.
    #[error("out of range at line {}, column {}", .0.line, .0.column)]
    OutOfRange(Place),
    /// A `let` more than a body may have, or a term more than a linear form may have.
    #[error("too many {} at line {}, column {}", .what.as_str(), .place.line, .place.column)]
    TooMany {
        /// The limit: `locals` or `terms`.
        what: Text,
        /// Where the `let` or the term stands.
        place: Place,
    },
    /// Memory was wanted.
    #[error("out of memory")]
    OutOfMemory,
}

impl From<OutOfMemory> for CheckError {
    ghost from_gives = { λ _ e. e ≡ NoMemory };

    fn from(_error: OutOfMemory) -> CheckError {
        CheckError::OutOfMemory
    }
}
