ghost use Rattle.std.specs.Prelude.{◌≡◌};
ghost use Rattle.model_reader.specs.declared.read_error.ReadError.TheVariants.{OutOfMemory as NoMemory};

use aerie_base::{OutOfMemory, Place, Text};
use thiserror::Error;

/// Why no model was read.
#[derive(Debug, Drop, Error)]
pub enum ReadError {
    /// The first token that no model goes on with, or the end of the text where a model is not yet over.
    #[error("no model goes on at line {}, column {}", .0.line, .0.column)]
    Syntax(Place),
    /// The first token of what is one too many, or that opens the level that is one too deep.
    #[error("too many {} at line {}, column {}", .what.as_str(), .place.line, .place.column)]
    TooMany {
        /// The limit.
        what: Text,
        /// Where the token stands.
        place: Place,
    },
    /// Memory was wanted.
    #[error("out of memory")]
    OutOfMemory,
}

impl From<OutOfMemory> for ReadError {
    ghost from_gives = { λ _ e. e ≡ NoMemory };

    fn from(_error: OutOfMemory) -> ReadError {
        ReadError::OutOfMemory
    }
}
