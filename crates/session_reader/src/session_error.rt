//! Why a text is no session.

ghost use Rattle.std.specs.Prelude.{◌≡◌};
ghost use Rattle.session_reader.specs.declared.session_error.SessionError.TheVariants.{OutOfMemory as NoMemory};

use aerie_base::{OutOfMemory, Place, Text};
use dataset_in::DatasetError;
use model_check::CheckError;
use plan_edit::EditError;
use thiserror::Error;

/// Why a text is no session. It is judged in this order over the whole text: its size, its bytes, its form and limits by the
/// first place, the models' own checks, the names of models, mappings, datasets and sections and the beginnings of the plan
/// section by the first place, the start and other instants by the first place, the directives of the plan section, the names of
/// clients, and the datasets.
#[derive(Debug, Drop, Error)]
pub enum SessionError {
    /// It has more than 16,777,216 bytes.
    #[error("too large")]
    TooLarge,
    /// It is no UTF-8.
    #[error("no text at byte {at}")]
    NotText {
        /// The offset of the first byte that does not belong to valid UTF-8.
        at: usize,
    },
    /// The first token up to which, and with it, nothing in the form of a session can be read; or the end.
    #[error("syntax at line {}, column {}", .0.line, .0.column)]
    Syntax(Place),
    /// A limit is passed.
    #[error("too many {} at line {}, column {}", .what.as_str(), .place.line, .place.column)]
    TooMany {
        /// The limit.
        what: Text,
        /// The first token of the part that is one too many.
        place: Place,
    },
    /// A model does not pass its checks, or a name in a mapping, a dataset or a section, or a beginning of the plan section is
    /// refused. It is never want of memory.
    #[error("check: {0}")]
    Check(CheckError),
    /// The text at the place is no start of a plan, and no instant at which a directive could start.
    #[error("no start at line {}, column {}", .0.line, .0.column)]
    Start(Place),
    /// A directive of the plan section is refused.
    #[error("directive {number}: {edit}")]
    Directive {
        /// Which is the first such, from 0.
        number: u32,
        /// Why it is refused. It is never want of memory.
        edit: EditError,
    },
    /// The first name of a client that an earlier one has.
    #[error("client used before at line {}, column {}", .0.line, .0.column)]
    Client(Place),
    /// A dataset is refused.
    #[error("dataset {number}: {fault}")]
    Dataset {
        /// Which is the first such, from 0.
        number: u32,
        /// Why it is refused. It is never want of memory.
        fault: DatasetError,
    },
    /// Memory was wanted.
    #[error("out of memory")]
    OutOfMemory,
}

impl From<OutOfMemory> for SessionError {
    ghost from_gives = { λ _ e. e ≡ NoMemory };

    fn from(_error: OutOfMemory) -> SessionError {
        SessionError::OutOfMemory
    }
}
