ghost use Rattle.std.specs.Prelude.{◌≡◌};
ghost use Rattle.dataset_in.specs.declared.dataset_error.DatasetError.TheVariants.{OutOfMemory as NoMemory};

use aerie_base::OutOfMemory;
use thiserror::Error;

/// Why a text is no dataset. Of several causes the first in this order is told.
#[derive(Clone, Copy, Debug, PartialEq, Eq, Drop, Error)]
pub enum DatasetError {
    /// It is no JSON object of a kind and a list of segments alone, or a segment is no list of as many parts as the kind
    /// has.
    #[error("not a dataset")]
    NotADataset,
    /// There are more than 10,000 segments.
    #[error("more than 10,000 segments")]
    TooMany,
    /// The first segment, counted from 0, that does not begin at 0 or after the one before it and at 10^15 microseconds at
    /// most, or whose value or rate is not of its kind and range. Where there is no segment, the first one is missing.
    #[error("segment {number} is bad")]
    BadSegment { number: u32 },
    /// Memory was wanted.
    #[error("out of memory")]
    OutOfMemory,
}

impl From<OutOfMemory> for DatasetError {
    ghost from_gives = { λ _ e. e ≡ NoMemory };

    fn from(_error: OutOfMemory) -> DatasetError {
        DatasetError::OutOfMemory
    }
}
