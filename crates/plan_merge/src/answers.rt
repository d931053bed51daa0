//! What a merge answers.

ghost use Rattle.std.specs.Prelude.{◌≡◌};
ghost use Rattle.plan_merge.specs.declared.answers.MergeError.TheVariants.{OutOfMemory as NoMemory};

use aerie_base::{List, OutOfMemory, Plan};
use thiserror::Error;

/// A merged plan.
#[derive(Debug, Drop)]
pub struct Merged {
    /// The target, with what the source did since the base.
    pub plan: Plan,
    /// The ids that the directives new in the source got, rising.
    pub added: List<u32>,
}

/// Why a directive could not be merged.
#[derive(Clone, Copy, Debug, PartialEq, Eq, Drop)]
pub enum ConflictKind {
    /// Source and target changed it, and not to the same.
    Both,
    /// One of source and target removed it, and the other changed it.
    Removed,
    /// It would be anchored to a directive that the merged plan has not.
    Anchor,
    /// Following anchors from it would return to it.
    Cycle,
}

/// A directive that could not be merged.
#[derive(Clone, Copy, Debug, PartialEq, Eq, Drop)]
pub struct Conflict {
    /// Its id, that of a directive new in the source being the one it would have got, which may be above 4,294,967,295.
    pub id: u64,
    /// Why.
    pub kind: ConflictKind,
}

/// Why plans were not merged.
#[derive(Debug, Drop, Error)]
pub enum MergeError {
    /// These directives could not be merged, at least one, in order of id.
    #[error("{} conflicts", .0.len())]
    Conflicts(List<Conflict>),
    /// There is no conflict, and the merged plan would have more than 65,536 directives, or a next id above 4,294,967,295.
    #[error("the merged plan would have too many directives")]
    TooMany,
    /// Memory was wanted.
    #[error("out of memory")]
    OutOfMemory,
}

impl From<OutOfMemory> for MergeError {
    ghost from_gives = { λ _ e. e ≡ NoMemory };

    fn from(_error: OutOfMemory) -> MergeError {
        MergeError::OutOfMemory
    }
}
