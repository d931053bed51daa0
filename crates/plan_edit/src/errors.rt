//! Why plans are not edited.

ghost use Rattle.std.specs.Prelude.{◌≡◌, IfOk};
ghost use Rattle.plan_edit.specs.declared.errors.EditError.TheVariants.{OutOfMemory as NoMemory};
ghost use Rattle.plan_edit.specs.declared.errors.MigrateError.TheVariants.{OutOfMemory as NoMemoryToMigrate};

use aerie_base::{Name, OutOfMemory};
use std::alloc::Global;
use thiserror::Error;

/// Why a plan is not edited. Of several causes the first in this order is told, and the plan is as it was.
#[derive(Debug, Drop, Error)]
pub enum EditError {
    /// No directive of the plan has the id.
    #[error("no such directive")]
    NoDirective,
    /// The model has no activity type of that name.
    #[error("no such activity type")]
    UnknownType,
    /// The first given argument that names no parameter, is given for the second time or has not the parameter's type; or
    /// else the first parameter without a default that is not given.
    #[error("a bad argument")]
    BadArgument {
        /// Its name.
        parameter: Name,
    },
    /// A `require` of the activity type is not true, or faults.
    #[error("require {number} is not true")]
    Invalid {
        /// Which is the first such, from 0.
        number: u32,
    },
    /// The start is not below the plan's duration.
    #[error("outside the plan")]
    OutsidePlan,
    /// The plan would have more than 65,536 directives, or a next id above 4,294,967,295.
    #[error("too many directives")]
    TooMany,
    /// The text is no plan in JSON.
    #[error("not a plan")]
    NotAPlan,
    /// Memory was wanted.
    #[error("out of memory")]
    OutOfMemory,
    /// The directive would be anchored to none of the plan.
    #[error("no such anchor")]
    NoAnchor,
    /// Following anchors from the directive would return to it.
    #[error("a cycle of anchors")]
    Cycle,
    /// Another directive is anchored to this one.
    #[error("directive {by} is anchored to it")]
    Anchored {
        /// The least id of such a directive.
        by: u32,
    },
}

impl EditError {
    /// An equal error.
    pub fn copy(&self, alloc: Global) -> Result<EditError, OutOfMemory>
        ensures { IfOk result (λ copy. copy ≡ self.now) }
    {
        match self {
            EditError::NoDirective => Ok(EditError::NoDirective),
            EditError::UnknownType => Ok(EditError::UnknownType),
            EditError::BadArgument { parameter } => Ok(EditError::BadArgument {
                parameter: parameter.copy(alloc)?,
            }),
            EditError::Invalid { number } => Ok(EditError::Invalid { number: *number }),
            EditError::OutsidePlan => Ok(EditError::OutsidePlan),
            EditError::TooMany => Ok(EditError::TooMany),
            EditError::NotAPlan => Ok(EditError::NotAPlan),
            EditError::OutOfMemory => Ok(EditError::OutOfMemory),
            EditError::NoAnchor => Ok(EditError::NoAnchor),
            EditError::Cycle => Ok(EditError::Cycle),
            EditError::Anchored { by } => Ok(EditError::Anchored { by: *by }),
        }
    }
}

impl From<OutOfMemory> for EditError {
    ghost from_gives = { λ _ e. e ≡ NoMemory };

    fn from(_error: OutOfMemory) -> EditError {
        EditError::OutOfMemory
    }
}

impl From<OutOfMemory> for MigrateError {
    ghost from_gives = { λ _ e. e ≡ NoMemoryToMigrate };

    fn from(_error: OutOfMemory) -> MigrateError {
        MigrateError::OutOfMemory
    }
}

/// Why a plan is not taken to another model: for the directive with the least id for which there is a cause.
#[derive(Clone, Copy, Debug, PartialEq, Eq, Drop, Error)]
pub enum MigrateError {
    /// No rule is for the type of this directive.
    #[error("no rule for directive {id}")]
    Unmapped {
        /// Its id.
        id: u32,
    },
    /// A `require` of this directive's new type is not true, or faults.
    #[error("require {number} of directive {id} is not true")]
    Misfit {
        /// Its id.
        id: u32,
        /// Which `require` is the first such, from 0.
        number: u32,
    },
    /// Memory was wanted.
    #[error("out of memory")]
    OutOfMemory,
}
