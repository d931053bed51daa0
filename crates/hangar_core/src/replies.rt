//! What a workspace answers.

ghost use Rattle.std.specs.Prelude.{◌≡◌, IfOk, IsOk, false};
ghost use Rattle.hangar_core.specs.declared.replies.Reply.TheVariants as reply;
ghost use Rattle.hangar_core.specs.Replies.{takes_memory};

use aerie_base::{OutOfMemory, Plan, Shared};
use plan_edit::EditError;
use run_data::Kept;
use std::alloc::Global;

/// What an action answers.
#[derive(Drop)]
pub enum Reply {
    /// The branch has begun.
    Opened {
        /// Its revision: 0, or one more than the last that a dropped branch of that name had.
        revision: u64,
    },
    /// The branch is gone.
    Dropped,
    /// The directive is added.
    Added {
        /// Its id.
        id: u32,
        /// The revision of the branch.
        revision: u64,
    },
    /// The plan is edited, or taken to another model.
    Edited {
        /// The revision of the branch.
        revision: u64,
    },
    /// The directives of a text are those of the plan.
    Loaded {
        /// The id of the first one.
        first: u32,
        /// How many there are.
        count: u32,
        /// The revision of the branch.
        revision: u64,
    },
    /// The branch as it is.
    Fetched {
        /// Its revision.
        revision: u64,
        /// Its plan.
        plan: Shared<Plan>,
        /// The run that is kept on it.
        kept: Option<Shared<Kept>>,
    },
    /// The run is kept.
    Attached,
    /// The plan is placed.
    Placed {
        /// The revision of the branch.
        revision: u64,
    },
    /// There is no branch of that name, or none of the name to fork from.
    NoBranch,
    /// A branch of that name is there.
    BranchExists,
    /// 64 branches are there.
    TooManyBranches,
    /// No mapping goes from the plan's model to a model of that name.
    NoMapping,
    /// The mapping has no rule for a directive's type.
    Unmapped {
        /// The directive's id.
        id: u32,
    },
    /// A `require` of a directive's new type is not true.
    Misfit {
        /// The directive's id.
        id: u32,
        /// Which `require` is the first such, from 0.
        number: u32,
    },
    /// The edit is refused; never for want of memory.
    Edit(EditError),
    /// The branch is no longer at the revision that was fetched.
    Stale {
        /// The revision that was fetched.
        seen: u64,
        /// The revision of the branch.
        now: u64,
    },
}

impl Reply {
    /// An equal reply. Only a copy of `Fetched` or of `Edit` takes memory. The plan and the run of `Fetched` are not copied: the
    /// copy is one more owner of them.
    pub fn copy(&self, alloc: Global) -> Result<Reply, OutOfMemory>
        ensures equal { IfOk result (λ copy. copy ≡ self.now) }
        ensures free { takes_memory self.now ≡ false → IsOk result }
    {
        match self {
            Reply::Opened { revision } => Ok(Reply::Opened {
                revision: *revision,
            }),
            Reply::Dropped => Ok(Reply::Dropped),
            Reply::Added { id, revision } => Ok(Reply::Added {
                id: *id,
                revision: *revision,
            }),
            Reply::Edited { revision } => Ok(Reply::Edited {
                revision: *revision,
            }),
            Reply::Loaded {
                first,
                count,
                revision,
            } => Ok(Reply::Loaded {
                first: *first,
                count: *count,
                revision: *revision,
            }),
            Reply::Fetched {
                revision,
                plan,
                kept,
            } => fetched(*revision, plan, kept),
            Reply::Attached => Ok(Reply::Attached),
            Reply::Placed { revision } => Ok(Reply::Placed {
                revision: *revision,
            }),
            Reply::NoBranch => Ok(Reply::NoBranch),
            Reply::BranchExists => Ok(Reply::BranchExists),
            Reply::TooManyBranches => Ok(Reply::TooManyBranches),
            Reply::NoMapping => Ok(Reply::NoMapping),
            Reply::Unmapped { id } => Ok(Reply::Unmapped { id: *id }),
            Reply::Misfit { id, number } => Ok(Reply::Misfit {
                id: *id,
                number: *number,
            }),
            Reply::Edit(refusal) => Ok(Reply::Edit(refusal.copy(alloc)?)),
            Reply::Stale { seen, now } => Ok(Reply::Stale {
                seen: *seen,
                now: *now,
            }),
        }
    }
}

/// What is answered of a branch as it is.
pub(crate) fn fetched(
    revision: u64,
    plan: &Shared<Plan>,
    kept: &Option<Shared<Kept>>,
) -> Result<Reply, OutOfMemory>
    ensures { IfOk result (λ made. made ≡ reply.Fetched revision plan.now kept.now) }
{
    let plan = plan.share()?;
    let kept = share_run(kept)?;
    Ok(Reply::Fetched {
        revision,
        plan,
        kept,
    })
}

/// One more owner of a run that is kept, where one is.
pub(crate) fn share_run(kept: &Option<Shared<Kept>>) -> Result<Option<Shared<Kept>>, OutOfMemory>
    ensures { IfOk result (λ shared. shared ≡ kept.now) }
{
    match kept {
        Some(kept) => Ok(Some(kept.share()?)),
        None => Ok(None),
    }
}
