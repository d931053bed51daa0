//! What a Fetch gives.

ghost use Rattle.std.specs.Prelude.{◌≡◌};
ghost use Rattle.client_work.specs.Fetching.{fetched_by};

use aerie_base::{Plan, Shared};
use hangar_core::Reply;
use run_data::Kept;

/// A branch as it was fetched.
#[derive(Drop)]
pub(crate) struct FetchedBranch {
    /// Its revision.
    pub(crate) revision: u64,
    /// Its plan.
    pub(crate) plan: Shared<Plan>,
    /// The run that was kept on it.
    pub(crate) kept: Option<Shared<Kept>>,
}

/// The branch that a reply to a Fetch gives, or the refusal.
pub(crate) fn fetched(reply: Reply) -> Result<FetchedBranch, Reply>
    ensures { result ≡ fetched_by reply }
{
    match reply {
        Reply::Fetched {
            revision,
            plan,
            kept,
        } => Ok(FetchedBranch {
            revision,
            plan,
            kept,
        }),
        refusal => Err(refusal),
    }
}
