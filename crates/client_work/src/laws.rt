//! Laws, each the promise of a function.

ghost use Rattle.client_work.specs.laws.BranchIds.{NoIdIsUsedAgain};
ghost use Rattle.client_work.specs.laws.ClientsWork.{ToldWorksAreDone};

use hangar_core::laws::{branches_are_isolated, revisions_name_plans};
use scheduler::laws::schedules_only_add;

/// Commands of which `work` tells a text were done with the pass, one after another.
pub fn told_works_are_done()
    ensures { ToldWorksAreDone }
{}

/// No id of a branch is used again: along a journal that fits the commands of clients, as long as the branch stands, the next id of
/// its plan never falls, and of the ids below an earlier next id it has none but those that it had then.
pub fn no_id_is_used_again()
    ensures { NoIdIsUsedAgain }
{
    revisions_name_plans();
    branches_are_isolated();
    schedules_only_add();
}
