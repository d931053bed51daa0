//! Edits of plans are performed, and told of.

ghost use Rattle.aerie_base.specs.plans.OfModel.{IsPlanOf};
ghost use Rattle.hangar_core.specs.Edits.{IsEdited};

use crate::replies::Reply;
use aerie_base::{Model, Plan};
use commands::Edit;
use plan_edit::{EditError, add, move_to, read_plan_json, remove, set_argument};
use std::alloc::Global;

/// Edits a plan in place, and answers what tells of it with a revision.
pub fn perform(
    alloc: Global,
    model: &Model,
    plan: &mut Plan,
    edit: &Edit,
    revision: u64,
) -> Result<Reply, EditError>
    requires plan { IsPlanOf model.now plan.old }
    ensures { IsEdited edit.now model.now revision plan.old plan.new result }
{
    match edit {
        Edit::Add {
            at,
            kind,
            arguments,
        } => {
            let id = add(alloc, model, plan, *at, kind, arguments.as_slice())?;
            Ok(Reply::Added { id, revision })
        }
        Edit::Remove { id } => {
            remove(plan, *id)?;
            Ok(Reply::Edited { revision })
        }
        Edit::Move { id, at } => {
            move_to(plan, *id, *at)?;
            Ok(Reply::Edited { revision })
        }
        Edit::Set {
            id,
            parameter,
            value,
        } => {
            set_argument(alloc, model, plan, *id, parameter, value)?;
            Ok(Reply::Edited { revision })
        }
        Edit::Load { text } => {
            let (first, count) = read_plan_json(alloc, model, plan, text.as_str())?;
            Ok(Reply::Loaded {
                first,
                count,
                revision,
            })
        }
    }
}
