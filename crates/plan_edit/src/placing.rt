//! Where a directive may stand.

ghost use Rattle.std.specs.Prelude.{◌≡◌, Some};
ghost use Rattle.aerie_base.specs.plans.OfModel.{is_dangling as is_dangling_by, is_id_of, is_there as is_there_by, Rise};
ghost use Rattle.plan_edit.specs.Editing.{is_full as is_full_by, is_outside as is_outside_by};

use aerie_base::{Anchor, Plan, Time, position_in_plan};

/// The most directives of a plan.
const MOST_DIRECTIVES: usize = 65_536;

/// The greatest id that a plan's next directive can have.
const LAST_ID: u32 = 4_294_967_295;

/// Whether a start is none within the plan.
pub fn is_outside(plan: &Plan, start: Time) -> bool
    ensures { result ≡ is_outside_by plan.now start }
{
    !(start.get() < plan.duration.get())
}

/// Whether the plan can have no directive more: for their number, or for want of a next id.
pub fn is_full(plan: &Plan) -> bool
    ensures { result ≡ is_full_by plan.now }
{
    !(plan.directives.len() < MOST_DIRECTIVES) || !(plan.next_id < LAST_ID)
}

/// Whether an anchor is to no directive of the plan.
pub fn is_dangling(plan: &Plan, anchor: Option<Anchor>) -> bool
    requires rising { Rise plan.now.directives }
    ensures { result ≡ is_dangling_by (is_id_of plan.now.directives) anchor }
{
    match anchor {
        Some(anchor) => !is_there(plan, anchor.to),
        None => false,
    }
}

/// Whether a directive of the plan has the id.
fn is_there(plan: &Plan, id: u32) -> bool
    requires rising { Rise plan.now.directives }
    ensures { result ≡ is_there_by plan.now.directives (Some id) }
{
    position_in_plan(plan.directives.as_slice(), id).is_some()
}
