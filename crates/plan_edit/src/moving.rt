//! Directives are moved.

ghost use Rattle.std.specs.Prelude.{◌≡◌, Ok, Err, IfErr, OnOk, OnErr, length};
ghost use Rattle.aerie_base.specs.declared.models.model.Parts.{Parts};
ghost use Rattle.aerie_base.specs.plans.OfModel.{IsPlanOf, anchor_of as anchor_by, anchored_to, Rise};
ghost use Rattle.plan_edit.specs.Editing.{leads_to as leads_to_by, move_of, reaches_within};

use crate::changing::put_when;
use crate::errors::EditError;
use crate::placing::{is_dangling, is_outside};
use aerie_base::{Anchor, Directive, Plan, When, position_in_plan};

/// Gives the directive with an id another start. It refuses with `NoDirective`, `OutsidePlan`, `NoAnchor` or `Cycle`,
/// whichever comes first in this order. It takes no memory, and a search by halves for each anchor that it follows.
pub fn move_to(plan: &mut Plan, id: u32, to: When) -> Result<(), EditError>
    requires rising { Rise plan.old.directives }
    ensures edited { OnOk result (move_of plan.old id to ≡ Ok plan.new) }
    ensures refused { IfErr result (λ refusal. move_of plan.old id to ≡ Err refusal) }
    ensures unchanged { OnErr result (plan.new ≡ plan.old) }
    ensures stays { (model : Parts) → IsPlanOf model plan.old → IsPlanOf model plan.new }
{
    let at = match position_in_plan(plan.directives.as_slice(), id) {
        Some(at) => at,
        None => return Err(EditError::NoDirective),
    };
    if is_outside(plan, to.start) {
        return Err(EditError::OutsidePlan);
    }
    if is_dangling(plan, to.anchor) {
        return Err(EditError::NoAnchor);
    }
    if leads_to(plan, id, to.anchor) {
        return Err(EditError::Cycle);
    }
    put_when(&mut plan.directives, at, to);
    Ok(())
}

/// Whether following anchors from an anchor reaches the id.
fn leads_to(plan: &Plan, id: u32, anchor: Option<Anchor>) -> bool
    requires rising { Rise plan.now.directives }
    ensures { result ≡ leads_to_by plan.now id anchor }
{
    match anchor {
        Some(anchor) => reaches(plan.directives.as_slice(), id, anchor.to),
        None => false,
    }
}

/// Whether following anchors from an id reaches another one.
fn reaches(directives: &[Directive], id: u32, from: u32) -> bool
    requires rising { Rise directives.now }
    ensures { result ≡ reaches_within directives.now id (length directives.now) from }
{
    let mut here = from;
    for _step in 0..directives.len() {
        if here == id {
            return true;
        }
        match anchor_of(directives, here) {
            Some(next) => here = next,
            None => return false,
        }
    }
    here == id
}

/// The id to which the directive with an id is anchored.
fn anchor_of(directives: &[Directive], id: u32) -> Option<u32>
    requires rising { Rise directives.now }
    ensures { result ≡ anchor_by directives.now id }
{
    match position_in_plan(directives, id) {
        Some(at) => anchored_to(&directives[at]),
        None => None,
    }
}

/// The id to which a directive is anchored.
fn anchored_to(directive: &Directive) -> Option<u32>
    ensures { result ≡ anchored_to directive.now }
{
    match directive.anchor {
        Some(anchor) => Some(anchor.to),
        None => None,
    }
}
