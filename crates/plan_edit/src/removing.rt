//! Directives are removed.

ghost use Rattle.std.specs.Prelude.{◌≡◌, Ok, Err, IfErr, OnOk, OnErr, find, option_map};
ghost use Rattle.aerie_base.specs.declared.models.model.Parts.{Parts};
ghost use Rattle.aerie_base.specs.declared.plans.Directive.{Directive as Shown};
ghost use Rattle.aerie_base.specs.plans.OfModel.{IsPlanOf, Rise};
ghost use Rattle.plan_edit.specs.Editing.{is_anchored_to as is_anchored, remove_of};

use crate::errors::EditError;
use aerie_base::{Directive, Plan, position_in_plan};

/// Removes the directive with an id. It refuses with `NoDirective` where there is none, and with `Anchored` where another
/// directive is anchored to it. It takes no memory, and one pass over the directives.
pub fn remove(plan: &mut Plan, id: u32) -> Result<(), EditError>
    requires rising { Rise plan.old.directives }
    ensures edited { OnOk result (remove_of plan.old id ≡ Ok plan.new) }
    ensures refused { IfErr result (λ refusal. remove_of plan.old id ≡ Err refusal) }
    ensures unchanged { OnErr result (plan.new ≡ plan.old) }
    ensures stays { (model : Parts) → IsPlanOf model plan.old → IsPlanOf model plan.new }
{
    let at = match position_in_plan(plan.directives.as_slice(), id) {
        Some(at) => at,
        None => return Err(EditError::NoDirective),
    };
    if let Some(by) = anchored_by(plan.directives.as_slice(), id) {
        return Err(EditError::Anchored { by });
    }
    plan.directives.items.remove(at);
    Ok(())
}

/// The id of the first directive that is anchored to the one with an id.
fn anchored_by(directives: &[Directive], id: u32) -> Option<u32>
    ensures { result ≡ option_map (λ (found : Shown). found.id) (find (is_anchored id) directives.now) }
{
    for directive in directives {
        if is_anchored_to(directive, id) {
            return Some(directive.id);
        }
    }
    None
}

/// Whether a directive is anchored to the one with an id.
fn is_anchored_to(directive: &Directive, id: u32) -> bool
    ensures { result ≡ is_anchored id directive.now }
{
    match directive.anchor {
        Some(anchor) => anchor.to == id,
        None => false,
    }
}
