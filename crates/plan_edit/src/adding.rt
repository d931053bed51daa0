//! Directives are added.

ghost use Rattle.std.specs.Prelude.{◌≡◌, ◌<◌, ◌≤◌, IsTrue, Ok, IfOk, IfErr, IfSome, OnOk, OnErr, length, slice_get};
ghost use Rattle.std.specs.List.{list_all};
ghost use Rattle.aerie_base.specs.models.Limits.{require_limit};
ghost use Rattle.aerie_base.specs.models.ValidModel.{valid_model};
ghost use Rattle.aerie_base.specs.plans.OfModel.{IsPlanOf, Rise};
ghost use Rattle.plan_edit.specs.Answers.{IsMade, IsRefusal};
ghost use Rattle.plan_edit.specs.Editing.{add_of, directive_added, given_of as given_by, given_to as given_to_by, if_met as if_met_by, directive_placed as placed_by, type_position as type_position_by, with_added};
ghost use Rattle.plan_edit.specs.Requires.{is_typed_for};

use crate::arguments::{Given, arguments_of};
use crate::errors::EditError;
use crate::placing::{is_dangling, is_full, is_outside};
use crate::unmet::first_unmet;
use aerie_base::{
    Activity, Directive, List, Model, Name, OutOfMemory, Plan, RawArgument, Value, When,
};
use std::alloc::Global;

/// Adds a directive of a type with arguments, and answers its id, which is the plan's next id. It refuses with
/// `UnknownType`, `BadArgument`, `Invalid`, `OutsidePlan`, `TooMany` or `NoAnchor`, whichever comes first in this order.
/// It takes a push and a search by halves, whatever the plan's size.
pub fn add(
    alloc: Global,
    model: &Model,
    plan: &mut Plan,
    at: When,
    kind: &Name,
    arguments: &[RawArgument],
) -> Result<u32, EditError>
    requires plan { IsPlanOf model.now plan.old }
    ensures edited { OnOk result (add_of model.now plan.old at kind.now arguments.now ≡ Ok plan.new) }
    ensures id { IfOk result (λ id. id ≡ plan.old.next_id) }
    ensures refused { IfErr result (IsRefusal (add_of model.now plan.old at kind.now arguments.now)) }
    ensures unchanged { OnErr result (plan.new ≡ plan.old) }
    ensures plan { IsPlanOf model.now plan.new }
{
    let directive = new_directive(alloc, model, plan, at, kind, arguments)?;
    let id = directive.id;
    push(plan, directive)?;
    Ok(id)
}

/// Puts a directive with the next id behind the others.
fn push(plan: &mut Plan, directive: Directive) -> Result<(), OutOfMemory>
    requires { plan.old.next_id < 4_294_967_295 }
    ensures pushed { OnOk result (plan.new ≡ with_added plan.old directive) }
    ensures unchanged { OnErr result (plan.new ≡ plan.old) }
{
    plan.directives.push(directive)?;
    plan.next_id += 1;
    Ok(())
}

/// The directive that is to be added.
fn new_directive(
    alloc: Global,
    model: &Model,
    plan: &Plan,
    at: When,
    kind: &Name,
    arguments: &[RawArgument],
) -> Result<Directive, EditError>
    requires rising { Rise plan.now.directives }
    ensures made { IsMade (directive_added model.now plan.now at kind.now arguments.now) result }
    ensures valid { IsTrue (valid_model model.now) }
{
    let given = given_of(alloc, model, kind, arguments)?;
    placed(plan, at, given)
}

/// The next directive of the plan, where it may stand there.
fn placed(plan: &Plan, at: When, given: Given) -> Result<Directive, EditError>
    requires rising { Rise plan.now.directives }
    ensures { IsMade (placed_by plan.now at given) result }
{
    if is_outside(plan, at.start) {
        return Err(EditError::OutsidePlan);
    }
    if is_full(plan) {
        return Err(EditError::TooMany);
    }
    if is_dangling(plan, at.anchor) {
        return Err(EditError::NoAnchor);
    }
    Ok(Directive {
        id: plan.next_id,
        start: at.start,
        anchor: at.anchor,
        kind: given.kind,
        arguments: given.arguments,
    })
}

/// The type with a name and the values of its arguments.
pub fn given_of(
    alloc: Global,
    model: &Model,
    name: &Name,
    arguments: &[RawArgument],
) -> Result<Given, EditError>
    ensures made { IsMade (given_by model.now name.now arguments.now) result }
    ensures valid { IsTrue (valid_model model.now) }
{
    match type_position(model, name) {
        Some(kind) => given_to(alloc, model, kind, arguments),
        None => Err(EditError::UnknownType),
    }
}

/// The position of the activity type with a name.
fn type_position(model: &Model, name: &Name) -> Option<usize>
    ensures position { result ≡ type_position_by model.now name.now }
    ensures within { IfSome result (λ kind. kind < length model.now.activities) }
    ensures valid { IsTrue (valid_model model.now) }
{
    model
        .activities()
        .iter()
        .position(|activity| activity.name == *name)
}

/// A type with the values of its arguments.
fn given_to(
    alloc: Global,
    model: &Model,
    kind: usize,
    arguments: &[RawArgument],
) -> Result<Given, EditError>
    requires { kind < length model.now.activities }
    ensures { IsMade (given_to_by model.now kind arguments.now (slice_get model.now.activities kind)) result }
{
    let activity = &model.activities()[kind];
    let values = arguments_of(alloc, model, activity.parameters.as_slice(), arguments)?;
    let arguments = if_met(activity, values)?;
    Ok(Given {
        kind: kind as u16,
        arguments,
    })
}

/// Values of a type's parameters, where they meet its `require`s.
pub fn if_met(activity: &Activity, values: List<Value>) -> Result<List<Value>, EditError>
    requires typed { IsTrue (list_all (is_typed_for values) activity.now.requires_) }
    requires few { length activity.now.requires_ ≤ require_limit }
    ensures { IsMade (if_met_by activity.now values) result }
{
    match first_unmet(activity.requires_.as_slice(), values.as_slice()) {
        Some(number) => Err(EditError::Invalid { number }),
        None => Ok(values),
    }
}
