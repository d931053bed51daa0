//! Directives get other arguments.

ghost use Rattle.std.specs.Prelude.{◌≡◌, ◌<◌, IsTrue, Ok, IfErr, OnOk, OnErr, slice_get, slice_set, length};
ghost use Rattle.aerie_base.specs.models.ValidModel.{valid_model};
ghost use Rattle.aerie_base.specs.plans.OfModel.{IsPlanOf, takes};
ghost use Rattle.plan_edit.specs.Answers.{IsMade, IsRefusal};
ghost use Rattle.plan_edit.specs.Editing.{arguments_set_for as arguments_set_by, set_of};

use crate::adding::if_met;
use crate::arguments::{parameter_position, value_for};
use crate::changing::put_arguments;
use crate::errors::EditError;
use crate::items::item_at;
use aerie_base::{List, Model, Name, Plan, RawValue, Value, copy_list, position_in_plan};
use std::alloc::Global;

/// Gives the directive with an id another value of one argument. It refuses with `NoDirective`, `BadArgument` or
/// `Invalid`, whichever comes first in this order.
pub fn set_argument(
    alloc: Global,
    model: &Model,
    plan: &mut Plan,
    id: u32,
    parameter: &Name,
    value: &RawValue,
) -> Result<(), EditError>
    requires plan { IsPlanOf model.now plan.old }
    ensures edited { OnOk result (set_of model.now plan.old id parameter.now value.now ≡ Ok plan.new) }
    ensures refused { IfErr result (IsRefusal (set_of model.now plan.old id parameter.now value.now)) }
    ensures unchanged { OnErr result (plan.new ≡ plan.old) }
    ensures plan { IsPlanOf model.now plan.new }
{
    let at = match position_in_plan(plan.directives.as_slice(), id) {
        Some(at) => at,
        None => return Err(EditError::NoDirective),
    };
    let directive = &plan.directives.as_slice()[at];
    let arguments = arguments_set(
        alloc,
        model,
        directive.kind,
        &directive.arguments,
        parameter,
        value,
    )?;
    put_arguments(&mut plan.directives, at, arguments);
    Ok(())
}

/// The arguments of a directive with another value of one of them.
fn arguments_set(
    alloc: Global,
    model: &Model,
    kind: u16,
    arguments: &List<Value>,
    parameter: &Name,
    value: &RawValue,
) -> Result<List<Value>, EditError>
    requires { IsTrue (takes model.now.enums (slice_get model.now.activities kind) arguments.now) }
    ensures made { IsMade (arguments_set_by model.now arguments.now parameter.now value.now kind) result }
    ensures valid { IsTrue (valid_model model.now) }
{
    let activity = match item_at(model.activities(), usize::from(kind)) {
        Some(activity) => activity,
        None => return Err(EditError::UnknownType),
    };
    let parameters = activity.parameters.as_slice();
    match (
        parameter_position(parameters, parameter),
        value_for(model, parameters, parameter, value),
    ) {
        (Some(position), Some(value)) => {
            let values = copy_list(alloc, arguments)?;
            if_met(activity, with_value(values, position, value))
        }
        _ => Err(EditError::BadArgument {
            parameter: parameter.copy(alloc)?,
        }),
    }
}

/// Values with another one at a position.
fn with_value(values: List<Value>, position: usize, value: Value) -> List<Value>
    requires { position < length values }
    ensures { result ≡ slice_set values position value }
{
    let mut values = values;
    values.items[position] = value;
    values
}
