//! The plan section's directives are added to a plan.

ghost use Rattle.std.specs.Prelude.{◌≡◌, ◌≤◌, ◌+◌, Ok, IfOk, IfErr, OnOk, length};
ghost use Rattle.aerie_base.specs.declared.models.model.Parts.{Parts};
ghost use Rattle.aerie_base.specs.plans.OfModel.{IsPlanOf};
ghost use Rattle.plan_edit.specs.Answers.{IsRefusal as IsEditRefusal};
ghost use Rattle.session_reader.specs.Answers.{IsMade, IsRefusal};
ghost use Rattle.session_reader.specs.WellFormed.{IsPlanOfFirst};
ghost use Rattle.commands.specs.SessionModels.{empty_plan as empty_plan_by};
ghost use Rattle.session_reader.specs.PlanSections.{edit_refusal, edited_by, directive_added, directives_added, plan_answer};

use crate::session_error::SessionError;
use crate::times::when;
use aerie_base::{List, Model, Plan, Shared, Time};
use epoch_text::Start;
use plan_edit::{EditError, add};
use session_grammar::{RawDirective, RawPlan};
use std::alloc::Global;

/// A plan of the first model, without directives.
fn empty_plan(alloc: Global, duration: Time) -> Plan
    requires lasts { 1 ≤ duration }
    ensures made { result ≡ empty_plan_by duration }
    ensures plan { (model : Parts) → IsPlanOf model result }
{
    Plan {
        model: 0,
        duration,
        next_id: 1,
        directives: List::new(alloc),
    }
}

/// The refusal of the directive of this number.
fn refusal(number: u32, edit: EditError) -> SessionError
    ensures { result ≡ edit_refusal number edit }
{
    match edit {
        EditError::OutOfMemory => SessionError::OutOfMemory,
        edit => SessionError::Directive { number, edit },
    }
}

/// Adds a directive as it is written.
fn add_raw(
    alloc: Global,
    start: Start,
    model: &Model,
    plan: &mut Plan,
    raw: &RawDirective,
) -> Result<(), EditError>
    requires plan { IsPlanOf model.now plan.old }
    ensures added { OnOk result (edited_by start model.now plan.old raw.now ≡ Ok plan.new) }
    ensures refused { IfErr result (IsEditRefusal (edited_by start model.now plan.old raw.now)) }
    ensures plan { IsPlanOf model.now plan.new }
{
    let at = when(start, &raw.at);
    let arguments = raw.given.arguments.as_slice();
    match add(alloc, model, plan, at, &raw.given.kind, arguments) {
        Ok(_) => Ok(()),
        Err(edit) => Err(edit),
    }
}

/// Adds the directive of this number.
#[tactic(auto, using(crate::proofs::Refusals::edit_made))]
fn add_directive(
    alloc: Global,
    start: Start,
    model: &Model,
    number: u32,
    plan: &mut Plan,
    raw: &RawDirective,
) -> Result<(), SessionError>
    requires plan { IsPlanOf model.now plan.old }
    ensures added { OnOk result (directive_added start model.now number plan.old raw.now ≡ Ok plan.new) }
    ensures next { OnOk result (plan.new.next_id ≡ plan.old.next_id + 1) }
    ensures number { OnOk result (plan.new.model ≡ plan.old.model) }
    ensures refused { IfErr result (IsRefusal (directive_added start model.now number plan.old raw.now)) }
    ensures plan { IsPlanOf model.now plan.new }
{
    match add_raw(alloc, start, model, plan, raw) {
        Ok(()) => Ok(()),
        Err(edit) => Err(refusal(number, edit)),
    }
}

/// Adds directives to the plan without any.
fn with_directives(
    alloc: Global,
    start: Start,
    model: &Model,
    empty: Plan,
    raw: &[RawDirective],
) -> Result<Plan, SessionError>
    requires plan { IsPlanOf model.now empty }
    requires first { empty.next_id ≡ 1 }
    ensures made { IsMade (directives_added start model.now 0 empty raw.now) result }
    ensures plan { IfOk result (IsPlanOf model.now) }
    ensures number { IfOk result (λ plan. plan.model ≡ empty.model) }
{
    let mut plan = empty;
    for directive in raw {
        let number = plan.next_id - 1;
        add_directive(alloc, start, model, number, &mut plan, directive)?;
    }
    Ok(plan)
}

/// The plan of a plan section, with its start. It takes one pass over the directives.
pub(crate) fn plan(
    alloc: Global,
    start: Start,
    models: &[Shared<Model>],
    raw: &RawPlan,
) -> Result<Plan, SessionError>
    requires lasts { 1 ≤ raw.now.duration }
    requires some_model { 1 ≤ length models.now }
    ensures made { IsMade (plan_answer start models.now raw.now) result }
    ensures plan { IfOk result (IsPlanOfFirst models.now) }
{
    let model = &models[0];
    let empty = empty_plan(alloc, raw.duration);
    with_directives(alloc, start, model.get(), empty, raw.directives.as_slice())
}
