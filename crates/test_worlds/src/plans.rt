//! Plans of few directives.

ghost use Rattle.std.specs.Prelude.{◌≡◌, ◌≤◌, IfSome};
ghost use Rattle.aerie_base.specs.declared.models.model.Parts.{Parts};
ghost use Rattle.aerie_base.specs.plans.OfModel.{IsPlanOf};

use aerie_base::{Anchor, List, Model, Name, Number, Plan, RawArgument, RawValue, Time, When};
use plan_edit::add;
use std::alloc::Global;

/// A directive that is planned.
#[derive(Clone, Copy)]
pub struct Planned {
    /// When it starts, in microseconds from the start of the plan or from its anchor.
    pub start: i64,
    /// The name of its activity type.
    pub kind: &'static str,
    /// The name of its parameter with the value, where the type has one.
    pub argument: Option<(&'static str, i64)>,
    /// What it is anchored to, if anything.
    pub anchor: Option<Anchor>,
}

/// A plan in few words.
#[derive(Clone, Copy)]
pub struct Outline<'a> {
    /// How long it lasts, in microseconds.
    pub duration: i64,
    /// The id of its first directive.
    pub first_id: u32,
    /// Its directives.
    pub planned: &'a [Planned],
}

/// The arguments as they are written.
fn arguments(alloc: Global, planned: Planned) -> Option<Vec<RawArgument>> {
    let mut all = Vec::new(alloc);
    if let Some((name, value)) = planned.argument {
        let name = Name::new(alloc, name).ok()??;
        let value = RawValue::Int(Number::new(value)?);
        all.push(RawArgument { name, value }).ok()?;
    }
    Some(all)
}

/// Puts a directive behind the others.
fn put(alloc: Global, model: &Model, plan: &mut Plan, planned: Planned) -> Option<u32>
    requires { IsPlanOf model.now plan.old }
    ensures { IsPlanOf model.now plan.new }
{
    let arguments = arguments(alloc, planned)?;
    let kind = Name::new(alloc, planned.kind).ok()??;
    let at = When {
        start: Time::new(planned.start)?,
        anchor: planned.anchor,
    };
    add(alloc, model, plan, at, &kind, &arguments).ok()
}

/// A plan without directives, of the first model of a session.
pub fn empty_plan(alloc: Global, duration: Time, next_id: u32) -> Plan
    requires duration { 1 ≤ duration }
    requires next_id { 1 ≤ next_id }
    ensures model { result.model ≡ 0 }
    ensures plan { (model : Parts) → IsPlanOf model result }
{
    Plan {
        model: 0,
        duration,
        next_id,
        directives: List::new(alloc),
    }
}

/// The plan of an outline, where all of it can be: its directives have the ids from the first on, in order.
pub fn plan_of<'a>(alloc: Global, model: &Model, outline: &Outline<'a>) -> Option<Plan>
    ensures { IfSome result (λ plan. IsPlanOf model.now plan) }
{
    let duration = Time::new(outline.duration)?;
    if duration.get() < 1 || outline.first_id < 1 {
        return None;
    }
    let mut plan = empty_plan(alloc, duration, outline.first_id);
    for each in outline.planned {
        put(alloc, model, &mut plan, *each)?;
    }
    Some(plan)
}
