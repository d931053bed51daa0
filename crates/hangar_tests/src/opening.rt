//! The workspace that is tried.

ghost use Rattle.std.specs.Prelude.{◌≡◌, ◌∷◌, [], IfSome};
ghost use Rattle.aerie_base.specs.plans.OfModel.{IsPlanOf};

use aerie_base::{List, Model, Name, Plan, Shared, Time};
use hangar_core::Hangar;
use std::alloc::Global;
use test_worlds::{empty_plan, model_in};

/// A model of one activity type, whose parameter has to be above 0.
const MODEL: &str = "\
model m {
  counter n = 0;
  discrete n = n;
  activity Bump(by: int) { require by > 0; n += by; delay 10us; n += by; }
}
";

/// The name that a text is.
pub(crate) fn named(alloc: Global, text: &str) -> Option<Name> {
    Name::new(alloc, text).ok()?
}

/// One model, alone.
fn alone(alloc: Global, model: Model) -> Option<List<Shared<Model>>>
    ensures { IfSome result (λ models. models ≡ model ∷ []) }
{
    let mut models = List::new(alloc);
    models.push(Shared::new(alloc, model).ok()?).ok()?;
    Some(models)
}

/// The workspace of one model, with this branch and a plan without directives.
#[tactic(auto, using(crate::proofs::OneModel::models_are, crate::proofs::OneModel::plan_is_among))]
fn opened(alloc: Global, model: Model, branch: Name, plan: Plan) -> Option<Hangar>
    requires first { plan.model ≡ 0 }
    requires plan { IsPlanOf model plan }
    ensures { IfSome result (λ hangar. hangar.accepted ≡ 0) }
{
    let models = alone(alloc, model)?;
    Hangar::new(alloc, models, List::new(alloc), branch, plan).ok()
}

/// A workspace with an empty branch `main` of 100 microseconds.
pub(crate) fn hangar(alloc: Global) -> Option<Hangar>
    ensures { IfSome result (λ hangar. hangar.accepted ≡ 0) }
{
    let model = model_in(alloc, MODEL)?;
    let branch = named(alloc, "main")?;
    let duration = Time::new(100)?;
    if duration.get() < 1 {
        return None;
    }
    let plan = empty_plan(alloc, duration, 1);
    opened(alloc, model, branch, plan)
}
