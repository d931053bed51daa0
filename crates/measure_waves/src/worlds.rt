//! Models with plans of as many directives as are wanted.

ghost use Rattle.std.specs.Prelude.{IfSome};
ghost use Rattle.aerie_base.specs.plans.OfModel.{IsPlanOf};

use aerie_base::{Model, Plan, Shared};
use session_make::make;
use std::alloc::Global;
use test_worlds::{Outline, Planned, model_in, plan_of};

/// A week, in microseconds.
const WEEK: i64 = 604_800_000_000;

/// `Short` is a step of one statement, and `Long` one of 100 statements and tests.
const STEPS: &str = "\
model steps {
  counter n = 0;
  activity Short() { n += 1; }
  activity Long() { let k = 0; while k < 49 { k = k + 1; } }
}
";

/// A model and a plan of it.
#[derive(Drop)]
pub(crate) struct World {
    pub(crate) model: Shared<Model>,
    pub(crate) plan: Shared<Plan>,
}

/// An activity of the orbiter: they come in turn, evenly spread over the week.
fn in_orbit(place: u32, number: u32) -> Planned {
    let kind = match place % 12 {
        0 => "Slew",
        1 => "Image",
        2 => "ImageSet",
        3 => "HeaterOn",
        4 => "HeaterOff",
        5 => "Downlink",
        6 => "Charge",
        7 => "Calibrate",
        8 => "SafeCheck",
        9 => "Track",
        10 => "Burst",
        _ => "Mark",
    };
    let argument = match place % 12 {
        0 => Some(("target", i64::from(place))),
        _ => None,
    };
    Planned {
        start: i64::from(place).wrapping_mul(WEEK / i64::from(number.max(1))),
        kind,
        argument,
        anchor: None,
    }
}

/// An activity without an argument, as all others at one second.
fn at_once(kind: &'static str) -> Planned {
    Planned {
        start: 1_000_000,
        kind,
        argument: None,
        anchor: None,
    }
}

/// What is planned in a world: `orbit` is the plan of the generated session, and in `short` and `long` all directives begin at one
/// time, with one step each.
fn planned(alloc: Global, name: &str, number: u32) -> Option<Vec<Planned>> {
    let mut all = Vec::new(alloc);
    for place in 0..number {
        let one = match name {
            "orbit" => in_orbit(place, number),
            "long" => at_once("Long"),
            _ => at_once("Short"),
        };
        all.push(one).ok()?;
    }
    Some(all)
}

/// The model of a world.
fn model_of(alloc: Global, name: &str) -> Option<Model> {
    match name {
        "orbit" => {
            let session = make(alloc, 1).ok()?;
            model_in(alloc, session.as_str())
        }
        "short" | "long" => model_in(alloc, STEPS),
        _ => None,
    }
}

impl World {
    /// The world of this name with a plan of so many directives.
    pub(crate) fn new(alloc: Global, name: &str, number: u32) -> Option<World>
        ensures { IfSome result (λ world. IsPlanOf world.model world.plan) }
    {
        let planned = planned(alloc, name, number)?;
        let model = Shared::new(alloc, model_of(alloc, name)?).ok()?;
        let outline = Outline {
            duration: WEEK,
            first_id: 1,
            planned: planned.as_slice(),
        };
        let plan = Shared::new(alloc, plan_of(alloc, model.get(), &outline)?).ok()?;
        Some(World { model, plan })
    }
}
