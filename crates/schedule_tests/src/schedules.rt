//! What is placed for goals in small plans.

ghost use Rattle.std.specs.Prelude.{◌≡◌, ◌<◌, IsTrue};
ghost use Rattle.std.specs.List.{list_all};
ghost use Rattle.aerie_base.specs.plans.OfModel.{IsPlanOf};
ghost use Rattle.goals.specs.OfModel.{is_goal};

use crate::counting::Counting;
use crate::rules::goals_in;
use crate::telling::told;
use aerie_base::{Model, Plan, Shared, Steps};
use goals::Goal;
use scheduler::{Schedule, schedule};
use std::alloc::Global;
use std::marker::Brand;
use std::process::Abort;
use std::sync::Wait;
use std::sync::ledger::{Blank, Ledger};
use std::thread::Threads;
use test_worlds::{Outline, Planned, model_in, plan_of};

/// A plan of a model with goals.
#[derive(Clone, Copy)]
struct Case<'a> {
    model: &'static str,
    outline: Outline<'a>,
    goals: &'static str,
}

/// A schedule, and how many plans were simulated for it.
type Counted = (Schedule, u32);

/// The schedule of a plan over a bench, of which a copy is answered.
fn scheduled<R: Threads + Wait + Sync, L: Ledger, K: Ledger>(
    rt: &R,
    steps: Blank,
    looks: Blank,
    alloc: Global,
    model: &Shared<Model>,
    plan: &Shared<Plan>,
    goals: &[Goal],
) -> Option<Counted>
    requires steps { (steps.name ≡ L.name) × (steps.parts ≡ L.parts) × (0 < L.parts) }
    requires looks { (looks.name ≡ K.name) × (looks.parts ≡ K.parts) × (0 < K.parts) }
    requires plan { IsPlanOf model.now plan.now }
    requires goals { IsTrue (list_all (is_goal model.now) goals.now) }
{
    let mut counting = Counting::new(alloc, rt, model.share().ok()?, 1000).ok()?;
    let mut steps = Steps::<L>::open(steps);
    let mut looks = Steps::<K>::open(looks);
    let made = schedule(
        alloc,
        model.get(),
        plan,
        goals,
        &[],
        &mut counting,
        &mut steps,
        &mut looks,
    )
    .ok()?;
    Some((made.copy(alloc).ok()?, counting.runs))
}

/// The schedule of a case.
fn schedule_of<R: Threads + Wait + Sync>(rt: &R, alloc: Global, case: &Case) -> Option<Counted> {
    let model = Shared::new(alloc, model_in(alloc, case.model)?).ok()?;
    let plan = plan_of(alloc, model.get(), &case.outline)?;
    let goals = goals_in(alloc, case.goals, model.get(), plan.duration)?;
    let plan = Shared::new(alloc, plan).ok()?;
    let (steps, looks) = (Blank::new(1), Blank::new(1));
    scheduled::<R, Brand, Brand>(rt, steps, looks, alloc, &model, &plan, goals.as_slice())
}

/// The schedule of a case is told so: the goals with what is placed, trials, plans that were simulated, directives.
fn gives<R: Abort + Threads + Wait + Sync>(rt: &R, alloc: Global, case: &Case, expected: &str) {
    let (made, runs) = schedule_of(rt, alloc, case).expect(rt, "a schedule");
    let told = told(alloc, &made, runs).expect(rt, "memory");
    assert_eq!(rt; told.as_str(), expected);
}

const TICKS: &str = "\
model m {
  counter t = 0;
  discrete t = t;
  activity Tick() { t += 1; }
}
";

const BUMPS: &str = "\
model m {
  counter n = 0;
  discrete n = n;
  activity Bump(by: int) { n += by; delay 10us; n += by; }
  activity Loop() { while true { n += 1; } }
}
";

/// An hour is 3,600,000,000 microseconds.
const FOUR_HOURS: Outline<'static> = Outline {
    duration: 14_400_000_000,
    first_id: 1,
    planned: &[Planned {
        start: 1_800_000_000,
        kind: "Tick",
        argument: None,
        anchor: None,
    }],
};

const BUMP: Planned = Planned {
    start: 5,
    kind: "Bump",
    argument: Some(("by", 3)),
    anchor: None,
};

/// Each hour a tick.
const HOURLY: Case<'static> = Case {
    model: TICKS,
    outline: FOUR_HOURS,
    goals: "g: recurrence Tick() every 1h in [0us, 4h);",
};

/// A plan of 100 microseconds with these directives.
fn short<'a>(first_id: u32, planned: &'a [Planned], goals: &'static str) -> Case<'a> {
    Case {
        model: BUMPS,
        outline: Outline {
            duration: 100,
            first_id,
            planned,
        },
        goals,
    }
}

/// A plan is simulated once for each trial and once more.
#[test]
fn no_plan_is_simulated_twice_in_a_row(rt: HostRuntime) {
    let alloc = rt.alloc();
    gives(
        &rt,
        alloc,
        &HOURLY,
        "g met [2 3 4]; 3 trials, 4 runs; 1@1800000000 2@5400000000 3@9000000000 4@12600000000",
    );
    // without goals nothing is simulated
    gives(&rt, alloc, &short(1, &[BUMP], ""), "0 trials, 0 runs; 1@5");
    // with its last id the plan is full, and what cannot be added is no trial
    gives(
        &rt,
        alloc,
        &short(
            4_294_967_294,
            &[],
            "g: cardinality Bump(by = 1) count 2 in [0us, 9us);",
        ),
        "g unmet [4294967294] 0 tried for 1, none; 1 trials, 2 runs; 4294967294@0",
    );
}

/// A goal that is unmet tells why.
#[test]
fn an_unmet_goal_tells_why(rt: HostRuntime) {
    let alloc = rt.alloc();
    // no run with such an activity comes to its end
    gives(
        &rt,
        alloc,
        &short(1, &[BUMP], "g: cardinality Loop() count 1 in [0us, 9us);"),
        "g unmet [] 9 tried for 0, unfilled; 9 trials, 10 runs; 1@5",
    );
    // what is placed for the second goal breaks the first one
    gives(
        &rt,
        alloc,
        &short(
            1,
            &[BUMP],
            "g: coexistence Bump(by = 0) for start of Bump from 0us to 0us; \
             h: cardinality Bump(by = 3) count 2 in [0us, 9us);",
        ),
        "g unmet [2] broken; h met [3]; 2 trials, 3 runs; 1@5 2@5 3@0",
    );
}
