//! Instants of runs: their times, their batches and what changed, which the program does not print.

ghost use Rattle.std.specs.Prelude.{◌≡◌, ◌<◌, ◌≤◌};
ghost use Rattle.aerie_base.specs.plans.OfModel.{IsPlanOf};

use crate::plans::{bare, bump, bump_after, put};
use crate::spreads::told_twice;
use crate::telling;
use aerie_base::{Edge, Model, OutOfMemory, Plan, Shared, Steps};
use body_code::compile_all;
use engine_core::{Engine, simulate};
use run_data::Run;
use std::alloc::Global;
use std::marker::Brand;
use std::process::Abort;
use std::sync::ledger::{Blank, Ledger};
use std::thread::Threads;
use task_step::Direct;
use test_worlds::{Outline, Planned, model_in, plan_of};

/// Each activity type shows a rule of simulation.
const TRIED: &str = "\
model tried {
  counter n = 0;
  register r: int = 0;
  counter seen = 0;
  activity Bump(by: int) { n += by; delay 10us; n += by; }
  activity Put(value: int) { r := value; }
  activity Seen() { let x = r; seen += x; r := 2; }
  activity Parent() { r := 1; spawn Seen(); }
  activity Pass() { wait until n >= 0; n += 1; }
}
";

/// The run of a plan over the plain stepper.
fn simulated<L: Ledger, K: Ledger>(
    steps: Blank,
    looks: Blank,
    alloc: Global,
    model: &Model,
    plan: &Shared<Plan>,
) -> Result<Run, OutOfMemory>
    requires steps { (steps.name ≡ L.name) × (steps.parts ≡ L.parts) × (0 < L.parts) }
    requires looks { (looks.name ≡ K.name) × (looks.parts ≡ K.parts) × (0 < K.parts) }
    requires plan { IsPlanOf model.now plan.now }
{
    let codes = compile_all(alloc, model)?;
    let mut direct = Direct::new(codes.as_slice());
    let mut steps = Steps::<L>::open(steps);
    let mut looks = Steps::<K>::open(looks);
    simulate(
        alloc,
        model,
        plan,
        1000,
        &mut direct,
        &mut steps,
        &mut looks,
    )
}

/// The instants of the run of a plan of a copy of the model, over the plain stepper.
fn told<L: Ledger, K: Ledger>(
    steps: Blank,
    looks: Blank,
    alloc: Global,
    planned: &[Planned],
) -> Option<String>
    requires steps { (steps.name ≡ L.name) × (steps.parts ≡ L.parts) × (0 < L.parts) }
    requires looks { (looks.name ≡ K.name) × (looks.parts ≡ K.parts) × (0 < K.parts) }
{
    let outline = Outline {
        duration: 100,
        first_id: 1,
        planned,
    };
    let model = model_in(alloc, TRIED)?.copy(alloc).ok()?;
    let plan = Shared::new(alloc, plan_of(alloc, &model, &outline)?).ok()?;
    let run = simulated::<L, K>(steps, looks, alloc, &model, &plan).ok()?;
    telling::instants(alloc, &run).ok()
}

/// The instants of a run that is ended before its first batch, with all instants of the run as a stepper gives it.
fn retold<L: Ledger, K: Ledger>(
    steps: Blank,
    looks: Blank,
    alloc: Global,
    planned: &[Planned],
) -> Option<String>
    requires steps { (steps.name ≡ L.name) × (steps.parts ≡ L.parts) × (0 < L.parts) }
    requires looks { (looks.name ≡ K.name) × (looks.parts ≡ K.parts) × (0 < K.parts) }
{
    let outline = Outline {
        duration: 100,
        first_id: 1,
        planned,
    };
    let model = model_in(alloc, TRIED)?;
    let plan = Shared::new(alloc, plan_of(alloc, &model, &outline)?).ok()?;
    let run = simulated::<L, K>(steps, looks, alloc, &model, &plan).ok()?;
    let engine = Engine::begin(alloc, &model, &plan, 1000).ok()?;
    let all = engine.end_with(run.instants.as_slice()).ok()?;
    telling::instants(alloc, &all).ok()
}

/// The instants of two runs of a plan of the model, over two books and in so many pieces: the first over empty books, the second
/// over the book of the first; and how many statements and tests were run for the second.
fn spread<R: Threads + Sync>(
    rt: &R,
    alloc: Global,
    planned: &[Planned],
    pieces: usize,
) -> Option<(String, String, u64)>
    requires { (1 ≤ pieces) × (pieces ≤ 64) }
{
    let outline = Outline {
        duration: 100,
        first_id: 1,
        planned,
    };
    let model = Shared::new(alloc, model_in(alloc, TRIED)?).ok()?;
    let plan = Shared::new(alloc, plan_of(alloc, model.get(), &outline)?).ok()?;
    told_twice(rt, alloc, &model, &plan, pieces)
}

/// A plan has these instants, over the plain stepper and over books, and whatever is found no step is run twice.
fn gives<R: Abort + Threads + Sync>(rt: &R, alloc: Global, planned: &[Planned], expected: &str) {
    let (steps, looks) = (Blank::new(1), Blank::new(1));
    let told = told::<Brand, Brand>(steps, looks, alloc, planned).expect(rt, "memory");
    assert_eq!(rt; told.as_str(), expected);
    for pieces in [1, 64] {
        let (first, second, statements) = spread(rt, alloc, planned, pieces).expect(rt, "memory");
        assert_eq!(rt; first.as_str(), expected);
        assert_eq!(rt; second.as_str(), expected);
        assert_eq!(rt; statements, 0);
    }
}

#[test]
fn instants_have_batches_and_what_changed(rt: HostRuntime) {
    let alloc = rt.alloc();
    // an activity adds as it begins and behind its delay
    gives(&rt, alloc, &[bump(5, 3)], "0/0 5/1,0=3 15/1,0=6");
    // equal values that are set at once are in conflict
    gives(&rt, alloc, &[put(5, 7), put(5, 7)], "0/0 5/1,1=0!");
    // a child sets what was set before it
    gives(&rt, alloc, &[bare(5, "Parent")], "0/0 5/1,1=2,2=1");
    // a condition that holds lets its task go on in the next batch
    gives(&rt, alloc, &[bare(0, "Pass")], "0/2,0=1");
    // in the next batch after the start of one, and never where one does not end
    gives(
        &rt,
        alloc,
        &[
            bump(95, 3),
            bump_after(1, Edge::End, 0, 1),
            bump_after(1, Edge::Start, 0, 2),
        ],
        "0/0 95/2,0=5",
    );
}

/// A run that is ended before its first batch, with all instants of the run of the plan, has these instants.
fn ends_with<R: Abort>(rt: &R, alloc: Global, planned: &[Planned], expected: &str) {
    let (steps, looks) = (Blank::new(1), Blank::new(1));
    let told = retold::<Brand, Brand>(steps, looks, alloc, planned).expect(rt, "memory");
    assert_eq!(rt; told.as_str(), expected);
}

#[test]
fn an_engine_ends_with_instants_of_another_run(rt: HostRuntime) {
    ends_with(&rt, rt.alloc(), &[bump(0, 3)], "0/1,0=3 10/1,0=6");
}
