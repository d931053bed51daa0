//! The calls that are measured, in the order in which the program makes them.

ghost use Rattle.std.specs.Prelude.{◌≡◌, ◌≤◌};
ghost use Rattle.aerie_base.specs.plans.OfModel.{IsPlanOf};
ghost use Rattle.run_data.specs.Fresh.{IsFresh};

use crate::counting::count_all;
use crate::watch::{MeasureError, Watch};
use aerie_base::{List, Model, Name, Plan, Resource, STEP_LIMIT, Shared, Steps};
use aerie_text::tokens;
use bench::Bench;
use history_store::Store;
use profiles::profile;
use run_data::Run;
use session_judge::judge;
use span_table::spans;
use std::alloc::Global;
use std::marker::Brand;
use std::rt::Clock;
use std::sync::Wait;
use std::sync::ledger::{Blank, Ledger};
use std::thread::Threads;

/// Measures cutting and judging the text of a session, and what is made of its plan.
pub(crate) fn measure_session<R: Clock + Threads + Wait + Sync>(
    rt: &R,
    alloc: Global,
    watch: &mut Watch<R>,
    bytes: &[u8],
) -> Result<(), MeasureError> {
    let Ok(text) = str::from_utf8(bytes) else {
        return Err(MeasureError::Refused)
    };
    watch.start()?;
    let Ok(tokens) = tokens(alloc, text) else {
        return Err(MeasureError::Refused)
    };
    watch.stop()?;
    watch.note("tokens", "tokens", Some(tokens.len() as u64))?;
    watch.start()?;
    let Ok(judged) = judge(alloc, bytes) else {
        return Err(MeasureError::Refused)
    };
    watch.stop()?;
    let plan = &judged.session.plan;
    watch.note("judge", "directives", Some(plan.directives.len() as u64))?;
    let model = &judged.session.models.as_slice()[0].model;
    measure_shared(rt, alloc, watch, model, plan)
}

/// Measures simulating a plan, which is copied before the clock starts.
fn measure_shared<R: Clock + Threads + Wait + Sync>(
    rt: &R,
    alloc: Global,
    watch: &mut Watch<R>,
    model: &Shared<Model>,
    plan: &Plan,
) -> Result<(), MeasureError>
    requires { IsPlanOf model.now plan.now }
{
    let plan = Shared::new(alloc, plan.copy(alloc)?)?;
    let (steps, looks) = (Blank::new(1), Blank::new(1));
    measure_plan::<R, Brand, Brand>(rt, alloc, watch, model, &plan, steps, looks)
}

/// Measures simulating a plan at a bench that holds nothing, what is found on its run, and freeing the run.
fn measure_plan<R: Clock + Threads + Wait + Sync, L: Ledger, K: Ledger>(
    rt: &R,
    alloc: Global,
    watch: &mut Watch<R>,
    model: &Shared<Model>,
    plan: &Shared<Plan>,
    steps: Blank,
    looks: Blank,
) -> Result<(), MeasureError>
    requires plan { IsPlanOf model.now plan.now }
    requires steps { (steps.name ≡ L.name) × (steps.parts ≡ L.parts) × (1 ≤ L.parts) }
    requires looks { (looks.name ≡ K.name) × (looks.parts ≡ K.parts) × (1 ≤ K.parts) }
{
    let (mut steps, mut looks) = (Steps::<L>::open(steps), Steps::<K>::open(looks));
    let store = Store::new(alloc)?;
    let mut bench = Bench::new(alloc, model.share()?, STEP_LIMIT, 1)?;
    watch.start()?;
    let kept = bench.simulate(rt, alloc, &store, plan, None, &mut steps, &mut looks)?;
    watch.stop()?;
    let statements = bench.statements();
    drop(bench);
    let run = kept.get().run();
    let frames = count_all(run.instants.as_slice());
    watch.note("simulate", "statements", Some(statements))?;
    watch.note("simulate", "instants", Some(run.instants.len() as u64))?;
    watch.note("simulate", "frames", frames)?;
    measure_findings(alloc, watch, model.get(), run)?;
    watch.start()?;
    drop(kept);
    watch.stop()?;
    watch.note("drop", "frames", frames)
}

/// Measures what is found on the fresh run of a model.
fn measure_findings<R: Clock>(
    alloc: Global,
    watch: &mut Watch<R>,
    model: &Model,
    run: &Run,
) -> Result<(), MeasureError>
    requires { IsFresh model.now run.now.plan run.now.bound run.now }
{
    watch.start()?;
    let spans = spans(alloc, model, run)?;
    watch.stop()?;
    watch.note("spans", "spans", Some(spans.len() as u64))?;
    measure_profiles(alloc, watch, model, run, model.resources())
}

/// Measures the profiles of these resources, which are those of the model.
fn measure_profiles<R: Clock>(
    alloc: Global,
    watch: &mut Watch<R>,
    model: &Model,
    run: &Run,
    resources: &[(Name, Resource)],
) -> Result<(), MeasureError>
    requires fresh { IsFresh model.now run.now.plan run.now.bound run.now }
    requires all { resources.now ≡ model.now.resources }
{
    let mut found = List::with_capacity(alloc, resources.len())?;
    watch.start()?;
    for number in 0..resources.len() {
        let Ok(number) = u16::try_from(number) else {
            return Err(MeasureError::TooMany);
        };
        found.push(profile(alloc, model, run, number)?)?;
    }
    watch.stop()?;
    watch.note("profile", "segments", count_all(found.as_slice()))
}
