//! Plans that are simulated again: what a bench, another bench and a kept run have is not run again.

ghost use Rattle.std.specs.Prelude.{◌≡◌, ◌<◌, ◌≤◌, IfOk, IfSome};
ghost use Rattle.aerie_base.specs.plans.OfModel.{IsPlanOf};

use aerie_base::{Model, OutOfMemory, Plan, Shared, Steps};
use bench::{Bench, Desk, HandedRuns};
use history_store::Store;
use run_data::{Kept, Simulator};
use std::alloc::Global;
use std::marker::Brand;
use std::sync::Wait;
use std::sync::ledger::{Blank, Ledger};
use std::thread::Threads;
use test_worlds::{Outline, Planned, model_in, plan_of};

/// Echo reads what Bump did.
const ECHOED: &str = "\
model echoed {
  counter n = 0;
  counter copy = 0;
  activity Bump(by: int) { n += by; delay 10us; n += by; }
  activity Echo() { let x = n; copy += x; }
}
";

const BUMP: Planned = Planned {
    start: 5,
    kind: "Bump",
    argument: Some(("by", 3)),
    anchor: None,
};

/// The same directive behind Echo.
const BUMP_LATER: Planned = Planned {
    start: 60,
    kind: "Bump",
    argument: Some(("by", 3)),
    anchor: None,
};

const ECHO: Planned = Planned {
    start: 50,
    kind: "Echo",
    argument: None,
    anchor: None,
};

/// A plan of the model.
fn planned_in(alloc: Global, model: &Model, planned: &[Planned]) -> Option<Shared<Plan>>
    ensures { IfSome result (λ plan. IsPlanOf model.now plan) }
{
    let outline = Outline {
        duration: 100,
        first_id: 1,
        planned,
    };
    Shared::new(alloc, plan_of(alloc, model, &outline)?).ok()
}

/// A bench of the model, which makes so many pieces of a wave.
fn bench_of(alloc: Global, model: &Shared<Model>, pieces: usize) -> Result<Bench, OutOfMemory>
    requires { (1 ≤ pieces) × (pieces ≤ 64) }
    ensures { IfOk result (λ bench. bench.model ≡ model.now) }
{
    let model = model.share()?;
    Bench::new(alloc, model, 1000, pieces)
}

/// How many statements a bench runs for a plan, and the run.
#[allow(clippy::too_many_arguments)]
fn ran<R: Threads + Wait + Sync, L: Ledger, K: Ledger>(
    rt: &R,
    alloc: Global,
    bench: &mut Bench,
    store: &Store,
    plan: &Shared<Plan>,
    kept: Option<Shared<Kept>>,
    steps: &mut Steps<L>,
    looks: &mut Steps<K>,
) -> Result<(u64, Shared<Kept>), OutOfMemory>
    requires plan { IsPlanOf bench.old.model plan.now }
    requires kept { IfSome kept (λ kept. kept.model ≡ bench.old.model) }
    ensures model { bench.new.model ≡ bench.old.model }
    ensures run { IfOk result (λ told. told.1.model ≡ bench.old.model) }
{
    let run = bench.simulate(rt, alloc, store, plan, kept, steps, looks)?;
    Ok((bench.statements(), run))
}

/// What a bench runs for a plan, for the same plan beside its run, and for another plan beside that run.
#[allow(clippy::too_many_arguments)]
fn ran_thrice<R: Threads + Wait + Sync, L: Ledger, K: Ledger>(
    rt: &R,
    alloc: Global,
    bench: &mut Bench,
    store: &Store,
    plan: &Shared<Plan>,
    other: &Shared<Plan>,
    steps: &mut Steps<L>,
    looks: &mut Steps<K>,
) -> Result<(u64, u64, u64), OutOfMemory>
    requires plan { IsPlanOf bench.old.model plan.now }
    requires other { IsPlanOf bench.old.model other.now }
{
    let (one, run) = ran(rt, alloc, bench, store, plan, None, steps, looks)?;
    let (two, run) = ran(rt, alloc, bench, store, plan, Some(run), steps, looks)?;
    let (three, _run) = ran(rt, alloc, bench, store, other, Some(run), steps, looks)?;
    Ok((one, two, three))
}

/// What two benches over one store run: the first a plan, the plan again, and another one; the second the same plans. Behind these
/// counts stands how many chapters each of them published.
#[allow(clippy::too_many_arguments)]
fn two_benches<R: Threads + Wait + Sync, L: Ledger, K: Ledger>(
    rt: &R,
    steps: Blank,
    looks: Blank,
    alloc: Global,
    model: &Shared<Model>,
    plan: &Shared<Plan>,
    other: &Shared<Plan>,
) -> Result<[u64; 8], OutOfMemory>
    requires steps { (steps.name ≡ L.name) × (steps.parts ≡ L.parts) × (0 < L.parts) }
    requires looks { (looks.name ≡ K.name) × (looks.parts ≡ K.parts) × (0 < K.parts) }
    requires plan { IsPlanOf model.now plan.now }
    requires other { IsPlanOf model.now other.now }
{
    let mut steps = Steps::<L>::open(steps);
    let mut looks = Steps::<K>::open(looks);
    let (steps, looks) = (&mut steps, &mut looks);
    let store = Store::new(alloc)?;
    let mut first = bench_of(alloc, model, 1)?;
    let mut second = bench_of(alloc, model, 4)?;
    let (a, b, c) = ran_thrice(rt, alloc, &mut first, &store, plan, other, steps, looks)?;
    let (d, e, f) = ran_thrice(rt, alloc, &mut second, &store, plan, other, steps, looks)?;
    let chapters = first.receipts().len() as u64;
    let others = second.receipts().len() as u64;
    Ok([a, b, c, d, e, f, chapters, others])
}

/// The same of two plans of the small model.
fn told<R: Threads + Wait + Sync>(rt: &R, alloc: Global) -> Option<[u64; 8]> {
    let model = Shared::new(alloc, model_in(alloc, ECHOED)?).ok()?;
    let plan = planned_in(alloc, model.get(), &[BUMP, ECHO])?;
    let moved = planned_in(alloc, model.get(), &[BUMP_LATER, ECHO])?;
    let (steps, looks) = (Blank::new(1), Blank::new(1));
    two_benches::<R, Brand, Brand>(rt, steps, looks, alloc, &model, &plan, &moved).ok()
}

#[test]
fn what_was_run_is_not_run_again(rt: HostRuntime) {
    let alloc = rt.alloc();
    let told = told(&rt, alloc).expect(&rt, "memory");
    // 5 statements; the kept run is given back; Echo reads another number; the other bench finds all
    assert_eq!(rt; told.as_slice(), [5, 0, 2, 0, 0, 0, 2, 0].as_slice());
}

/// Simulates a plan, another one, and the first again, at a desk.
#[allow(clippy::too_many_arguments)]
fn at_desk<R: Threads + Wait + Sync, L: Ledger, K: Ledger>(
    rt: &R,
    alloc: Global,
    bench: &mut Bench,
    store: &Store,
    plan: &Shared<Plan>,
    other: &Shared<Plan>,
    steps: &mut Steps<L>,
    looks: &mut Steps<K>,
) -> Result<(), OutOfMemory>
    requires plan { IsPlanOf bench.old.model plan.now }
    requires other { IsPlanOf bench.old.model other.now }
{
    let mut runs = HandedRuns::new(None);
    let mut desk = Desk::new(bench, rt, store, &mut runs);
    let _first = desk.run(alloc, plan, steps, looks)?;
    let _second = desk.run(alloc, other, steps, looks)?;
    let _third = desk.run(alloc, plan, steps, looks)?;
    Ok(())
}

/// How many statements the last of three simulations at a desk ran: those of a plan, of another one, and of the first again.
#[allow(clippy::too_many_arguments)]
fn one_desk<R: Threads + Wait + Sync, L: Ledger, K: Ledger>(
    rt: &R,
    steps: Blank,
    looks: Blank,
    alloc: Global,
    model: &Shared<Model>,
    plan: &Shared<Plan>,
    other: &Shared<Plan>,
) -> Result<u64, OutOfMemory>
    requires steps { (steps.name ≡ L.name) × (steps.parts ≡ L.parts) × (0 < L.parts) }
    requires looks { (looks.name ≡ K.name) × (looks.parts ≡ K.parts) × (0 < K.parts) }
    requires plan { IsPlanOf model.now plan.now }
    requires other { IsPlanOf model.now other.now }
{
    let mut steps = Steps::<L>::open(steps);
    let mut looks = Steps::<K>::open(looks);
    let (steps, looks) = (&mut steps, &mut looks);
    let store = Store::new(alloc)?;
    let mut bench = bench_of(alloc, model, 1)?;
    at_desk(rt, alloc, &mut bench, &store, plan, other, steps, looks)?;
    Ok(bench.statements())
}

/// The same of two plans of the small model.
fn told_at_desk<R: Threads + Wait + Sync>(rt: &R, alloc: Global) -> Option<u64> {
    let model = Shared::new(alloc, model_in(alloc, ECHOED)?).ok()?;
    let plan = planned_in(alloc, model.get(), &[BUMP, ECHO])?;
    let moved = planned_in(alloc, model.get(), &[BUMP_LATER, ECHO])?;
    let (steps, looks) = (Blank::new(1), Blank::new(1));
    one_desk::<R, Brand, Brand>(rt, steps, looks, alloc, &model, &plan, &moved).ok()
}

#[test]
fn a_desk_runs_at_its_bench(rt: HostRuntime) {
    let alloc = rt.alloc();
    let told = told_at_desk(&rt, alloc).expect(&rt, "memory");
    assert_eq!(rt; told, 0);
}
