//! Runs over a stepper with two books, in several numbers of pieces.

ghost use Rattle.std.specs.Prelude.{◌≡◌, ◌<◌, ◌≤◌, IfOk};
ghost use Rattle.aerie_base.specs.plans.OfModel.{IsPlanOf};

use crate::plans::{bare, divide};
use crate::telling;
use aerie_base::{Model, OutOfMemory, Plan, Shared, Steps};
use batch_run::{NoProbe, Spread};
use body_code::compile_all;
use engine_core::simulate;
use record_book::Book;
use run_data::laws::fresh_runs;
use run_data::{Kept, Outcome};
use std::alloc::Global;
use std::marker::Brand;
use std::sync::ledger::{Blank, Ledger};
use std::thread::Threads;
use test_worlds::{Outline, model_in, plan_of};

/// A run, and how many statements and tests were run for it.
#[derive(Drop)]
struct Counted {
    kept: Shared<Kept>,
    statements: u64,
}

/// The run of a plan over an empty book and the book of a kept run.
#[allow(clippy::too_many_arguments)]
fn simulated<R: Threads + Sync, L: Ledger, K: Ledger>(
    rt: &R,
    alloc: Global,
    model: &Shared<Model>,
    plan: &Shared<Plan>,
    kept: &Book,
    pieces: usize,
    steps: Blank,
    looks: Blank,
) -> Result<Counted, OutOfMemory>
    requires model { kept.now.model ≡ model.now }
    requires plan { IsPlanOf model.now plan.now }
    requires pieces { (1 ≤ pieces) × (pieces ≤ 64) }
    requires steps { (steps.name ≡ L.name) × (steps.parts ≡ L.parts) × (0 < L.parts) }
    requires looks { (looks.name ≡ K.name) × (looks.parts ≡ K.parts) × (0 < K.parts) }
    ensures { IfOk result (λ counted. counted.kept.model ≡ model.now) }
{
    fresh_runs();
    let codes = compile_all(alloc, model.get())?;
    let book = Book::new(alloc, model.share()?)?;
    let mut spread = Spread::new(rt, &book, kept, codes.as_slice(), pieces, &NoProbe);
    let mut steps = Steps::<L>::open(steps);
    let mut looks = Steps::<K>::open(looks);
    let run = simulate(
        alloc,
        model.get(),
        plan,
        1000,
        &mut spread,
        &mut steps,
        &mut looks,
    )?;
    let statements = spread.opened();
    let kept = Kept::new(alloc, model.share()?, run)?;
    Ok(Counted { kept, statements })
}

/// The same, with counters of its own.
fn run_over<R: Threads + Sync>(
    rt: &R,
    alloc: Global,
    model: &Shared<Model>,
    plan: &Shared<Plan>,
    kept: &Book,
    pieces: usize,
) -> Result<Counted, OutOfMemory>
    requires model { kept.now.model ≡ model.now }
    requires plan { IsPlanOf model.now plan.now }
    requires pieces { (1 ≤ pieces) × (pieces ≤ 64) }
    ensures { IfOk result (λ counted. counted.kept.model ≡ model.now) }
{
    let (steps, looks) = (Blank::new(1), Blank::new(1));
    simulated::<R, Brand, Brand>(rt, alloc, model, plan, kept, pieces, steps, looks)
}

/// The run of a plan over empty books, and then over the book of that run.
fn run_twice<R: Threads + Sync>(
    rt: &R,
    alloc: Global,
    model: &Shared<Model>,
    plan: &Shared<Plan>,
    pieces: usize,
) -> Result<(Counted, Counted), OutOfMemory>
    requires plan { IsPlanOf model.now plan.now }
    requires pieces { (1 ≤ pieces) × (pieces ≤ 64) }
{
    let none = Book::new(alloc, model.share()?)?;
    let first = run_over(rt, alloc, model, plan, &none, pieces)?;
    let book = Book::of_run(alloc, first.kept.get())?;
    let second = run_over(rt, alloc, model, plan, &book, pieces)?;
    Ok((first, second))
}

/// The instants of both runs, and how many statements and tests were run for the second.
pub(crate) fn told_twice<R: Threads + Sync>(
    rt: &R,
    alloc: Global,
    model: &Shared<Model>,
    plan: &Shared<Plan>,
    pieces: usize,
) -> Option<(String, String, u64)>
    requires plan { IsPlanOf model.now plan.now }
    requires pieces { (1 ≤ pieces) × (pieces ≤ 64) }
{
    let (first, second) = run_twice(rt, alloc, model, plan, pieces).ok()?;
    let one = telling::instants(alloc, first.kept.get().run()).ok()?;
    let other = telling::instants(alloc, second.kept.get().run()).ok()?;
    Some((one, other, second.statements))
}

/// One task never ends its step, and the other faults.
const ENDLESS: &str = "\
model endless {
  counter n = 0;
  activity Loop() { while true { n += 1; } }
  activity Div(by: int) { n += 10 / by; }
}
";

/// When the run of both tasks stops by the limit, if it does.
fn limit_at<R: Threads + Sync>(rt: &R, alloc: Global, pieces: usize) -> Option<i64>
    requires { (1 ≤ pieces) × (pieces ≤ 64) }
{
    let outline = Outline {
        duration: 100,
        first_id: 1,
        planned: &[bare(5, "Loop"), divide(5, 0)],
    };
    let model = Shared::new(alloc, model_in(alloc, ENDLESS)?).ok()?;
    let plan = Shared::new(alloc, plan_of(alloc, model.get(), &outline)?).ok()?;
    let (first, _) = run_twice(rt, alloc, &model, &plan, pieces).ok()?;
    match &first.kept.get().run().outcome {
        Outcome::StepLimit { time } => Some(time.get()),
        _ => None,
    }
}

#[test]
fn the_limit_stops_a_run_in_any_number_of_pieces(rt: HostRuntime) {
    for pieces in [1, 64] {
        assert_eq!(&rt; limit_at(&rt, rt.alloc(), pieces), Some(5));
    }
}
