//! Simulations beside an old run: they come to what a simulation from the start comes to, and run the statements of those
//! batches alone that are not among the old ones.

ghost use Rattle.std.specs.Prelude.{◌≡◌, ◌<◌, IfOk, IfSome};
ghost use Rattle.aerie_base.specs.plans.OfModel.{IsPlanOf};

use crate::plans::{bare, bump, bump_after, put};
use crate::telling;
use aerie_base::{Edge, Model, OutOfMemory, Plan, Shared, Steps};
use body_code::compile_all;
use engine_core::simulate;
use resimulate::{Bookmarks, resimulate};
use run_data::laws::fresh_runs;
use run_data::{Kept, Run};
use std::alloc::Global;
use std::marker::Brand;
use std::process::Abort;
use std::sync::ledger::{Blank, Ledger};
use task_step::Direct;
use test_worlds::{Outline, Planned, model_in, plan_of};

/// Echo reads what Bump did; a parent's child sees what its parent set.
pub(crate) const ECHOED: &str = "\
model echoed {
  counter n = 0;
  counter copy = 0;
  register r: int = 0;
  activity Bump(by: int) { n += by; delay 10us; n += by; }
  activity Put(value: int) { r := value; }
  activity Echo() { let x = n; copy += x; }
  activity Seen() { let x = r; copy += x; }
  activity Parent() { r := 1; spawn Seen(); }
}
";

/// How a plan was simulated beside the run of another: its instants, what they are once more from the bookmarks of that simulation and
/// from the start, and how many statements and tests were run beside.
#[derive(Drop)]
struct Told {
    beside: String,
    again: String,
    from_start: String,
    statements: u64,
}

/// A plan of the model.
pub(crate) fn planned_in(alloc: Global, model: &Model, planned: &[Planned]) -> Option<Shared<Plan>>
    ensures { IfSome result (λ plan. IsPlanOf model.now plan) }
{
    let outline = Outline {
        duration: 100,
        first_id: 1,
        planned,
    };
    Shared::new(alloc, plan_of(alloc, model, &outline)?).ok()
}

/// The kept run of a plan.
pub(crate) fn kept<L: Ledger, K: Ledger>(
    alloc: Global,
    model: &Shared<Model>,
    plan: &Shared<Plan>,
    steps: &mut Steps<L>,
    looks: &mut Steps<K>,
) -> Result<Shared<Kept>, OutOfMemory>
    requires plan { IsPlanOf model.now plan.now }
    ensures { IfOk result (λ kept. kept.model ≡ model.now) }
{
    fresh_runs();
    let codes = compile_all(alloc, model.get())?;
    let mut direct = Direct::new(codes.as_slice());
    let run = simulate(alloc, model.get(), plan, 1000, &mut direct, steps, looks)?;
    Kept::new(alloc, model.share()?, run)
}

/// The run of a plan beside an old one, the same from the bookmarks of that simulation, and how many statements and tests were run for
/// the first.
fn resimulated<L: Ledger, K: Ledger>(
    alloc: Global,
    old: &Kept,
    plan: &Shared<Plan>,
    steps: &mut Steps<L>,
    looks: &mut Steps<K>,
) -> Result<(Run, Run, u64), OutOfMemory>
    requires plan { IsPlanOf old.now.model plan.now }
{
    let model = old.model().get();
    let codes = compile_all(alloc, model)?;
    let mut direct = Direct::new(codes.as_slice());
    let mut bookmarks = Bookmarks::new(alloc);
    let run = resimulate(
        alloc,
        model,
        old,
        &mut bookmarks,
        plan,
        1000,
        &mut direct,
        steps,
        looks,
    )?;
    let statements = direct.opened();
    let again = resimulate(
        alloc,
        model,
        old,
        &mut bookmarks,
        plan,
        1000,
        &mut direct,
        steps,
        looks,
    )?;
    Ok((run, again, statements))
}

/// A plan of a model beside the run of another one.
fn compared<L: Ledger, K: Ledger>(
    alloc: Global,
    model: &Shared<Model>,
    before: &Shared<Plan>,
    after: &Shared<Plan>,
    steps: &mut Steps<L>,
    looks: &mut Steps<K>,
) -> Result<Told, OutOfMemory>
    requires before { IsPlanOf model.now before.now }
    requires after { IsPlanOf model.now after.now }
{
    let old = kept(alloc, model, before, steps, looks)?;
    let new = kept(alloc, model, after, steps, looks)?;
    let (run, again, statements) = resimulated(alloc, old.get(), after, steps, looks)?;
    Ok(Told {
        beside: telling::instants(alloc, &run)?,
        again: telling::instants(alloc, &again)?,
        from_start: telling::instants(alloc, new.get().run())?,
        statements,
    })
}

/// A plan beside the run of another one, of a copy of the model.
fn simulated_beside<L: Ledger, K: Ledger>(
    steps: Blank,
    looks: Blank,
    alloc: Global,
    before: &[Planned],
    after: &[Planned],
) -> Option<Told>
    requires steps { (steps.name ≡ L.name) × (steps.parts ≡ L.parts) × (0 < L.parts) }
    requires looks { (looks.name ≡ K.name) × (looks.parts ≡ K.parts) × (0 < K.parts) }
{
    let mut steps = Steps::<L>::open(steps);
    let mut looks = Steps::<K>::open(looks);
    let model = Shared::new(alloc, model_in(alloc, ECHOED)?.copy(alloc).ok()?).ok()?;
    let before = planned_in(alloc, model.get(), before)?;
    let after = planned_in(alloc, model.get(), after)?;
    compared(alloc, &model, &before, &after, &mut steps, &mut looks).ok()
}

/// Beside the run of one plan another comes to its instants. How many statements and tests that runs.
pub(crate) fn runs_alike<R: Abort>(
    rt: &R,
    alloc: Global,
    before: &[Planned],
    after: &[Planned],
) -> u64 {
    let (steps, looks) = (Blank::new(1), Blank::new(1));
    let told = simulated_beside::<Brand, Brand>(steps, looks, alloc, before, after).expect(
        rt, "memory",
    );
    assert_eq!(rt; told.beside.as_str(), told.from_start.as_str());
    assert_eq!(rt; told.again.as_str(), told.from_start.as_str());
    told.statements
}

/// The same, with so many.
fn runs<R: Abort>(rt: &R, alloc: Global, before: &[Planned], after: &[Planned], statements: u64) {
    let ran = runs_alike(rt, alloc, before, after);
    assert_eq!(rt; ran, statements);
}

#[test]
fn a_simulation_beside_an_old_run_pays_for_what_differs(rt: HostRuntime) {
    let alloc = rt.alloc();
    let first = [bump(5, 3), bare(50, "Echo")];
    // the same plan once more
    runs(&rt, alloc, &first, &first, 0);
    // what was read is another, and the batches of the moved directive are at other times
    runs(&rt, alloc, &first, &[bump(60, 3), bare(50, "Echo")], 5);
    // what changed was not read before it was set again
    runs(
        &rt,
        alloc,
        &[put(5, 7), bare(9, "Parent")],
        &[put(5, 8), bare(9, "Parent")],
        1,
    );
    // a directive less among those that begin at one time: what is left of the batch was there
    runs(&rt, alloc, &[bump(5, 3), put(5, 7)], &[bump(5, 3)], 0);
}

#[test]
fn a_simulation_beside_an_old_run_begins_anew_what_is_anchored(rt: HostRuntime) {
    let alloc = rt.alloc();
    let after_end = bump_after(1, Edge::End, 5, 1);
    // both are at other times
    runs(
        &rt,
        alloc,
        &[bump(5, 3), after_end],
        &[bump(50, 3), after_end],
        6,
    );
    // a directive more: the batch at 5 is another, that at 15 is the old one
    runs(&rt, alloc, &[bump(5, 3)], &[bump(5, 3), put(5, 7)], 3);
}
