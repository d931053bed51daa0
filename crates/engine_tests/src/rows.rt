//! Rows of edits: each edited plan is simulated beside the last run, from the bookmarks of all simulations so far, and comes to the run
//! from the start. What is edited is set again soon, so bookmarks behind an edit serve for the edits that follow.

ghost use Rattle.std.specs.Prelude.{◌≡◌, ◌<◌, IfOk};
ghost use Rattle.aerie_base.specs.plans.OfModel.{IsPlanOf};

use crate::beside::{ECHOED, kept, planned_in};
use crate::edits::next;
use crate::plans::put;
use crate::telling;
use aerie_base::{Model, OutOfMemory, Plan, Shared, Steps};
use body_code::compile_all;
use resimulate::{Bookmarks, resimulate, simulate_with_bookmarks};
use run_data::Kept;
use run_data::laws::fresh_runs;
use std::alloc::Global;
use std::marker::Brand;
use std::sync::ledger::{Blank, Ledger};
use task_step::Direct;
use test_worlds::{Planned, model_in};

/// How many directives the plan has, and how often one is edited.
const DIRECTIVES: usize = 190;

const EDITS: usize = 40;

/// The kept run of a plan, which leaves bookmarks.
fn bookmarked<L: Ledger, K: Ledger>(
    alloc: Global,
    model: &Shared<Model>,
    bookmarks: &mut Bookmarks,
    plan: &Shared<Plan>,
    steps: &mut Steps<L>,
    looks: &mut Steps<K>,
) -> Result<Shared<Kept>, OutOfMemory>
    requires plan { IsPlanOf model.now plan.now }
    ensures { IfOk result (λ kept. kept.model ≡ model.now) }
{
    fresh_runs();
    let codes = compile_all(alloc, model.get())?;
    let mut direct = Direct::new(codes.as_slice());
    let run = simulate_with_bookmarks(
        alloc,
        model,
        bookmarks,
        plan,
        1000,
        &mut direct,
        steps,
        looks,
    )?;
    Kept::new(alloc, model.share()?, run)
}

/// The kept run of a plan, simulated beside another one from the bookmarks so far.
fn beside<L: Ledger, K: Ledger>(
    alloc: Global,
    old: &Kept,
    bookmarks: &mut Bookmarks,
    plan: &Shared<Plan>,
    steps: &mut Steps<L>,
    looks: &mut Steps<K>,
) -> Result<Shared<Kept>, OutOfMemory>
    requires plan { IsPlanOf old.now.model plan.now }
    ensures { IfOk result (λ kept. kept.model ≡ old.now.model) }
{
    fresh_runs();
    let model = old.model();
    let codes = compile_all(alloc, model.get())?;
    let mut direct = Direct::new(codes.as_slice());
    let run = resimulate(
        alloc,
        model.get(),
        old,
        bookmarks,
        plan,
        1000,
        &mut direct,
        steps,
        looks,
    )?;
    Kept::new(alloc, model.share()?, run)
}

/// Whether the instants of two runs are told alike.
fn are_alike(alloc: Global, one: &Kept, other: &Kept) -> Option<bool> {
    let told = telling::instants(alloc, one.run()).ok()?;
    let again = telling::instants(alloc, other.run()).ok()?;
    Some(told.as_str() == again.as_str())
}

/// How many of the edits come to the run from the start.
fn edited<L: Ledger, K: Ledger>(
    alloc: Global,
    model: &Shared<Model>,
    steps: &mut Steps<L>,
    looks: &mut Steps<K>,
) -> Result<usize, OutOfMemory> {
    let mut row = [put(0, 0); DIRECTIVES];
    for at in 0..DIRECTIVES {
        row[at] = put(at as i64 / 2, at as i64);
    }
    let Some(plan) = planned_in(alloc, model.get(), &row) else {
        return Err(OutOfMemory);
    };
    let mut bookmarks = Bookmarks::new(alloc);
    let mut last = bookmarked(alloc, model, &mut bookmarks, &plan, steps, looks)?;
    let mut number = 11;
    let mut alike: usize = 0;
    for _edit in 0..EDITS {
        number = next(number);
        let at = (number >> 45) as usize % DIRECTIVES;
        row[at] = put(at as i64 / 2, (number >> 50) as i64 % 99);
        let Some(plan) = planned_in(alloc, model.get(), &row) else {
            return Err(OutOfMemory);
        };
        last = beside(alloc, last.get(), &mut bookmarks, &plan, steps, looks)?;
        let whole = kept(alloc, model, &plan, steps, looks)?;
        if are_alike(alloc, last.get(), whole.get()) == Some(true) {
            alike = alike.saturating_add(1);
        }
    }
    Ok(alike)
}

/// The same of a copy of the model.
fn alike_edits<L: Ledger, K: Ledger>(steps: Blank, looks: Blank, alloc: Global) -> Option<usize>
    requires steps { (steps.name ≡ L.name) × (steps.parts ≡ L.parts) × (0 < L.parts) }
    requires looks { (looks.name ≡ K.name) × (looks.parts ≡ K.parts) × (0 < K.parts) }
{
    let mut steps = Steps::<L>::open(steps);
    let mut looks = Steps::<K>::open(looks);
    let model = Shared::new(alloc, model_in(alloc, ECHOED)?.copy(alloc).ok()?).ok()?;
    edited(alloc, &model, &mut steps, &mut looks).ok()
}

#[test]
fn each_edit_of_a_row_comes_to_the_run_from_the_start(rt: HostRuntime) {
    let (steps, looks) = (Blank::new(1), Blank::new(1));
    let alike = alike_edits::<Brand, Brand>(steps, looks, rt.alloc());
    assert_eq!(&rt; alike, Some(EDITS));
}
