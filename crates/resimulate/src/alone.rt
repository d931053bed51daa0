//! The simulation of a plan where no old run is at hand.

ghost use Rattle.std.specs.Prelude.{◌≡◌, ◌≤◌, IfOk};
ghost use Rattle.aerie_base.specs.Ranges.{step_limit};
ghost use Rattle.aerie_base.specs.plans.OfModel.{IsPlanOf};
ghost use Rattle.run_data.specs.Fresh.{IsFresh};
ghost use Rattle.run_data.specs.RunFrames.{PaysForRun, LooksForRun};
ghost use Rattle.run_data.specs.Waves.{RoseAlike};
ghost use Rattle.engine_core.specs.EngineStates.{OfSameModels};

use crate::bookmarks::{Bookmarks, MarkedStart};
use crate::tally::Tally;
use aerie_base::{Model, OutOfMemory, Plan, Shared, Steps};
use run_data::laws::{
    reached_states_are_of_the_model, weight_falls, what_has_ended_may_be_left_out,
};
use run_data::{Run, Stepper};
use std::alloc::Global;
use std::sync::ledger::Ledger;

/// The fresh run of the plan, for every stepper. The bound is at most 100,000,000. It begins at a bookmark where it may, and leaves
/// bookmarks for the plans that are edited from this one, where these cost little. For a completed run `steps` rises by at most what
/// no stored step fits of its frames, and `looks` by at most two for each frame.
#[allow(clippy::too_many_arguments)]
pub fn simulate_with_bookmarks<S: Stepper, L: Ledger, K: Ledger>(
    alloc: Global,
    model: &Shared<Model>,
    bookmarks: &mut Bookmarks,
    plan: &Shared<Plan>,
    bound: u64,
    stepper: &mut S,
    steps: &mut Steps<L>,
    looks: &mut Steps<K>,
) -> Result<Run, OutOfMemory>
    requires plan { IsPlanOf model.now plan.now }
    requires bound { bound ≤ step_limit }
    requires shares { S.shares }
    requires stepper { S.is_of stepper.old model.now }
    ensures fresh { IfOk result (λ run. IsFresh model.now plan.now bound run) }
    ensures frugal { IfOk result (λ run. PaysForRun run (S.records stepper.old) steps.old steps.new) }
    ensures looks { looks.old ≤ looks.new }
    ensures few_looks { IfOk result (λ run. LooksForRun run looks.old looks.new) }
    ensures opened { RoseAlike (S.opened stepper.old) steps.old (S.opened stepper.new) steps.new }
    ensures same_models { OfSameModels (S.is_of stepper.old) (S.is_of stepper.new) }
    ensures same_records { S.records stepper.new ≡ S.records stepper.old }
    ensures address { S.address stepper.new ≡ S.address stepper.old }
{
    weight_falls();
    reached_states_are_of_the_model();
    what_has_ended_may_be_left_out();
    let _ = model.get().cells();
    let MarkedStart {
        mut engine,
        mut marks,
        ..
    } = bookmarks.begin(alloc, model.get(), model, plan, bound, None, &None)?;
    let directives = plan.get().directives.as_slice().len();
    let mut tally = Tally::new(directives, engine.instants());
    while !engine.ready().is_empty() {
        marks.note_if_paid_for(alloc, &engine, &mut tally);
        engine = engine.step(alloc, stepper, steps, looks)?;
    }
    bookmarks.keep(marks);
    Ok(engine.finish())
}
