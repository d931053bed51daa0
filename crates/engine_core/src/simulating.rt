ghost use Rattle.std.specs.Prelude.{◌≡◌, ◌≤◌, IfOk};
ghost use Rattle.aerie_base.specs.Ranges.{step_limit};
ghost use Rattle.aerie_base.specs.plans.OfModel.{IsPlanOf};
ghost use Rattle.run_data.specs.Fresh.{IsFresh};
ghost use Rattle.run_data.specs.Waves.{RoseAlike};
ghost use Rattle.run_data.specs.RunFrames.{PaysForRun, LooksForRun};
ghost use Rattle.engine_core.specs.EngineStates.{OfSameModels};

use crate::simulation::Simulation;
use aerie_base::{Model, OutOfMemory, Plan, Shared, Steps};
use live_tasks::ready_jobs::ReadyJobs;
use run_data::laws::{
    reached_states_are_of_the_model, weight_falls, what_has_ended_may_be_left_out,
};
use run_data::{Run, Stepper};
use std::alloc::Global;
use std::sync::ledger::Ledger;

/// The fresh run of the plan, for every stepper. The bound is at most 100,000,000. `steps` and `looks` rise as the stepper's
/// waves say; for a completed run the first by at most what no stored step fits of its frames, the second by at most two
/// for each frame.
pub fn simulate<S: Stepper, L: Ledger, K: Ledger>(
    alloc: Global,
    model: &Model,
    plan: &Shared<Plan>,
    bound: u64,
    stepper: &mut S,
    steps: &mut Steps<L>,
    looks: &mut Steps<K>,
) -> Result<Run, OutOfMemory>
    requires plan { IsPlanOf model.now plan.now }
    requires bound { bound ≤ step_limit }
    requires shares { S.shares }
    requires stepper { S.is_of stepper.old model.now }
    ensures fresh { IfOk result (λ run. IsFresh model.now plan.now bound run) }
    ensures frugal { IfOk result (λ run. PaysForRun run (S.records stepper.old) steps.old steps.new) }
    ensures looks { looks.old ≤ looks.new }
    ensures few_looks { IfOk result (λ run. LooksForRun run looks.old looks.new) }
    ensures opened { RoseAlike (S.opened stepper.old) steps.old (S.opened stepper.new) steps.new }
    ensures same_models { OfSameModels (S.is_of stepper.old) (S.is_of stepper.new) }
    ensures same_records { S.records stepper.new ≡ S.records stepper.old }
    ensures address { S.address stepper.new ≡ S.address stepper.old }
{
    reached_states_are_of_the_model();
    what_has_ended_may_be_left_out();
    weight_falls();
    let _ = model.cells();
    let mut simulation = Simulation::begin(alloc, model, plan, bound)?;
    let mut jobs = ReadyJobs::new(alloc);
    simulation.to_next_job(alloc, model, &mut jobs)?;
    while jobs.len() > 0 {
        simulation.step(alloc, model, &mut jobs, stepper, steps, looks)?;
    }
    Ok(simulation.into_run())
}
