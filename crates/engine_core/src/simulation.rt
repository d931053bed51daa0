//! A simulation, a transition at a time.

ghost use Rattle.std.specs.Prelude.{◌≡◌, ◌≤◌, ◌++◌, [], true, Some, None, IfOk, OnOk};
ghost use Rattle.aerie_base.specs.Ranges.{step_limit};
ghost use Rattle.aerie_base.specs.declared.models.model.Parts.{Parts};
ghost use Rattle.aerie_base.specs.plans.OfModel.{IsPlanOf};
ghost use Rattle.effect_cells.specs.declared.effects.CellState.{CellState};
ghost use Rattle.run_data.specs.Batches.{by_path};
ghost use Rattle.run_data.specs.Fresh.{start};
ghost use Rattle.run_data.specs.Transitions.{more, finished};
ghost use Rattle.run_data.specs.Waves.{RoseAlike};
ghost use Rattle.run_data.specs.laws.PrunedStates.{pruned};
ghost use Rattle.run_data.specs.laws.RestOfRuns.{completed_run};
ghost use Rattle.live_tasks.specs.InStep.{IsInStep};
ghost use Rattle.engine_core.specs.BatchEnds.{batch_frames, SpendsWith};
ghost use Rattle.engine_core.specs.EngineStates.{jobs_in, time_in, batches_in, instants_in, spent_in, HasJob, LeadsTo, OfSameModels};
ghost use Rattle.engine_core.specs.Simulations.{ending_with, point_in, is_idle_at, AreTasksIn, IsOnCourse, IsBeforeBatch, IsAtNext, StandsAt, IsTransitionFrom, IsAfterEnd, MayTakeEnd, PaysFrom, LooksFrom};

use crate::batch_ends::BatchEnd;
use crate::batches::{run_batch, take_batch};
use crate::history::{History, put_shared};
use crate::present::Present;
use aerie_base::{List, Model, OutOfMemory, Plan, Shared, Steps, Time};
use effect_cells::Cells;
use live_tasks::readies::{live_tasks_are_live, live_tasks_live_on};
use live_tasks::ready_jobs::ReadyJobs;
use live_tasks::tasks::LiveTasks;
use run_data::laws::{
    reached_states_are_of_the_model, tasks_stand_by_number, waits_go_by_the_cells, weight_falls,
    what_has_ended_may_be_left_out,
};
use run_data::{Frame, Instant, Outcome, Run, Stepper};
use std::alloc::Global;
use std::sync::ledger::Ledger;

/// What is simulated: a plan, whose costs may come to a bound.
#[derive(Drop)]
pub(crate) struct Request {
    pub(crate) plan: Shared<Plan>,
    pub(crate) bound: u64,
}

impl Request {
    /// When the plan ends.
    pub(crate) fn end(&self) -> Time
        ensures { result ≡ self.now.plan.duration }
    {
        self.plan.get().duration
    }
}

/// How a simulation has ended, and the time that it reached.
#[derive(Drop)]
pub(crate) struct RunEnd {
    pub(crate) reach: Time,
    pub(crate) outcome: Outcome,
}

/// A simulation at some time, or where it has ended.
#[derive(Drop)]
pub(crate) struct Simulation {
    pub(crate) request: Request,
    pub(crate) history: History,
    pub(crate) present: Present,
    pub(crate) ending: Option<RunEnd>,
}

impl Simulation {
    /// At its start.
    pub(crate) fn begin(
        alloc: Global,
        model: &Model,
        plan: &Shared<Plan>,
        bound: u64,
    ) -> Result<Simulation, OutOfMemory>
        requires plan { IsPlanOf model.now plan.now }
        requires bound { bound ≤ step_limit }
        ensures { IfOk result (λ simulation.
            StandsAt (record { plan = plan.now; bound = bound })
            (more (pruned (start model.now plan.now))) simulation) }
    {
        let time = Time::zero();
        let cells = Shared::new(alloc, Cells::initial(alloc, model)?)?;
        let tasks = LiveTasks::begin(alloc, model, plan.get())?;
        let plan = plan.share()?;
        Ok(Simulation {
            request: Request { plan, bound },
            history: History::new(alloc),
            present: Present {
                time,
                spent: 0,
                cells,
                tasks,
            },
            ending: None,
        })
    }

    /// Whether it goes on, and no task is ready.
    fn is_idle(&self) -> bool
        requires { AreTasksIn self.now }
        ensures { result ≡ is_idle_at (point_in self.now) }
    {
        match self.ending {
            Some(_) => false,
            None => !self.present.tasks.is_ready(),
        }
    }

    /// In place of other jobs, those of the ready tasks, all with one view of the cells, which is shared; none where it has ended.
    pub(crate) fn ready(&mut self, alloc: Global, jobs: &mut ReadyJobs) -> Result<(), OutOfMemory>
        requires { AreTasksIn self.old }
        ensures jobs { OnOk result (jobs.new ≡ jobs_in (point_in self.old)) }
        ensures stands { OnOk result (StandsAt self.old.request (point_in self.old) self.new) }
    {
        match self.ending {
            Some(_) => {
                jobs.clear();
                Ok(())
            }
            None => {
                self.present.tasks.ready(alloc, &self.present.cells, jobs)?;
                Ok(())
            }
        }
    }

    /// The time at hand.
    pub(crate) fn time(&self) -> Time
        requires { jobs_in (point_in self.now) ≡ [] → ⊥ }
        ensures { result ≡ time_in (point_in self.now) }
    {
        self.present.time
    }

    /// The batches of this time.
    pub(crate) fn batches(&self) -> &[List<Frame>]
        requires { jobs_in (point_in self.now) ≡ [] → ⊥ }
        ensures { result.now ≡ batches_in (point_in self.now) }
    {
        self.history.batches.as_slice()
    }

    /// The settled instants.
    pub(crate) fn instants(&self) -> &[Shared<Instant>]
        ensures { result.now ≡ instants_in (point_in self.now) }
    {
        self.history.instants.as_slice()
    }

    /// What the costs come to so far.
    pub(crate) fn spent(&self) -> u64
        requires { jobs_in (point_in self.now) ≡ [] → ⊥ }
        ensures { result ≡ spent_in (point_in self.now) }
    {
        self.present.spent
    }

    /// Ends at the time at hand.
    pub(crate) fn end_now(&mut self, outcome: Outcome)
        ensures { self.new ≡ ending_with self.old outcome }
    {
        let reach = self.present.time;
        self.ending = Some(RunEnd { reach, outcome });
    }

    /// Goes on after a batch that ended so. Its effects are on the cells.
    fn take_end(&mut self, alloc: Global, end: BatchEnd) -> Result<(), OutOfMemory>
        requires open { self.old.ending ≡ None }
        requires in_step { IsInStep self.old.present.tasks }
        requires may { MayTakeEnd end self.old.present }
        requires spends { SpendsWith self.old.present.spent end }
        ensures { OnOk result (IsAfterEnd self.old end self.new) }
    {
        let time = self.present.time;
        match end {
            BatchEnd::Limit => {
                self.end_now(Outcome::StepLimit { time });
                Ok(())
            }
            BatchEnd::Failed { who, fault } => {
                self.end_now(Outcome::Failed { time, who, fault });
                Ok(())
            }
            BatchEnd::Committed {
                frames,
                touched,
                spent,
            } => {
                self.present
                    .tasks
                    .after_batch(alloc, time, frames.as_slice(), touched.as_slice())?;
                self.present.spent = spent;
                self.history.put_batch(alloc, frames, touched)?;
                Ok(())
            }
        }
    }

    /// The batch of the ready jobs, whose frames the stepper gives by waves.
    #[allow(clippy::too_many_arguments)]
    fn batch<S: Stepper, L: Ledger, K: Ledger>(
        &mut self,
        alloc: Global,
        model: &Model,
        ready: &mut ReadyJobs,
        stepper: &mut S,
        steps: &mut Steps<L>,
        looks: &mut Steps<K>,
    ) -> Result<(), OutOfMemory>
        requires course { IsOnCourse model.now self.old }
        requires ready { ready.old ≡ jobs_in (point_in self.old) }
        requires job { ready.old ≡ [] → ⊥ }
        requires shares { S.shares }
        requires stepper { S.is_of stepper.old model.now }
        ensures stage { OnOk result (IsTransitionFrom model.now self.old self.new) }
        ensures frugal { OnOk result
            (PaysFrom model.now self.old (S.records stepper.old) steps.old steps.new) }
        ensures looks { looks.old ≤ looks.new }
        ensures few_looks { OnOk result (LooksFrom model.now self.old looks.old looks.new) }
        ensures opened { RoseAlike (S.opened stepper.old) steps.old (S.opened stepper.new) steps.new }
        ensures same_models { OfSameModels (S.is_of stepper.old) (S.is_of stepper.new) }
        ensures same_records { S.records stepper.new ≡ S.records stepper.old }
        ensures address { S.address stepper.new ≡ S.address stepper.old }
    {
        reached_states_are_of_the_model();
        what_has_ended_may_be_left_out();
        live_tasks_live_on();
        tasks_stand_by_number();
        let _ = model.cells();
        let end = run_batch(
            alloc,
            model,
            self.request.bound,
            self.present.spent,
            &mut self.present.cells,
            ready,
            stepper,
            steps,
            looks,
        )?;
        self.take_end(alloc, end)?;
        Ok(())
    }

    /// The batch of the ready jobs, whose frames the caller has, in any order.
    fn batch_of(
        &mut self,
        alloc: Global,
        model: &Model,
        ready: &mut ReadyJobs,
        frames: &[Frame],
    ) -> Result<(), OutOfMemory>
        requires course { IsOnCourse model.now self.old }
        requires ready { ready.old ≡ jobs_in (point_in self.old) }
        requires job { ready.old ≡ [] → ⊥ }
        requires frames { batch_frames model.now self.old.request.bound ready.old
            ≡ Some (by_path frames.now) }
        ensures { OnOk result (IsTransitionFrom model.now self.old self.new) }
    {
        reached_states_are_of_the_model();
        what_has_ended_may_be_left_out();
        live_tasks_live_on();
        tasks_stand_by_number();
        let _ = model.cells();
        let end = take_batch(
            alloc,
            model,
            self.request.bound,
            self.present.spent,
            &mut self.present.cells,
            ready,
            frames,
        )?;
        self.take_end(alloc, end)?;
        Ok(())
    }

    /// Where no task is ready: the waiting ones are judged, and where none goes on the instant is settled and time passes.
    fn on(&mut self, alloc: Global, model: &Model) -> Result<(), OutOfMemory>
        requires course { IsOnCourse model.now self.old }
        requires idle { is_idle_at (point_in self.old) ≡ true }
        ensures { OnOk result (IsTransitionFrom model.now self.old self.new) }
    {
        reached_states_are_of_the_model();
        what_has_ended_may_be_left_out();
        live_tasks_are_live();
        waits_go_by_the_cells();
        weight_falls();
        let _ = model.cells();
        let end = self.request.end();
        self.present
            .tasks
            .wake_all(self.present.time, end, self.present.cells.get())?;
        if self.present.tasks.is_ready() {
            return Ok(());
        }
        self.move_on(alloc, model)?;
        Ok(())
    }

    /// On to the next point that has a job, or to the run, and in place of other jobs those there.
    pub(crate) fn to_next_job(
        &mut self,
        alloc: Global,
        model: &Model,
        jobs: &mut ReadyJobs,
    ) -> Result<(), OutOfMemory>
        requires { IsOnCourse model.now self.old }
        ensures before { OnOk result (IsBeforeBatch model.now jobs.new self.new) }
        ensures request { OnOk result (self.new.request ≡ self.old.request) }
        ensures leads { OnOk result (
            LeadsTo model.now self.old.request.plan self.old.request.bound
            (point_in self.old) (point_in self.new)) }
    {
        reached_states_are_of_the_model();
        what_has_ended_may_be_left_out();
        weight_falls();
        let _ = model.cells();
        while self.is_idle() {
            self.on(alloc, model)?;
        }
        self.ready(alloc, jobs)?;
        Ok(())
    }

    /// The batch of the ready jobs, whose frames the stepper gives by waves, and on to the next point that has a job, or to the run.
    #[allow(clippy::too_many_arguments)]
    pub(crate) fn step<S: Stepper, L: Ledger, K: Ledger>(
        &mut self,
        alloc: Global,
        model: &Model,
        jobs: &mut ReadyJobs,
        stepper: &mut S,
        steps: &mut Steps<L>,
        looks: &mut Steps<K>,
    ) -> Result<(), OutOfMemory>
        requires before { IsBeforeBatch model.now jobs.old self.old }
        requires job { jobs.old ≡ [] → ⊥ }
        requires shares { S.shares }
        requires stepper { S.is_of stepper.old model.now }
        ensures before { OnOk result (IsBeforeBatch model.now jobs.new self.new) }
        ensures request { OnOk result (self.new.request ≡ self.old.request) }
        ensures next { OnOk result (IsAtNext model.now self.old self.new) }
        ensures frugal { OnOk result
            (PaysFrom model.now self.old (S.records stepper.old) steps.old steps.new) }
        ensures looks { looks.old ≤ looks.new }
        ensures few_looks { OnOk result (LooksFrom model.now self.old looks.old looks.new) }
        ensures opened { RoseAlike (S.opened stepper.old) steps.old (S.opened stepper.new) steps.new }
        ensures same_models { OfSameModels (S.is_of stepper.old) (S.is_of stepper.new) }
        ensures same_records { S.records stepper.new ≡ S.records stepper.old }
        ensures address { S.address stepper.new ≡ S.address stepper.old }
    {
        what_has_ended_may_be_left_out();
        let _ = model.cells();
        self.batch(alloc, model, jobs, stepper, steps, looks)?;
        self.to_next_job(alloc, model, jobs)?;
        Ok(())
    }

    /// The batch of the ready jobs, whose frames the caller has, in any order, and on to the next point that has a job, or to the run.
    pub(crate) fn step_over(
        &mut self,
        alloc: Global,
        model: &Model,
        jobs: &mut ReadyJobs,
        frames: &[Frame],
    ) -> Result<(), OutOfMemory>
        requires before { IsBeforeBatch model.now jobs.old self.old }
        requires job { jobs.old ≡ [] → ⊥ }
        requires frames { batch_frames model.now self.old.request.bound jobs.old ≡ Some (by_path frames.now) }
        ensures before { OnOk result (IsBeforeBatch model.now jobs.new self.new) }
        ensures request { OnOk result (self.new.request ≡ self.old.request) }
        ensures next { OnOk result (IsAtNext model.now self.old self.new) }
    {
        what_has_ended_may_be_left_out();
        let _ = model.cells();
        self.batch_of(alloc, model, jobs, frames)?;
        self.to_next_job(alloc, model, jobs)?;
        Ok(())
    }

    /// The run, where it has ended.
    pub(crate) fn into_run(self) -> Run
        requires none { jobs_in (point_in self) ≡ [] }
        requires job { HasJob (point_in self) }
        ensures { point_in self ≡ finished result }
    {
        let Simulation {
            request,
            history,
            present: _,
            ending,
        } = self;
        match ending {
            Some(ending) => Run {
                plan: request.plan,
                bound: request.bound,
                instants: history.instants,
                reach: ending.reach,
                outcome: ending.outcome,
            },
            None => unreachable!(),
        }
    }

    /// The completed run of the settled instants and others behind them, which are shared.
    pub(crate) fn end_with(self, rest: &[Shared<Instant>]) -> Result<Run, OutOfMemory>
        ensures { IfOk result (λ run. run
            ≡ completed_run self.request.plan self.request.bound (instants_in (point_in self) ++ rest.now)) }
    {
        let Simulation {
            request,
            history,
            present: _,
            ending: _,
        } = self;
        let reach = request.end();
        let mut instants = history.instants;
        put_shared(&mut instants, rest)?;
        Ok(Run {
            plan: request.plan,
            bound: request.bound,
            instants,
            reach,
            outcome: Outcome::Completed,
        })
    }
}
