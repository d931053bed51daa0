ghost use Rattle.std.specs.Prelude.{◌≡◌, ◌≤◌, ◌<◌, ◌++◌, [], Some, IfOk, map, length, slice_get};
ghost use Rattle.aerie_base.specs.Ranges.{step_limit};
ghost use Rattle.aerie_base.specs.plans.OfModel.{IsPlanOf};
ghost use Rattle.run_data.specs.Batches.{by_path};
ghost use Rattle.run_data.specs.Fresh.{start, IsFresh};
ghost use Rattle.run_data.specs.Transitions.{more, finished};
ghost use Rattle.run_data.specs.laws.PrunedStates.{pruned};
ghost use Rattle.run_data.specs.laws.RestOfRuns.{completed_run};
ghost use Rattle.run_data.specs.Waves.{RoseAlike};
ghost use Rattle.engine_core.specs.BatchEnds.{batch_frames};
ghost use Rattle.engine_core.specs.EngineStates.{jobs_in, time_in, batches_in, instants_in, spent_in, IsEngineState, LeadsTo, IsNextOf, PaysForBatch, LooksForBatch, OfSameModels};
ghost use Rattle.engine_core.specs.Simulations.{engine_state_of, IsBeforeBatch};

use crate::bookmarks::Bookmark;
use crate::simulation::Simulation;
use aerie_base::{List, Model, OutOfMemory, Plan, Shared, Steps, Time};
use live_tasks::ready_jobs::ReadyJobs;
use run_data::laws::instants_begin_untouched;
use run_data::{Frame, Instant, Job, Run, Stepper};
use std::alloc::Global;
use std::sync::ledger::Ledger;

/// The simulation of a plan, batch by batch, for one model, plan and bound: before a batch that has a job, or at its
/// outcome. Contracts see the model, the plan, the bound and the point of the simulation, which comes there.
#[derive(Drop)]
pub struct Engine<'a> {
    model: &'a Model,
    simulation: Simulation,
    ready: ReadyJobs,
}

impl<'a> std::marker::Model for Engine<'a> {
    ghost use Rattle.std.specs.Coded.{codes};
    ghost use Rattle.aerie_base.specs.contracts.expressions.Expr as expr;
    ghost use Rattle.aerie_base.specs.contracts.conditions.Cond as cond;
    ghost use Rattle.aerie_base.specs.contracts.statements.Stmt as stmt;
    ghost use Rattle.engine_core.specs.EngineStates.{EngineState};
    ghost use Rattle.engine_core.specs.Simulations.{engine_state_of, IsBeforeBatch};

    ghost Value = { EngineState };

    ghost coded = { Prim.hlevel (codes, expr.the_row.coded, cond.the_row.coded, stmt.the_row.coded) };

    ghost view = { λ engine. engine_state_of engine.model.now engine.simulation };

    ghost invariant = { λ engine. IsBeforeBatch engine.model.now engine.ready engine.simulation };
}

/// A simulation before a batch, whose jobs these are, or at its run.
pub(crate) fn engine_at<'a>(
    model: &'a Model,
    simulation: Simulation,
    ready: ReadyJobs,
) -> Engine<'a>
    requires { IsBeforeBatch model.now ready simulation }
    ensures is { result ≡ engine_state_of model.now simulation }
    ensures stands { IsEngineState result }
{
    Engine {
        model,
        simulation,
        ready,
    }
}

impl<'a> Engine<'a> {
    /// Before the first batch that has a job, or at the outcome. The bound is at most 100,000,000.
    pub fn begin(
        alloc: Global,
        model: &'a Model,
        plan: &Shared<Plan>,
        bound: u64,
    ) -> Result<Engine<'a>, OutOfMemory>
        requires plan { IsPlanOf model.now plan.now }
        requires bound { bound ≤ step_limit }
        ensures model { IfOk result (λ engine. engine.model ≡ model.now) }
        ensures plan { IfOk result (λ engine. engine.plan ≡ plan.now) }
        ensures bound { IfOk result (λ engine. engine.bound ≡ bound) }
        ensures stands { IfOk result (λ engine. IsEngineState engine) }
        ensures first { IfOk result (λ engine.
            LeadsTo model.now plan.now bound (more (pruned (start model.now plan.now))) engine.point) }
    {
        let mut simulation = Simulation::begin(alloc, model, plan, bound)?;
        let mut ready = ReadyJobs::new(alloc);
        simulation.to_next_job(alloc, model, &mut ready)?;
        let engine = engine_at(model, simulation, ready);
        Ok(engine)
    }

    /// The ready jobs of the next batch in order of path; none exactly where the outcome is reached. It takes no memory.
    pub fn ready(&self) -> &[Job]
        ensures jobs { result.now ≡ map (λ job. job.1) (jobs_in self.now.point) }
        ensures stands { IsEngineState self.now }
    {
        self.ready.jobs()
    }

    /// How many children the task of a ready job, by its index from 0, has made before this batch; 0 for one that begins.
    /// It takes no memory.
    pub fn made(&self, job: usize) -> u32
        requires { job < length (jobs_in self.now.point) }
        ensures { slice_get (map (λ job. job.0) (jobs_in self.now.point)) job ≡ Some result }
    {
        self.ready.made(job)
    }

    /// The time of the next batch. It takes no memory.
    pub fn time(&self) -> Time
        requires { jobs_in self.now.point ≡ [] → ⊥ }
        ensures { result ≡ time_in self.now.point }
    {
        self.simulation.time()
    }

    /// The batches already committed at this time. It takes no memory.
    pub fn batches(&self) -> &[List<Frame>]
        requires { jobs_in self.now.point ≡ [] → ⊥ }
        ensures { result.now ≡ batches_in self.now.point }
    {
        self.simulation.batches()
    }

    /// The instants that are settled: those before the next batch's, or all of the outcome. It takes no memory.
    pub fn instants(&self) -> &[Shared<Instant>]
        ensures { result.now ≡ instants_in self.now.point }
    {
        self.simulation.instants()
    }

    /// What the costs of the batches before the next one come to. It takes no memory.
    pub fn spent(&self) -> u64
        requires { jobs_in self.now.point ≡ [] → ⊥ }
        ensures { result ≡ spent_in self.now.point }
    {
        self.simulation.spent()
    }

    /// The simulation as it stands, set aside at the beginning of an instant. What is settled is shared.
    pub fn bookmark(&self, alloc: Global, model: &Shared<Model>) -> Result<Bookmark, OutOfMemory>
        requires model { model.now ≡ self.now.model }
        requires job { jobs_in self.now.point ≡ [] → ⊥ }
        requires begins { batches_in self.now.point ≡ [] }
        ensures { IfOk result (λ bookmark. bookmark ≡ self.now) }
    {
        instants_begin_untouched();
        let request = &self.simulation.request;
        let simulation = self
            .simulation
            .copy_for(alloc, &request.plan, request.bound)?;
        let bookmark = Bookmark::new(model.share()?, simulation);
        Ok(bookmark)
    }

    /// The next batch, whose frames the stepper gives by waves, and on to the next batch that has a job, or to the outcome.
    /// After want of memory the engine is dropped.
    pub fn step<S: Stepper, L: Ledger, K: Ledger>(
        self,
        alloc: Global,
        stepper: &mut S,
        steps: &mut Steps<L>,
        looks: &mut Steps<K>,
    ) -> Result<Engine<'a>, OutOfMemory>
        requires job { jobs_in self.point ≡ [] → ⊥ }
        requires shares { S.shares }
        requires stepper { S.is_of stepper.old self.model }
        ensures model { IfOk result (λ engine. engine.model ≡ self.entry.model) }
        ensures plan { IfOk result (λ engine. engine.plan ≡ self.entry.plan) }
        ensures bound { IfOk result (λ engine. engine.bound ≡ self.entry.bound) }
        ensures stands { IfOk result (λ engine. IsEngineState engine) }
        ensures next { IfOk result (IsNextOf self.entry) }
        ensures frugal { IfOk result (λ engine.
            PaysForBatch self.entry (S.records stepper.old) steps.old steps.new) }
        ensures looks { looks.old ≤ looks.new }
        ensures few_looks { IfOk result (λ engine. LooksForBatch self.entry looks.old looks.new) }
        ensures opened { RoseAlike (S.opened stepper.old) steps.old (S.opened stepper.new) steps.new }
        ensures same_models { OfSameModels (S.is_of stepper.old) (S.is_of stepper.new) }
        ensures same_records { S.records stepper.new ≡ S.records stepper.old }
        ensures address { S.address stepper.new ≡ S.address stepper.old }
    {
        let Engine {
            model,
            mut simulation,
            mut ready,
        } = self;
        simulation.step(alloc, model, &mut ready, stepper, steps, looks)?;
        let engine = engine_at(model, simulation, ready);
        Ok(engine)
    }

    /// The next batch, whose frames the caller has, in any order, and on to the next batch that has a job, or to the outcome.
    /// After want of memory the engine is dropped.
    pub fn take_over(self, alloc: Global, frames: &[Frame]) -> Result<Engine<'a>, OutOfMemory>
        requires job { jobs_in self.point ≡ [] → ⊥ }
        requires frames { batch_frames self.model self.bound (jobs_in self.point)
            ≡ Some (by_path frames.now) }
        ensures model { IfOk result (λ engine. engine.model ≡ self.entry.model) }
        ensures plan { IfOk result (λ engine. engine.plan ≡ self.entry.plan) }
        ensures bound { IfOk result (λ engine. engine.bound ≡ self.entry.bound) }
        ensures stands { IfOk result (λ engine. IsEngineState engine) }
        ensures next { IfOk result (IsNextOf self.entry) }
    {
        let Engine {
            model,
            mut simulation,
            mut ready,
        } = self;
        simulation.step_over(alloc, model, &mut ready, frames)?;
        let engine = engine_at(model, simulation, ready);
        Ok(engine)
    }

    /// The fresh run of the plan. It takes no memory.
    pub fn finish(self) -> Run
        requires { jobs_in self.point ≡ [] }
        ensures fresh { IsFresh self.entry.model self.entry.plan self.entry.bound result }
        ensures point { self.entry.point ≡ finished result }
    {
        self.simulation.into_run()
    }

    /// The completed run of the settled instants and others behind them, which are shared: what a caller takes that knows how
    /// the simulation goes on.
    pub fn end_with(self, rest: &[Shared<Instant>]) -> Result<Run, OutOfMemory>
        ensures { IfOk result (λ run. run
            ≡ completed_run self.entry.plan self.entry.bound (instants_in self.entry.point ++ rest.now)) }
    {
        let run = self.simulation.end_with(rest)?;
        Ok(run)
    }
}
