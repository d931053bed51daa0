//! Simulations that are set aside: from each the simulation of an edited plan may begin.

ghost use Rattle.std.specs.Prelude.{◌≡◌, ◌≤◌, ◌<◌, [], length, IfOk};
ghost use Rattle.aerie_base.specs.Ranges.{step_limit};
ghost use Rattle.aerie_base.specs.plans.OfModel.{IsPlanOf};
ghost use Rattle.run_data.specs.laws.LateDifferences.{DifferLate};
ghost use Rattle.run_data.specs.laws.Orders.{EachOf};
ghost use Rattle.live_tasks.specs.InStep.{IsInStep};
ghost use Rattle.parting.specs.IdRanges.{is_id_between};
ghost use Rattle.parting.specs.PlainLateness.{IsPlainlyLate};
ghost use Rattle.engine_core.specs.EngineStates.{jobs_in, time_in, batches_in, instants_in, spent_in, IsEngineState, IsReachedPruned};
ghost use Rattle.engine_core.specs.Bookmarks.{IsSetAside, IsCopyOf, IsCopyFor, point_behind};
ghost use Rattle.engine_core.specs.Simulations.{engine_state_of};

use crate::engine::{Engine, engine_at};
use crate::history::{History, put_shared};
use crate::present::Present;
use crate::simulation::{Request, Simulation};
use aerie_base::{List, Model, OutOfMemory, Plan, Shared, Time};
use live_tasks::ready_jobs::ReadyJobs;
use parting::laws::{edited_plans_resume, live_tasks_are_exchanged};
use run_data::Instant;
use run_data::laws::{instants_begin_untouched, reached_states_are_of_the_model};
use std::alloc::Global;

/// A simulation that was set aside at the beginning of an instant, where a job is ready, with its model. Contracts see of it what
/// they see of an engine.
#[derive(Drop)]
pub struct Bookmark {
    model: Shared<Model>,
    simulation: Simulation,
}

impl std::marker::Model for Bookmark {
    ghost use Rattle.std.specs.Coded.{codes};
    ghost use Rattle.aerie_base.specs.contracts.expressions.Expr as expr;
    ghost use Rattle.aerie_base.specs.contracts.conditions.Cond as cond;
    ghost use Rattle.aerie_base.specs.contracts.statements.Stmt as stmt;
    ghost use Rattle.engine_core.specs.EngineStates.{EngineState};
    ghost use Rattle.engine_core.specs.Bookmarks.{IsSetAside};
    ghost use Rattle.engine_core.specs.Simulations.{engine_state_of};

    ghost Value = { EngineState };

    ghost coded = { Prim.hlevel (codes, expr.the_row.coded, cond.the_row.coded, stmt.the_row.coded) };

    ghost view = { λ bookmark. engine_state_of bookmark.model bookmark.simulation };

    ghost invariant = { λ bookmark. IsSetAside bookmark.model bookmark.simulation };
}

impl History {
    /// The same, where no batch stands in the instant at hand. The settled instants are shared.
    fn copy(&self, alloc: Global) -> Result<History, OutOfMemory>
        requires batches { self.now.batches ≡ [] }
        requires touched { self.now.touched ≡ [] }
        ensures { IfOk result (λ history. history ≡ self.now) }
    {
        let mut instants = List::with_capacity(alloc, self.instants.len())?;
        put_shared(&mut instants, self.instants.as_slice())?;
        Ok(History {
            instants,
            batches: List::new(alloc),
            touched: List::new(alloc),
        })
    }
}

impl Present {
    /// The same. The cells are shared.
    fn copy(&self, alloc: Global) -> Result<Present, OutOfMemory>
        requires { IsInStep self.now.tasks }
        ensures { IfOk result (IsCopyOf self.now) }
    {
        let cells = self.cells.share()?;
        let tasks = self.tasks.copy(alloc)?;
        Ok(Present {
            time: self.time,
            spent: self.spent,
            cells,
            tasks,
        })
    }
}

impl Simulation {
    /// The same for a plan and a bound, at the beginning of an instant.
    pub(crate) fn copy_for(
        &self,
        alloc: Global,
        plan: &Shared<Plan>,
        bound: u64,
    ) -> Result<Simulation, OutOfMemory>
        requires in_step { IsInStep self.now.present.tasks }
        requires batches { self.now.history.batches ≡ [] }
        requires touched { self.now.history.touched ≡ [] }
        ensures { IfOk result (IsCopyFor (record { plan = plan.now; bound = bound }) self.now) }
    {
        let plan = plan.share()?;
        let history = self.history.copy(alloc)?;
        let present = self.present.copy(alloc)?;
        Ok(Simulation {
            request: Request { plan, bound },
            history,
            present,
            ending: None,
        })
    }
}

impl Bookmark {
    /// Of a simulation that stands at the beginning of an instant.
    pub(crate) fn new(model: Shared<Model>, simulation: Simulation) -> Bookmark
        requires { IsSetAside model simulation }
        ensures { result ≡ engine_state_of model simulation }
    {
        Bookmark { model, simulation }
    }

    /// The model. It takes no memory.
    pub fn model(&self) -> &Shared<Model>
        ensures model { result.now ≡ self.now.model }
        ensures stands { IsEngineState self.now }
        ensures job { jobs_in self.now.point ≡ [] → ⊥ }
        ensures begins { batches_in self.now.point ≡ [] }
    {
        &self.model
    }

    /// The plan. It takes no memory.
    pub fn plan(&self) -> &Shared<Plan>
        ensures plan { result.now ≡ self.now.plan }
        ensures of_model { IsPlanOf self.now.model self.now.plan }
    {
        &self.simulation.request.plan
    }

    /// What the costs may come to. It takes no memory.
    pub fn bound(&self) -> u64
        ensures { result ≡ self.now.bound }
    {
        self.simulation.request.bound
    }

    /// The time of the instant. It takes no memory.
    pub fn time(&self) -> Time
        ensures { result ≡ time_in self.now.point }
    {
        self.simulation.time()
    }

    /// How many instants are settled before it. It takes no memory.
    pub fn instants(&self) -> usize
        ensures { result ≡ length (instants_in self.now.point) }
    {
        self.simulation.instants().len()
    }

    /// The instants that are settled before it. It takes no memory.
    pub fn settled(&self) -> &[Shared<Instant>]
        ensures { result.now ≡ instants_in self.now.point }
    {
        self.simulation.instants()
    }

    /// What the costs of the batches before it come to. It takes no memory.
    pub fn spent(&self) -> u64
        ensures { result ≡ spent_in self.now.point }
    {
        self.simulation.spent()
    }

    /// The same place in the simulation of another plan that comes there as well, behind other instants and at other costs. It takes no
    /// memory.
    pub fn moved(
        self,
        plan: Shared<Plan>,
        bound: u64,
        instants: List<Shared<Instant>>,
        spent: u64,
    ) -> Bookmark
        requires plan { IsPlanOf self.model plan }
        requires bound { bound ≤ step_limit }
        requires lasts { plan.duration ≡ self.plan.duration }
        requires comes { IsReachedPruned self.model plan bound (point_behind instants spent self.point) }
        ensures { result ≡ record {
          model = self.model;
          plan = plan;
          bound = bound;
          point = point_behind instants spent self.point;
        } }
    {
        let Bookmark {
            model,
            mut simulation,
        } = self;
        simulation.request = Request { plan, bound };
        simulation.history.instants = instants;
        simulation.present.spent = spent;
        Bookmark::new(model, simulation)
    }

    /// The simulation of another plan, from here on. The two plans differ in directives of a range of ids alone, none of which is due
    /// before a time that lies behind this instant. What is simulated before is shared.
    #[allow(clippy::too_many_arguments)]
    pub fn resume<'a>(
        &self,
        alloc: Global,
        model: &'a Model,
        plan: &Shared<Plan>,
        bound: u64,
        first: u32,
        past: u64,
        until: Time,
    ) -> Result<Engine<'a>, OutOfMemory>
        requires model { model.now ≡ self.now.model }
        requires plan { IsPlanOf model.now plan.now }
        requires bound { bound ≤ step_limit }
        requires ahead { time_in self.now.point < until }
        requires late { DifferLate (is_id_between first past) until model.now plan.now self.now.plan bound self.now.bound }
        requires plain { EachOf (IsPlainlyLate (is_id_between first past) until) plan.now.directives }
        requires old_plain { EachOf (IsPlainlyLate (is_id_between first past) until) self.now.plan.directives }
        ensures model { IfOk result (λ engine. engine.model ≡ model.now) }
        ensures plan { IfOk result (λ engine. engine.plan ≡ plan.now) }
        ensures bound { IfOk result (λ engine. engine.bound ≡ bound) }
        ensures stands { IfOk result (λ engine. IsEngineState engine) }
        ensures jobs { IfOk result (λ engine. jobs_in engine.point ≡ jobs_in self.now.point) }
        ensures begins { IfOk result (λ engine. batches_in engine.point ≡ []) }
        ensures instants { IfOk result (λ engine. instants_in engine.point ≡ instants_in self.now.point) }
        ensures time { IfOk result (λ engine. time_in engine.point ≡ time_in self.now.point) }
        ensures spent { IfOk result (λ engine. spent_in engine.point ≡ spent_in self.now.point) }
    {
        edited_plans_resume();
        live_tasks_are_exchanged();
        instants_begin_untouched();
        reached_states_are_of_the_model();
        let _ = until;
        let mut simulation = self.simulation.copy_for(alloc, plan, bound)?;
        simulation
            .present
            .tasks
            .exchange(alloc, model, plan.get(), first, past)?;
        let mut ready = ReadyJobs::new(alloc);
        simulation.ready(alloc, &mut ready)?;
        let engine = engine_at(model, simulation, ready);
        Ok(engine)
    }
}
