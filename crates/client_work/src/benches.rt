//! What a client keeps from command to command: benches, and what was found on the run that it reported last.

ghost use Rattle.std.specs.Prelude.{◌≡◌, ◌≤◌, [], IsTrue, IfOk, IfSome};
ghost use Rattle.std.specs.List.{list_all};
ghost use Rattle.aerie_base.specs.Ranges.{step_limit};
ghost use Rattle.aerie_base.specs.plans.OfModel.{IsPlanOf};
ghost use Rattle.constraints.specs.OfModel.{is_constraint};
ghost use Rattle.findings.specs.Found.{AreFindings};
ghost use Rattle.profiles.specs.OfRuns.{AreProfilesOf};
ghost use Rattle.run_data.specs.Fresh.{IsFresh};
ghost use Rattle.run_data.specs.RunFrames.{PaysForRun};
ghost use Rattle.run_data.specs.Waves.{RoseAlike};
ghost use Rattle.bench.specs.Benches.{IsMadeFor, IsSameBench};
ghost use Rattle.scheduler.specs.Scheduling.{schedule_of};
ghost use Rattle.scheduler.specs.Told.{IsLikePlan};
ghost use Rattle.span_table.specs.SpanLaws.{AreSpansOf};
ghost use Rattle.client_work.specs.Benches.{AreBenches, IsBenchAt, IsPassedOn};
ghost use Rattle.client_work.specs.Counts.{PaysBeside};
ghost use Rattle.client_work.specs.Working.{IsRuled};

use crate::missions::RuledModel;
use aerie_base::{List, Model, OutOfMemory, Plan, Shared, Steps};
use bench::{Bench, Desk, HandedRuns};
use constraints::Constraint;
use findings::{Findings, ReportedRun, find_after};
use history_store::Store;
use run_data::Kept;
use scheduler::{Schedule, schedule};
use span_table::Span;
use std::alloc::Global;
use std::sync::Wait;
use std::sync::ledger::Ledger;
use std::thread::Threads;

/// The benches of a client: one for each model of which it has simulated a plan, and the run that was reported last, with what was
/// found on it. Contracts see the bound under which they simulate.
#[derive(Drop)]
pub struct Benches {
    benches: List<Bench>,
    bound: u64,
    pieces: u32,
    reported: Option<ReportedRun>,
}

impl std::marker::Model for Benches {
    ghost use Rattle.std.specs.Prelude.{ℕ};
    ghost use Rattle.client_work.specs.Benches.{AreBenches};

    ghost Value = { ℕ };

    ghost view = { λ benches. benches.bound };

    ghost invariant = { λ benches. AreBenches benches.bound benches.pieces benches.benches };
}

/// A run, and how many statements were simulated for it.
#[derive(Drop)]
pub(crate) struct SimulatedRun {
    /// The kept run.
    pub(crate) run: Shared<Kept>,
    /// The count, or 2^64 - 1 where there were more.
    pub(crate) statements: u64,
}

impl Benches {
    /// No bench yet. A run ends where its cost would pass the bound, at most 100,000,000. A wave is cut into 1 to 64 pieces, and no
    /// more than are said here.
    pub fn new(alloc: Global, bound: u64, pieces: u32) -> Benches
        requires { bound ≤ step_limit }
        ensures { result ≡ bound }
    {
        Benches {
            benches: List::new(alloc),
            bound,
            pieces: pieces.clamp(1, 64),
            reported: None,
        }
    }

    /// What is found on a run with these constraints. What was found on the run that was reported before serves again.
    pub(crate) fn find(
        &mut self,
        alloc: Global,
        run: &Shared<Kept>,
        constraints: &[Constraint],
    ) -> Result<Findings, OutOfMemory>
        requires { IsTrue (list_all (is_constraint run.now.model) constraints.now) }
        ensures found { IfOk result (AreFindings run.now.model run.now.run constraints.now) }
        ensures same_bound { self.new ≡ self.old }
    {
        let before = self.reported.take();
        find_after(alloc, run, before, constraints)
    }

    /// Keeps what was found on a run that is reported.
    pub(crate) fn keep_found(&mut self, run: Shared<Kept>, findings: Findings)
        requires spans { AreSpansOf run.model run.run findings.spans }
        requires profiles { AreProfilesOf run.model run.run findings.profiles }
        ensures same_bound { self.new ≡ self.old }
    {
        self.reported = Some(ReportedRun::new(run, findings));
    }

    /// The spans of a run, where it is the one that was reported last.
    pub(crate) fn spans_of(&self, run: &Kept) -> Option<&[Span]>
        ensures { IfSome result (λ spans. AreSpansOf run.now.model run.now.run spans.now) }
    {
        match &self.reported {
            Some(reported) => reported.spans_of(run),
            None => None,
        }
    }

    /// The fresh run of a plan of the model, at its bench. The run that is kept on the branch of the plan is passed on where it is one
    /// of this model.
    #[tactic(auto, using(crate::proofs::BenchLists::model_of, crate::proofs::BenchLists::bound_of, crate::proofs::BenchLists::still))]
    pub(crate) fn simulate<R: Threads + Wait + Sync, L: Ledger, K: Ledger>(
        &mut self,
        rt: &R,
        alloc: Global,
        store: &Store,
        model: &Shared<Model>,
        plan: &Shared<Plan>,
        kept: &Option<Shared<Kept>>,
        steps: &mut Steps<L>,
        looks: &mut Steps<K>,
    ) -> Result<SimulatedRun, OutOfMemory>
        requires { IsPlanOf model.now plan.now }
        ensures model_of { IfOk result (λ made. made.run.model ≡ model.now) }
        ensures plan_of { IfOk result (λ made. made.run.run.plan ≡ plan.now) }
        ensures fresh { IfOk result (λ made. IsFresh model.now plan.now self.old made.run.run) }
        ensures counted { IfOk result (λ made. RoseAlike 0 steps.old made.statements steps.new) }
        ensures paid { IfOk result (λ made. PaysBeside made.run kept.now made.statements) }
        ensures same_bound { self.new ≡ self.old }
        ensures steps { steps.old ≤ steps.new }
    {
        let (bound, pieces) = (self.bound, self.pieces);
        let at = place_for(alloc, &mut self.benches, model, bound, pieces)?;
        let bench = &mut self.benches.items[at];
        simulate_at(rt, alloc, store, bench, plan, kept, steps, looks)
    }

    /// The schedule of a plan of the model by the rules of the model, at its bench, beside the run that is kept on the branch of the plan.
    #[tactic(auto, using(crate::proofs::BenchLists::model_of, crate::proofs::BenchLists::bound_of, crate::proofs::BenchLists::still))]
    pub(crate) fn schedule<R: Threads + Wait + Sync, L: Ledger, K: Ledger>(
        &mut self,
        rt: &R,
        alloc: Global,
        store: &Store,
        ruled: &RuledModel,
        plan: &Shared<Plan>,
        kept: &Option<Shared<Kept>>,
        steps: &mut Steps<L>,
        looks: &mut Steps<K>,
    ) -> Result<Schedule, OutOfMemory>
        requires plan { IsPlanOf ruled.now.model plan.now }
        requires rules { IsRuled ruled.now }
        ensures made { IfOk result (λ made.
            made ≡ schedule_of ruled.now.model self.old ruled.now.constraints ruled.now.goals plan.now) }
        ensures of_model { IfOk result (λ made. IsPlanOf ruled.now.model made.plan) }
        ensures same_position { IfOk result (λ made. IsLikePlan plan.now made.plan) }
        ensures same_bound { self.new ≡ self.old }
        ensures steps { steps.old ≤ steps.new }
    {
        let model = &ruled.model;
        let (bound, pieces) = (self.bound, self.pieces);
        let at = place_for(alloc, &mut self.benches, model, bound, pieces)?;
        let bench = &mut self.benches.items[at];
        schedule_at(rt, alloc, store, bench, ruled, plan, kept, steps, looks)
    }
}

/// The place of the bench of a model, where there is one.
#[tactic(auto, using(crate::proofs::BenchLists::found_there))]
fn place_of(benches: &[Bench], model: &Model) -> Option<usize>
    ensures { IfSome result (IsBenchAt benches.now model.now) }
{
    for at in 0..benches.len() {
        if benches[at].model().get().is_same(model) {
            return Some(at);
        }
    }
    None
}

/// The place of the bench of a model, which is made where there is none. After want of memory the benches are as they were.
#[tactic(auto, using(crate::proofs::BenchLists::one_more, crate::proofs::BenchLists::last_is))]
fn place_for(
    alloc: Global,
    benches: &mut List<Bench>,
    model: &Shared<Model>,
    bound: u64,
    pieces: u32,
) -> Result<usize, OutOfMemory>
    requires { AreBenches bound pieces benches.old }
    ensures place { IfOk result (IsBenchAt benches.new model.now) }
    ensures alike { AreBenches bound pieces benches.new }
{
    match place_of(benches.as_slice(), model.get()) {
        Some(at) => Ok(at),
        None => {
            let bench = Bench::new(alloc, model.share()?, bound, pieces as usize)?;
            benches.push(bench)?;
            Ok(benches.len() - 1)
        }
    }
}

/// The run that is kept on a branch, where it is one of a model.
fn passed_on(
    kept: &Option<Shared<Kept>>,
    model: &Model,
) -> Result<Option<Shared<Kept>>, OutOfMemory>
    ensures { IfOk result (IsPassedOn model.now kept.now) }
{
    match kept {
        Some(kept) => {
            if kept.get().model().get().is_same(model) {
                let kept = kept.share()?;
                Ok(Some(kept))
            } else {
                Ok(None)
            }
        }
        None => Ok(None),
    }
}

/// The fresh run of a plan, at a bench of its model.
fn simulate_at<R: Threads + Wait + Sync, L: Ledger, K: Ledger>(
    rt: &R,
    alloc: Global,
    store: &Store,
    bench: &mut Bench,
    plan: &Shared<Plan>,
    kept: &Option<Shared<Kept>>,
    steps: &mut Steps<L>,
    looks: &mut Steps<K>,
) -> Result<SimulatedRun, OutOfMemory>
    requires { IsPlanOf bench.old.model plan.now }
    ensures made { IfOk result (λ made. IsMadeFor bench.old plan.now made.run) }
    ensures counted { IfOk result (λ made. RoseAlike 0 steps.old made.statements steps.new) }
    ensures paid { IfOk result (λ made. PaysBeside made.run kept.now made.statements) }
    ensures same_bench { IsSameBench bench.old bench.new }
    ensures steps { steps.old ≤ steps.new }
{
    let passed = passed_on(kept, bench.model().get())?;
    let run = bench.simulate(rt, alloc, store, plan, passed, steps, looks)?;
    let statements = bench.statements();
    Ok(SimulatedRun { run, statements })
}

/// The schedule of a plan by the rules of its model, at a bench of the model.
fn schedule_at<R: Threads + Wait + Sync, L: Ledger, K: Ledger>(
    rt: &R,
    alloc: Global,
    store: &Store,
    bench: &mut Bench,
    ruled: &RuledModel,
    plan: &Shared<Plan>,
    kept: &Option<Shared<Kept>>,
    steps: &mut Steps<L>,
    looks: &mut Steps<K>,
) -> Result<Schedule, OutOfMemory>
    requires model { bench.old.model ≡ ruled.now.model }
    requires plan { IsPlanOf ruled.now.model plan.now }
    requires rules { IsRuled ruled.now }
    ensures made { IfOk result (λ made.
        made ≡ schedule_of ruled.now.model bench.old.bound ruled.now.constraints ruled.now.goals plan.now) }
    ensures of_model { IfOk result (λ made. IsPlanOf ruled.now.model made.plan) }
    ensures same_position { IfOk result (λ made. IsLikePlan plan.now made.plan) }
    ensures same_bench { IsSameBench bench.old bench.new }
    ensures steps { steps.old ≤ steps.new }
{
    let model = ruled.model.get();
    let passed = passed_on(kept, model)?;
    let mut runs = HandedRuns::new(passed);
    let mut desk = Desk::new(bench, rt, store, &mut runs);
    let made = schedule(
        alloc,
        model,
        plan,
        ruled.goals.get().as_slice(),
        ruled.constraints.get().as_slice(),
        &mut desk,
        steps,
        looks,
    )?;
    Ok(made)
}
