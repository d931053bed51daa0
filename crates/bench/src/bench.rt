//! One client's simulator, which remembers.

ghost use Rattle.std.specs.Prelude.{◌≡◌, ◌≤◌, ◌++◌, [], IfOk, IfSome, IsTrue, OnOk};
ghost use Rattle.aerie_base.specs.Ranges.{step_limit};
ghost use Rattle.aerie_base.specs.plans.OfModel.{IsPlanOf};
ghost use Rattle.run_data.specs.RunFrames.{PaysForRun};
ghost use Rattle.run_data.specs.Waves.{RoseAlike};
ghost use Rattle.resimulate.specs.EvenInstants.{LooksForUneven};
ghost use Rattle.bench.specs.Benches.{IsFreshRunOf, IsMadeFor, IsSameBench};
ghost use Rattle.bench.specs.Chapters.{GainsChapters, PublishesWhatRan};
ghost use Rattle.bench.specs.HeldSteps.{HoldsAll, HoldsRunWithin, records_of_kept};

use crate::compiled_model::CompiledModel;
use crate::publishing::Publisher;
use crate::simulating::BenchSetting;
use crate::stock::Stock;
use crate::taking::run_over;
use aerie_base::{Model, OutOfMemory, Plan, Shared, Steps};
use history_store::{Receipt, Store};
use resimulate::Bookmarks;
use run_data::Kept;
use std::alloc::Global;
use std::sync::Wait;
use std::sync::ledger::Ledger;
use std::thread::Threads;

/// Simulates plans of a model under a bound for one client, holds the steps that were run, and shares them with the benches of a
/// store. Contracts see the model, the bound, the steps that it holds, the receipts of the chapters that it published, and how many
/// statements and tests the last simulation ran.
#[derive(Drop)]
pub struct Bench {
    setting: BenchSetting,
    stock: Stock,
    publisher: Publisher,
    /// The index in the store from which on its chapters were not yet learnt, unless the bench itself published them.
    next: usize,
    /// From where on simulations of edited plans may begin.
    bookmarks: Bookmarks,
    statements: u64,
}

impl std::marker::Model for Bench {
    ghost use Rattle.std.specs.Prelude.{◌≡◌, take};
    ghost use Rattle.std.specs.Coded.{codes};
    ghost use Rattle.aerie_base.specs.contracts.expressions.Expr as expr;
    ghost use Rattle.aerie_base.specs.contracts.conditions.Cond as cond;
    ghost use Rattle.aerie_base.specs.contracts.statements.Stmt as stmt;
    ghost use Rattle.record_book.specs.StoredSteps.{book_limit};
    ghost use Rattle.bench.specs.Benches.{BenchOf};
    ghost use Rattle.bench.specs.Settings.{IsSetting};

    ghost Value = { BenchOf };

    ghost coded = { Prim.hlevel (codes, expr.the_row.coded, cond.the_row.coded, stmt.the_row.coded) };

    ghost view = { λ bench. record {
      model = bench.setting.compiled;
      bound = bench.setting.bound;
      records = take book_limit bench.stock.records;
      receipts = bench.publisher;
      statements = bench.statements;
    } };

    ghost invariant = { λ bench. IsSetting bench.setting × (bench.stock.model ≡ bench.setting.compiled) };
}

impl Bench {
    /// A bench of the model that holds nothing. A run ends where its cost would pass the bound, at most 100,000,000. Of a wave it
    /// makes 1 to 64 pieces at most. The bodies of the model are compiled.
    pub fn new(
        alloc: Global,
        model: Shared<Model>,
        bound: u64,
        pieces: usize,
    ) -> Result<Bench, OutOfMemory>
        requires bound { bound ≤ step_limit }
        requires pieces { (1 ≤ pieces) × (pieces ≤ 64) }
        ensures { IfOk result (λ bench. bench ≡ record {
          model = model;
          bound = bound;
          records = [];
          receipts = [];
          statements = 0;
        }) }
    {
        let stock = Stock::new(alloc, &model)?;
        let compiled = CompiledModel::new(alloc, model)?;
        Ok(Bench {
            setting: BenchSetting {
                compiled,
                bound,
                pieces,
            },
            stock,
            publisher: Publisher::new(alloc),
            next: 0,
            bookmarks: Bookmarks::new(alloc),
            statements: 0,
        })
    }

    /// The kept fresh run of the plan. A kept run of the model, of any plan and under any bound, may be handed in: where it is that of
    /// this plan it is given back, and otherwise the plan is simulated beside it. What the bench holds, what other benches published
    /// in the store and what the kept run has is not run again.
    ///
    /// What had to be run is published, in chapters of 4,096, while the bench has published fewer than 16 chapters. For a completed
    /// run `steps` rises by at most what it costs beyond what was held and what the kept run has, and `looks` by at most two for each
    /// frame of an instant that is not even with the kept run. After want of memory the bench holds what it held, and maybe more.
    /// The call may wait for another publisher.
    #[allow(clippy::too_many_arguments)]
    pub fn simulate<R: Threads + Wait + Sync, L: Ledger, K: Ledger>(
        &mut self,
        rt: &R,
        alloc: Global,
        store: &Store,
        plan: &Shared<Plan>,
        kept: Option<Shared<Kept>>,
        steps: &mut Steps<L>,
        looks: &mut Steps<K>,
    ) -> Result<Shared<Kept>, OutOfMemory>
        requires plan { IsPlanOf self.old.model plan.now }
        requires kept { IfSome kept (λ kept. kept.model ≡ self.old.model) }
        ensures made { IfOk result (IsMadeFor self.old plan.now) }
        ensures frugal { IfOk result (λ made.
            PaysForRun made.run (self.old.records ++ records_of_kept kept) steps.old steps.new) }
        ensures steps { steps.old ≤ steps.new }
        ensures looks { looks.old ≤ looks.new }
        ensures few_looks { IfOk result (λ made. IfSome kept (λ kept.
            LooksForUneven kept.run made.run looks.old looks.new)) }
        ensures same_bench { IsSameBench self.old self.new }
        ensures held { HoldsAll self.old.records self.new.records }
        ensures holds_run { IfOk result (λ made. HoldsRunWithin self.new.records made.run) }
        ensures gained { GainsChapters store.now self.old.model self.old.receipts self.new.receipts }
        ensures published { IfOk result (λ made.
            PublishesWhatRan made.run self.old.receipts self.new.receipts steps.old steps.new) }
        ensures counted { OnOk result (RoseAlike 0 steps.old self.new.statements steps.new) }
    {
        match kept {
            Some(kept) => {
                if self.has_made(&kept, plan) {
                    let made = self.give_back(alloc, kept)?;
                    return Ok(made);
                }
                self.simulate_plan(rt, alloc, store, plan, Some(kept), steps, looks)
            }
            None => self.simulate_plan(rt, alloc, store, plan, None, steps, looks),
        }
    }

    /// Whether a kept run of the model is the fresh run of the plan under the bound. It costs time linear in the plan.
    fn has_made(&self, kept: &Shared<Kept>, plan: &Shared<Plan>) -> bool
        requires { kept.now.model ≡ self.now.model }
        ensures { IsTrue result → IsMadeFor self.now plan.now kept.now }
    {
        is_run_of(kept.get(), plan, self.setting.bound)
    }

    /// Gives back a kept run of the model, whose frames are held from now on.
    fn give_back(&mut self, alloc: Global, kept: Shared<Kept>) -> Result<Shared<Kept>, OutOfMemory>
        requires { kept.model ≡ self.old.model }
        ensures same { IfOk result (λ made. made ≡ kept) }
        ensures same_bench { IsSameBench self.old self.new }
        ensures held { HoldsAll self.old.records self.new.records }
        ensures holds_run { OnOk result (HoldsRunWithin self.new.records kept.run) }
        ensures receipts { self.new.receipts ≡ self.old.receipts }
        ensures none { OnOk result (self.new.statements ≡ 0) }
    {
        self.stock.hold(alloc, &kept)?;
        self.statements = 0;
        Ok(kept)
    }

    /// The kept fresh run of the plan, which is simulated, beside a kept run where there is one.
    #[allow(clippy::too_many_arguments)]
    fn simulate_plan<R: Threads + Wait + Sync, L: Ledger, K: Ledger>(
        &mut self,
        rt: &R,
        alloc: Global,
        store: &Store,
        plan: &Shared<Plan>,
        kept: Option<Shared<Kept>>,
        steps: &mut Steps<L>,
        looks: &mut Steps<K>,
    ) -> Result<Shared<Kept>, OutOfMemory>
        requires plan { IsPlanOf self.old.model plan.now }
        requires kept { IfSome kept (λ kept. kept.model ≡ self.old.model) }
        ensures made { IfOk result (IsMadeFor self.old plan.now) }
        ensures frugal { IfOk result (λ made.
            PaysForRun made.run (self.old.records ++ records_of_kept kept) steps.old steps.new) }
        ensures steps { steps.old ≤ steps.new }
        ensures looks { looks.old ≤ looks.new }
        ensures few_looks { IfOk result (λ made. IfSome kept (λ kept.
            LooksForUneven kept.run made.run looks.old looks.new)) }
        ensures same_bench { IsSameBench self.old self.new }
        ensures held { HoldsAll self.old.records self.new.records }
        ensures holds_run { IfOk result (λ made. HoldsRunWithin self.new.records made.run) }
        ensures gained { GainsChapters store.now self.old.model self.old.receipts self.new.receipts }
        ensures published { IfOk result (λ made.
            PublishesWhatRan made.run self.old.receipts self.new.receipts steps.old steps.new) }
        ensures counted { OnOk result (RoseAlike 0 steps.old self.new.statements steps.new) }
    {
        let from = self.publisher.behind_own(self.next);
        let next = self.stock.learn(alloc, store, from)?;
        self.next = next;
        let made = run_over(
            rt,
            alloc,
            store,
            &self.setting,
            &mut self.stock,
            &mut self.publisher,
            &mut self.bookmarks,
            plan,
            kept,
            steps,
            looks,
        )?;
        self.statements = made.statements;
        Ok(made.kept)
    }

    /// The model. It takes no memory.
    pub fn model(&self) -> &Shared<Model>
        ensures model { result.now ≡ self.now.model }
        ensures bound { self.now.bound ≤ step_limit }
    {
        self.setting.compiled.model()
    }

    /// The receipts of the chapters that it published, in order. It takes no memory.
    pub fn receipts(&self) -> &[Receipt]
        ensures { result.now ≡ self.now.receipts }
    {
        self.publisher.receipts()
    }

    /// How many statements and tests the last simulation ran that did not end for want of memory, or 2^64 - 1 where there were
    /// more; 0 before the first, and where a kept run was given back. It takes no memory.
    pub fn statements(&self) -> u64
        ensures { result ≡ self.now.statements }
    {
        self.statements
    }
}

/// Whether a kept run is the fresh run of a plan under a bound.
fn is_run_of(kept: &Kept, plan: &Shared<Plan>, bound: u64) -> bool
    ensures { IsTrue result → IsFreshRunOf kept.now plan.now bound }
{
    let run = kept.run();
    run.bound == bound && run.plan.get().is_same(plan.get())
}
