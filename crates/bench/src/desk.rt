//! A bench as the simulator of a schedule.

ghost use Rattle.std.specs.Prelude.{◌≡◌, IfOk, IfSome};

use crate::bench::Bench;
use crate::plan_differences::count_differing;
use aerie_base::{OutOfMemory, Plan, Shared, Steps};
use history_store::Store;
use run_data::{Kept, Simulator};
use std::alloc::Global;
use std::sync::Wait;
use std::sync::ledger::Ledger;
use std::thread::Threads;

/// The two runs beside which a desk simulates. They stand outside of it, so that its bench can be used again when it ends.
#[derive(Drop)]
pub struct HandedRuns {
    /// The run beside which the last one was made; at first the one that was given.
    base: Option<Shared<Kept>>,
    /// The last run.
    last: Option<Shared<Kept>>,
}

impl HandedRuns {
    /// A kept run, where there is one. It takes no memory.
    pub fn new(kept: Option<Shared<Kept>>) -> HandedRuns {
        HandedRuns {
            base: kept,
            last: None,
        }
    }

    /// The last run becomes the base where it is nearer to a plan.
    fn move_base(&mut self, plan: &Plan) {
        if is_nearer(&self.last, &self.base, plan) {
            self.base = self.last.take();
        }
    }

    /// One more owner of the base, where it is a run of the bench's model.
    fn base_for(&self, bench: &Bench) -> Result<Option<Shared<Kept>>, OutOfMemory>
        ensures { IfOk result (λ found. IfSome found (λ kept. kept.model ≡ bench.now.model)) }
    {
        match &self.base {
            Some(kept) => {
                if kept.get().model().get().is_same(bench.model().get()) {
                    let kept = kept.share()?;
                    Ok(Some(kept))
                } else {
                    Ok(None)
                }
            }
            None => Ok(None),
        }
    }

    /// Keeps the last run.
    fn keep(&mut self, last: Shared<Kept>) {
        self.last = Some(last);
    }
}

/// Simulates plans that differ little from one another at a bench. It hands runs on: each plan is simulated beside the one of two
/// runs whose plan differs from it in fewer directives.
#[derive(Drop)]
pub struct Desk<'b, 's, R: Threads + Wait + Sync> {
    /// The bench.
    pub bench: &'b mut Bench,
    rt: &'s R,
    store: &'s Store,
    runs: &'b mut HandedRuns,
}

/// Whether the plan of the last run differs from a plan in fewer directives than that of the base.
fn is_nearer(last: &Option<Shared<Kept>>, base: &Option<Shared<Kept>>, plan: &Plan) -> bool {
    match last {
        Some(last) => match base {
            Some(base) => is_plan_nearer(last.get(), base.get(), plan),
            None => true,
        },
        None => false,
    }
}

/// Whether the plan of a run differs from a plan in fewer directives than that of another.
fn is_plan_nearer(last: &Kept, base: &Kept, plan: &Plan) -> bool {
    let from_last = count_differing(last.run().plan.get(), plan);
    let from_base = count_differing(base.run().plan.get(), plan);
    from_last < from_base
}

impl<'b, 's, R: Threads + Wait + Sync> Desk<'b, 's, R> {
    /// A simulator of the bench's model under its bound, over what the bench, the store and the runs have. It takes no memory.
    pub fn new(
        bench: &'b mut Bench,
        rt: &'s R,
        store: &'s Store,
        runs: &'b mut HandedRuns,
    ) -> Desk<'b, 's, R>
        ensures bench { result.bench.now ≡ bench.old }
        ensures same_reference { result.bench.ghost_name ≡ bench.entry.ghost_name }
    {
        Desk {
            bench,
            rt,
            store,
            runs,
        }
    }
}

impl<R: Threads + Wait + Sync> Simulator for Desk<'_, '_, R> {
    ghost use Rattle.std.specs.Thread.{IsSync};

    ghost model = { λ desk. desk.bench.now.model };

    ghost bound = { λ desk. desk.bench.now.bound };

    ghost address = { λ desk. desk.bench.ghost_name };

    ghost shares = { IsSync R.row };

    fn run<L: Ledger, K: Ledger>(
        &mut self,
        alloc: Global,
        plan: &Shared<Plan>,
        steps: &mut Steps<L>,
        looks: &mut Steps<K>,
    ) -> Result<Shared<Kept>, OutOfMemory> {
        self.runs.move_base(plan.get());
        let kept = self.runs.base_for(self.bench)?;
        let made = self
            .bench
            .simulate(self.rt, alloc, self.store, plan, kept, steps, looks)?;
        self.runs.keep(made.share()?);
        Ok(made)
    }
}
