//! A simulator that counts the plans that are simulated.

ghost use Rattle.std.specs.Prelude.{◌≡◌, ◌≤◌, IfOk};
ghost use Rattle.aerie_base.specs.Ranges.{step_limit};

use aerie_base::{Model, OutOfMemory, Plan, Shared, Steps};
use bench::Bench;
use history_store::Store;
use run_data::{Kept, Simulator};
use std::alloc::Global;
use std::sync::Wait;
use std::sync::ledger::Ledger;
use std::thread::Threads;

/// A bench with a store of its own, and how many plans it was given.
#[derive(Drop)]
pub(crate) struct Counting<'s, R: Threads + Wait + Sync> {
    bench: Bench,
    store: Store,
    rt: &'s R,
    pub(crate) runs: u32,
}

impl<'s, R: Threads + Wait + Sync> Counting<'s, R> {
    pub(crate) fn new(
        alloc: Global,
        rt: &'s R,
        model: Shared<Model>,
        bound: u64,
    ) -> Result<Counting<'s, R>, OutOfMemory>
        requires { bound ≤ step_limit }
        ensures model { IfOk result (λ made. made.bench.model ≡ model) }
        ensures bound { IfOk result (λ made. made.bench.bound ≡ bound) }
    {
        Ok(Counting {
            bench: Bench::new(alloc, model, bound, 1)?,
            store: Store::new(alloc)?,
            rt,
            runs: 0,
        })
    }
}

impl<R: Threads + Wait + Sync> Simulator for Counting<'_, R> {
    ghost use Rattle.std.specs.Thread.{IsSync};

    ghost model = { λ counting. counting.bench.model };

    ghost bound = { λ counting. counting.bench.bound };

    ghost address = { λ counting. counting.rt.ref_ptr.0 };

    ghost shares = { IsSync R.row };

    fn run<L: Ledger, K: Ledger>(
        &mut self,
        alloc: Global,
        plan: &Shared<Plan>,
        steps: &mut Steps<L>,
        looks: &mut Steps<K>,
    ) -> Result<Shared<Kept>, OutOfMemory> {
        self.runs = self.runs.saturating_add(1);
        self.bench
            .simulate(self.rt, alloc, &self.store, plan, None, steps, looks)
    }
}
