//! The pieces of a wave run beside each other: each is held until the other has begun.

ghost use Rattle.std.specs.Prelude.{◌≡◌, ◌<◌};
ghost use Rattle.aerie_base.specs.plans.OfModel.{IsPlanOf};

use crate::plans::bare;
use crate::telling;
use aerie_base::{Model, OutOfMemory, Plan, Shared, Steps};
use batch_run::{Probe, Spread};
use body_code::compile_all;
use engine_core::simulate;
use record_book::Book;
use run_data::{Job, Run, Stepper, Wave};
use std::alloc::Global;
use std::marker::Brand;
use std::sync::atomic::{AtomicU64, Ordering};
use std::sync::ledger::{Blank, Ledger};
use std::thread::{Threads, yield_now};
use test_worlds::{Outline, model_in, plan_of};

/// Each task ends in its first step.
const TICKING: &str = "model ticking { counter n = 0; activity Tick() { n += 1; } }";

/// How many tasks begin together: enough for two pieces.
const TOGETHER: usize = 4200;

/// Holds each piece until another has begun, for so many tries at most.
#[derive(Drop)]
struct Meeting {
    tries: u64,
    begun: AtomicU64,
    met: AtomicU64,
}

impl Probe for Meeting {
    fn piece(&self, _number: usize) {
        self.begun.fetch_add(1, Ordering::SeqCst);
        for _ in 0..self.tries {
            if self.begun.load(Ordering::SeqCst) > 1 {
                self.met.fetch_add(1, Ordering::SeqCst);
                return;
            }
            yield_now();
        }
    }
}

/// The stepper whose pieces meet.
#[derive(Drop)]
struct Held<'a, R: Threads + Sync> {
    spread: Spread<'a, R, Meeting>,
}

impl<R: Threads + Sync> Stepper for Held<'_, R> {
    ghost use Rattle.std.specs.Prelude.{min};
    ghost use Rattle.std.specs.Thread.{IsSync};
    ghost use Rattle.std.proofs.Common.{arith};
    ghost use Rattle.run_data.specs.Waves.{last_count};
    ghost use Rattle.batch_run.specs.Spreads.{IsSpreadOf, stored_in};

    ghost is_of = { λ held. IsSpreadOf held.spread };

    ghost records = { λ held. stored_in held.spread };

    ghost opened = { λ held. min held.spread.opened last_count };

    ghost address = { λ held. held.spread.codes_at };

    ghost shares = { IsSync R.row };

    ghost valid = { λ held model of. of.valid };

    ghost counted = { λ held. Prim.omega arith };

    fn wave<L: Ledger, K: Ledger>(
        &mut self,
        alloc: Global,
        model: &Model,
        jobs: &[Job],
        fuel: u64,
        steps: &mut Steps<L>,
        looks: &mut Steps<K>,
    ) -> Result<Wave, OutOfMemory> {
        self.spread.run_wave(alloc, model, jobs, fuel, steps, looks)
    }
}

/// The run of a plan, whose waves are cut in two where they may be.
#[allow(clippy::too_many_arguments)]
fn simulated<R: Threads + Sync, L: Ledger, K: Ledger>(
    rt: &R,
    alloc: Global,
    model: &Shared<Model>,
    plan: &Shared<Plan>,
    meeting: &Meeting,
    steps: Blank,
    looks: Blank,
) -> Result<Run, OutOfMemory>
    requires plan { IsPlanOf model.now plan.now }
    requires steps { (steps.name ≡ L.name) × (steps.parts ≡ L.parts) × (0 < L.parts) }
    requires looks { (looks.name ≡ K.name) × (looks.parts ≡ K.parts) × (0 < K.parts) }
{
    let codes = compile_all(alloc, model.get())?;
    let book = Book::new(alloc, model.share()?)?;
    let kept = Book::new(alloc, model.share()?)?;
    let spread = Spread::new(rt, &book, &kept, codes.as_slice(), 2, meeting);
    let mut held = Held { spread };
    let mut steps = Steps::<L>::open(steps);
    let mut looks = Steps::<K>::open(looks);
    simulate(
        alloc,
        model.get(),
        plan,
        5000,
        &mut held,
        &mut steps,
        &mut looks,
    )
}

/// The instants of a plan in which many tasks begin together.
fn told<R: Threads + Sync>(rt: &R, alloc: Global, meeting: &Meeting) -> Option<String> {
    let planned = vec![in alloc; bare(5, "Tick"); TOGETHER].ok()?;
    let outline = Outline {
        duration: 100,
        first_id: 1,
        planned: planned.as_slice(),
    };
    let model = Shared::new(alloc, model_in(alloc, TICKING)?).ok()?;
    let plan = Shared::new(alloc, plan_of(alloc, model.get(), &outline)?).ok()?;
    let (steps, looks) = (Blank::new(1), Blank::new(1));
    let run = simulated::<R, Brand, Brand>(rt, alloc, &model, &plan, meeting, steps, looks).ok()?;
    telling::instants(alloc, &run).ok()
}

#[test]
fn each_piece_begins_before_another_ends(rt: HostRuntime) {
    let meeting = Meeting {
        tries: 1_000_000_000,
        begun: AtomicU64::new(0),
        met: AtomicU64::new(0),
    };
    let told = told(&rt, rt.alloc(), &meeting).expect(&rt, "memory");
    assert_eq!(&rt; told.as_str(), "0/0 5/1,0=4200");
    assert_eq!(&rt; meeting.begun.load(Ordering::SeqCst), 2);
    assert_eq!(&rt; meeting.met.load(Ordering::SeqCst), 2);
}
