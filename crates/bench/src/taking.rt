//! A simulation over a stock, and what is done with the run that it makes.

ghost use Rattle.std.specs.Prelude.{◌≡◌, ◌≤◌, ◌++◌, IfOk, IfSome, OnOk, take};
ghost use Rattle.aerie_base.specs.plans.OfModel.{IsPlanOf};
ghost use Rattle.run_data.specs.RunFrames.{PaysForRun, frames_in_run};
ghost use Rattle.run_data.specs.Waves.{RoseAlike};
ghost use Rattle.record_book.specs.StoredSteps.{book_limit};
ghost use Rattle.resimulate.specs.EvenInstants.{LooksForUneven};
ghost use Rattle.resimulate.specs.SharedEnds.{SharesEnds};
ghost use Rattle.bench.specs.Benches.{IsFreshRunOf};
ghost use Rattle.bench.specs.Chapters.{GainsChapters, PublishesFrames, PublishesWhatRan};
ghost use Rattle.bench.specs.HeldSteps.{HoldsAll, HoldsRunWithin, instants_of_kept, records_of_kept};
ghost use Rattle.bench.specs.Noting.{unheld};
ghost use Rattle.bench.specs.Settings.{IsSetting};
ghost use Rattle.bench.specs.Stocks.{IsKnownIn};

use crate::publishing::Publisher;
use crate::simulating::{BenchSetting, CountedRun, simulate_over};
use crate::stock::Stock;
use aerie_base::{OutOfMemory, Plan, Shared, Steps};
use history_store::Store;
use resimulate::Bookmarks;
use run_data::Kept;
use std::alloc::Global;
use std::sync::Wait;
use std::sync::ledger::Ledger;
use std::thread::Threads;

/// Takes the steps of a run that was made into the stock, and publishes those that it did not have. The stock knows the run from now
/// on, and the one beside which it was made, with which it has so many of the first and of the last instants in common.
#[allow(clippy::too_many_arguments)]
fn take_run<R: Wait>(
    rt: &R,
    alloc: Global,
    store: &Store,
    stock: &mut Stock,
    publisher: &mut Publisher,
    made: &Shared<Kept>,
    old: Option<Shared<Kept>>,
    first: usize,
    last: usize,
) -> Result<(), OutOfMemory>
    requires model { made.now.model ≡ stock.old.model }
    requires old { IfSome old (IsKnownIn stock.old) }
    requires shares { SharesEnds (instants_of_kept old) made.now.run.instants first last }
    ensures model { stock.new.model ≡ stock.old.model }
    ensures held { HoldsAll (take book_limit stock.old.records) (take book_limit stock.new.records) }
    ensures holds_run { OnOk result (HoldsRunWithin (take book_limit stock.new.records) made.now.run) }
    ensures gained { GainsChapters store.now stock.old.model publisher.old publisher.new }
    ensures published { OnOk result (PublishesFrames
        (unheld stock.old.records (frames_in_run made.now.run)) publisher.old publisher.new) }
{
    let noted = stock.note(alloc, made.get(), &old, first, last)?;
    let model = made.get().model();
    publisher.publish_frames(rt, alloc, store, model, noted.as_slice())?;
    stock.settle(made, old);
    Ok(())
}

/// Simulates a plan over the stock, beside a kept run of the model where there is one, takes the steps of the run into the stock, and
/// publishes those that it did not have.
#[allow(clippy::too_many_arguments)]
pub(crate) fn run_over<R: Threads + Wait + Sync, L: Ledger, K: Ledger>(
    rt: &R,
    alloc: Global,
    store: &Store,
    setting: &BenchSetting,
    stock: &mut Stock,
    publisher: &mut Publisher,
    bookmarks: &mut Bookmarks,
    plan: &Shared<Plan>,
    old: Option<Shared<Kept>>,
    steps: &mut Steps<L>,
    looks: &mut Steps<K>,
) -> Result<CountedRun, OutOfMemory>
    requires setting { IsSetting setting.now }
    requires model { stock.old.model ≡ setting.now.compiled }
    requires old { IfSome old (λ old. old.model ≡ setting.now.compiled) }
    requires plan { IsPlanOf setting.now.compiled plan.now }
    ensures of_model { IfOk result (λ made. made.kept.model ≡ setting.now.compiled) }
    ensures fresh { IfOk result (λ made. IsFreshRunOf made.kept plan.now setting.now.bound) }
    ensures frugal { IfOk result (λ made. PaysForRun
        made.kept.run (stock.old.records ++ records_of_kept old) steps.old steps.new) }
    ensures few_looks { IfOk result (λ made. IfSome old (λ old.
        LooksForUneven old.run made.kept.run looks.old looks.new)) }
    ensures counted { IfOk result (λ made. RoseAlike 0 steps.old made.statements steps.new) }
    ensures steps { steps.old ≤ steps.new }
    ensures looks { looks.old ≤ looks.new }
    ensures model { stock.new.model ≡ stock.old.model }
    ensures held { HoldsAll (take book_limit stock.old.records) (take book_limit stock.new.records) }
    ensures holds_run { IfOk result (λ made.
        HoldsRunWithin (take book_limit stock.new.records) made.kept.run) }
    ensures gained { GainsChapters store.now stock.old.model publisher.old publisher.new }
    ensures published { IfOk result (λ made.
        PublishesWhatRan made.kept.run publisher.old publisher.new steps.old steps.new) }
{
    stock.hold_old(alloc, &old)?;
    let made = simulate_over(
        rt, alloc, setting, stock, &old, bookmarks, plan, steps, looks,
    )?;
    take_run(
        rt, alloc, store, stock, publisher, &made.kept, old, made.first, made.last,
    )?;
    Ok(made)
}
