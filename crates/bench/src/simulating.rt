//! Simulations over the steps that a bench has at hand.

ghost use Rattle.std.specs.Prelude.{◌≡◌, ◌≤◌, [], IfOk, IfSome};
ghost use Rattle.aerie_base.specs.plans.OfModel.{IsPlanOf};
ghost use Rattle.batch_run.specs.Spreads.{IsSpreadOf, stored_in};
ghost use Rattle.run_data.specs.Fresh.{IsFresh};
ghost use Rattle.run_data.specs.RunFrames.{PaysForRun};
ghost use Rattle.run_data.specs.Waves.{RoseAlike, last_count};
ghost use Rattle.resimulate.specs.EvenInstants.{LooksForUneven};
ghost use Rattle.resimulate.specs.SharedEnds.{SharesEnds};
ghost use Rattle.bench.specs.Benches.{IsFreshRunOf};
ghost use Rattle.bench.specs.HeldSteps.{instants_of_kept};
ghost use Rattle.bench.specs.Settings.{IsSetting};

use crate::compiled_model::CompiledModel;
use crate::stock::Stock;
use aerie_base::{OutOfMemory, Plan, Shared, Steps};
use batch_run::{NoProbe, Spread};
use resimulate::{Bookmarks, SharingRun, resimulate_sharing, simulate_with_bookmarks};
use run_data::Kept;
use run_data::laws::fresh_runs;
use std::alloc::Global;
use std::sync::ledger::Ledger;
use std::thread::Threads;

/// A run, how many statements and tests were run for it, and what it has in common with the run beside which it was made.
#[derive(Drop)]
pub(crate) struct CountedRun {
    /// The run.
    pub(crate) kept: Shared<Kept>,
    /// The count, or 2^64 - 1 where there were more.
    pub(crate) statements: u64,
    /// How many of the first instants are known to be those of the other run.
    pub(crate) first: usize,
    /// How many of the last instants are.
    pub(crate) last: usize,
}

/// With what is simulated: the model with its codes, the bound, and into how many pieces a wave is cut.
#[derive(Drop)]
pub(crate) struct BenchSetting {
    /// The model.
    pub(crate) compiled: CompiledModel,
    /// What the cost of a run may come to, at most 100,000,000.
    pub(crate) bound: u64,
    /// 1 to 64.
    pub(crate) pieces: usize,
}

/// The count, which is no more than a count of 64 bits can be.
fn full_count(count: u64) -> u64
    ensures same { result ≡ count }
    ensures most { count ≤ last_count }
{
    count
}

/// A stepper over the steps of a stock.
fn stepper_over<'a, R: Threads + Sync>(
    rt: &'a R,
    setting: &'a BenchSetting,
    stock: &'a Stock,
    probe: &'a NoProbe,
) -> Spread<'a, R, NoProbe>
    requires setting { IsSetting setting.now }
    requires model { stock.now.model ≡ setting.now.compiled }
    ensures of { IsSpreadOf result setting.now.compiled }
    ensures records { stored_in result ≡ stock.now.records }
    ensures opened { result.opened ≡ 0 }
{
    let codes = setting.compiled.codes();
    Spread::new(rt, stock.book(), stock.none(), codes, setting.pieces, probe)
}

/// Keeps a fresh run of a plan of the model.
fn keep(
    alloc: Global,
    setting: &BenchSetting,
    plan: &Shared<Plan>,
    made: SharingRun,
    statements: u64,
) -> Result<CountedRun, OutOfMemory>
    requires fresh { IsFresh setting.now.compiled plan.now setting.now.bound made.run }
    requires plan { IsPlanOf setting.now.compiled plan.now }
    ensures model { IfOk result (λ counted. counted.kept.model ≡ setting.now.compiled) }
    ensures run { IfOk result (λ counted. counted.kept.run ≡ made.run) }
    ensures fresh { IfOk result (λ counted. IsFreshRunOf counted.kept plan.now setting.now.bound) }
    ensures statements { IfOk result (λ counted. counted.statements ≡ statements) }
    ensures first { IfOk result (λ counted. counted.first ≡ made.first) }
    ensures last { IfOk result (λ counted. counted.last ≡ made.last) }
{
    fresh_runs();
    let _plan = plan.get();
    let model = setting.compiled.model().share()?;
    let SharingRun { run, first, last } = made;
    let kept = Kept::new(alloc, model, run)?;
    Ok(CountedRun {
        kept,
        statements,
        first,
        last,
    })
}

/// The kept fresh run of a plan. What the stock has is not run again.
#[allow(clippy::too_many_arguments)]
fn simulate_alone<R: Threads + Sync, L: Ledger, K: Ledger>(
    rt: &R,
    alloc: Global,
    setting: &BenchSetting,
    stock: &Stock,
    bookmarks: &mut Bookmarks,
    plan: &Shared<Plan>,
    steps: &mut Steps<L>,
    looks: &mut Steps<K>,
) -> Result<CountedRun, OutOfMemory>
    requires setting { IsSetting setting.now }
    requires model { stock.now.model ≡ setting.now.compiled }
    requires plan { IsPlanOf setting.now.compiled plan.now }
    ensures model { IfOk result (λ made. made.kept.model ≡ setting.now.compiled) }
    ensures fresh { IfOk result (λ made. IsFreshRunOf made.kept plan.now setting.now.bound) }
    ensures frugal { IfOk result (λ made.
        PaysForRun made.kept.run stock.now.records steps.old steps.new) }
    ensures shares { IfOk result (λ made. SharesEnds [] made.kept.run.instants made.first made.last) }
    ensures counted { IfOk result (λ made. RoseAlike 0 steps.old made.statements steps.new) }
    ensures steps { steps.old ≤ steps.new }
    ensures looks { looks.old ≤ looks.new }
{
    let probe = NoProbe;
    let mut stepper = stepper_over(rt, setting, stock, &probe);
    let model = setting.compiled.model();
    let bound = setting.bound;
    let run = simulate_with_bookmarks(
        alloc,
        model,
        bookmarks,
        plan,
        bound,
        &mut stepper,
        steps,
        looks,
    )?;
    let statements = full_count(stepper.opened());
    let alone = SharingRun {
        run,
        first: 0,
        last: 0,
    };
    let made = keep(alloc, setting, plan, alone, statements)?;
    Ok(made)
}

/// The kept fresh run of a plan beside a kept run of the same model. What that has alike is taken over, and what the stock has is not
/// run again.
#[allow(clippy::too_many_arguments)]
fn simulate_beside<R: Threads + Sync, L: Ledger, K: Ledger>(
    rt: &R,
    alloc: Global,
    setting: &BenchSetting,
    stock: &Stock,
    old: &Kept,
    bookmarks: &mut Bookmarks,
    plan: &Shared<Plan>,
    steps: &mut Steps<L>,
    looks: &mut Steps<K>,
) -> Result<CountedRun, OutOfMemory>
    requires setting { IsSetting setting.now }
    requires model { stock.now.model ≡ setting.now.compiled }
    requires old { old.now.model ≡ setting.now.compiled }
    requires plan { IsPlanOf setting.now.compiled plan.now }
    ensures model { IfOk result (λ made. made.kept.model ≡ setting.now.compiled) }
    ensures fresh { IfOk result (λ made. IsFreshRunOf made.kept plan.now setting.now.bound) }
    ensures frugal { IfOk result (λ made.
        PaysForRun made.kept.run stock.now.records steps.old steps.new) }
    ensures few_looks { IfOk result (λ made.
        LooksForUneven old.now.run made.kept.run looks.old looks.new) }
    ensures shares { IfOk result (λ made.
        SharesEnds old.now.run.instants made.kept.run.instants made.first made.last) }
    ensures counted { IfOk result (λ made. RoseAlike 0 steps.old made.statements steps.new) }
    ensures steps { steps.old ≤ steps.new }
    ensures looks { looks.old ≤ looks.new }
{
    let probe = NoProbe;
    let mut stepper = stepper_over(rt, setting, stock, &probe);
    let model = setting.compiled.model().get();
    let bound = setting.bound;
    let run = resimulate_sharing(
        alloc,
        model,
        old,
        bookmarks,
        plan,
        bound,
        &mut stepper,
        steps,
        looks,
    )?;
    let statements = full_count(stepper.opened());
    let made = keep(alloc, setting, plan, run, statements)?;
    Ok(made)
}

/// The kept fresh run of a plan, beside a kept run of the same model where there is one.
#[allow(clippy::too_many_arguments)]
pub(crate) fn simulate_over<R: Threads + Sync, L: Ledger, K: Ledger>(
    rt: &R,
    alloc: Global,
    setting: &BenchSetting,
    stock: &Stock,
    old: &Option<Shared<Kept>>,
    bookmarks: &mut Bookmarks,
    plan: &Shared<Plan>,
    steps: &mut Steps<L>,
    looks: &mut Steps<K>,
) -> Result<CountedRun, OutOfMemory>
    requires setting { IsSetting setting.now }
    requires model { stock.now.model ≡ setting.now.compiled }
    requires old { IfSome old.now (λ old. old.model ≡ setting.now.compiled) }
    requires plan { IsPlanOf setting.now.compiled plan.now }
    ensures model { IfOk result (λ made. made.kept.model ≡ setting.now.compiled) }
    ensures fresh { IfOk result (λ made. IsFreshRunOf made.kept plan.now setting.now.bound) }
    ensures frugal { IfOk result (λ made.
        PaysForRun made.kept.run stock.now.records steps.old steps.new) }
    ensures few_looks { IfOk result (λ made. IfSome old.now (λ old.
        LooksForUneven old.run made.kept.run looks.old looks.new)) }
    ensures shares { IfOk result (λ made.
        SharesEnds (instants_of_kept old.now) made.kept.run.instants made.first made.last) }
    ensures counted { IfOk result (λ made. RoseAlike 0 steps.old made.statements steps.new) }
    ensures steps { steps.old ≤ steps.new }
    ensures looks { looks.old ≤ looks.new }
{
    match old {
        Some(old) => simulate_beside(
            rt,
            alloc,
            setting,
            stock,
            old.get(),
            bookmarks,
            plan,
            steps,
            looks,
        ),
        None => simulate_alone(rt, alloc, setting, stock, bookmarks, plan, steps, looks),
    }
}
