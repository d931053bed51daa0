//! One goal: gap after gap, until none is left, no candidate is accepted or all trials are made.

ghost use Rattle.std.specs.Prelude.{◌≡◌, ◌<◌, Some, true, false, IfOk};
ghost use Rattle.goals.specs.Goals.{first_gap};
ghost use Rattle.scheduler.specs.FreshRuns.{kept_run};
ghost use Rattle.scheduler.specs.Running.{OnlyRanPlans};
ghost use Rattle.scheduler.specs.InProgram.{IsEither, IsKeptOf, IsRequest, IsRequestTo, goal_ended, goal_filled, goal_placed_for, placed_after, placed_open, placed_with, search_for, searched_of, shown, most_gaps_left};

use crate::laws::fresh_runs_are_given;
use crate::requests::GoalRequest;
use crate::runs_with_spans::RunWithSpans;
use crate::searching::{Search, first_accepted};
use aerie_base::{List, OutOfMemory, Steps};
use goals::{Gap, OpenGap, Rejection, candidates, missing};
use run_data::Simulator;
use std::alloc::Global;
use std::sync::ledger::Ledger;

/// Where a goal stands.
#[derive(Drop)]
pub(crate) struct Placing {
    /// The run of the plan so far.
    pub(crate) kept: RunWithSpans,
    /// The ids that were placed for the goal, in order.
    pub(crate) placed: List<u32>,
    /// The gap that the goal leaves open, once it ends with one.
    pub(crate) open_gap: Option<OpenGap>,
    /// How many trials are left.
    pub(crate) left: u32,
    /// Whether a gap is to be looked for.
    pub(crate) goes_on: bool,
}

impl Placing {
    /// The goal ends here.
    fn closed(self) -> Placing
        ensures { result ≡ record self { goes_on = false } }
    {
        Placing {
            kept: self.kept,
            placed: self.placed,
            open_gap: self.open_gap,
            left: self.left,
            goes_on: false,
        }
    }

    /// The goal ends here with the gap open, for which the last trial was rejected so, and with so many trials left.
    fn open(self, gap: &Gap, last: Option<Rejection>, left: u32) -> Placing
        ensures { result ≡ placed_open self gap.now last left }
    {
        let open_gap = OpenGap {
            gap: *gap,
            tried: self.left.saturating_sub(left),
            last,
        };
        Placing {
            kept: self.kept,
            placed: self.placed,
            open_gap: Some(open_gap),
            left,
            goes_on: false,
        }
    }

    /// The goal goes on with the plan of an accepted trial, and its run.
    fn with(self, kept: RunWithSpans, left: u32) -> Result<Placing, OutOfMemory>
        ensures { IfOk result (λ made. made ≡ placed_with self kept left) }
    {
        let Placing {
            kept: before,
            mut placed,
            ..
        } = self;
        placed.push(before.run().plan.get().next_id)?;
        Ok(Placing {
            kept,
            placed,
            open_gap: None,
            left,
            goes_on: true,
        })
    }

    /// The goal goes on, or ends, by what was found for its gap.
    fn after(self, gap: &Gap, found: Search) -> Result<Placing, OutOfMemory>
        ensures { IfOk result (λ made. made ≡ placed_after self gap.now found) }
    {
        let Search { kept, last, left } = found;
        match kept {
            Some(kept) => self.with(kept, left),
            None => Ok(self.open(gap, last, left)),
        }
    }
}

/// The first gap of the goal on a run.
fn gap_on(
    alloc: Global,
    request: &GoalRequest,
    kept: &RunWithSpans,
) -> Result<Option<Gap>, OutOfMemory>
    requires request { IsRequest request.now }
    requires model { kept.now.model ≡ request.now.model.now }
    ensures { IfOk result (λ gap. gap ≡ first_gap request.now.model.now request.now.goal.now kept.now.run) }
{
    let gap = missing(alloc, request.model, request.goal, kept.run(), kept.spans())?;
    Ok(gap)
}

/// The first accepted trial for a gap of the goal.
fn search<M: Simulator, L: Ledger, K: Ledger>(
    alloc: Global,
    request: &GoalRequest,
    gap: &Gap,
    placing: &Placing,
    simulator: &mut M,
    steps: &mut Steps<L>,
    looks: &mut Steps<K>,
) -> Result<Search, OutOfMemory>
    requires shares { M.shares }
    requires request { IsRequestTo (M.model simulator.old) request.now }
    requires kept { IsKeptOf request.now.model.now (M.bound simulator.old) placing.now.kept }
    requires gap { first_gap request.now.model.now request.now.goal.now placing.now.kept.run ≡ Some gap.now }
    ensures found { IfOk result (λ found.
        found
        ≡ searched_of (kept_run request.now.model.now (M.bound simulator.old))
        (search_for (M.bound simulator.old) request.now placing.now gap.now)) }
    ensures ran { OnlyRanPlans M.model M.bound M.address (simulator.old, steps.old, looks.old)
        (simulator.new, steps.new, looks.new) }
{
    let run = placing.kept.run();
    let spans = placing.kept.spans();
    let times = candidates(alloc, request.model, request.goal, run, spans, gap)?;
    let found = first_accepted(
        alloc,
        request,
        gap,
        &placing.kept,
        run.plan.get(),
        times.as_slice(),
        placing.left,
        simulator,
        steps,
        looks,
    )?;
    Ok(found)
}

/// The goal after its first gap, if it has one.
fn fill_gap<M: Simulator, L: Ledger, K: Ledger>(
    alloc: Global,
    request: &GoalRequest,
    placing: Placing,
    simulator: &mut M,
    steps: &mut Steps<L>,
    looks: &mut Steps<K>,
) -> Result<Placing, OutOfMemory>
    requires shares { M.shares }
    requires request { IsRequestTo (M.model simulator.old) request.now }
    requires kept { IsKeptOf request.now.model.now (M.bound simulator.old) placing.kept }
    requires goes_on { placing.goes_on ≡ true }
    ensures filled { IfOk result (λ made.
        goal_filled (M.bound simulator.old) request.now made
        ≡ goal_filled (M.bound simulator.old) request.now placing) }
    ensures fewer { IfOk result (λ made. most_gaps_left made < most_gaps_left placing) }
    ensures kept { IfOk result (λ made. IsKeptOf request.now.model.now (M.bound simulator.old) made.kept) }
    ensures ran { OnlyRanPlans M.model M.bound M.address (simulator.old, steps.old, looks.old)
        (simulator.new, steps.new, looks.new) }
{
    fresh_runs_are_given();
    let found = gap_on(alloc, request, &placing.kept)?;
    match found {
        Some(gap) => {
            let found = search(alloc, request, &gap, &placing, simulator, steps, looks)?;
            let made = placing.after(&gap, found)?;
            Ok(made)
        }
        None => Ok(placing.closed()),
    }
}

/// The goal after all gaps that can be filled.
fn fill_gaps<M: Simulator, L: Ledger, K: Ledger>(
    alloc: Global,
    request: &GoalRequest,
    placing: Placing,
    simulator: &mut M,
    steps: &mut Steps<L>,
    looks: &mut Steps<K>,
) -> Result<Placing, OutOfMemory>
    requires shares { M.shares }
    requires request { IsRequestTo (M.model simulator.old) request.now }
    requires kept { IsKeptOf request.now.model.now (M.bound simulator.old) placing.kept }
    ensures filled { IfOk result (λ made.
        shown made ≡ goal_filled (M.bound simulator.old) request.now placing) }
    ensures kept { IfOk result (λ made. IsKeptOf request.now.model.now (M.bound simulator.old) made.kept) }
    ensures ran { OnlyRanPlans M.model M.bound M.address (simulator.old, steps.old, looks.old)
        (simulator.new, steps.new, looks.new) }
{
    let mut placing = placing;
    while placing.goes_on {
        placing = fill_gap(alloc, request, placing, simulator, steps, looks)?;
    }
    Ok(placing)
}

/// The goal as it ends. With `rollback` a gap that is left gives back the plan before the goal, with its run.
fn ended(
    alloc: Global,
    request: &GoalRequest,
    before: RunWithSpans,
    placing: Placing,
) -> Result<Placing, OutOfMemory>
    requires request { IsRequest request.now }
    requires model { placing.kept.model ≡ request.now.model.now }
    ensures ended { IfOk result (λ made. shown made ≡ goal_ended request.now before placing) }
    ensures kept { IfOk result (λ made. IsEither made.kept before placing.kept) }
{
    if !request.goal.rollback {
        return Ok(placing);
    }
    let gap = gap_on(alloc, request, &placing.kept)?;
    if gap.is_none() {
        return Ok(placing);
    }
    let nothing = List::new(alloc);
    Ok(Placing {
        kept: before,
        placed: nothing,
        open_gap: placing.open_gap,
        left: placing.left,
        goes_on: false,
    })
}

/// What is placed for a goal in a plan, whose run this is.
pub(crate) fn place_goal<M: Simulator, L: Ledger, K: Ledger>(
    alloc: Global,
    request: &GoalRequest,
    kept: RunWithSpans,
    left: u32,
    simulator: &mut M,
    steps: &mut Steps<L>,
    looks: &mut Steps<K>,
) -> Result<Placing, OutOfMemory>
    requires shares { M.shares }
    requires request { IsRequestTo (M.model simulator.old) request.now }
    requires kept { IsKeptOf request.now.model.now (M.bound simulator.old) kept }
    ensures placed { IfOk result (λ made.
        shown made ≡ goal_placed_for (M.bound simulator.old) request.now kept.run.plan left) }
    ensures kept { IfOk result (λ made. IsKeptOf request.now.model.now (M.bound simulator.old) made.kept) }
    ensures ran { OnlyRanPlans M.model M.bound M.address (simulator.old, steps.old, looks.old)
        (simulator.new, steps.new, looks.new) }
{
    let before = kept.share()?;
    let placing = Placing {
        kept,
        placed: List::new(alloc),
        open_gap: None,
        left,
        goes_on: true,
    };
    let placing = fill_gaps(alloc, request, placing, simulator, steps, looks)?;
    let made = ended(alloc, request, before, placing)?;
    Ok(made)
}
