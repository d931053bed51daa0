//! The candidates for a gap are tried, one after another.

ghost use Rattle.std.specs.Prelude.{◌≡◌, IfOk};
ghost use Rattle.aerie_base.specs.plans.OfModel.{IsPlanOf};
ghost use Rattle.scheduler.specs.FreshRuns.{kept_run};
ghost use Rattle.scheduler.specs.Running.{OnlyRanPlans};
ghost use Rattle.scheduler.specs.InProgram.{IsRequestTo, first_accepted_for, searched_of};

use crate::requests::GoalRequest;
use crate::runs_with_spans::RunWithSpans;
use crate::trials::{Trial, tried};
use aerie_base::{OutOfMemory, Plan, Steps, Time};
use goals::{Gap, Rejection};
use run_data::Simulator;
use std::alloc::Global;
use std::sync::ledger::Ledger;

/// What is found for a gap.
#[derive(Drop)]
pub(crate) struct Search {
    /// The run of the plan with the first accepted trial, if there is one.
    pub(crate) kept: Option<RunWithSpans>,
    /// Why the last rejected trial was rejected, if one was.
    pub(crate) last: Option<Rejection>,
    /// How many trials are left.
    pub(crate) left: u32,
}

/// The first accepted trial among the candidates, as long as a trial is left. The run of the plan is known with its spans.
pub(crate) fn first_accepted<M: Simulator, L: Ledger, K: Ledger>(
    alloc: Global,
    request: &GoalRequest,
    gap: &Gap,
    base: &RunWithSpans,
    plan: &Plan,
    times: &[Time],
    left: u32,
    simulator: &mut M,
    steps: &mut Steps<L>,
    looks: &mut Steps<K>,
) -> Result<Search, OutOfMemory>
    requires shares { M.shares }
    requires request { IsRequestTo (M.model simulator.old) request.now }
    requires base { base.now.model ≡ request.now.model.now }
    requires plan { IsPlanOf request.now.model.now plan.now }
    ensures found { IfOk result (λ found.
        found
        ≡ searched_of (kept_run request.now.model.now (M.bound simulator.old))
        (first_accepted_for (M.bound simulator.old) request.now gap.now plan.now times.now left)) }
    ensures ran { OnlyRanPlans M.model M.bound M.address (simulator.old, steps.old, looks.old)
        (simulator.new, steps.new, looks.new) }
{
    let mut left = left;
    let mut last = None;
    for time in times {
        if left == 0 {
            break;
        }
        match tried(
            alloc, request, gap, base, plan, *time, simulator, steps, looks,
        )? {
            Trial::Refused => {}
            Trial::Rejected(rejection) => {
                left -= 1;
                last = Some(rejection);
            }
            Trial::Accepted(kept) => {
                return Ok(Search {
                    kept: Some(kept),
                    last,
                    left: left - 1,
                });
            }
        }
    }
    Ok(Search {
        kept: None,
        last,
        left,
    })
}
