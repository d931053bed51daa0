//! The times at which a goal's activity is tried.

ghost use Rattle.std.specs.Prelude.{◌≡◌, ◌<◌, ◌≤◌, ◌-◌, ◌++◌, pos, ◌+ℤ◌, ◌-ℤ◌, IfOk, OnOk, length, nat_eq};
ghost use Rattle.std.specs.List.{All, list_any};
ghost use Rattle.std.specs.Int.RustNames.{unsigned_abs};
ghost use Rattle.goals.specs.Candidates.{IsUntaken, free_at, free_times as free_by, most_tried, try_step};
ghost use Rattle.goals.specs.Goals.{candidates_of, starts_for, times_by_kind as times_defined};
ghost use Rattle.goals.specs.Merging.{Rises};
ghost use Rattle.goals.specs.declared.candidate_times.Bound.TheVariants.{After, UpTo, Before};
ghost use Rattle.span_table.specs.SpanLaws.{AreSpansOf};
ghost use Rattle.goals.specs.Tries.{admits as admitted, spread_limit, spread_times};

use crate::gap::Gap;
use crate::gaps::StartRange;
use crate::matching::match_spans;
use crate::types::{Goal, GoalKind};
use aerie_base::{Model, OutOfMemory, Time};
use run_data::Run;
use span_table::Span;
use std::alloc::Global;

/// So many times are tried for one gap, at most.
const MOST_TRIED: usize = 100;

/// Up to where times are tried.
#[derive(Clone, Copy)]
enum Bound {
    /// They are after this time.
    After(i128),
    /// They are no later than this time.
    UpTo(i128),
    /// They are before this time.
    Before(i128),
}

impl Bound {
    /// Whether a time is within the bound.
    fn admits(&self, time: i128) -> bool
        ensures { result ≡ admitted self.now time }
    {
        match self {
            Bound::After(least) => *least < time,
            Bound::UpTo(most) => time <= *most,
            Bound::Before(end) => time < *end,
        }
    }
}

/// Times, each so much after the one before it, as far as they are within a bound.
#[derive(Clone, Copy)]
struct EvenTimes {
    /// The first one.
    first: i128,
    /// How much after one another they are.
    step: i128,
    /// Up to where they go.
    bound: Bound,
}

/// The first hundred times, as far as they are within the bound.
fn times_of(alloc: Global, spread: &EvenTimes) -> Result<Vec<i128>, OutOfMemory>
    requires first { unsigned_abs spread.now.first ≤ spread_limit }
    requires step { unsigned_abs spread.now.step ≤ spread_limit }
    ensures { IfOk result (λ times. times.items ≡ spread_times spread.now.bound spread.now.first spread.now.step) }
{
    let mut times = Vec::new(alloc);
    let mut time = spread.first;
    for _ in 0..MOST_TRIED {
        if spread.bound.admits(time) {
            times.push(time)?;
        }
        time += spread.step;
    }
    Ok(times)
}

/// Such a part of a length, and at least 1.
fn step_of(length: u64, parts: u64) -> i128
    requires { 1 ≤ parts }
    ensures { result ≡ pos (try_step length parts) }
{
    i128::from(1.max(length / parts))
}

/// The times that a recurrence tries.
fn recurrence_spread(gap: &Gap, every: Time) -> EvenTimes
    ensures first { result.first ≡ gap.now.at +ℤ pos every }
    ensures step { result.step ≡ pos 0 -ℤ pos (try_step every 100) }
    ensures bound { result.bound ≡ After gap.now.at }
    ensures small { unsigned_abs result.first ≤ spread_limit }
    ensures slow { unsigned_abs result.step ≤ spread_limit }
{
    let gap = i128::from(gap.at);
    let every = every.get().unsigned_abs();
    EvenTimes {
        first: gap + i128::from(every),
        step: 0 - step_of(every, 100),
        bound: Bound::After(gap),
    }
}

/// So long after the gap, or before it.
fn after_gap(gap: &Gap, shift: &i64) -> i128
    ensures value { result ≡ gap.now.at +ℤ shift.now }
    ensures small { unsigned_abs result ≤ spread_limit }
{
    i128::from(gap.at) + i128::from(*shift)
}

/// How much later a start may be beside an anchor than the earliest.
fn width(range: &StartRange) -> u64
    ensures { result ≡ unsigned_abs (range.now.to -ℤ range.now.from) }
{
    range.to.abs_diff(range.from)
}

/// The times that a coexistence tries.
fn coexistence_spread(gap: &Gap, range: &StartRange) -> EvenTimes
    ensures first { result.first ≡ gap.now.at +ℤ range.now.from }
    ensures step { result.step ≡ pos (try_step (unsigned_abs (range.now.to -ℤ range.now.from)) 99) }
    ensures bound { result.bound ≡ UpTo (gap.now.at +ℤ range.now.to) }
    ensures small { unsigned_abs result.first ≤ spread_limit }
    ensures slow { unsigned_abs result.step ≤ spread_limit }
{
    EvenTimes {
        first: after_gap(gap, &range.from),
        step: step_of(width(range), 99),
        bound: Bound::UpTo(after_gap(gap, &range.to)),
    }
}

/// The times that a cardinality tries.
fn cardinality_spread(from: Time, to: Time) -> EvenTimes
    ensures first { result.first ≡ pos from }
    ensures step { result.step ≡ pos (try_step (to - from) 100) }
    ensures bound { result.bound ≡ Before (pos to) }
    ensures small { unsigned_abs result.first ≤ spread_limit }
    ensures slow { unsigned_abs result.step ≤ spread_limit }
{
    let (from, to) = (from.get().unsigned_abs(), to.get().unsigned_abs());
    EvenTimes {
        first: i128::from(from),
        step: step_of(to.saturating_sub(from), 100),
        bound: Bound::Before(i128::from(to)),
    }
}

/// The times by the kind of the goal, free or not.
fn times_by_kind(alloc: Global, gap: &Gap, kind: &GoalKind) -> Result<Vec<i128>, OutOfMemory>
    ensures { IfOk result (λ times. times.items ≡ times_defined gap.now.at kind.now) }
{
    match kind {
        GoalKind::Recurrence { every, .. } => {
            let spread = recurrence_spread(gap, *every);
            let times = times_of(alloc, &spread)?;
            Ok(times)
        }
        GoalKind::Coexistence { from, to, .. } => {
            let range = StartRange {
                from: *from,
                to: *to,
            };
            let spread = coexistence_spread(gap, &range);
            let times = times_of(alloc, &spread)?;
            Ok(times)
        }
        GoalKind::Cardinality { from, to, .. } => {
            let spread = cardinality_spread(*from, *to);
            let times = times_of(alloc, &spread)?;
            Ok(times)
        }
    }
}

/// Whether some of the starts, which rise, is at the time.
fn is_start(starts: &[Time], time: Time) -> bool
    requires { Rises starts.now }
    ensures { result ≡ list_any (nat_eq time) starts.now }
{
    let time = time.get().unsigned_abs();
    starts
        .binary_search_by_key(&time, |start| start.get().unsigned_abs())
        .is_ok()
}

/// Puts a time behind the others, where it is one of the plan's at which none of the starts is, which rise.
fn put_free(
    times: &mut Vec<Time>,
    duration: Time,
    starts: &[Time],
    time: i128,
) -> Result<(), OutOfMemory>
    requires { Rises starts.now }
    ensures { OnOk result (times.new.items ≡ times.old.items ++ free_at duration starts.now time) }
{
    if time < 0 || time >= i128::from(duration.get()) {
        return Ok(());
    }
    let Some(time) = Time::new(time as i64) else {
        unreachable!();
    };
    if !is_start(starts, time) {
        times.push(time)?;
    }
    Ok(())
}

/// Those times of the plan at which none of the starts is, which rise.
fn free_times(
    alloc: Global,
    duration: Time,
    starts: &[Time],
    tried: &[i128],
) -> Result<Vec<Time>, OutOfMemory>
    requires { Rises starts.now }
    ensures { IfOk result (λ times. times.items ≡ free_by duration starts.now tried.now) }
{
    let mut times = Vec::new(alloc);
    for time in tried {
        put_free(&mut times, duration, starts, *time)?;
    }
    Ok(times)
}

/// The times at which the goal's activity is tried to fill a gap that is its first one on the run, in the order in which they
/// are tried: at most a hundred, each within the plan, and none at which a matching span starts. Each takes a binary search
/// among the starts. The caller has found the spans of the run, once for all goals.
pub fn candidates(
    alloc: Global,
    model: &Model,
    goal: &Goal,
    run: &Run,
    spans: &[Span],
    gap: &Gap,
) -> Result<Vec<Time>, OutOfMemory>
    requires spans { AreSpansOf model.now run.now spans.now }
    ensures exact { IfOk result (λ times. times.items ≡ candidates_of model.now goal.now run.now gap.now) }
    ensures in_plan { IfOk result (λ times. All (λ time. time < run.now.plan.duration) times.items) }
    ensures free { IfOk result (λ times. All (IsUntaken (starts_for model.now goal.now run.now)) times.items) }
    ensures few { IfOk result (λ times. length times.items ≤ most_tried) }
{
    let matched = match_spans(alloc, &goal.template, spans)?;
    let tried = times_by_kind(alloc, gap, &goal.kind)?;
    let starts = matched.as_slice();
    let times = free_times(alloc, run.plan.get().duration, starts, tried.as_slice())?;
    Ok(times)
}
