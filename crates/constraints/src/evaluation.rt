//! When a window holds.

ghost use Rattle.std.specs.Prelude.{◌≡◌, IsTrue, IfOk};
ghost use Rattle.constraints.specs.Evaluating.{is_window_by_fold};
ghost use Rattle.constraints.specs.HeldTimes.{HasLonger, HasShifted, HasTimes};
ghost use Rattle.constraints.specs.Holding.{bound_covers};
ghost use Rattle.constraints.specs.OfModel.{is_shift, is_window};
ghost use Rattle.constraints.specs.OverSources.{covered_over, folded_over, holds_over};
ghost use Rattle.constraints.specs.Sources.{AreSources};

use crate::comparing::times_compared;
use crate::readings::{reading_times, truth_times};
use crate::sources::Sources;
use crate::types::Window;
use aerie_base::{OutOfMemory, Time};
use std::alloc::Global;
use windows::Windows;

/// The times at which a window holds, the times of the span that the rule is judged for being these, or none. It takes
/// steps as what the window names has pieces, and as what is made of them.
pub(crate) fn holding(
    alloc: Global,
    sources: &Sources,
    window: &Window,
    bound: &Option<(Time, Time)>,
) -> Result<Windows, OutOfMemory>
    requires sources { AreSources sources.now }
    requires window { IsTrue (is_window sources.now.model.now window.now) }
    ensures reach { IfOk result (λ made. made.reach ≡ sources.now.run.now.reach) }
    ensures times { IfOk result (HasTimes (holds_over sources.now window.now bound.now)) }
{
    holding_by_fold(alloc, sources, window, bound)
}

/// The same over the fold, which is the form for a proof of the recursion.
fn holding_by_fold(
    alloc: Global,
    sources: &Sources,
    window: &Window,
    bound: &Option<(Time, Time)>,
) -> Result<Windows, OutOfMemory>
    requires sources { AreSources sources.now }
    requires window { IsTrue (is_window_by_fold sources.now.model.now window.now) }
    ensures reach { IfOk result (λ made. made.reach ≡ sources.now.run.now.reach) }
    ensures times { IfOk result (HasTimes (folded_over sources.now window.now bound.now)) }
{
    match window {
        Window::Literal(truth) => always(alloc, sources, *truth),
        Window::And(left, right) => {
            let left = holding_by_fold(alloc, sources, left.get(), bound)?;
            let right = holding_by_fold(alloc, sources, right.get(), bound)?;
            left.and(alloc, &right)
        }
        Window::Or(left, right) => {
            let left = holding_by_fold(alloc, sources, left.get(), bound)?;
            let right = holding_by_fold(alloc, sources, right.get(), bound)?;
            left.or(alloc, &right)
        }
        Window::Not(part) => {
            let part = holding_by_fold(alloc, sources, part.get(), bound)?;
            part.not(alloc)
        }
        Window::During(kind) => during(alloc, sources, *kind),
        Window::DuringBound => during_bound(alloc, sources, bound),
        Window::Shift { of, start, end } => {
            let part = holding_by_fold(alloc, sources, of.get(), bound)?;
            shifted(alloc, &part, *start, *end)
        }
        Window::Longer { of, least } => {
            let part = holding_by_fold(alloc, sources, of.get(), bound)?;
            longer(alloc, &part, least)
        }
        Window::Truth(reading) => truth_times(alloc, sources, reading),
        Window::Same {
            resource,
            value,
            equal,
        } => reading_times(alloc, sources, resource, value, *equal),
        Window::Compare { left, how, right } => times_compared(alloc, sources, left, how, right),
    }
}

/// The maximal intervals that are at least so long.
fn longer(alloc: Global, part: &Windows, least: &Time) -> Result<Windows, OutOfMemory>
    ensures reach { IfOk result (λ made. made.reach ≡ part.now.reach) }
    ensures times { IfOk result (HasLonger least.now part.now) }
{
    let made = part.longer_than(alloc, *least)?;
    Ok(made)
}

/// The maximal intervals with their starts and ends moved.
fn shifted(alloc: Global, part: &Windows, start: i64, end: i64) -> Result<Windows, OutOfMemory>
    requires start { IsTrue (is_shift start) }
    requires end { IsTrue (is_shift end) }
    ensures reach { IfOk result (λ made. made.reach ≡ part.now.reach) }
    ensures times { IfOk result (HasShifted start end part.now) }
{
    let made = part.shifted(alloc, start, end)?;
    Ok(made)
}

/// All times, or none.
fn always(alloc: Global, sources: &Sources, truth: bool) -> Result<Windows, OutOfMemory>
    ensures reach { IfOk result (λ made. made.reach ≡ sources.now.run.now.reach) }
    ensures times { IfOk result (HasTimes (λ t. truth)) }
{
    let reach = sources.run.reach;
    if truth {
        return Windows::all(alloc, reach);
    }
    Windows::of_spans(alloc, reach, &[])
}

/// The times of the spans of a type.
fn during(alloc: Global, sources: &Sources, kind: u16) -> Result<Windows, OutOfMemory>
    requires sources { AreSources sources.now }
    ensures reach { IfOk result (λ made. made.reach ≡ sources.now.run.now.reach) }
    ensures times { IfOk result (HasTimes (covered_over sources.now kind)) }
{
    let made = sources.times(alloc, kind)?;
    Ok(made)
}

/// The times of the span that the rule is judged for.
fn during_bound(
    alloc: Global,
    sources: &Sources,
    bound: &Option<(Time, Time)>,
) -> Result<Windows, OutOfMemory>
    ensures reach { IfOk result (λ made. made.reach ≡ sources.now.run.now.reach) }
    ensures times { IfOk result (HasTimes (bound_covers bound.now)) }
{
    let reach = sources.run.reach;
    match bound {
        Some(times) => Windows::of_spans(alloc, reach, &[*times]),
        None => Windows::of_spans(alloc, reach, &[]),
    }
}
