//! When a window holds near a span, and how far from the span that may be otherwise than for no span.

ghost use Rattle.std.specs.Prelude.{◌≡◌, ◌≤◌, ◌-◌, ◌+◌, min, IsTrue, Some, IfOk};
ghost use Rattle.windows.specs.Times.{contains, covers};
ghost use Rattle.constraints.specs.SpanWindows.{HasTimesWithin, IsMargin, KeepsLongWithin, KeepsShiftedWithin, farther, holds_for, is_below};

use crate::offsets::Offset;
use crate::span_windows::SpanWindow;
use aerie_base::{OutOfMemory, Time};
use std::alloc::Global;
use windows::Windows;

/// So long before a time, but not before 0.
pub(crate) fn earlier_by(time: Time, by: Time) -> Time
    ensures { result ≡ time - by }
{
    by.until(time)
}

/// So long after a time, but not after the reach.
pub(crate) fn later_by(time: Time, by: Time, reach: Time) -> Time
    requires { time ≤ reach }
    ensures { result ≡ min reach (time + by) }
{
    let left = time.until(reach);
    by.until(left).until(reach)
}

/// The farther of the two.
fn farther(start: &Offset, end: &Offset) -> Time
    ensures { result ≡ farther start.now end.now }
{
    start.size().later(end.size())
}

/// How far from a span a window may hold otherwise than for no span.
pub(crate) fn margin(window: &SpanWindow, reach: Time) -> Time
    ensures within { result ≤ reach }
    ensures margin { IsMargin reach window.now result }
{
    match window {
        SpanWindow::Times(_) => Time::zero(),
        SpanWindow::Lasting => Time::zero(),
        SpanWindow::And(left, right) => {
            let one = margin(left.get(), reach);
            let other = margin(right.get(), reach);
            one.later(other)
        }
        SpanWindow::Or(left, right) => {
            let one = margin(left.get(), reach);
            let other = margin(right.get(), reach);
            one.later(other)
        }
        SpanWindow::Not(part) => margin(part.get(), reach),
        SpanWindow::Shift { of, start, end } => {
            let inner = margin(of.get(), reach);
            let far = farther(start, end);
            later_by(inner, far, reach)
        }
        SpanWindow::Longer { of, least } => {
            let inner = margin(of.get(), reach);
            later_by(inner, *least, reach)
        }
    }
}

/// The times of a set from one time up to another. It takes steps as the set has intervals there, and a binary search.
fn part_of(
    alloc: Global,
    reach: Time,
    set: &Windows,
    from: Time,
    to: Time,
) -> Result<Windows, OutOfMemory>
    requires reach { set.now.reach ≡ reach }
    requires order { from ≤ to }
    requires within { to ≤ reach }
    ensures reach { IfOk result (λ made. made.reach ≡ reach) }
    ensures times { IfOk result (HasTimesWithin from to (λ t. contains set.now.intervals t)) }
{
    let none = Windows::of_spans(alloc, reach, &[])?;
    let made = none.replaced(alloc, set, from, to)?;
    Ok(made)
}

/// The times of the span.
fn lasting(alloc: Global, reach: Time, span: &(Time, Time)) -> Result<Windows, OutOfMemory>
    ensures reach { IfOk result (λ made. made.reach ≡ reach) }
    ensures times { IfOk result (HasTimesWithin 0 reach (covers span.now)) }
{
    let made = Windows::of_spans(alloc, reach, &[*span])?;
    Ok(made)
}

/// The maximal intervals with their edges moved.
fn shifted(
    alloc: Global,
    part: &Windows,
    start: &Offset,
    end: &Offset,
    from: Time,
    to: Time,
) -> Result<Windows, OutOfMemory>
    requires within { to ≤ part.now.reach }
    ensures reach { IfOk result (λ made. made.reach ≡ part.now.reach) }
    ensures times { IfOk result (KeepsShiftedWithin start.now end.now from to part.now) }
{
    let _in_order = part.intervals();
    let made = part.shifted(alloc, start.get(), end.get())?;
    Ok(made)
}

/// The maximal intervals that are at least so long.
fn longer(
    alloc: Global,
    part: &Windows,
    least: Time,
    from: Time,
    to: Time,
) -> Result<Windows, OutOfMemory>
    requires within { to ≤ part.now.reach }
    ensures reach { IfOk result (λ made. made.reach ≡ part.now.reach) }
    ensures times { IfOk result (KeepsLongWithin least from to part.now) }
{
    let _in_order = part.intervals();
    let made = part.longer_than(alloc, least)?;
    Ok(made)
}

/// From one time up to another, the times at which a window holds for a span. It takes steps as its sets have intervals there and
/// as far around as its parts move edges and ask for lengths.
pub(crate) fn holding_near(
    alloc: Global,
    reach: Time,
    window: &SpanWindow,
    span: &(Time, Time),
    from: Time,
    to: Time,
) -> Result<Windows, OutOfMemory>
    requires window { IsTrue (is_below reach window.now) }
    requires order { from ≤ to }
    requires within { to ≤ reach }
    ensures reach { IfOk result (λ made. made.reach ≡ reach) }
    ensures times { IfOk result (HasTimesWithin from to (holds_for reach window.now (Some span.now))) }
{
    match window {
        SpanWindow::Times(set) => part_of(alloc, reach, set, from, to),
        SpanWindow::Lasting => lasting(alloc, reach, span),
        SpanWindow::And(left, right) => {
            let one = holding_near(alloc, reach, left.get(), span, from, to)?;
            let other = holding_near(alloc, reach, right.get(), span, from, to)?;
            one.and(alloc, &other)
        }
        SpanWindow::Or(left, right) => {
            let one = holding_near(alloc, reach, left.get(), span, from, to)?;
            let other = holding_near(alloc, reach, right.get(), span, from, to)?;
            one.or(alloc, &other)
        }
        SpanWindow::Not(part) => {
            let inner = holding_near(alloc, reach, part.get(), span, from, to)?;
            inner.not(alloc)
        }
        SpanWindow::Shift { of, start, end } => {
            let far = farther(start, end);
            let first = earlier_by(from, far);
            let last = later_by(to, far, reach);
            let inner = holding_near(alloc, reach, of.get(), span, first, last)?;
            shifted(alloc, &inner, start, end, from, to)
        }
        SpanWindow::Longer { of, least } => {
            let first = earlier_by(from, *least);
            let last = later_by(to, *least, reach);
            let inner = holding_near(alloc, reach, of.get(), span, first, last)?;
            longer(alloc, &inner, *least, from, to)
        }
    }
}
