//! Times at which spans of two types meet.

ghost use Rattle.std.specs.Prelude.{◌≡◌, ◌++◌, if◌then◌else◌, map, max, min, IfOk, OnOk};
ghost use Rattle.span_table.specs.AsDefined.{defined_span};
ghost use Rattle.constraints.specs.HeldTimes.{HasTimes};
ghost use Rattle.constraints.specs.Meeting.{ByStart, HaveOwnPaths, ends_with, met_by, no_ends};
ghost use Rattle.constraints.specs.Violating.{meet};

use crate::span_times::{is_of_type, put_if, times_of};
use aerie_base::{OutOfMemory, Time};
use span_table::Span;
use std::alloc::Global;
use windows::Windows;

/// Of the spans so far, the last end of those of the one type and of those of the other.
#[derive(Clone, Copy)]
struct Ends {
    one: Time,
    other: Time,
}

/// Before any span.
fn no_ends() -> Ends
    ensures { result ≡ no_ends }
{
    Ends {
        one: Time::zero(),
        other: Time::zero(),
    }
}

/// The later of both, where the test is true.
fn later_if(test: bool, one: Time, other: Time) -> Time
    ensures { result ≡ (if test then max one other else one) }
{
    if test { one.later(other) } else { one }
}

/// Those with one span more.
fn ends_with(ends: &Ends, span: &Span, one: u16, other: u16, reach: Time) -> Ends
    ensures { result ≡ ends_with reach one other ends.now (defined_span span.now) }
{
    let end = times_of(span, reach).1;
    Ends {
        one: later_if(is_of_type(span, one), ends.one, end),
        other: later_if(is_of_type(span, other), ends.other, end),
    }
}

/// The times at which a span meets those before it: up to the last end of those of the other type.
fn put_meetings(
    times: &mut Vec<(Time, Time)>,
    span: &Span,
    one: u16,
    other: u16,
    reach: Time,
    ends: &Ends,
) -> Result<(), OutOfMemory>
    ensures { OnOk result (times.new.items ≡ times.old.items ++ met_by reach one other ends.now span.now) }
{
    let lasts = times_of(span, reach);
    let is_other = is_of_type(span, other);
    let is_one = is_of_type(span, one);
    put_if(times, is_other, (lasts.0, lasts.1.earlier(ends.one)))?;
    put_if(times, is_one, (lasts.0, lasts.1.earlier(ends.other)))?;
    Ok(())
}

/// The times at which a span of the one type and another span of the other type last. It goes once over the spans, which
/// stand in the order of their starts: each meets those before it up to the last of their ends.
pub(crate) fn meetings(
    alloc: Global,
    spans: &[Span],
    one: u16,
    other: u16,
    reach: Time,
) -> Result<Windows, OutOfMemory>
    requires order { ByStart (map defined_span spans.now) }
    requires paths { HaveOwnPaths (map defined_span spans.now) }
    ensures reach { IfOk result (λ made. made.reach ≡ reach) }
    ensures times { IfOk result (HasTimes (meet reach one other (map defined_span spans.now))) }
{
    let mut times = Vec::new(alloc);
    let mut ends = no_ends();
    for span in spans {
        put_meetings(&mut times, span, one, other, reach, &ends)?;
        ends = ends_with(&ends, span, one, other, reach);
    }
    let found = times.as_slice();
    let made = Windows::of_spans(alloc, reach, found)?;
    Ok(made)
}
