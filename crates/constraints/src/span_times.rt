//! The times that spans cover.

ghost use Rattle.std.specs.Prelude.{◌≡◌, ◌++◌, map, nat_eq, IfOk, OnOk};
ghost use Rattle.span_table.specs.AsDefined.{defined_span};
ghost use Rattle.constraints.specs.Meeting.{times_if};
ghost use Rattle.constraints.specs.HeldTimes.{HasTimes};
ghost use Rattle.constraints.specs.Holding.{some_covers, times_of};

use aerie_base::{OutOfMemory, Time};
use span_table::Span;
use std::alloc::Global;
use windows::Windows;

/// From the start of a span up to its end, or up to the reach where it has none.
pub(crate) fn times_of(span: &Span, reach: Time) -> (Time, Time)
    ensures { result ≡ times_of reach (defined_span span.now) }
{
    (span.start, span.end.unwrap_or(reach))
}

/// Whether the span is of the type.
pub(crate) fn is_of_type(span: &Span, kind: u16) -> bool
    ensures { result ≡ nat_eq span.now.kind kind }
{
    span.kind == kind
}

/// Puts times behind the others, where the test is true.
pub(crate) fn put_if(
    times: &mut Vec<(Time, Time)>,
    test: bool,
    one: (Time, Time),
) -> Result<(), OutOfMemory>
    ensures { OnOk result (times.new.items ≡ times.old.items ++ times_if test one) }
{
    if test {
        times.push(one)?;
    }
    Ok(())
}

/// The times that some span of the type covers. It goes once over the spans, and those of the type are sorted.
pub(crate) fn type_times(
    alloc: Global,
    spans: &[Span],
    kind: u16,
    reach: Time,
) -> Result<Windows, OutOfMemory>
    ensures reach { IfOk result (λ made. made.reach ≡ reach) }
    ensures times { IfOk result (HasTimes (some_covers reach kind (map defined_span spans.now))) }
{
    let mut covered = Vec::new(alloc);
    for span in spans {
        let test = is_of_type(span, kind);
        let times = times_of(span, reach);
        put_if(&mut covered, test, times)?;
    }
    let found = covered.as_slice();
    let made = Windows::of_spans(alloc, reach, found)?;
    Ok(made)
}
