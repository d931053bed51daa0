//! Spans of one run among those of another.

ghost use Rattle.std.specs.Prelude.{◌≡◌, ◌≤◌, ◌++◌, ◌∷◌, [], IfOk, OnOk, drop, length, map, take};
ghost use Rattle.run_data.specs.Spans.{comes_first as precedes, put_span};
ghost use Rattle.span_table.specs.AsDefined.{defined_span};
ghost use Rattle.span_reuse.specs.Putting.{put_each};
ghost use Rattle.span_reuse.specs.Roots.{is_outside_roots, spans_of_those};

use crate::roots::{TaskRoot, is_among};
use aerie_base::OutOfMemory;
use span_table::Span;
use std::alloc::Global;
use std::cmp::Ordering;

/// Puts a copy of a span behind the others, where its task comes from none of these.
fn put_outside(
    alloc: Global,
    roots: &[TaskRoot],
    copies: &mut Vec<Span>,
    span: &Span,
) -> Result<(), OutOfMemory>
    ensures { OnOk result (map defined_span copies.new.items
        ≡ map defined_span copies.old.items ++ spans_of_those (is_outside_roots roots.now) (defined_span span.now ∷ [])) }
{
    if is_among(roots, &span.path) {
        return Ok(());
    }
    copies.push(span.copy(alloc)?)?;
    Ok(())
}

/// Copies of the spans of tasks that come from none of these, with room for so many more.
pub(crate) fn copies_outside(
    alloc: Global,
    roots: &[TaskRoot],
    spans: &[Span],
    more: usize,
) -> Result<Vec<Span>, OutOfMemory>
    ensures { IfOk result (λ copies.
        map defined_span copies.items ≡ spans_of_those (is_outside_roots roots.now) (map defined_span spans.now)) }
{
    let mut copies = Vec::with_capacity(alloc, spans.len().saturating_add(more))?;
    for span in spans {
        put_outside(alloc, roots, &mut copies, span)?;
    }
    Ok(copies)
}

/// Whether a span comes before another: by start, then by path.
fn comes_first(span: &Span, other: &Span) -> bool
    ensures { result ≡ precedes (defined_span span.now) (defined_span other.now) }
{
    let start = span.start.get();
    let another = other.start.get();
    if start < another {
        return true;
    }
    if start != another {
        return false;
    }
    match span.path.cmp(&other.path) {
        Ordering::Less => true,
        Ordering::Equal => true,
        Ordering::Greater => false,
    }
}

/// How many of the spans stand before the place of this one.
fn place_among(spans: &[Span], span: &Span) -> usize
    ensures within { result ≤ length spans.now }
    ensures place { put_span (defined_span span.now) (map defined_span spans.now)
        ≡ map defined_span (take result spans.now) ++ defined_span span.now ∷ map defined_span (drop result spans.now) }
{
    let mut at = 0;
    while at < spans.len() && !comes_first(span, &spans[at]) {
        at += 1;
    }
    at
}

/// Puts a span in its place.
fn put(spans: &mut Vec<Span>, span: Span) -> Result<(), OutOfMemory>
    ensures { OnOk result (map defined_span spans.new.items ≡ put_span (defined_span span) (map defined_span spans.old.items)) }
{
    let at = place_among(spans.as_slice(), &span);
    spans.insert(at, span)?;
    Ok(())
}

/// Puts each of some spans in its place. The caller has few of them: each takes as many steps as there are spans.
pub(crate) fn with_each(mut spans: Vec<Span>, more: Vec<Span>) -> Result<Vec<Span>, OutOfMemory>
    ensures { IfOk result (λ made.
        map defined_span made.items ≡ put_each (map defined_span more.items) (map defined_span spans.items)) }
{
    let mut left = more;
    while let Some(span) = left.pop() {
        put(&mut spans, span)?;
    }
    Ok(spans)
}
