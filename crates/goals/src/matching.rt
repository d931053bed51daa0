//! The spans that a goal's template matches.

ghost use Rattle.std.specs.Prelude.{◌≡◌, map, IfOk};
ghost use Rattle.plan_merge.specs.Table.{same_values as equal_values};
ghost use Rattle.span_table.specs.AsDefined.{defined_span};
ghost use Rattle.constraints.specs.Meeting.{ByStart};
ghost use Rattle.goals.specs.Matching.{matches as is_matched, matching_starts as starts_matched};
ghost use Rattle.goals.specs.Merging.{Rises};

use crate::types::Template;
use aerie_base::{OutOfMemory, Time, Value, same_value};
use span_table::Span;
use std::alloc::Global;

/// Whether two lists have the same values.
#[tactic(auto, using(crate::proofs::SameValues::lengths_differ))]
fn same_values(values: &[Value], others: &[Value]) -> bool
    ensures { result ≡ equal_values values.now others.now }
{
    if values.len() != others.len() {
        return false;
    }
    for at in 0..values.len() {
        if !same_value(&values[at], &others[at]) {
            return false;
        }
    }
    true
}

/// Whether a span is of the template's type and has its arguments.
fn matches(template: &Template, span: &Span) -> bool
    ensures { result ≡ is_matched template.now (defined_span span.now) }
{
    span.kind == template.kind
        && same_values(span.arguments.as_slice(), template.arguments.as_slice())
}

/// When the matching spans start, in the order of the spans.
fn matching_starts(
    alloc: Global,
    template: &Template,
    spans: &[Span],
) -> Result<Vec<Time>, OutOfMemory>
    ensures { IfOk result (λ starts. starts.items ≡ starts_matched template.now (map defined_span spans.now)) }
{
    let mut starts = Vec::new(alloc);
    for span in spans {
        if matches(template, span) {
            starts.push(span.start)?;
        }
    }
    Ok(starts)
}

/// When those of a run's spans start that a template matches, as spans are ordered by their starts. It goes once over the spans.
pub(crate) fn match_spans(
    alloc: Global,
    template: &Template,
    spans: &[Span],
) -> Result<Vec<Time>, OutOfMemory>
    requires { ByStart (map defined_span spans.now) }
    ensures starts { IfOk result (λ starts. starts.items ≡ starts_matched template.now (map defined_span spans.now)) }
    ensures rises { IfOk result (λ starts. Rises starts.items) }
{
    let starts = matching_starts(alloc, template, spans)?;
    Ok(starts)
}
