//! The order of spans.

ghost use Rattle.std.specs.Prelude.{◌≡◌};
ghost use Rattle.span_table.specs.Ordering.{span_cmp};

use crate::span::Span;
use std::cmp::Ordering;

/// Which of two spans comes first: by start, then by path.
pub(crate) fn compare(span: &Span, other: &Span) -> Ordering
    ensures { result ≡ span_cmp span.now other.now }
{
    let by_start = span.start.get().cmp(&other.start.get());
    by_start.then(span.path.cmp(&other.path))
}
