//! Sets made of spans.

ghost use Rattle.std.specs.Prelude.{◌≡◌, IfOk, IsPermutation};
ghost use Rattle.std.specs.List.Sorted.{IsNonDecreasingBy};
ghost use Rattle.windows.specs.Times.{contains, AreIntervals};

use super::Windows;
use crate::joining::join;
use aerie_base::{List, OutOfMemory, Time};
use std::alloc::Global;

/// The spans by the order of their starts.
fn by_start(alloc: Global, spans: &[(Time, Time)]) -> Result<Vec<(Time, Time)>, OutOfMemory>
    ensures permutation { IfOk result (λ sorted. IsPermutation spans.now sorted.items) }
    ensures sorted { IfOk result (λ sorted. IsNonDecreasingBy (λ span. span.0) sorted.items) }
{
    let mut sorted = Vec::from_slice(alloc, spans)?;
    sorted.sort_by_key(|span| span.0.get().unsigned_abs())?;
    Ok(sorted)
}

impl Windows {
    /// The times below the reach that some span has. A span has the times from its start up to its end; one that ends
    /// where it starts, or before, has none. The spans may stand in any order, which is sorted once.
    pub fn of_spans(
        alloc: Global,
        reach: Time,
        spans: &[(Time, Time)],
    ) -> Result<Windows, OutOfMemory>
        ensures reach { IfOk result (λ made. made.reach ≡ reach) }
        ensures times { IfOk result (λ made. AreIntervals made.reach (λ t. contains spans.now t) made.intervals) }
    {
        let sorted = by_start(alloc, spans)?;
        let mut intervals = List::new(alloc);
        for span in sorted.as_slice() {
            join(&mut intervals, span.0, span.1.earlier(reach))?;
        }
        Ok(Windows { reach, intervals })
    }
}
