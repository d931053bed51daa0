//! Comparisons of sums.

ghost use Rattle.std.specs.Prelude.{◌≡◌, ◌*◌, negsuc, IsTrue, IfOk};
ghost use Rattle.windows.specs.Linear.{AreSegments};
ghost use Rattle.constraints.specs.HeldTimes.{HasTimes};
ghost use Rattle.constraints.specs.OfModel.{is_sum, is_term};
ghost use Rattle.constraints.specs.OverSources.{compared_over};
ghost use Rattle.constraints.specs.Sources.{AreSources};
ghost use Rattle.constraints.specs.SumPieces.{AreModest, ComeNoFurther, HasMore, HasSum, HasTermMore, IsSmallTerm, product_limit};

use crate::readings::reading_segments;
use crate::sources::Sources;
use crate::sums::{constant_segments, plus_times};
use crate::types::{RuleSum, RuleTerm};
use aerie_base::{Comparison, List, OutOfMemory, Time};
use std::alloc::Global;
use windows::{Segment, Windows};

/// One term more.
fn with_term(
    alloc: Global,
    sources: &Sources,
    sum: &List<Segment>,
    term: &RuleTerm,
) -> Result<List<Segment>, OutOfMemory>
    requires sources { AreSources sources.now }
    requires term { IsTrue (is_term sources.now.model.now term.now) }
    requires form { AreSegments sources.now.run.now.reach sum.now }
    requires small { ComeNoFurther sources.now.run.now.reach (product_limit * 16) sum.now }
    ensures form { IfOk result (λ made. AreSegments sources.now.run.now.reach made) }
    ensures values { IfOk result (HasTermMore sources.now.model.now sources.now.run.now sum.now term.now) }
    ensures small { IfOk result (λ made. IsSmallTerm sources.now.model.now sources.now.run.now term.now) }
{
    let reach = sources.run.reach;
    let segments = reading_segments(alloc, sources, &term.resource)?;
    let so_far = sum.as_slice();
    let more = segments.as_slice();
    let made = plus_times(alloc, reach, so_far, term.coefficient, more)?;
    Ok(made)
}

/// A sum as straight pieces. It takes steps as its terms have pieces, up to 16 times.
fn sum_segments(
    alloc: Global,
    sources: &Sources,
    sum: &RuleSum,
) -> Result<List<Segment>, OutOfMemory>
    requires sources { AreSources sources.now }
    requires sum { IsTrue (is_sum sources.now.model.now sum.now) }
    ensures { IfOk result (HasSum sources.now.model.now sources.now.run.now sum.now) }
{
    let terms = sum.terms.as_slice();
    let mut made = constant_segments(alloc, sources.run.reach, sum.constant)?;
    for term in terms {
        made = with_term(alloc, sources, &made, term)?;
    }
    Ok(made)
}

/// The one sum without the other.
fn difference_of(
    alloc: Global,
    reach: Time,
    left: &List<Segment>,
    right: &List<Segment>,
) -> Result<List<Segment>, OutOfMemory>
    requires left { AreModest reach left.now }
    requires right { AreModest reach right.now }
    ensures form { IfOk result (λ made. AreSegments reach made) }
    ensures values { IfOk result (HasMore reach left.now (negsuc 0) right.now) }
{
    let one = left.as_slice();
    let other = right.as_slice();
    let made = plus_times(alloc, reach, one, -1, other)?;
    Ok(made)
}

/// The times at which a comparison of two sums holds: where their difference compares so with 0.
pub(crate) fn times_compared(
    alloc: Global,
    sources: &Sources,
    left: &RuleSum,
    how: &Comparison,
    right: &RuleSum,
) -> Result<Windows, OutOfMemory>
    requires sources { AreSources sources.now }
    requires left { IsTrue (is_sum sources.now.model.now left.now) }
    requires right { IsTrue (is_sum sources.now.model.now right.now) }
    ensures reach { IfOk result (λ made. made.reach ≡ sources.now.run.now.reach) }
    ensures times { IfOk result (HasTimes (compared_over sources.now left.now how.now right.now)) }
{
    let one = sum_segments(alloc, sources, left)?;
    let other = sum_segments(alloc, sources, right)?;
    let difference = difference_of(alloc, sources.run.reach, &one, &other)?;
    let pieces = difference.as_slice();
    let made = Windows::where_linear(alloc, sources.run.reach, pieces, *how, 0)?;
    Ok(made)
}
