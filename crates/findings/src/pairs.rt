//! Where intervals begin, which spans meet there.

ghost use Rattle.std.specs.Prelude.{◌≡◌, ◌≤◌, ◌++◌, [], ◌∷◌, if◌then◌else◌, length, map, take, IfOk, OnOk, Some};
ghost use Rattle.constraints.specs.Meeting.{ByStart};
ghost use Rattle.run_data.specs.Spans.{spans_of};
ghost use Rattle.span_table.specs.AsDefined.{defined_span};
ghost use Rattle.span_table.specs.SpanLaws.{AreSpansOf};
ghost use Rattle.findings.specs.MeetingPairs.{is_less, least_beside, least_pair, lesser_pair, pair_at, pair_before, paired_intervals, pairs_of, pairs_with, paths_on};
ghost use Rattle.findings.specs.PairSweep.{IsSweptUntil, IsSwept, Rising, StopsAt, ending_after, ends_after, lasting_of, none_yet, paths_begun, still_lasting};

use aerie_base::{List, Model, OutOfMemory, Path, Time};
use run_data::Run;
use span_table::Span;
use std::alloc::Global;
use std::cmp::Ordering;
use windows::Windows;

/// An interval of time with two spans that meet at its beginning.
#[derive(Debug, Drop)]
pub struct PairedInterval {
    /// Its beginning, in microseconds from the start of the plan.
    pub from: Time,
    /// Its end, which is not in it.
    pub to: Time,
    /// The paths of the spans, if any meet.
    pub pair: Option<(Path, Path)>,
}

/// A span as long as it may last.
#[derive(Drop)]
struct Lasting {
    path: Path,
    start: Time,
    end: Time,
}

/// Of the first so many spans those of a type that end after a time.
#[derive(Drop)]
struct LastingOfType {
    kind: u16,
    until: Time,
    next: usize,
    lasting: List<Lasting>,
}

/// What is kept of a span.
fn lasting_of(alloc: Global, span: &Span, reach: Time) -> Result<Lasting, OutOfMemory>
    ensures { IfOk result (λ one. one ≡ lasting_of reach (defined_span span.now)) }
{
    Ok(Lasting {
        path: span.path.copy(alloc)?,
        start: span.start,
        end: span.end.unwrap_or(reach),
    })
}

/// Whether a span is of a type and ends after a time.
fn ends_after(span: &Span, kind: u16, reach: Time, t: Time) -> bool
    ensures { result ≡ ends_after reach kind t (defined_span span.now) }
{
    span.kind == kind && t.is_before(span.end.unwrap_or(reach))
}

/// Those that end after a time.
fn still_lasting(alloc: Global, lasting: &[Lasting], t: Time) -> Result<List<Lasting>, OutOfMemory>
    ensures { IfOk result (λ still. still ≡ still_lasting t lasting.now) }
{
    let mut still = List::new(alloc);
    for one in lasting {
        if t.is_before(one.end) {
            still.push(Lasting {
                path: one.path.copy(alloc)?,
                start: one.start,
                end: one.end,
            })?;
        }
    }
    Ok(still)
}

/// A span more, if it is of the type and ends after a time.
fn put_lasting(
    alloc: Global,
    lasting: &mut List<Lasting>,
    span: &Span,
    kind: u16,
    reach: Time,
    t: Time,
) -> Result<(), OutOfMemory>
    ensures { OnOk result (lasting.new ≡ lasting.old ++ ending_after reach kind t (defined_span span.now ∷ [])) }
{
    if ends_after(span, kind, reach, t) {
        lasting.push(lasting_of(alloc, span, reach)?)?;
    }
    Ok(())
}

/// With the spans from a number on, up to the first that starts after a time.
fn begin_until(
    alloc: Global,
    lasting: &mut List<Lasting>,
    spans: &[Span],
    from: usize,
    kind: u16,
    reach: Time,
    t: Time,
) -> Result<usize, OutOfMemory>
    requires within { from ≤ length spans.now }
    requires lasting { lasting.old ≡ ending_after reach kind t (map defined_span (take from spans.now)) }
    ensures { IfOk result (λ next. IsSweptUntil reach kind t spans.now next lasting.new) }
{
    for number in from..spans.len() {
        let span = &spans[number];
        if t.is_before(span.start) {
            return Ok(number);
        }
        put_lasting(alloc, lasting, span, kind, reach, t)?;
    }
    Ok(spans.len())
}

/// The spans of a type that end after a time, by those at a time that is no later.
fn advanced(
    alloc: Global,
    swept: &LastingOfType,
    spans: &[Span],
    reach: Time,
    t: Time,
) -> Result<LastingOfType, OutOfMemory>
    requires swept { IsSwept reach spans.now swept.now }
    requires later { swept.now.until ≤ t }
    ensures kept { IfOk result (IsSwept reach spans.now) }
    ensures kind { IfOk result (λ made. made.kind ≡ swept.now.kind) }
    ensures until { IfOk result (λ made. made.until ≡ t) }
    ensures stops { IfOk result (λ made. StopsAt t made.next spans.now) }
{
    let mut lasting = still_lasting(alloc, swept.lasting.as_slice(), t)?;
    let next = begin_until(alloc, &mut lasting, spans, swept.next, swept.kind, reach, t)?;
    Ok(LastingOfType {
        kind: swept.kind,
        until: t,
        next,
        lasting,
    })
}

/// The paths of those that have begun.
fn paths_begun(alloc: Global, lasting: &[Lasting], t: Time) -> Result<List<Path>, OutOfMemory>
    ensures { IfOk result (λ paths. paths ≡ paths_begun t lasting.now) }
{
    let mut paths = List::new(alloc);
    for one in lasting {
        if one.start.is_by(t) {
            paths.push(one.path.copy(alloc)?)?;
        }
    }
    Ok(paths)
}

/// The paths of the spans of a type that cover a time.
fn paths_on(
    alloc: Global,
    spans: &[Span],
    swept: &LastingOfType,
    reach: Time,
    t: Time,
) -> Result<List<Path>, OutOfMemory>
    requires order { ByStart (map defined_span spans.now) }
    requires kept { IsSwept reach spans.now swept.now }
    requires until { swept.now.until ≡ t }
    requires stops { StopsAt t swept.now.next spans.now }
    ensures { IfOk result (λ paths. paths ≡ paths_on reach swept.now.kind t (map defined_span spans.now)) }
{
    let _ = spans;
    let _ = reach;
    paths_begun(alloc, swept.lasting.as_slice(), t)
}

/// Whether two paths are less than a pair, by the first and then by the second.
fn is_before(one: &Path, other: &Path, pair: &(Path, Path)) -> bool
    ensures { result ≡ pair_before (one.now, other.now) pair.now }
{
    match one.cmp(&pair.0) {
        Ordering::Less => true,
        Ordering::Equal => is_less(other.cmp(&pair.1)),
        Ordering::Greater => false,
    }
}

/// Whether an order is of a less one and a greater one.
fn is_less(order: Ordering) -> bool
    ensures { result ≡ is_less order }
{
    match order {
        Ordering::Less => true,
        Ordering::Equal | Ordering::Greater => false,
    }
}

/// Whether two paths are less than the least pair so far, if any.
fn is_lesser(one: &Path, other: &Path, least: &Option<(Path, Path)>) -> bool
    ensures { lesser_pair least.now (one.now, other.now)
        ≡ (if result then Some (one.now, other.now) else least.now) }
{
    match least {
        Some(pair) => is_before(one, other, pair),
        None => true,
    }
}

/// The lesser of the least pair so far and these.
fn take_lesser(
    alloc: Global,
    least: &mut Option<(Path, Path)>,
    one: &Path,
    other: &Path,
) -> Result<(), OutOfMemory>
    ensures { OnOk result (least.new ≡ lesser_pair least.old (one.now, other.now)) }
{
    if is_lesser(one, other, least) {
        *least = Some((one.copy(alloc)?, other.copy(alloc)?));
    }
    Ok(())
}

/// The least of the pair so far and of those of a path with each of these that is another one.
fn take_pairs_with(
    alloc: Global,
    least: &mut Option<(Path, Path)>,
    one: &Path,
    others: &[Path],
) -> Result<(), OutOfMemory>
    ensures { OnOk result (least.new ≡ least_beside least.old (pairs_with one.now others.now)) }
{
    for other in others {
        if one != other {
            take_lesser(alloc, least, one, other)?;
        }
    }
    Ok(())
}

/// The least pair of one of the first and another one of the second.
fn least_pair(
    alloc: Global,
    ones: &[Path],
    others: &[Path],
) -> Result<Option<(Path, Path)>, OutOfMemory>
    ensures { IfOk result (λ pair. pair ≡ least_pair (pairs_of ones.now others.now)) }
{
    let mut least = None;
    for one in ones {
        take_pairs_with(alloc, &mut least, one, others)?;
    }
    Ok(least)
}

/// The least pair of a span of the one type and another span of the other type that both cover a time.
fn pair_at(
    alloc: Global,
    spans: &[Span],
    one: &LastingOfType,
    other: &LastingOfType,
    reach: Time,
    t: Time,
) -> Result<Option<(Path, Path)>, OutOfMemory>
    requires order { ByStart (map defined_span spans.now) }
    requires one { IsSwept reach spans.now one.now }
    requires one_until { one.now.until ≡ t }
    requires one_stops { StopsAt t one.now.next spans.now }
    requires other { IsSwept reach spans.now other.now }
    requires other_until { other.now.until ≡ t }
    requires other_stops { StopsAt t other.now.next spans.now }
    ensures { IfOk result (λ pair.
        pair ≡ pair_at reach one.now.kind other.now.kind (map defined_span spans.now) t) }
{
    let ones = paths_on(alloc, spans, one, reach, t)?;
    let others = paths_on(alloc, spans, other, reach, t)?;
    least_pair(alloc, ones.as_slice(), others.as_slice())
}

/// Those of a type before any span.
fn none_yet(alloc: Global, kind: u16) -> LastingOfType
    ensures { result ≡ none_yet kind }
{
    LastingOfType {
        kind,
        until: Time::zero(),
        next: 0,
        lasting: List::new(alloc),
    }
}

/// Intervals in order, each with the pair at its beginning, over spans that stand by their starts.
fn swept_intervals(
    alloc: Global,
    spans: &[Span],
    first: u16,
    second: u16,
    reach: Time,
    intervals: &[(Time, Time)],
) -> Result<List<PairedInterval>, OutOfMemory>
    requires order { ByStart (map defined_span spans.now) }
    requires rising { Rising 0 intervals.now }
    ensures { IfOk result (λ made.
        made ≡ paired_intervals reach first second (map defined_span spans.now) intervals.now) }
{
    let mut made = List::with_capacity(alloc, intervals.len())?;
    let mut one = none_yet(alloc, first);
    let mut other = none_yet(alloc, second);
    for interval in intervals {
        let t = interval.0;
        one = advanced(alloc, &one, spans, reach, t)?;
        other = advanced(alloc, &other, spans, reach, t)?;
        let pair = pair_at(alloc, spans, &one, &other, reach, t)?;
        made.push(PairedInterval {
            from: t,
            to: interval.1,
            pair,
        })?;
    }
    Ok(made)
}

/// The intervals of a set of times, each with the least pair of a span of the one type and another span of the other type that
/// both cover its beginning. It goes once over the spans of the run for each type, and for each interval over those that last
/// there and over the pairs that meet.
pub fn paired_intervals(
    alloc: Global,
    model: &Model,
    run: &Run,
    spans: &[Span],
    types: (u16, u16),
    times: &Windows,
) -> Result<List<PairedInterval>, OutOfMemory>
    requires spans { AreSpansOf model.now run.now spans.now }
    ensures { IfOk result (λ made. made
        ≡ paired_intervals run.now.reach types.0 types.1 (spans_of model.now run.now) times.now.intervals) }
{
    let _ = model;
    let intervals = times.intervals();
    swept_intervals(alloc, spans, types.0, types.1, run.reach, intervals)
}
