//! Sums over time, as straight pieces.

ghost use Rattle.std.specs.Prelude.{◌≡◌, ℕ, ◌+◌, ◌-◌, ◌<◌, ◌≤◌, ◌^◌, drop, length, min, pos, ◌+ℤ◌, ◌*ℤ◌, nat_le, nat_lt, if◌then◌else◌, IfOk};
ghost use Rattle.std.specs.Int.RustNames.{unsigned_abs};
ghost use Rattle.constraints.specs.Pieces.{CanBeAdded, IsAdded};
ghost use Rattle.constraints.specs.SumPieces.{HasMore, MayBeAdded};
ghost use Rattle.windows.specs.Linear.{AreSegments, IsSum, first_start, segment_value, segments_value};

use aerie_base::{List, OutOfMemory, Time};
use std::alloc::Global;
use windows::{Segment, end_of};

/// So many times the one number, and the other.
fn sum_with(number: i128, coefficient: i64, more: i128) -> i128
    requires number { unsigned_abs number < 2 ^ 121 }
    requires product { unsigned_abs (coefficient *ℤ more) < 2 ^ 121 }
    ensures { result ≡ number +ℤ coefficient *ℤ more }
{
    number + i128::from(coefficient) * more
}

/// The rate of a piece, where it counts; else 0.
fn rate_if(counts: bool, segment: &Segment) -> i128
    ensures { result ≡ (if counts then segment.now.rate else pos 0) }
{
    if counts { segment.rate } else { 0 }
}

/// Whether there is more than one microsecond from the one time to the other.
fn is_longer(from: Time, end: Time) -> bool
    requires { from < end }
    ensures { result ≡ nat_lt (from + 1) end }
{
    from.get() + 1 < end.get()
}

/// So many times the one piece and the other one, from a time up to an end.
fn added(sum: &Segment, coefficient: i64, more: &Segment, from: Time, end: Time) -> Segment
    requires { CanBeAdded sum.now coefficient more.now from end }
    ensures { IsAdded sum.now coefficient more.now from end result }
{
    let here = sum.value_at(from);
    let there = more.value_at(from);
    let value = sum_with(here, coefficient, there);
    // of a piece of one microsecond the rate does not count
    let counts = is_longer(from, end);
    let rate_here = rate_if(counts, sum);
    let rate_there = rate_if(counts, more);
    let rate = sum_with(rate_here, coefficient, rate_there);
    Segment { from, value, rate }
}

/// The place behind this one, if it is over.
fn place_behind(at: usize, is_over: bool) -> usize
    requires { at + 1 < 2 ^ 64 }
    ensures { result ≡ (if is_over then at + 1 else at) }
{
    if is_over { at + 1 } else { at }
}

/// The sum and so many times some more, piece by piece. It takes steps as both have pieces.
pub(crate) fn plus_times(
    alloc: Global,
    reach: Time,
    sum: &[Segment],
    coefficient: i64,
    segments: &[Segment],
) -> Result<List<Segment>, OutOfMemory>
    requires sum { AreSegments reach sum.now }
    requires segments { AreSegments reach segments.now }
    requires product { (t : ℕ) → t < reach → IsSum (coefficient *ℤ segments_value segments.now t) }
    requires total { MayBeAdded reach sum.now coefficient segments.now }
    ensures form { IfOk result (λ made. AreSegments reach made) }
    ensures values { IfOk result (HasMore reach sum.now coefficient segments.now) }
{
    let mut made = List::new(alloc);
    let (mut at_sum, mut at_more) = (0, 0);
    let mut from = Time::zero();
    while at_sum < sum.len() && at_more < segments.len() {
        let one = sum[at_sum];
        let more = segments[at_more];
        let end_one = end_of(reach, sum, at_sum);
        let end_more = end_of(reach, segments, at_more);
        let end = end_one.earlier(end_more);
        let piece = added(&one, coefficient, &more, from, end);
        made.push(piece)?;
        let over_one = end_one.is_by(end);
        let over_more = end_more.is_by(end);
        at_sum = place_behind(at_sum, over_one);
        at_more = place_behind(at_more, over_more);
        from = end;
    }
    Ok(made)
}

/// A number that stays, as one straight piece; none where the reach is 0.
pub(crate) fn constant_segments(
    alloc: Global,
    reach: Time,
    constant: i128,
) -> Result<List<Segment>, OutOfMemory>
    requires { IsSum constant }
    ensures form { IfOk result (λ made. AreSegments reach made) }
    ensures values { IfOk result (λ made. (t : ℕ) → t < reach → segments_value made t ≡ constant) }
{
    let from = Time::zero();
    let mut made = List::new(alloc);
    if from.get() < reach.get() {
        made.push(Segment {
            from,
            value: constant,
            rate: 0,
        })?;
    }
    Ok(made)
}
