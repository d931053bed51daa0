//! The first gap of each kind of goal.

ghost use Rattle.std.specs.Prelude.{◌≡◌, ◌+◌, pos, ◌+ℤ◌, nat_lt};
ghost use Rattle.goals.specs.Gaps.{lies_in_range, is_beside, recurrence_gap as first_recurrence_gap, count_within as counted_within, has_start as has_start_by, cardinality_gap as too_few, coexistence_gap as least_without};
ghost use Rattle.goals.specs.Merging.{Rises, begins_by as begins_no_later, from_time as starts_from, merged_gap as gap_by_merge};

use aerie_base::Time;

/// Whether a time is from one time on and before another.
fn is_within(from: Time, to: Time, time: Time) -> bool
    ensures { result ≡ lies_in_range from to time }
{
    from.get() <= time.get() && time.get() < to.get()
}

/// Whether a point is followed more than so much later.
fn is_far(every: Time, point: Time, next: Time) -> bool
    ensures { result ≡ nat_lt (point + every) next }
{
    next.get() - point.get() > every.get()
}

/// The first point that is followed more than so much later: the range's first time, the starts within it and its end are the
/// points. The starts rise.
pub(crate) fn recurrence_gap(every: Time, from: Time, to: Time, starts: &[Time]) -> Option<Time>
    ensures { result ≡ first_recurrence_gap every from to starts.now }
{
    let mut point = from;
    for start in starts {
        if is_within(from, to, *start) {
            if is_far(every, point, *start) {
                return Some(point);
            }
            point = *start;
        }
    }
    if is_far(every, point, to) {
        return Some(point);
    }
    None
}

/// How many of the starts are within the range.
pub(crate) fn count_within(from: Time, to: Time, starts: &[Time]) -> usize
    ensures { result ≡ counted_within from to starts.now }
{
    let mut count = 0;
    for start in starts {
        if is_within(from, to, *start) {
            count += 1;
        }
    }
    count
}

/// How many of the starts are within the range, where those are fewer than are wanted.
pub(crate) fn cardinality_gap(count: u32, from: Time, to: Time, starts: &[Time]) -> Option<u32>
    ensures { result ≡ too_few count from to starts.now }
{
    let found = count_within(from, to, starts);
    if found < count as usize {
        return Some(found as u32);
    }
    None
}

/// Those of the starts, which rise, that are no earlier than a time.
fn from_time(starts: &[Time], earliest: i128) -> &[Time]
    ensures { result.now ≡ starts_from earliest starts.now }
{
    let mut at = 0;
    while at < starts.len() && i128::from(starts[at].get()) < earliest {
        at += 1;
    }
    &starts[at..]
}

/// Whether the first of the starts, if there is one, is no later than a time.
fn begins_by(starts: &[Time], latest: i128) -> bool
    ensures { result ≡ begins_no_later latest starts.now }
{
    match starts.first() {
        Some(start) => i128::from(start.get()) <= latest,
        None => false,
    }
}

/// Which starts are beside an anchor.
#[derive(Clone, Copy)]
pub(crate) struct StartRange {
    /// How long after the anchor they are at the earliest, in microseconds.
    pub(crate) from: i64,
    /// How long after the anchor they are at the latest, in microseconds.
    pub(crate) to: i64,
}

impl StartRange {
    /// When a start is beside the anchor at the earliest.
    fn earliest(&self, anchor: Time) -> i128
        ensures { result ≡ pos anchor +ℤ self.now.from }
    {
        i128::from(anchor.get()) + i128::from(self.from)
    }

    /// When a start is beside the anchor at the latest.
    fn latest(&self, anchor: Time) -> i128
        ensures { result ≡ pos anchor +ℤ self.now.to }
    {
        i128::from(anchor.get()) + i128::from(self.to)
    }

    /// Whether a start is beside the anchor.
    fn admits(&self, anchor: Time, start: Time) -> bool
        ensures { result ≡ is_beside self.now.from self.now.to anchor start }
    {
        let start = i128::from(start.get());
        self.earliest(anchor) <= start && start <= self.latest(anchor)
    }
}

/// The first anchor that has no start beside it: one merge of anchors and starts, which both rise.
fn merged_gap(range: &StartRange, starts: &[Time], anchors: &[Time]) -> Option<Time>
    ensures { result ≡ gap_by_merge range.now.from range.now.to starts.now anchors.now }
{
    let mut left = starts;
    for anchor in anchors {
        left = from_time(left, range.earliest(*anchor));
        if !begins_by(left, range.latest(*anchor)) {
            return Some(*anchor);
        }
    }
    None
}

/// The least anchor that has no start beside it, of anchors and starts that rise. It takes steps as there are anchors and
/// starts.
#[tactic(auto, using(crate::proofs::MergedGaps::merged))]
pub(crate) fn coexistence_gap(range: &StartRange, starts: &[Time], anchors: &[Time]) -> Option<Time>
    requires starts { Rises starts.now }
    requires anchors { Rises anchors.now }
    ensures { result ≡ least_without range.now.from range.now.to starts.now anchors.now }
{
    merged_gap(range, starts, anchors)
}

/// Whether some of the starts is beside the anchor.
pub(crate) fn has_start(range: &StartRange, starts: &[Time], anchor: Time) -> bool
    ensures { result ≡ has_start_by range.now.from range.now.to starts.now anchor }
{
    for start in starts {
        if range.admits(anchor, *start) {
            return true;
        }
    }
    false
}
