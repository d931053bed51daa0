//! The segments of a dataset.

ghost use Rattle.std.specs.Prelude.{◌≡◌, ◌≤◌, length, map};
ghost use Rattle.serde_json.specs.View.{view};
ghost use Rattle.aerie_base.specs.UnlessMemory.{UnlessMemory};
ghost use Rattle.dataset_in.specs.Datasets.{entries_of, follows, most_segments, next_entry as next_by, number_part, ran_out, rate_part, time_part, truth_part, whole_part};

use crate::dataset_error::DatasetError;
use aerie_base::{List, Number, RATE_LIMIT, Time};
use serde_json::Value;
use std::alloc::Global;
use windows::{Begins, Segment};

/// A segment as it stands in a dataset.
pub(crate) trait Entry: Sized {
    ghost use Rattle.std.specs.Prelude.{Option};
    ghost use Rattle.serde_json.specs.Data.{Data};

    /// The segment of these parts, where they are of their kinds and ranges.
    ghost entry: { Data → Option Self };

    /// The segment of these parts.
    fn read(row: &Value) -> Option<Self>
        ensures { result ≡ entry (view row.now) };
}

impl Entry for (Time, bool) {
    ghost use Rattle.dataset_in.specs.Datasets.{truth_entry};

    ghost entry = { truth_entry };

    fn read(row: &Value) -> Option<(Time, bool)> {
        let from = time_part(row, 0)?;
        let truth = truth_part(row, 1)?;
        Some((from, truth))
    }
}

impl Entry for (Time, Number) {
    ghost use Rattle.dataset_in.specs.Datasets.{whole_entry};

    ghost entry = { whole_entry };

    fn read(row: &Value) -> Option<(Time, Number)> {
        let from = time_part(row, 0)?;
        let value = number_part(row, 1)?;
        Some((from, value))
    }
}

impl Entry for Segment {
    ghost use Rattle.dataset_in.specs.Datasets.{linear_entry};

    ghost entry = { linear_entry };

    fn read(row: &Value) -> Option<Segment> {
        let from = time_part(row, 0)?;
        let value = i128::from(number_part(row, 1)?.get());
        let rate = i128::from(rate_part(row, 2)?);
        Some(Segment { from, value, rate })
    }
}

/// The segments of the rows, or the number of the first row that is none where it stands.
pub(crate) fn entries<E: Entry + Begins + Drop>(
    alloc: Global,
    rows: &[Value],
) -> Result<List<E>, DatasetError>
    requires { length rows.now ≤ most_segments }
    ensures { UnlessMemory ran_out (entries_of E.entry E.from (map view rows.now)) result }
{
    if rows.is_empty() {
        return Err(DatasetError::BadSegment { number: 0 });
    }
    let mut entries = List::with_capacity(alloc, rows.len())?;
    let mut last = None;
    for number in 0..rows.len() {
        match next_entry::<E>(last, &rows[number]) {
            Some(entry) => {
                last = Some(entry.start());
                entries.push(entry)?;
            }
            None => {
                return Err(DatasetError::BadSegment {
                    number: number as u32,
                });
            }
        }
    }
    Ok(entries)
}

/// The segment of a row, where it may stand behind one that begins at `last`.
fn next_entry<E: Entry + Begins + Drop>(last: Option<Time>, row: &Value) -> Option<E>
    ensures { result ≡ next_by E.entry E.from last (view row.now) }
{
    let entry = E::read(row)?;
    if follows(last, entry.start()) {
        Some(entry)
    } else {
        None
    }
}

/// Whether a segment that begins at `from` may stand behind one that begins at `last`.
fn follows(last: Option<Time>, from: Time) -> bool
    ensures { result ≡ follows last from }
{
    match last {
        Some(last) => last.is_before(from),
        None => from.get() == 0,
    }
}

/// A part that is a whole number.
fn whole_part(row: &Value, position: usize) -> Option<i64>
    ensures { result ≡ whole_part position (view row.now) }
{
    row.get(position)?.as_i64()
}

/// A part that is a time.
fn time_part(row: &Value, position: usize) -> Option<Time>
    ensures { result ≡ time_part position (view row.now) }
{
    Time::new(whole_part(row, position)?)
}

/// A part that is a number of a model.
fn number_part(row: &Value, position: usize) -> Option<Number>
    ensures { result ≡ number_part position (view row.now) }
{
    Number::new(whole_part(row, position)?)
}

/// A part that is a rate.
fn rate_part(row: &Value, position: usize) -> Option<i64>
    ensures { result ≡ rate_part position (view row.now) }
{
    let rate = whole_part(row, position)?;
    if rate < -RATE_LIMIT || RATE_LIMIT < rate {
        return None;
    }
    Some(rate)
}

/// A part that is a truth.
fn truth_part(row: &Value, position: usize) -> Option<bool>
    ensures { result ≡ truth_part position (view row.now) }
{
    row.get(position)?.as_bool()
}
