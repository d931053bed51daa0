//! Datasets are read.

ghost use Rattle.std.specs.Prelude.{◌≤◌, IfOk, length, map};
ghost use Rattle.serde_json.specs.View.{view};
ghost use Rattle.aerie_base.specs.UnlessMemory.{UnlessMemory};
ghost use Rattle.dataset_in.specs.Datasets.{dataset_of, kind_and_rows, form_answer, most_segments, ran_out, series_of};
ghost use Rattle.dataset_in.specs.Series.{IsSeries};

use crate::dataset_error::DatasetError;
use crate::entries::entries;
use crate::forms::{SeriesKind, dataset_form};
use crate::series::Series;
use serde_json::Value;
use std::alloc::Global;

/// The most segments that a dataset may have.
const MOST_SEGMENTS: usize = 10_000;

/// Reads a dataset: the JSON object `{"kind":K,"segments":[..]}` with these two members alone, where K is `"truth"` with
/// segments `[from,truth]`, `"whole"` with `[from,value]`, or `"linear"` with `[from,value,rate]`. Times are in
/// microseconds from 0 to 10^15, values from -10^18 to 10^18, rates from -10^12 to 10^12 a microsecond. It takes time
/// linear in the text.
pub fn read_dataset(alloc: Global, text: &str) -> Result<Series, DatasetError>
    ensures exact { UnlessMemory ran_out (dataset_of text.now) result }
    ensures series { IfOk result IsSeries }
{
    match Value::from_str(alloc, text) {
        Ok(dataset) => answer_form(alloc, &dataset),
        Err(error) if error.is_memory() => Err(DatasetError::OutOfMemory),
        Err(_) => Err(DatasetError::NotADataset),
    }
}

/// The series that JSON says, or why it says none.
fn answer_form(alloc: Global, dataset: &Value) -> Result<Series, DatasetError>
    ensures { UnlessMemory ran_out (form_answer (kind_and_rows (view dataset.now))) result }
{
    let (kind, rows) = match dataset_form(dataset) {
        Some(form) => form,
        None => return Err(DatasetError::NotADataset),
    };
    if MOST_SEGMENTS < rows.len() {
        return Err(DatasetError::TooMany);
    }
    series_of(alloc, kind, rows)
}

/// The series of the segments.
fn series_of(alloc: Global, kind: SeriesKind, rows: &[Value]) -> Result<Series, DatasetError>
    requires { length rows.now ≤ most_segments }
    ensures { UnlessMemory ran_out (series_of kind (map view rows.now)) result }
{
    match kind {
        SeriesKind::Truth => Ok(Series::Truth(entries(alloc, rows)?)),
        SeriesKind::Whole => Ok(Series::Whole(entries(alloc, rows)?)),
        SeriesKind::Linear => Ok(Series::Linear(entries(alloc, rows)?)),
    }
}
