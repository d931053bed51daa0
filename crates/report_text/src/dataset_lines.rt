//! How datasets are written.

ghost use Rattle.std.specs.Prelude.{◌≡◌, ◌++◌, OnOk, codes};
ghost use Rattle.serde_json.specs.Data.{string};
ghost use Rattle.json_line.specs.Parts.{data_tokens, member_if_tokens, member_tokens};
ghost use Rattle.report_text.specs.DatasetLines.{dataset_data, datasets_data, kind_word, series_data, truth_entry_data, whole_entry_data};
ghost use Rattle.report_text.specs.Details.{if_told};

use crate::alone::Alone;
use crate::named_datasets::all_datasets;
use crate::wordings::Wording;
use aerie_base::{Name, Number, OutOfMemory, Shared, Time, Value};
use constraints::Constraint;
use dataset_in::Series;
use json_line::{JsonIn, JsonLine};

impl<'a> JsonIn<Wording<'a>> for (Time, bool) {
    ghost data_in = { λ model entry. truth_entry_data model.enums entry };

    fn write_in(&self, wording: &Wording<'a>, line: &mut JsonLine) -> Result<(), OutOfMemory> {
        (self.0, Value::Truth(self.1)).write_in(wording, line)
    }
}

impl<'a> JsonIn<Wording<'a>> for (Time, Number) {
    ghost data_in = { λ model entry. whole_entry_data model.enums entry };

    fn write_in(&self, wording: &Wording<'a>, line: &mut JsonLine) -> Result<(), OutOfMemory> {
        (self.0, Value::Int(self.1)).write_in(wording, line)
    }
}

/// The segments of a dataset, as profiles have them.
impl<'a> JsonIn<Wording<'a>> for Series {
    ghost data_in = { λ model series. series_data model.enums series };

    fn write_in(&self, wording: &Wording<'a>, line: &mut JsonLine) -> Result<(), OutOfMemory> {
        match self {
            Series::Truth(entries) => line.list_in(wording, entries.as_slice()),
            Series::Whole(entries) => line.list_in(wording, entries.as_slice()),
            Series::Linear(segments) => line.list_in(wording, segments.as_slice()),
        }
    }
}

/// The word of a kind of datasets.
fn kind_word(series: &Series) -> &'static str
    ensures { result.now ≡ kind_word series.now }
{
    match series {
        Series::Truth(_) => "truth",
        Series::Whole(_) => "whole",
        Series::Linear(_) => "linear",
    }
}

/// A dataset by its name.
impl JsonIn<Alone> for (Name, Shared<Series>) {
    ghost data_in = { λ _ dataset. string dataset.0 };

    fn write_in(&self, _alone: &Alone, line: &mut JsonLine) -> Result<(), OutOfMemory> {
        line.text(self.0.as_str())
    }
}

/// A dataset with its name.
fn write_dataset<'a>(
    line: &mut JsonLine,
    wording: &Wording<'a>,
    name: &Name,
    series: &Series,
) -> Result<(), OutOfMemory>
    ensures { OnOk result (line.new ≡ line.old ++ data_tokens (dataset_data wording.now.enums (name.now, series.now))) }
{
    line.begin_object()?;
    line.text_member("kind", kind_word(series))?;
    line.member("name", name)?;
    line.member_in("segments", wording, series)?;
    line.end_object()
}

/// A dataset with what it says.
impl<'a> JsonIn<Wording<'a>> for (Name, Shared<Series>) {
    ghost data_in = { λ model dataset. dataset_data model.enums dataset };

    fn write_in(&self, wording: &Wording<'a>, line: &mut JsonLine) -> Result<(), OutOfMemory> {
        write_dataset(line, wording, &self.0, self.1.get())
    }
}

/// The datasets that constraints name, by their name.
#[tactic(auto, unfolding(json_line::specs::Parts::member_tokens))]
fn write_datasets_member<'a>(
    line: &mut JsonLine,
    wording: &Wording<'a>,
    constraints: &[Constraint],
) -> Result<(), OutOfMemory>
    ensures { OnOk result (line.new ≡ line.old ++ member_tokens (codes "datasets") (datasets_data wording.now.enums constraints.now)) }
{
    let datasets = all_datasets(wording.alloc(), constraints)?;
    line.key("datasets")?;
    line.list_in(wording, datasets.as_slice())
}

/// The same where it is told.
#[tactic(auto, unfolding(json_line::specs::Parts::member_if_tokens))]
pub(crate) fn write_datasets_told<'a>(
    line: &mut JsonLine,
    told: bool,
    wording: &Wording<'a>,
    constraints: &[Constraint],
) -> Result<(), OutOfMemory>
    ensures { OnOk result (line.new ≡ line.old ++ member_if_tokens (codes "datasets") (if_told told (datasets_data wording.now.enums constraints.now))) }
{
    if told {
        return write_datasets_member(line, wording, constraints);
    }
    Ok(())
}
